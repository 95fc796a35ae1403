//! The words of filled cycles of all slots in use.
ghost use Rattle.std.specs.Prelude.{◌≡◌, ◌==◌, ◌&&◌, ℕ, [], is_some, IsTrue, OnOk, if◌then◌else◌};
ghost use Rattle.fr_world.specs.Masks.{has_words, words_at};

use crate::filled_cycles::{FilledCycles, NONE_FILLED};
use fr_base::{NoMemory, Slot};
use std::alloc::Global;
use std::collections::BTreeMap;

/// For each slot that was ever used, the cycles in which it is filled.
#[derive(Drop)]
pub(crate) struct Masks {
    slots: BTreeMap<Slot, FilledCycles>,
}

impl Clone for Masks {
    ghost use Rattle.std.specs.Prelude.{◌≡◌};

    ghost is_clone = { λ m n. n.slots.entries ≡ m.slots.entries };

    fn clone(&self) -> Result<Masks, NoMemory> {
        Ok(Masks {
            slots: self.slots.clone()?,
        })
    }
}

impl Masks {
    /// No slot is used. It takes no memory.
    pub(crate) fn new(alloc: Global) -> Masks
        ensures { result.slots.entries ≡ [] }
    {
        Masks {
            slots: BTreeMap::new(alloc),
        }
    }

    /// The cycles in which the slot is filled.
    pub(crate) fn of(&self, slot: Slot) -> FilledCycles
        ensures { result ≡ words_at self.now.slots.entries slot }
    {
        self.slots.get(&slot).copied().unwrap_or(NONE_FILLED)
    }

    /// Makes room for the slot's words. It changes no filled cycle, also where memory is refused.
    pub(crate) fn make_room(&mut self, slot: Slot) -> Result<(), NoMemory>
        ensures same { (s : ℕ)
            → words_at self.new.slots.entries s ≡ words_at self.old.slots.entries s }
        ensures there { OnOk result (IsTrue (has_words self.new.slots.entries slot)) }
    {
        if !self.slots.contains_key(&slot) {
            self.slots.insert(slot, NONE_FILLED)?;
        }
        Ok(())
    }

    /// Fills the slot in these cycles and no others, if there is room for its words.
    pub(crate) fn put(&mut self, slot: Slot, filled: FilledCycles)
        ensures { (s : ℕ)
            → words_at self.new.slots.entries s
            ≡ (if (slot == s) && has_words self.old.slots.entries slot then filled else words_at
            self.old.slots.entries s) }
    {
        if let Some(there) = self.slots.get_mut(&slot) {
            *there = filled;
        }
    }
}
