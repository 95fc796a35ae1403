//! Which slots are held, used or changed, and what is shown at the place of each slot.
ghost use Rattle.std.specs.Prelude.{◌≡◌, ℕ, ◌+◌, ◌<◌, Bool, false, ◌||◌, nat_eq, slice_index_or, IfOk};
ghost use Rattle.std.specs.List.{list_any};
ghost use Rattle.std.specs.Vec.{vec_len};
ghost use Rattle.fr_picture.specs.Changes.{is_of_slot};
ghost use Rattle.fr_picture.specs.Places.{is_gap, is_slot};
ghost use Rattle.fr_picture.specs.Shown.{first_free, is_used, shown_of, shows_at};

use crate::changes::slot_of;
use fr_base::{DifferenceRow, GrantRow, NoMemory, Sending, Slot};
use std::alloc::Global;

/// What is shown at a slot's place.
#[derive(Clone, Copy)]
pub enum Shows {
    /// Nothing: the place is inside a gap.
    Nothing,
    /// The lane of this slot.
    Slot(u32),
    /// A gap: from its first slot to its last, which nobody holds or uses.
    Gap(u32, u32),
}

impl Shows {
    /// Whether it is a slot's lane.
    #[tactic(auto, unfolding(crate::specs::Places::is_slot))]
    pub(crate) fn is_slot(&self) -> bool
        ensures { result ≡ is_slot self.now }
    {
        matches!(self, Shows::Slot(_))
    }

    /// Whether it is a gap.
    #[tactic(auto, unfolding(crate::specs::Places::is_gap))]
    pub(crate) fn is_gap(&self) -> bool
        ensures { result ≡ is_gap self.now }
    {
        matches!(self, Shows::Gap(_, _))
    }
}

/// For each slot's number whether it is held, used or changed.
#[derive(Drop)]
pub(crate) struct Marks([bool; 1025]);

impl Marks {
    /// Which slots are held or used, or have a change.
    #[tactic(auto, unfolding(crate::specs::Shown::is_used))]
    pub(crate) fn of(grants: &[GrantRow], cells: &[Sending], changes: &[DifferenceRow]) -> Marks
        ensures { (n : ℕ) → slice_index_or result.0 n false
            ≡ is_used grants.now cells.now changes.now n }
    {
        let mut marks = [false; 1025];
        mark_grants(&mut marks, grants);
        mark_cells(&mut marks, cells);
        mark_changes(&mut marks, changes);
        Marks(marks)
    }

    /// What is shown at the places of the slots 1 to 1,023, where the cluster has so many.
    pub(crate) fn shown(&self, alloc: Global, last: u32) -> Result<Vec<Shows>, NoMemory>
        ensures len { IfOk result (λ shown. vec_len shown ≡ 1023) }
        ensures value { (used : ℕ → Bool) → ((n : ℕ) → slice_index_or self.now.0 n false ≡ used n)
            → IfOk result (λ shown. shown.items ≡ shown_of used last) }
    {
        let mut shown = Vec::new(alloc);
        let mut free: u32 = 1;
        for slot in 1..1024u32 {
            let next = self.shows(last, free, slot);
            if next.is_slot() {
                free = slot + 1;
            }
            shown.push(next)?;
        }
        Ok(shown)
    }

    // What is shown at the place of a slot: the slot, if it is marked; else the gap that ends there, or nothing. The slots
    // from `free` up to this one are not marked, but this one may be.
    #[tactic(auto, unfolding(crate::specs::Shown::shows_at))]
    fn shows(&self, last: u32, free: u32, slot: u32) -> Shows
        requires { slot < 1024 }
        ensures { (used : ℕ → Bool) → ((n : ℕ) → slice_index_or self.now.0 n false ≡ used n)
            → (n : ℕ) → slot ≡ n + 1 → free ≡ first_free used n → result ≡ shows_at used last slot }
    {
        let here = slot as usize;
        if self.0[here] {
            Shows::Slot(slot)
        } else if slot > last || (slot < last && !self.0[here + 1]) {
            Shows::Nothing
        } else {
            Shows::Gap(free, slot)
        }
    }
}

// Marks the slots that are held.
fn mark_grants(marks: &mut [bool; 1025], grants: &[GrantRow])
    ensures { (n : ℕ)
        → slice_index_or marks.new n false
        ≡ (slice_index_or marks.old n false || list_any (λ g. nat_eq g.slot n) grants.now) }
{
    for grant in grants {
        mark(marks, grant.slot);
    }
}

// Marks the slots that are used.
fn mark_cells(marks: &mut [bool; 1025], cells: &[Sending])
    ensures { (n : ℕ)
        → slice_index_or marks.new n false
        ≡ (slice_index_or marks.old n false || list_any (λ s. nat_eq s.slot n) cells.now) }
{
    for cell in cells {
        mark(marks, cell.slot);
    }
}

// Marks the slots of changes that are drawn.
fn mark_changes(marks: &mut [bool; 1025], changes: &[DifferenceRow])
    ensures { (n : ℕ)
        → slice_index_or marks.new n false
        ≡ (slice_index_or marks.old n false || list_any (is_of_slot n) changes.now) }
{
    for change in changes {
        mark_change(marks, change);
    }
}

// Marks the slot of the change, if it is drawn.
#[tactic(auto, using(crate::proofs::MarkLemmas::marked_none))]
fn mark_change(marks: &mut [bool; 1025], change: &DifferenceRow)
    ensures { (n : ℕ)
        → slice_index_or marks.new n false
        ≡ (slice_index_or marks.old n false || is_of_slot n change.now) }
{
    if let Some(slot) = slot_of(&change.row) {
        mark(marks, slot);
    }
}

// Marks the slot.
#[tactic(auto, using(crate::proofs::MarkLemmas::marking))]
fn mark(marks: &mut [bool; 1025], slot: Slot)
    ensures { (n : ℕ)
        → slice_index_or marks.new n false ≡ (slice_index_or marks.old n false || nat_eq slot n) }
{
    marks[slot.get() as usize] = true;
}
