//! The slots in which places of one kind are looked for, each with the fittest that is free there.
ghost use Rattle.std.specs.Prelude.{◌≡◌, ◌++◌, ◌∷◌, [], List, ℕ, IsTrue, OnOk};
ghost use Rattle.fr_base.specs.Cycles.{is_repetition};
ghost use Rattle.fr_base.specs.Fittest.{fittest};
ghost use Rattle.fr_base.specs.declared.name.Name.{Name as NameText};
ghost use Rattle.fr_base.specs.declared.placement.Placement.{Placement as Cells};
ghost use Rattle.fr_world.specs.Proposals.{ShowRooms, renewed_room};

use super::fit::{Kind, RatedPlace, fitter, fittest_in};
use crate::mask_occupancy::MaskOccupancy;
use fr_base::{NoMemory, Params, Placement, Slot};
use std::alloc::Global;

/// A slot, and the fittest place that is free there.
#[derive(Clone, Copy)]
pub(super) struct Room {
    slot: Slot,
    fittest: Option<RatedPlace>,
}

/// Slots in which places of a kind are looked for.
#[derive(Drop)]
pub(super) struct Rooms {
    pub(super) params: Params,
    pub(super) kind: Kind,
    pub(super) rooms: Vec<Room>,
}

impl Rooms {
    /// No slot. It takes no memory.
    pub(super) fn new(alloc: Global, params: Params, kind: Kind) -> Rooms
        ensures params { result.params ≡ params }
        ensures kind { result.kind ≡ kind }
        ensures none { result.rooms.items ≡ [] }
    {
        Rooms {
            params,
            kind,
            rooms: Vec::new(alloc),
        }
    }

    /// The slot too, beside the cells that are filled.
    pub(super) fn push(&mut self, slot: Slot, cells: &MaskOccupancy) -> Result<(), NoMemory>
        requires { IsTrue (is_repetition self.old.params.cycles self.old.kind.repetition) }
        ensures params { self.new.params ≡ self.old.params }
        ensures kind { self.new.kind ≡ self.old.kind }
        ensures rooms { (slots : List ℕ) → ShowRooms self.old cells.now slots
            → OnOk result (ShowRooms self.new cells.now (slots ++ slot ∷ [])) }
    {
        let fittest = fittest_in(&self.params, slot, cells.filled_in(slot), self.kind);
        self.rooms.push(Room { slot, fittest })?;
        Ok(())
    }

    /// The fittest place in all slots, if one is free.
    pub(super) fn fittest(&self) -> Option<Placement>
        ensures { (pairs : List (NameText × Cells)) (slots : List ℕ)
            → ShowRooms self.now pairs slots
            → result ≡ fittest self.now.params pairs slots self.now.kind.channels
            self.now.kind.repetition }
    {
        let mut found = None;
        for room in &self.rooms {
            found = fitter(found, room.fittest);
        }
        Some(found?.place)
    }

    /// Looks anew at the slot of the place, which was filled last.
    pub(super) fn renew(&mut self, place: &Placement, cells: &MaskOccupancy)
        requires { IsTrue (is_repetition self.old.params.cycles self.old.kind.repetition) }
        ensures params { self.new.params ≡ self.old.params }
        ensures kind { self.new.kind ≡ self.old.kind }
        ensures rooms { (pairs : List (NameText × Cells)) (f : NameText) (slots : List ℕ)
            → cells.now ≡ pairs ++ (f, place.now) ∷ []
            → ShowRooms self.old pairs slots → ShowRooms self.new cells.now slots }
    {
        let slot = place.slot;
        let fittest = fittest_in(&self.params, slot, cells.filled_in(slot), self.kind);
        let fresh = Room { slot, fittest };
        for room in self.rooms.iter_mut() {
            *room = renewed(room, &fresh);
        }
    }
}

// The fresh room, if it is of the same slot, or else the room.
fn renewed(room: &Room, fresh: &Room) -> Room
    ensures { result ≡ renewed_room fresh.now room.now }
{
    if room.slot == fresh.slot {
        return *fresh;
    }
    *room
}
