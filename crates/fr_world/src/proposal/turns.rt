//! Wishes take their placements in turn.
ghost use Rattle.std.specs.Prelude.{◌≡◌, ◌++◌, ◌∷◌, [], List, ℕ, IsTrue, IfOk, OnOk, filter};
ghost use Rattle.std.specs.List.{list_any};
ghost use Rattle.fr_base.specs.Cycles.{is_repetition};
ghost use Rattle.fr_base.specs.Proposals.{held_slots};
ghost use Rattle.fr_base.specs.Turns.{all_placed, in_turn, is_for, turns_on, with_place};
ghost use Rattle.fr_base.specs.declared.channel.Channels.{Channels as Kinds};
ghost use Rattle.fr_world.specs.Pages.{own_rows_of};
ghost use Rattle.fr_world.specs.Plans.{Takes, TakesOne};
ghost use Rattle.fr_world.specs.Proposals.{ShowRooms};

use super::fit::Kind;
use super::rooms::Rooms;
use super::slots::held_slots;
use crate::mask_occupancy::MaskOccupancy;
use crate::page::Page;
use fr_base::{Asked, Channels, Given, Name, NoMemory, Params, Slot};
use std::alloc::Global;

/// The cells that are filled, and what wishes are given.
#[derive(Drop)]
pub(super) struct Plan {
    pub(super) cells: MaskOccupancy,
    pub(super) given: Vec<Given>,
}

impl Plan {
    /// No wish yet, beside these cells. It takes no memory.
    pub(super) fn new(alloc: Global, cells: MaskOccupancy) -> Plan
        ensures cells { result.cells ≡ cells }
        ensures none { result.given.items ≡ [] }
    {
        Plan {
            cells,
            given: Vec::new(alloc),
        }
    }

    /// Whether each wish was given a placement.
    pub(super) fn is_whole(&self) -> bool
        ensures { result ≡ all_placed self.now.given.items }
    {
        self.given.iter().all(|one| one.place.is_some())
    }

    /// Adds what a wish is given.
    pub(super) fn give(&mut self, one: Given) -> Result<(), NoMemory>
        ensures cells { OnOk result (self.new.cells
            ≡ with_place self.old.cells one.asked.wish.frame one.place) }
        ensures given { OnOk result (self.new.given.items ≡ self.old.given.items ++ one ∷ []) }
    {
        if let Some(place) = &one.place {
            self.cells.add(one.asked.wish.frame, place)?;
        }
        self.given.push(one)?;
        Ok(())
    }

    /// The node's wishes take the fittest places that are left, in turn: first those on both channels,
    /// then those on A, then those on B; then the least repetition first; then by line.
    pub(super) fn take_turns(
        &mut self,
        alloc: Global,
        page: &Page,
        node: Name,
        wishes: &[Asked],
    ) -> Result<(), NoMemory>
        ensures { OnOk result (Takes page.now.params (held_slots (own_rows_of page.now) node)
            self.old.cells self.new.cells self.old.given.items self.new.given.items
            (in_turn page.now.params wishes.now)) }
    {
        self.take_turns_for(alloc, page, node, Channels::AB, wishes)?;
        self.take_turns_for(alloc, page, node, Channels::A, wishes)?;
        self.take_turns_for(alloc, page, node, Channels::B, wishes)
    }

    // Those of the wishes that are for these channels.
    fn take_turns_for(
        &mut self,
        alloc: Global,
        page: &Page,
        node: Name,
        channels: Channels,
        wishes: &[Asked],
    ) -> Result<(), NoMemory>
        ensures { OnOk result (Takes page.now.params (held_slots (own_rows_of page.now) node)
            self.old.cells self.new.cells self.old.given.items self.new.given.items
            (turns_on page.now.params wishes.now channels)) }
    {
        let slots = held_slots(alloc, page, node, channels)?;
        self.take_turns_on(alloc, &page.params(), &slots, channels, wishes)
    }

    // Those of the wishes that are for these channels, in these slots: by repetition, then by line.
    fn take_turns_on(
        &mut self,
        alloc: Global,
        params: &Params,
        slots: &[Slot],
        channels: Channels,
        wishes: &[Asked],
    ) -> Result<(), NoMemory>
        ensures { (on : Kinds → List ℕ) → on channels ≡ slots.now
            → OnOk result (Takes params.now on self.old.cells self.new.cells
            self.old.given.items self.new.given.items (turns_on params.now wishes.now channels)) }
    {
        for repetition in 1..params.cycles() + 1 {
            if params.cycles() % repetition == 0 {
                let kind = Kind {
                    channels,
                    repetition,
                };
                self.take_alike(alloc, params, slots, kind, wishes)?;
            }
        }
        Ok(())
    }

    // Those of the wishes that are of this kind, by line.
    fn take_alike(
        &mut self,
        alloc: Global,
        params: &Params,
        slots: &[Slot],
        kind: Kind,
        wishes: &[Asked],
    ) -> Result<(), NoMemory>
        requires { IsTrue (is_repetition params.now.cycles kind.repetition) }
        ensures { (on : Kinds → List ℕ) → on kind.channels ≡ slots.now
            → OnOk result (Takes params.now on self.old.cells self.new.cells
            self.old.given.items self.new.given.items
            (filter (is_for kind.channels kind.repetition) wishes.now)) }
    {
        if !has_kind(wishes, kind) {
            return Ok(());
        }
        let mut rooms = rooms_of(alloc, params, slots, kind, &self.cells)?;
        for asked in wishes {
            if is_for(asked, kind) {
                self.take_place(asked, &mut rooms)?;
            }
        }
        Ok(())
    }

    // The wish takes the fittest place that is left.
    fn take_place(&mut self, asked: &Asked, rooms: &mut Rooms) -> Result<(), NoMemory>
        requires { IsTrue (is_repetition rooms.old.params.cycles rooms.old.kind.repetition) }
        ensures params { rooms.new.params ≡ rooms.old.params }
        ensures kind { rooms.new.kind ≡ rooms.old.kind }
        ensures taken { (slots : List ℕ) → ShowRooms rooms.old self.old.cells slots
            → OnOk result (TakesOne rooms.old.params rooms.old.kind slots asked.now self.old.cells
            self.new.cells self.old.given.items self.new.given.items rooms.new) }
    {
        match rooms.fittest() {
            Some(place) => {
                self.cells.add(asked.wish.frame, &place)?;
                rooms.renew(&place, &self.cells);
                let place = Some(place);
                self.given.push(Given {
                    asked: *asked,
                    place,
                })?;
            }
            None => {
                self.given.push(Given {
                    asked: *asked,
                    place: None,
                })?;
            }
        }
        Ok(())
    }
}

/// The room in these slots for places of this kind, beside the cells that are filled.
pub(super) fn rooms_of(
    alloc: Global,
    params: &Params,
    slots: &[Slot],
    kind: Kind,
    cells: &MaskOccupancy,
) -> Result<Rooms, NoMemory>
    requires { IsTrue (is_repetition params.now.cycles kind.repetition) }
    ensures { IfOk result (λ rooms. (rooms.params ≡ params.now) × (rooms.kind ≡ kind)
        × ShowRooms rooms cells.now slots.now) }
{
    let mut rooms = Rooms::new(alloc, *params, kind);
    for slot in slots {
        rooms.push(*slot, cells)?;
    }
    Ok(rooms)
}

// Whether one of the wishes is for this kind of places.
fn has_kind(wishes: &[Asked], kind: Kind) -> bool
    ensures { result ≡ list_any (is_for kind.channels kind.repetition) wishes.now }
{
    wishes.iter().any(
        |asked|
            ensures { result ≡ is_for kind.channels kind.repetition asked.now }
        { is_for(asked, kind) },
    )
}

/// Whether the wish is for this kind of places.
pub(super) fn is_for(asked: &Asked, kind: Kind) -> bool
    ensures { result ≡ is_for kind.channels kind.repetition asked.now }
{
    asked.wish.channels == kind.channels && u32::from(asked.wish.repetition) == kind.repetition
}
