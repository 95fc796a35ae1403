//! How many slots wishes without a placement lack.
ghost use Rattle.std.specs.Prelude.{◌≡◌, ◌++◌, [], ◌∷◌, suc, All, true, IfOk, IfErr, IsTrue, MatchResult, OnOk, filter};
ghost use Rattle.std.specs.List.{cons_option, filter_map, range_with_len};
ghost use Rattle.fr_base.specs.Cycles.{is_repetition};
ghost use Rattle.fr_base.specs.Lacks.{is_short, lack_row, open_slots, short_wishes};
ghost use Rattle.fr_base.specs.Room.{placed};
ghost use Rattle.fr_base.specs.Turns.{in_turn, is_for, same_kind};
ghost use Rattle.fr_base.specs.declared.refusal.Refusal.TheVariants.{Unavailable};
ghost use Rattle.fr_world.specs.Plans.{Opens};
ghost use Rattle.fr_world.specs.Proposals.{ShowRooms};

use super::fit::Kind;
use super::rooms::Rooms;
use super::turns::is_for;
use crate::mask_occupancy::MaskOccupancy;
use fr_base::{
    Asked, Channels, CycleSet, Given, LackRow, Name, NoMemory, Params, Placement, Refusal, Rows,
    Slot,
};
use std::alloc::Global;

/// Appends what the node lacks: a row for each kind of channels on which a wish of its was given nothing.
pub(super) fn push_lacks(
    alloc: Global,
    params: &Params,
    given: &[Given],
    node: Name,
    lacks: &mut Rows<LackRow>,
) -> Result<(), Refusal>
    ensures ok { OnOk result (lacks.new ≡ lacks.old ++ filter_map (lack_row params.now given.now node)
        (Channels.A ∷ Channels.AB ∷ Channels.B ∷ [])) }
    ensures err { IfErr result (λ e. e ≡ Unavailable) }
{
    push_lack(alloc, params, given, node, Channels::A, lacks)?;
    push_lack(alloc, params, given, node, Channels::AB, lacks)?;
    push_lack(alloc, params, given, node, Channels::B, lacks)
}

// Appends what the node lacks on these channels, if it lacks slots.
fn push_lack(
    alloc: Global,
    params: &Params,
    given: &[Given],
    node: Name,
    channels: Channels,
    lacks: &mut Rows<LackRow>,
) -> Result<(), Refusal>
    ensures ok { OnOk result (lacks.new ≡ lacks.old
        ++ cons_option (lack_row params.now given.now node channels) []) }
    ensures err { IfErr result (λ e. e ≡ Unavailable) }
{
    let wishes = short_wishes(alloc, given, node, channels)?;
    let slots = slots_lacking(alloc, params, channels, &wishes)?;
    if slots != 0 {
        lacks.push(LackRow {
            node,
            channels,
            slots,
        })?;
    }
    Ok(())
}

// The node's wishes for these channels that were given nothing.
fn short_wishes(
    alloc: Global,
    given: &[Given],
    node: Name,
    channels: Channels,
) -> Result<Vec<Asked>, NoMemory>
    ensures { IfOk result (λ wishes. wishes.items ≡ short_wishes given.now node channels) }
{
    let mut wishes = Vec::new(alloc);
    for one in given {
        if is_short(one, node, channels) {
            wishes.push(one.asked)?;
        }
    }
    Ok(wishes)
}

// Whether a wish of the node for these channels was given nothing.
fn is_short(one: &Given, node: Name, channels: Channels) -> bool
    ensures { result ≡ is_short node channels one.now }
{
    let wish = &one.asked.wish;
    wish.node == node && wish.channels == channels && one.place.is_none()
}

// The least number of slots, empty in all cycles, in which the wishes, in turn, take a placement each.
// In an empty slot a placement breaks most, so it is taken only where there is none in the slots before:
// it comes to the same to add slots one by one, as they are needed.
fn slots_lacking(
    alloc: Global,
    params: &Params,
    channels: Channels,
    wishes: &[Asked],
) -> Result<u32, Refusal>
    ensures ok { All (λ asked. same_kind asked.wish.channels channels ≡ true) wishes.now
        → IfOk result (λ slots. slots
        ≡ open_slots params.now 0 [] (in_turn params.now wishes.now)) }
    ensures err { IfErr result (λ e. e ≡ Unavailable) }
{
    let mut slots = OpenSlots {
        cells: MaskOccupancy::new(alloc),
        count: 0,
    };
    for repetition in 1..params.cycles() + 1 {
        if params.cycles() % repetition == 0 {
            let kind = Kind {
                channels,
                repetition,
            };
            slots.take_alike(alloc, params, kind, wishes)?;
        }
    }
    Ok(slots.count)
}

// Slots that began empty, as many as wishes needed so far.
#[derive(Drop)]
struct OpenSlots {
    cells: MaskOccupancy,
    count: u32,
}

impl OpenSlots {
    // Those of the wishes that are of this kind take places, by line.
    fn take_alike(
        &mut self,
        alloc: Global,
        params: &Params,
        kind: Kind,
        wishes: &[Asked],
    ) -> Result<(), Refusal>
        requires { IsTrue (is_repetition params.now.cycles kind.repetition) }
        ensures ok { OnOk result (Opens params.now self.old.count self.old.cells self.new.count
            self.new.cells (filter (is_for kind.channels kind.repetition) wishes.now)) }
        ensures err { IfErr result (λ e. e ≡ Unavailable) }
    {
        let mut rooms = self.rooms(alloc, params, kind)?;
        for asked in wishes {
            if is_for(asked, kind) {
                self.take_place(asked, &mut rooms)?;
            }
        }
        Ok(())
    }

    // The room in the slots so far.
    fn rooms(&self, alloc: Global, params: &Params, kind: Kind) -> Result<Rooms, Refusal>
        requires { IsTrue (is_repetition params.now.cycles kind.repetition) }
        ensures ok { IfOk result (λ rooms. (rooms.params ≡ params.now) × (rooms.kind ≡ kind)
            × ShowRooms rooms self.now.cells (range_with_len 1 self.now.count)) }
        ensures err { IfErr result (λ e. e ≡ Unavailable) }
    {
        let mut rooms = Rooms::new(alloc, *params, kind);
        for number in 0..self.count {
            let slot = numbered(number)?;
            rooms.push(slot, &self.cells)?;
        }
        Ok(rooms)
    }

    // The wish takes the fittest place that is left, or the first one of a new slot.
    fn take_place(&mut self, asked: &Asked, rooms: &mut Rooms) -> Result<(), Refusal>
        requires kind { IsTrue (is_for rooms.old.kind.channels rooms.old.kind.repetition asked.now) }
        requires divides { IsTrue (is_repetition rooms.old.params.cycles
            rooms.old.kind.repetition) }
        requires rooms { ShowRooms rooms.old self.old.cells (range_with_len 1 self.old.count) }
        ensures params { rooms.new.params ≡ rooms.old.params }
        ensures kind { rooms.new.kind ≡ rooms.old.kind }
        ensures rooms { OnOk result (ShowRooms rooms.new self.new.cells
            (range_with_len 1 self.new.count)) }
        ensures taken { OnOk result (Opens rooms.old.params self.old.count self.old.cells
            self.new.count self.new.cells (asked.now ∷ [])) }
        ensures err { IfErr result (λ e. e ≡ Unavailable) }
    {
        let place = match rooms.fittest() {
            Some(place) => place,
            None => self.open(rooms)?,
        };
        self.cells.add(asked.wish.frame, &place)?;
        rooms.renew(&place, &self.cells);
        Ok(())
    }

    // Adds a slot. Its first place.
    fn open(&mut self, rooms: &mut Rooms) -> Result<Placement, Refusal>
        requires divides { IsTrue (is_repetition rooms.old.params.cycles
            rooms.old.kind.repetition) }
        requires rooms { ShowRooms rooms.old self.old.cells (range_with_len 1 self.old.count) }
        ensures params { rooms.new.params ≡ rooms.old.params }
        ensures kind { rooms.new.kind ≡ rooms.old.kind }
        ensures cells { self.new.cells ≡ self.old.cells }
        ensures count { OnOk result (self.new.count ≡ suc self.old.count) }
        ensures rooms { OnOk result (ShowRooms rooms.new self.new.cells
            (range_with_len 1 self.new.count)) }
        ensures place { IfOk result (λ place. place ≡ placed rooms.old.params
            rooms.old.kind.repetition (suc self.old.count) rooms.old.kind.channels 0) }
        ensures err { IfErr result (λ e. e ≡ Unavailable) }
    {
        let kind = rooms.kind;
        let Ok(cycles) = CycleSet::new(rooms.params.cycles(), 0, kind.repetition) else {
            return Err(Refusal::Unavailable);
        };
        let slot = numbered(self.count)?;
        rooms.push(slot, &self.cells)?;
        self.count = slot.get();
        Ok(Placement {
            slot,
            channels: kind.channels,
            cycles,
        })
    }
}

// The slot behind so many. So few wishes as a file has lack no more slots than have a number.
fn numbered(before: u32) -> Result<Slot, Refusal>
    ensures slot { IfOk result (λ slot. slot ≡ suc before) }
    ensures err { IfErr result (λ e. e ≡ Unavailable) }
{
    if before >= 1023 {
        return Err(Refusal::Unavailable);
    }
    Slot::new(before + 1).ok_or(Refusal::Unavailable)
}
