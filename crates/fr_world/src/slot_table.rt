//! The first placement that has each cell of a slot, found in one pass over the placements.
ghost use Rattle.std.specs.Prelude.{◌≡◌, ◌<◌, [], ℕ, IfOk, None, OnOk, Some, if◌then◌else◌, length, slice_index_or};
ghost use Rattle.std.specs.Option.{option_or};
ghost use Rattle.fr_base.specs.Channels.{has_channel};
ghost use Rattle.fr_base.specs.declared.channel.Channel.{Channel as OneChannel};
ghost use Rattle.fr_world.specs.FirstPlaces.{AreFirst, IsClaimed, place_on, places_at};

use crate::triggerings::FrameTriggering;
use fr_base::{Channel, Channels, MAX_CYCLES, NoMemory, Placement, Slot};
use std::alloc::Global;
use std::marker::Model;

/// For each cycle and channel of a slot, the place of the first placement that has the cell. Places
/// are those of a list of placements.
#[derive(Drop)]
pub(crate) struct SlotTable {
    cycles: Vec<FirstPlaces>,
}

/// The places of the first placements in one cycle, one for each channel.
#[derive(Clone, Copy)]
pub(crate) struct FirstPlaces {
    a: Option<usize>,
    b: Option<usize>,
}

// No placement has a cell.
const NO_PLACES: FirstPlaces = FirstPlaces { a: None, b: None };

impl Model for SlotTable {
    ghost use Rattle.std.specs.Prelude.{List, length, ◌≤◌};
    ghost use Rattle.fr_world.specs.declared.slot_table.FirstPlaces.{FirstPlaces as Places};

    ghost Value = { List Places };

    ghost view = { λ t. t.cycles.items };

    ghost invariant = { λ t. length t.cycles.items ≤ 64 };
}

impl SlotTable {
    /// No placement has a cell of the slot. It takes no memory.
    pub(crate) fn new(alloc: Global) -> SlotTable
        ensures { result ≡ [] }
    {
        SlotTable {
            cycles: Vec::new(alloc),
        }
    }

    // The places of the first placements that have the slot's cells in this cycle.
    fn places(&self, cycle: u8) -> FirstPlaces
        ensures { result ≡ places_at self.now cycle }
    {
        match self.cycles.get(usize::from(cycle)) {
            Some(places) => *places,
            None => NO_PLACES,
        }
    }

    /// Gives the placement at this place those of its cells that no placement has yet.
    pub(crate) fn claim(&mut self, placement: &Placement, place: usize) -> Result<(), NoMemory>
        ensures { OnOk result (IsClaimed placement.now place self.old self.new) }
    {
        if self.cycles.len() < MAX_CYCLES as usize {
            self.cycles.resize(MAX_CYCLES as usize, NO_PLACES)?;
        }
        claim_cycles(&mut self.cycles, placement, place);
        Ok(())
    }
}

impl FirstPlaces {
    /// The place of the first placement on the channel, if there is one.
    pub(crate) fn on(self, channel: Channel) -> Option<usize>
        ensures { result ≡ place_on channel self }
    {
        match channel {
            Channel::A => self.a,
            Channel::B => self.b,
        }
    }

    // Makes this place the first on each of these channels that has no first place yet.
    fn claim(&mut self, channels: Channels, place: usize)
        ensures { (x : OneChannel)
            → place_on x self.new ≡ option_or (place_on x self.old)
            (if has_channel channels x then Some place else None) }
    {
        if channels.has(Channel::A) && self.a.is_none() {
            self.a = Some(place);
        }
        if channels.has(Channel::B) && self.b.is_none() {
            self.b = Some(place);
        }
    }
}

/// The places of the first placements that have the cells of this slot and cycle.
pub(crate) fn places_in(tables: &[SlotTable], slot: Slot, cycle: u8) -> FirstPlaces
    ensures { result ≡ places_at (slice_index_or tables.now slot []) cycle }
{
    match tables.get(slot.get() as usize) {
        Some(table) => table.places(cycle),
        None => NO_PLACES,
    }
}

/// The tables of these placements. Each stands at its slot's number.
pub(crate) fn slot_tables(
    alloc: Global,
    triggerings: &[FrameTriggering],
) -> Result<Vec<SlotTable>, NoMemory>
    ensures { IfOk result (λ tables. AreFirst triggerings.now tables.items) }
{
    let mut tables = Vec::new(alloc);
    for (place, one) in triggerings.iter().enumerate() {
        let number = one.placement.slot.get() as usize;
        make_room(alloc, &mut tables, number)?;
        tables[number].claim(&one.placement, place)?;
    }
    Ok(tables)
}

// Lengthens the list until it has a table of this number.
fn make_room(alloc: Global, tables: &mut Vec<SlotTable>, number: usize) -> Result<(), NoMemory>
    ensures room { OnOk result (number < length tables.new.items) }
    ensures same { (n : ℕ)
        → slice_index_or tables.new.items n [] ≡ slice_index_or tables.old.items n [] }
{
    while tables.len() <= number {
        tables.push(SlotTable::new(alloc))?;
    }
    Ok(())
}

// Gives the placement those of its cells that no placement has yet, cycle by cycle.
#[inline(always)]
fn claim_cycles(cycles: &mut [FirstPlaces], placement: &Placement, place: usize)
    requires { length cycles.old ≡ 64 }
    ensures len { length cycles.new ≡ 64 }
    ensures claimed { IsClaimed placement.now place cycles.old cycles.new }
{
    let count = u32::from(placement.cycles.cycles());
    let mut cycle = u32::from(placement.cycles.base());
    while cycle < count {
        cycles[cycle as usize].claim(placement.channels, place);
        cycle += u32::from(placement.cycles.repetition());
    }
}
