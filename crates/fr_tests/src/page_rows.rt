//! Values for these tests: a cluster of all static slots, and a page of the supplier `s1` in the variant `v1`.
ghost use Rattle.std.specs.Bool.{OnTrue};
ghost use Rattle.fr_base.specs.Sound.{FitsCluster};

use fr_base::{
    Channel, Channels, CycleSet, Name, Order, Params, Placement, RawParams, Signal, Slot,
};
use fr_layout::Layout;
use fr_world::{ChannelSlot, PageFrame, PageRows};
use std::alloc::Global;
use std::collections::{BTreeMap, BTreeSet};
use std::test::Fail;

pub(crate) fn name(text: &str) -> Result<Name, Fail> {
    Ok(Name::read(text).ok_or("name")?)
}

pub(crate) fn slot(number: u32) -> Result<Slot, Fail> {
    Ok(Slot::new(number).ok_or("slot")?)
}

pub(crate) fn placement(
    number: u32,
    channels: Channels,
    base: u32,
    repetition: u32,
) -> Result<Placement, Fail> {
    Ok(Placement {
        slot: slot(number)?,
        channels,
        cycles: CycleSet::new(64, base, repetition)?,
    })
}

/// A signal of 4 bits.
pub(crate) fn signal(text: &str, start: u32) -> Result<Signal, Fail> {
    Ok(Signal::new(name(text)?, start, 4, Order::Little)?)
}

// 1,023 static slots on both channels, and 127 words of payload.
fn params() -> Result<Params, Fail> {
    Ok(Params::check(RawParams {
        channels: Channels::AB,
        static_slots: 1023,
        slot_macroticks: 15,
        dynamic_macroticks: 0,
        symbol_macroticks: 0,
        idle_macroticks: 655,
        macroticks_per_cycle: 16000,
        payload_words: 127,
        cycles: 64,
    })
    .map_err(|fault| fault.word())?)
}

/// Whether a cluster of both channels has the placement.
pub(crate) fn fits(params: &Params, placement: &Placement) -> bool
    ensures { OnTrue result (FitsCluster params.now placement.now) }
{
    // Gives the proof that the cycles are a set of cycles.
    let _repetition = placement.cycles.repetition();
    params.channels() == Channels::AB
        && placement.slot.get() <= params.static_slots()
        && u32::from(placement.cycles.cycles()) == params.cycles()
}

/// No nodes, grants and frames.
pub(crate) fn no_rows(alloc: Global) -> Result<PageRows, Fail> {
    Ok(PageRows {
        params: params()?,
        supplier: name("s1")?,
        variant: name("v1")?,
        released: false,
        nodes: BTreeSet::new(alloc),
        grants: BTreeMap::new(alloc),
        frames: BTreeMap::new(alloc),
    })
}

/// A frame of `n1`, without placements and signals.
pub(crate) fn frame(alloc: Global) -> Result<PageFrame, Fail> {
    Ok(PageFrame {
        node: name("n1")?,
        placements: BTreeSet::new(alloc),
        layout: Layout::new(alloc, 127),
    })
}

/// `n1` holds the slot on the channel.
pub(crate) fn grant(rows: &mut PageRows, number: u32, channel: Channel) -> Result<(), Fail> {
    let at = ChannelSlot {
        slot: slot(number)?,
        channel,
    };
    rows.grants.insert(at, name("n1")?)?;
    Ok(())
}
