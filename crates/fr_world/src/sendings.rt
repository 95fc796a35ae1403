//! What placements send in which cell.
ghost use Rattle.std.specs.Prelude.{◌≡◌, [], ◌∷◌, ◌++◌, ◌<◌, ◌≤◌, ℕ, false, filter, slice_index_or, IfOk, OnOk, option_map};
ghost use Rattle.std.specs.List.{cons_option, range_with_len};
ghost use Rattle.fr_base.specs.Cells.{Cell, cells_in, cluster_cells, slots_of};
ghost use Rattle.fr_base.specs.Channels.{channels_in};
ghost use Rattle.fr_base.specs.Schedule.{fill};
ghost use Rattle.fr_base.specs.Queries.{sending};
ghost use Rattle.fr_world.specs.FirstPlaces.{AreFirst, first_place, place_on};
ghost use Rattle.fr_world.specs.Sendings.{HaveSenders, cycle_cells, filled, is_used, sender_of, sent_in};

use crate::slot_table::{FirstPlaces, SlotTable, places_in, slot_tables};
use crate::triggerings::{FrameSender, FrameSendings, FrameTriggering};
use fr_base::{Channel, Channels, NoMemory, Params, Rows, Sending, Slot};
use std::alloc::Global;

/// Which of the senders sends in which cell, in the order of cycles, then slots, then channels.
/// Where several placements have a cell, the first one is sent.
pub(crate) fn schedule(
    alloc: Global,
    params: &Params,
    sendings: &FrameSendings<'_>,
) -> Result<Rows<Sending>, NoMemory>
    requires { HaveSenders sendings.now.senders.now sendings.now.triggerings.now }
    ensures { IfOk result (λ rows.
        rows ≡ sent_in (filled sendings.now.senders.now sendings.now.triggerings.now)
        (cluster_cells params.now)) }
{
    let slots = used_slots(alloc, params, sendings.triggerings)?;
    let tables = slot_tables(alloc, sendings.triggerings)?;
    let mut rows = Rows::with_capacity(alloc, sendings.triggerings.len())?;
    for cycle in 0..params.cycles() as u8 {
        push_cycle(
            sendings,
            &tables,
            &slots,
            params.channels(),
            cycle,
            &mut rows,
        )?;
    }
    Ok(rows)
}

/// Appends what the senders send in the cycle: by slot and channel. Where several placements have
/// a cell, the first one is sent. Where memory is refused, some of it may have been appended.
pub(crate) fn push_sendings(
    alloc: Global,
    params: &Params,
    sendings: &FrameSendings<'_>,
    cycle: u8,
    rows: &mut Rows<Sending>,
) -> Result<(), NoMemory>
    requires { HaveSenders sendings.now.senders.now sendings.now.triggerings.now }
    ensures { OnOk result (rows.new ≡ rows.old
        ++ sent_in (filled sendings.now.senders.now sendings.now.triggerings.now)
        (cycle_cells params.now cycle)) }
{
    let slots = used_slots(alloc, params, sendings.triggerings)?;
    let tables = slot_tables(alloc, sendings.triggerings)?;
    push_cycle(sendings, &tables, &slots, params.channels(), cycle, rows)
}

// The static slots that have a placement, in order.
fn used_slots(
    alloc: Global,
    params: &Params,
    triggerings: &[FrameTriggering],
) -> Result<Vec<Slot>, NoMemory>
    ensures { IfOk result (λ slots.
        slots.items ≡ filter (is_used triggerings.now) (slots_of params.now)) }
{
    let last = params.static_slots().min(last_slot(triggerings));
    used_slots_to(alloc, triggerings, last)
}

// The number of the last slot that has a placement, or 1 where there is none.
fn last_slot(triggerings: &[FrameTriggering]) -> u32
    ensures some { 1 ≤ result }
    ensures none_past { (slot : ℕ) → result < slot → is_used triggerings.now slot ≡ false }
{
    let mut last = 1_u32;
    for one in triggerings {
        last = last.max(one.placement.slot.get());
    }
    last
}

// The slots up to this one that have a placement, in order.
fn used_slots_to(
    alloc: Global,
    triggerings: &[FrameTriggering],
    last: u32,
) -> Result<Vec<Slot>, NoMemory>
    requires some { 1 ≤ last }
    requires within { last ≤ 1023 }
    ensures { IfOk result (λ slots.
        slots.items ≡ filter (is_used triggerings.now) (range_with_len 1 last)) }
{
    let marks = slot_marks(triggerings);
    let mut slots = Vec::new(alloc);
    for number in 1..=last {
        if let Some(slot) = Slot::new(number) {
            if is_marked(&marks, slot) {
                slots.push(slot)?;
            }
        }
    }
    Ok(slots)
}

// For each slot's number whether the slot has a placement.
fn slot_marks(triggerings: &[FrameTriggering]) -> [bool; 1024]
    ensures { (slot : ℕ) → slot < 1024
        → slice_index_or result slot false ≡ is_used triggerings.now slot }
{
    let mut marks = [false; 1024];
    for one in triggerings {
        marks[one.placement.slot.get() as usize] = true;
    }
    marks
}

// Whether the slot's number is marked.
fn is_marked(marks: &[bool; 1024], slot: Slot) -> bool
    ensures value { result ≡ slice_index_or marks.now slot false }
    ensures within { slot < 1024 }
{
    marks[slot.get() as usize]
}

// Appends what is sent in the cycle, in these slots.
fn push_cycle(
    sendings: &FrameSendings<'_>,
    tables: &[SlotTable],
    slots: &[Slot],
    channels: Channels,
    cycle: u8,
    rows: &mut Rows<Sending>,
) -> Result<(), NoMemory>
    requires have { HaveSenders sendings.now.senders.now sendings.now.triggerings.now }
    requires first { AreFirst sendings.now.triggerings.now tables.now }
    ensures { OnOk result (rows.new ≡ rows.old
        ++ sent_in (filled sendings.now.senders.now sendings.now.triggerings.now)
        (cells_in (cycle ∷ []) slots.now (channels_in channels))) }
{
    for slot in slots {
        let places = places_in(tables, *slot, cycle);
        for channel in channels.as_slice() {
            let sender = sender_on(sendings, places, *channel);
            push_sending(sender, cycle, *slot, *channel, rows)?;
        }
    }
    Ok(())
}

// Who sends in the cell of this channel. `places` has the places of the first placements in the
// cell's slot and cycle.
#[inline(always)]
fn sender_on<'s>(
    sendings: &FrameSendings<'s>,
    places: FirstPlaces,
    channel: Channel,
) -> Option<&'s FrameSender>
    requires { HaveSenders sendings.now.senders.now sendings.now.triggerings.now }
    ensures { (c : Cell) → place_on channel places ≡ first_place sendings.now.triggerings.now c
        → option_map (λ s. sender_of s.now) result
        ≡ fill (filled sendings.now.senders.now sendings.now.triggerings.now) c }
{
    let Some(place) = places.on(channel) else {
        return None;
    };
    let Some(one) = sendings.triggerings.get(place) else {
        return None;
    };
    Some(&sendings.senders[one.sender])
}

// Appends the row of the cell, if somebody sends there.
#[inline(always)]
fn push_sending(
    sender: Option<&FrameSender>,
    cycle: u8,
    slot: Slot,
    channel: Channel,
    rows: &mut Rows<Sending>,
) -> Result<(), NoMemory>
    ensures { let cell : Cell = record { cycle = cycle; slot = slot; channel = channel } in
        OnOk result (rows.new ≡ rows.old
        ++ cons_option (option_map (λ s. sending (cell, sender_of s.now)) sender.entry) []) }
{
    let Some(sender) = sender else {
        return Ok(());
    };
    rows.push(Sending {
        cycle,
        slot,
        channel,
        frame: sender.frame,
        node: sender.node,
        supplier: sender.supplier,
    })
}
