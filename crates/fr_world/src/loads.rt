//! How full lanes are: in how many cycles a slot is filled on a channel, and who holds it.
ghost use Rattle.std.specs.Prelude.{◌≡◌, IfOk, option_map};
ghost use Rattle.fr_base.specs.Book.{Holder};
ghost use Rattle.fr_base.specs.Keys.{channel_slots};
ghost use Rattle.fr_base.specs.Load.{lane_holder, load_row};
ghost use Rattle.fr_base.specs.Schedule.{fill};
ghost use Rattle.fr_base.specs.Tables.{Table, get};
ghost use Rattle.fr_world.specs.Loads.{filled_load, grants_in_lanes, lane_of};

use crate::lanes::lanes;
use crate::mask_occupancy::MaskOccupancy;
use crate::page::ChannelSlot;
use fr_base::{LaneHolder, LoadRow, NoMemory, Params, Rows};
use std::alloc::Global;
use std::collections::BTreeMap;

/// How full each lane of the cluster is, by slot, then channel, with these holders of lanes and
/// these filled cells.
pub(crate) fn filled_load(
    alloc: Global,
    params: &Params,
    holders: &BTreeMap<ChannelSlot, LaneHolder>,
    cells: &MaskOccupancy,
) -> Result<Rows<LoadRow>, NoMemory>
    ensures { IfOk result (λ rows.
        rows ≡ filled_load params.now (grants_in_lanes holders.now.entries) cells.now) }
{
    let lanes = lanes(alloc, params)?;
    let mut rows = Rows::with_capacity(alloc, lanes.len())?;
    for lane in &lanes {
        let holder = holders.get(lane).copied();
        rows.push(lane_row(cells, params, *lane, holder))?;
    }
    Ok(rows)
}

// The row of the lane, with this holder.
fn lane_row(
    cells: &MaskOccupancy,
    params: &Params,
    lane: ChannelSlot,
    holder: Option<LaneHolder>,
) -> LoadRow
    ensures { (grants : Table channel_slots Holder)
        → holder ≡ option_map lane_holder (get grants (lane_of lane))
        → result ≡ load_row params.now grants (fill cells.now) (lane_of lane) }
{
    LoadRow {
        slot: lane.slot,
        channel: lane.channel,
        used: cells.used(params, lane),
        cycles: params.cycles(),
        holder,
    }
}
