//! The lanes of a cluster: its static slots on its channels.
ghost use Rattle.std.specs.Prelude.{◌≡◌, ◌++◌, map, IfOk, OnOk};
ghost use Rattle.fr_base.specs.Channels.{channels_in};
ghost use Rattle.fr_base.specs.Load.{lanes_in, lanes_of};
ghost use Rattle.fr_world.specs.Loads.{lane_of};

use crate::page::ChannelSlot;
use fr_base::{Channels, NoMemory, Params, Slot};
use std::alloc::Global;

/// The lanes of the cluster, by slot, then channel.
pub(crate) fn lanes(alloc: Global, params: &Params) -> Result<Vec<ChannelSlot>, NoMemory>
    ensures { IfOk result (λ lanes. map lane_of lanes.items ≡ lanes_of params.now) }
{
    let mut lanes = Vec::new(alloc);
    for number in 1..params.static_slots() + 1 {
        if let Some(slot) = Slot::new(number) {
            push_lanes(slot, params.channels(), &mut lanes)?;
        }
    }
    Ok(lanes)
}

// Appends the lanes of the slot on these channels.
fn push_lanes(slot: Slot, channels: Channels, lanes: &mut Vec<ChannelSlot>) -> Result<(), NoMemory>
    ensures { OnOk result (map lane_of lanes.new.items ≡ map lane_of lanes.old.items
        ++ lanes_in (channels_in channels) slot) }
{
    for channel in channels.as_slice() {
        let channel = *channel;
        lanes.push(ChannelSlot { slot, channel })?;
    }
    Ok(())
}
