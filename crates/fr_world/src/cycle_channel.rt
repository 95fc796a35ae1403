//! A cycle and a channel, which tell the cells of one slot apart. The first cell that two
//! placements share.
ghost use Rattle.std.specs.Prelude.{◌≡◌, option_map};
ghost use Rattle.std.specs.List.{find};
ghost use Rattle.fr_base.specs.Cells.{cells_of, has_cell};
ghost use Rattle.fr_base.specs.Channels.{channels_in, has_channel};
ghost use Rattle.fr_world.specs.CycleChannels.{cycle_channel};

use fr_base::{Channel, Channels, Placement, Slot};

/// A cell's cycle and channel, by which the cells of a placement in one slot differ. The cycle
/// comes first in the order, then A before B.
#[derive(Clone, Copy, PartialEq, Eq, PartialOrd, Ord)]
pub(crate) struct CycleChannel {
    pub(crate) cycle: u8,
    pub(crate) channel: Channel,
}

/// Whether the placement has the cell.
#[tactic(auto, using(crate::proofs::ScheduleLaws::has_cell_parts))]
pub(crate) fn has_cell(placement: &Placement, cycle: u8, slot: Slot, channel: Channel) -> bool
    ensures { result ≡ has_cell placement.now
        (record { cycle = cycle; slot = slot; channel = channel }) }
{
    slot == placement.slot && placement.channels.has(channel) && placement.cycles.contains(cycle)
}

/// The first cell of the placement that the other placement has too.
pub(crate) fn first_shared(placement: &Placement, other: &Placement) -> Option<CycleChannel>
    ensures { result ≡ option_map cycle_channel
        (find (has_cell other.now) (cells_of placement.now)) }
{
    if placement.slot != other.slot {
        return None;
    }
    let channel = first_shared_channel(placement.channels, other.channels)?;
    let cycle = placement.cycles.first_common(&other.cycles)?;
    Some(CycleChannel { cycle, channel })
}

// The first channel that both have: A before B.
fn first_shared_channel(channels: Channels, others: Channels) -> Option<Channel>
    ensures { result ≡ find (has_channel others) (channels_in channels) }
{
    channels
        .as_slice()
        .iter()
        .copied()
        .find(|channel| others.has(*channel))
}
