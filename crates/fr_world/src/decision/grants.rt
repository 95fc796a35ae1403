//! Whether a grant, or the end of one, is refused.
ghost use Rattle.std.specs.Prelude.{◌≡◌};
ghost use Rattle.std.specs.List.{list_any};
ghost use Rattle.fr_base.specs.Step.{fills, in_use};
ghost use Rattle.fr_base.specs.Queries.{placements_in};
ghost use Rattle.fr_world.specs.Decisions.{admits_alone};
ghost use Rattle.fr_world.specs.Pages.{frame_data, frame_of, own_rows_of};

use super::rows::{has_node, holder};
use crate::page::{Page, PageFrame};
use fr_base::{Change, Channel, Name, Placement, Refusal, Slot};

/// Refuses to grant the slot on the channel to the supplier's node, by the first of `NoNode`,
/// `Exists` and `NodeDiffers` that applies.
#[tactic(auto, unfolding(crate::proofs::DecideRows::decide_open))]
pub(super) fn admit_grant(
    page: &Page,
    slot: Slot,
    channel: Channel,
    node: Name,
) -> Result<(), Refusal>
    ensures { result ≡ admits_alone (own_rows_of page.now) (Change.Grant slot channel node) }
{
    if !has_node(page, node) {
        return Err(Refusal::NoNode);
    }
    match holder(page, slot, channel) {
        Some(holder) if holder == node => Err(Refusal::Exists),
        Some(_) => Err(Refusal::NodeDiffers),
        None => Ok(()),
    }
}

/// Refuses the end of the supplier's grant of the slot on the channel, by the first of `NotGranted`
/// and `InUse` that applies.
#[tactic(auto, unfolding(crate::proofs::DecideRows::decide_open))]
pub(super) fn admit_end(page: &Page, slot: Slot, channel: Channel) -> Result<(), Refusal>
    ensures { result ≡ admits_alone (own_rows_of page.now) (Change.Revoke slot channel) }
{
    if holder(page, slot, channel).is_none() {
        return Err(Refusal::NotGranted);
    }
    if in_use(page, slot, channel) {
        return Err(Refusal::InUse);
    }
    Ok(())
}

// Whether a placement of the page fills the slot on the channel.
fn in_use(page: &Page, slot: Slot, channel: Channel) -> bool
    ensures { result ≡ in_use (slot, channel) (own_rows_of page.now).frames }
{
    page.frames().values().any(
        |frame|
            ensures { result ≡ list_any (fills (slot, channel))
                (placements_in (frame_of (frame_data frame.now))) }
        { uses(frame, slot, channel) },
    )
}

// Whether a placement of the frame fills the slot on the channel.
fn uses(frame: &PageFrame, slot: Slot, channel: Channel) -> bool
    ensures { result ≡ list_any (fills (slot, channel))
        (placements_in (frame_of (frame_data frame.now))) }
{
    frame.placements.iter().any(
        |placement|
            ensures { result ≡ fills (slot, channel) placement.now }
        { fills(placement, slot, channel) },
    )
}

// Whether the placement fills the slot on the channel, in some cycle.
fn fills(placement: &Placement, slot: Slot, channel: Channel) -> bool
    ensures { result ≡ fills (slot, channel) placement.now }
{
    placement.slot == slot && placement.channels.has(channel)
}
