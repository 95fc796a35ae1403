//! Whether a page may have a supplier's frames, each frame by itself. Whether two of them share a
//! cell is not asked here.
ghost use Rattle.std.specs.Prelude.{◌≡◌, All};
ghost use Rattle.std.specs.Bool.{Decides};
ghost use Rattle.std.specs.List.{list_all};
ghost use Rattle.fr_base.specs.Channels.{channels_in, has_channel};
ghost use Rattle.fr_world.specs.Building.{IsKeptFrame, fits, is_placed};
ghost use Rattle.fr_world.specs.Pages.{frame_data, own_rows_of, rows_data};

use crate::grants::is_granted;
use crate::page::{PageFrame, PageRows};
use fr_base::{Channels, MAX_PLACEMENTS, Name, Params, Placement};

/// Whether a page may have each of the frames by itself.
pub(super) fn are_frames(rows: &PageRows) -> bool
    ensures { Decides result (All
        (λ e. IsKeptFrame (own_rows_of (rows_data rows.now)) (frame_data e.1))
        rows.now.frames.entries) }
{
    for frame in rows.frames.values() {
        if !is_frame(rows, frame) {
            return false;
        }
    }
    true
}

// Whether a page of these rows may have the frame, with a layout of the cluster's payload.
fn is_frame(rows: &PageRows, frame: &PageFrame) -> bool
    ensures { Decides result (IsKeptFrame (own_rows_of (rows_data rows.now))
        (frame_data frame.now)) }
{
    let few = frame.placements.len() <= MAX_PLACEMENTS;
    let of_payload = frame.layout.words() == rows.params.payload_words();
    let placed = are_placed(rows, frame);
    few && of_payload && placed
}

// Whether each of the frame's placements fits the cluster and lies in grants to the frame's node.
fn are_placed(rows: &PageRows, frame: &PageFrame) -> bool
    ensures { result ≡ list_all (is_placed (own_rows_of (rows_data rows.now)) frame.now.node)
        frame.now.placements.keys }
{
    frame
        .placements
        .iter()
        .all(|placement| is_placed(rows, frame.node, placement))
}

// Whether the placement fits the cluster and lies in grants to the node.
#[tactic(auto, unfolding(crate::specs::Building::is_placed))]
fn is_placed(rows: &PageRows, node: Name, placement: &Placement) -> bool
    ensures { result ≡ is_placed (own_rows_of (rows_data rows.now)) node placement.now }
{
    fits(&rows.params, placement) && is_granted(&rows.grants, node, placement)
}

// Whether the cluster has the placement's slot and channels, and the same count of cycles.
#[tactic(auto, unfolding(crate::specs::Building::fits))]
fn fits(params: &Params, placement: &Placement) -> bool
    ensures { result ≡ fits params.now placement.now }
{
    placement.slot.get() <= params.static_slots()
        && has_channels(params.channels(), placement.channels)
        && u32::from(placement.cycles.cycles()) == params.cycles()
}

// Whether a cluster with the channels `cluster` has all of `channels`.
fn has_channels(cluster: Channels, channels: Channels) -> bool
    ensures { result ≡ list_all (has_channel cluster) (channels_in channels) }
{
    channels
        .as_slice()
        .iter()
        .all(|channel| cluster.has(*channel))
}
