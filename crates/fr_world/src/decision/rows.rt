//! A page's rows, looked up by their keys.
ghost use Rattle.std.specs.Prelude.{◌≡◌, option_map, IfSome};
ghost use Rattle.fr_base.specs.Tables.{contains, get};
ghost use Rattle.fr_world.specs.Pages.{frame_data, frame_of, holder_of, own_rows_of};

use crate::page::{ChannelSlot, Page, PageFrame};
use fr_base::{Channel, Name, Slot};

/// Whether the supplier has the node.
pub(crate) fn has_node(page: &Page, node: Name) -> bool
    ensures { result ≡ contains (own_rows_of page.now).nodes (page.now.supplier, node) }
{
    page.nodes().contains(&node)
}

/// The supplier's node that holds the slot on the channel, if one does.
pub(crate) fn holder(page: &Page, slot: Slot, channel: Channel) -> Option<Name>
    ensures { option_map (holder_of page.now.supplier) result
        ≡ get (own_rows_of page.now).grants (slot, channel) }
{
    page.grants().get(&ChannelSlot { slot, channel }).copied()
}

/// The supplier's frame of this name.
pub(crate) fn frame_named(page: &Page, frame: Name) -> Option<&PageFrame>
    ensures value { option_map (λ f. frame_of (frame_data f.now)) result
        ≡ get (own_rows_of page.now).frames (page.now.supplier, frame) }
    ensures words { IfSome result (λ f. f.now.layout.words ≡ page.now.params.payload_words) }
{
    page.frames().get(&frame)
}
