//! Which of a supplier's nodes holds which slot and channel.
ghost use Rattle.std.specs.Prelude.{◌≡◌};
ghost use Rattle.fr_base.specs.Book.{granted, held_by_node};
ghost use Rattle.fr_base.specs.Channels.{channels_in};
ghost use Rattle.fr_base.specs.Tables.{get};
ghost use Rattle.std.specs.List.{list_all};
ghost use Rattle.fr_base.specs.declared.name.Name.{Name as NameText};
ghost use Rattle.fr_world.specs.Amends.{grants_of};

use crate::page::ChannelSlot;
use fr_base::{Channel, Channels, Name, Placement, Slot};
use std::collections::BTreeMap;

/// Whether the node holds the placement's slot on each of its channels.
#[tactic(auto, unfolding(fr_base::specs::Book::granted))]
pub(crate) fn is_granted(
    grants: &BTreeMap<ChannelSlot, Name>,
    node: Name,
    placement: &Placement,
) -> bool
    ensures { (s : NameText)
        → result ≡ granted (grants_of s grants.now.entries) s node placement.now }
{
    holds_on(grants, node, placement.slot, placement.channels)
}

/// Whether the node holds the slot on each of the channels.
pub(crate) fn holds_on(
    grants: &BTreeMap<ChannelSlot, Name>,
    node: Name,
    slot: Slot,
    channels: Channels,
) -> bool
    ensures { (s : NameText)
        → result ≡ list_all (λ c.
        held_by_node s node (get (grants_of s grants.now.entries) (slot, c)))
        (channels_in channels) }
{
    channels.as_slice().iter().all(
        |channel|
            ensures { (s : NameText)
                → result ≡ held_by_node s node
                (get (grants_of s grants.entry.now.entries) (slot, channel.now)) }
        { holds(grants, node, slot, *channel) },
    )
}

// Whether the node holds the slot on this channel.
fn holds(grants: &BTreeMap<ChannelSlot, Name>, node: Name, slot: Slot, channel: Channel) -> bool
    ensures { (s : NameText)
        → result ≡ held_by_node s node (get (grants_of s grants.now.entries) (slot, channel)) }
{
    match grants.get(&ChannelSlot { slot, channel }) {
        Some(holder) => *holder == node,
        None => false,
    }
}
