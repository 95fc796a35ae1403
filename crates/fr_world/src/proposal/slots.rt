//! The slots that a node holds.
ghost use Rattle.std.specs.Prelude.{◌≡◌, ◌++◌, [], ◌∷◌, IfOk, OnOk, filter};
ghost use Rattle.std.specs.List.{list_any};
ghost use Rattle.fr_base.specs.Cells.{slots_of};
ghost use Rattle.fr_base.specs.Proposals.{held_slots};
ghost use Rattle.fr_base.specs.RefusedWishes.{holds};
ghost use Rattle.fr_world.specs.Pages.{own_rows_of};

use crate::grants::holds_on;
use crate::page::Page;
use fr_base::{Channels, Name, NoMemory, Slot};
use std::alloc::Global;

/// The slots that the node holds on all of these channels, in order.
pub(super) fn held_slots(
    alloc: Global,
    page: &Page,
    node: Name,
    channels: Channels,
) -> Result<Vec<Slot>, NoMemory>
    ensures { IfOk result (λ slots.
        slots.items ≡ held_slots (own_rows_of page.now) node channels) }
{
    let mut slots = Vec::new(alloc);
    for number in 1..page.params().static_slots() + 1 {
        if let Some(slot) = Slot::new(number) {
            push_held(page, node, channels, slot, &mut slots)?;
        }
    }
    Ok(slots)
}

// Appends the slot, if the node holds it on all of these channels.
fn push_held(
    page: &Page,
    node: Name,
    channels: Channels,
    slot: Slot,
    slots: &mut Vec<Slot>,
) -> Result<(), NoMemory>
    ensures { OnOk result (slots.new.items ≡ slots.old.items
        ++ filter (holds (own_rows_of page.now) node channels) (slot ∷ [])) }
{
    if holds(page, node, channels, slot) {
        slots.push(slot)?;
    }
    Ok(())
}

/// Whether the node holds a slot on all of these channels.
pub(super) fn holds_slot(page: &Page, node: Name, channels: Channels) -> bool
    ensures { result ≡ list_any (holds (own_rows_of page.now) node channels)
        (slots_of page.now.params) }
{
    for number in 1..page.params().static_slots() + 1 {
        if let Some(slot) = Slot::new(number) {
            if holds(page, node, channels, slot) {
                return true;
            }
        }
    }
    false
}

// Whether the node holds the slot on all of these channels.
fn holds(page: &Page, node: Name, channels: Channels, slot: Slot) -> bool
    ensures { result ≡ holds (own_rows_of page.now) node channels slot }
{
    holds_on(page.grants(), node, slot, channels)
}
