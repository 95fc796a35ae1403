//! Where a frame of a page may still be placed.
ghost use Rattle.std.specs.Prelude.{◌≡◌, ◌⊎◌, ◌++◌, ◌∷◌, [], Ok, Err, filter, IfErr, IfOk, IsTrue, OnOk};
ghost use Rattle.fr_base.specs.Cycles.{is_repetition};
ghost use Rattle.fr_base.specs.declared.refusal.Refusal.TheVariants.{Unavailable};
ghost use Rattle.fr_base.specs.Room.{channels_within, places_in, places_on, places_with};
ghost use Rattle.fr_world.specs.Pages.{own_rows_of};
ghost use Rattle.fr_world.specs.Rooms.{is_free_alone, is_vacant_alone, open_node, page_room};

use crate::decision::rows::frame_named;
use crate::grants::holds_on;
use crate::occupancy::Occupancy;
use crate::page::Page;
use fr_base::{Channels, CycleSet, MAX_PLACEMENTS, Name, NoMemory, Placement, Refusal, Rows, Slot};
use std::alloc::Global;

/// Where the page's frame may be placed with this repetition, which divides the count of cycles: by slot,
/// channels and base. Or the first refusal that applies: `Released`, `NoFrame`, `Limit`. `Unavailable`
/// where memory is refused.
pub fn room(
    alloc: Global,
    page: &Page,
    frame: Name,
    repetition: u32,
) -> Result<Rows<Placement>, Refusal>
    requires { IsTrue (is_repetition page.now.params.cycles repetition) }
    ensures places { IfOk result (λ places. page_room page.now frame repetition ≡ Ok places) }
    ensures refusal { IfErr result
        (λ e. (e ≡ Unavailable) ⊎ (page_room page.now frame repetition ≡ Err e)) }
{
    let node = open_node(page, frame)?;
    let places = vacant_places(alloc, page, node, repetition)?;
    Ok(places)
}

// The node of the frame that is to be placed, or the refusal that each of its placements meets.
fn open_node(page: &Page, frame: Name) -> Result<Name, Refusal>
    ensures { result ≡ open_node page.now frame }
{
    if page.released() {
        return Err(Refusal::Released);
    }
    let row = frame_named(page, frame).ok_or(Refusal::NoFrame)?;
    if row.placements.len() >= MAX_PLACEMENTS {
        return Err(Refusal::Limit);
    }
    Ok(row.node)
}

// Which placements are looked for: those of a frame of this node, with this repetition.
#[derive(Drop)]
struct Search {
    node: Name,
    repetition: u32,
}

// The placements in grants to the node whose cells are free.
fn vacant_places(
    alloc: Global,
    page: &Page,
    node: Name,
    repetition: u32,
) -> Result<Rows<Placement>, NoMemory>
    requires { IsTrue (is_repetition page.now.params.cycles repetition) }
    ensures { IfOk result (λ places.
        places ≡ filter (is_vacant_alone (own_rows_of page.now) node)
        (places_with page.now.params repetition)) }
{
    let search = Search { node, repetition };
    let mut places = Rows::new(alloc);
    for number in 1..page.params().static_slots() + 1 {
        if let Some(slot) = Slot::new(number) {
            push_slot(page, &search, slot, &mut places)?;
        }
    }
    Ok(places)
}

// Appends the node's free placements in the slot.
fn push_slot(
    page: &Page,
    search: &Search,
    slot: Slot,
    places: &mut Rows<Placement>,
) -> Result<(), NoMemory>
    requires { IsTrue (is_repetition page.now.params.cycles search.now.repetition) }
    ensures { OnOk result (places.new ≡ places.old
        ++ filter (is_vacant_alone (own_rows_of page.now) search.now.node)
        (places_in page.now.params search.now.repetition slot)) }
{
    for channels in channels_within(page.params().channels()) {
        push_channels(page, search, slot, *channels, places)?;
    }
    Ok(())
}

// Appends the node's free placements in the slot on these channels: none, where the node does not
// hold them.
fn push_channels(
    page: &Page,
    search: &Search,
    slot: Slot,
    channels: Channels,
    places: &mut Rows<Placement>,
) -> Result<(), NoMemory>
    requires { IsTrue (is_repetition page.now.params.cycles search.now.repetition) }
    ensures { OnOk result (places.new ≡ places.old
        ++ filter (is_vacant_alone (own_rows_of page.now) search.now.node)
        (places_on page.now.params search.now.repetition slot channels)) }
{
    if holds_on(page.grants(), search.node, slot, channels) {
        push_bases(page, slot, channels, search.repetition, places)?;
    }
    Ok(())
}

// Appends the free placements in the slot on these channels, by base.
fn push_bases(
    page: &Page,
    slot: Slot,
    channels: Channels,
    repetition: u32,
    places: &mut Rows<Placement>,
) -> Result<(), NoMemory>
    requires { IsTrue (is_repetition page.now.params.cycles repetition) }
    ensures { OnOk result (places.new ≡ places.old
        ++ filter (is_free_alone (own_rows_of page.now))
        (places_on page.now.params repetition slot channels)) }
{
    for base in 0..repetition {
        if let Ok(cycles) = CycleSet::new(page.params().cycles(), base, repetition) {
            let placement = Placement {
                slot,
                channels,
                cycles,
            };
            push_free(page, placement, places)?;
        }
    }
    Ok(())
}

// Appends the placement, if no frame fills one of its cells.
fn push_free(
    page: &Page,
    placement: Placement,
    places: &mut Rows<Placement>,
) -> Result<(), NoMemory>
    ensures { OnOk result (places.new ≡ places.old
        ++ filter (is_free_alone (own_rows_of page.now)) (placement ∷ [])) }
{
    if is_free(page, &placement) {
        places.push(placement)?;
    }
    Ok(())
}

// Whether no frame fills one of the placement's cells.
fn is_free(page: &Page, placement: &Placement) -> bool
    ensures { result ≡ is_free_alone (own_rows_of page.now) placement.now }
{
    page.cells().free(placement)
}

// On which channels a frame may be sent, where the cluster has these.
fn channels_within(channels: Channels) -> &'static [Channels]
    ensures { result.now ≡ channels_within channels }
{
    match channels {
        Channels::A => &[Channels::A],
        Channels::AB => &[Channels::A, Channels::AB, Channels::B],
        Channels::B => &[Channels::B],
    }
}
