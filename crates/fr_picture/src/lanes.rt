//! The text of lanes, and of the parts of the drawing in which they stand.
ghost use Rattle.std.specs.Prelude.{◌≡◌, OnOk};
ghost use Rattle.fr_picture.specs.FrameIndexes.{AreByName};
ghost use Rattle.fr_picture.specs.LaneTexts.{box_start, drawn_text, edge_text, foot_text, free_text, gap_text, grant_text, grants_text, heading_text, holder_of, holder_text, is_bare, lane_text, lanes_text, opens_text, part_text, shows_text, slots_text, start_text, ungranted_text, view_text};
ghost use Rattle.fr_picture.specs.Texts.{Appends};

use crate::change_shapes::push_changes;
use crate::changes::{SlotChanges, lane_changes};
use crate::drawing::{Lane, Rectangle, Scale, Shows};
use crate::frame_index::Entry;
use crate::kinds::push_rectangles;
use crate::plan::Plan;
use crate::shares::{number_of, push_look, push_mark};
use crate::texts::{Fixed, push_fixed};
use fr_base::{DifferenceRow, GrantRow, Name, NoMemory};
use std::alloc::Global;

/// Appends the plan's lanes, one after another.
#[tactic(auto, unfolding(crate::specs::LaneTexts::lanes_text))]
pub(crate) fn push_lanes(
    alloc: Global,
    plan: &Plan,
    scale: Scale,
    index: &[Entry],
    slots: &[SlotChanges],
    lanes: &[Lane],
    out: &mut String,
) -> Result<(), NoMemory>
    requires by_name { AreByName index.now }
    ensures { OnOk result (Appends out.old out.new
        (lanes_text plan.now scale index.now slots.now lanes.now)) }
{
    for (place, lane) in lanes.iter().enumerate() {
        let changed = lane_changes(alloc, slots, place)?;
        push_lane(alloc, plan, scale, index, changed.as_slice(), lane, out)?;
    }
    Ok(())
}

#[tactic(auto, unfolding(crate::specs::LaneTexts::lane_text))]
fn push_lane(
    alloc: Global,
    plan: &Plan,
    scale: Scale,
    index: &[Entry],
    changed: &[DifferenceRow],
    lane: &Lane,
    out: &mut String,
) -> Result<(), NoMemory>
    requires by_name { AreByName index.now }
    ensures { OnOk result (Appends out.old out.new
        (lane_text plan.now scale index.now changed.now lane.now)) }
{
    push_opens(plan.variant, scale.height, lane.place.opens, out)?;
    if is_bare(
        lane.place.shows,
        lane.grants.as_slice(),
        lane.rectangles.as_slice(),
    ) {
        return Ok(());
    }
    push_drawn(alloc, plan, scale, index, changed, lane, out)
}

// Whether there is nothing to draw: the place is inside a gap.
#[tactic(auto, unfolding(crate::specs::LaneTexts::is_bare))]
fn is_bare(shows: Shows, grants: &[GrantRow], rectangles: &[Rectangle]) -> bool
    ensures { result ≡ is_bare shows grants.now rectangles.now }
{
    match shows {
        Shows::Nothing => grants.is_empty() && rectangles.is_empty(),
        Shows::Slot(_) | Shows::Gap(_, _) => false,
    }
}

// Appends what is drawn at a place, in the look of the lane's holder, and the changes over it.
#[tactic(auto, unfolding(crate::specs::LaneTexts::drawn_text))]
fn push_drawn(
    alloc: Global,
    plan: &Plan,
    scale: Scale,
    index: &[Entry],
    changed: &[DifferenceRow],
    lane: &Lane,
    out: &mut String,
) -> Result<(), NoMemory>
    requires by_name { AreByName index.now }
    ensures { OnOk result (Appends out.old out.new
        (drawn_text plan.now scale index.now changed.now lane.now)) }
{
    let names = plan.suppliers.as_slice();
    let grants = lane.grants.as_slice();
    push_start(holder_of(names, grants), lane.place.x, out)?;
    push_grants(names, scale.cycles, grants, out)?;
    push_shows(plan.supplier, lane.place.shows, out)?;
    push_ungranted(lane.place.shows, grants, out)?;
    push_rectangles(alloc, scale, index, lane.rectangles.as_slice(), out)?;
    push_changes(scale, changed, out)?;
    push_fixed(Fixed::LaneEnd, out)
}

// The number of the first supplier that holds a lane. Nobody else sends there.
#[tactic(auto, unfolding(crate::specs::LaneTexts::holder_of))]
fn holder_of(names: &[Name], grants: &[GrantRow]) -> usize
    ensures { result ≡ holder_of names.now grants.now }
{
    match grants.first() {
        Some(grant) => number_of(names, grant.supplier),
        None => 0,
    }
}

// Appends the beginning of a lane: the look of the supplier of this number, and its left edge.
#[tactic(auto, unfolding(crate::specs::LaneTexts::start_text))]
fn push_start(number: usize, x: u32, out: &mut String) -> Result<(), NoMemory>
    ensures { OnOk result (Appends out.old out.new (start_text number x)) }
{
    push_fixed(Fixed::LaneStart, out)?;
    push_look(number, out)?;
    push_edge(x, out)
}

#[tactic(auto, unfolding(crate::specs::LaneTexts::edge_text))]
fn push_edge(x: u32, out: &mut String) -> Result<(), NoMemory>
    ensures { OnOk result (Appends out.old out.new (edge_text x)) }
{
    write!(out, " x={x}>")
}

// Appends the end of a part and the beginning of the next, where a part begins.
#[tactic(auto, unfolding(crate::specs::LaneTexts::opens_text))]
fn push_opens(
    variant: Name,
    height: u32,
    opens: Option<u32>,
    out: &mut String,
) -> Result<(), NoMemory>
    ensures { OnOk result (Appends out.old out.new (opens_text variant height opens)) }
{
    match opens {
        Some(first) => push_part(variant, height, first, out),
        None => Ok(()),
    }
}

#[tactic(auto, unfolding(crate::specs::LaneTexts::part_text))]
fn push_part(variant: Name, height: u32, first: u32, out: &mut String) -> Result<(), NoMemory>
    ensures { OnOk result (Appends out.old out.new (part_text variant height first)) }
{
    push_heading(variant, first, out)?;
    push_box_start(first, out)?;
    push_view(height, first, out)
}

#[tactic(auto, unfolding(crate::specs::LaneTexts::heading_text))]
fn push_heading(variant: Name, first: u32, out: &mut String) -> Result<(), NoMemory>
    ensures { OnOk result (Appends out.old out.new (heading_text variant first)) }
{
    write!(
        out,
        "</g></svg></div>\n<h2 id=p{first}>Variant {variant}: slots from {first} on</h2>\n"
    )
}

// Appends a box that scrolls, which the heading names, and the drawing in it.
#[tactic(auto, unfolding(crate::specs::LaneTexts::box_start))]
fn push_box_start(first: u32, out: &mut String) -> Result<(), NoMemory>
    ensures { OnOk result (Appends out.old out.new (box_start first)) }
{
    write!(
        out,
        "<div class=plan role=group aria-labelledby=p{first} tabindex=0><svg role=none"
    )
}

#[tactic(auto, unfolding(crate::specs::LaneTexts::view_text))]
fn push_view(height: u32, first: u32, out: &mut String) -> Result<(), NoMemory>
    ensures { OnOk result (Appends out.old out.new (view_text height first)) }
{
    write!(
        out,
        " viewBox=\"0 -4 138 {height}\" preserveAspectRatio=none><use href=#cycles /><g id=g{first}>\n"
    )
}

// Appends the number of a slot, or a gap, or nothing.
#[tactic(auto, unfolding(crate::specs::LaneTexts::shows_text))]
fn push_shows(viewer: Option<Name>, shows: Shows, out: &mut String) -> Result<(), NoMemory>
    ensures { OnOk result (Appends out.old out.new (shows_text viewer shows)) }
{
    match shows {
        Shows::Nothing => Ok(()),
        Shows::Slot(number) => write!(out, "<text y=-2>{number}</text>"),
        Shows::Gap(first, last) => {
            push_gap(viewer, out)?;
            push_slots(first, last, out)
        }
    }
}

// Appends a gap. On the page of one supplier, other suppliers may hold its slots.
#[tactic(auto, unfolding(crate::specs::LaneTexts::gap_text))]
fn push_gap(viewer: Option<Name>, out: &mut String) -> Result<(), NoMemory>
    ensures { OnOk result (Appends out.old out.new (gap_text viewer)) }
{
    match viewer {
        None => push_fixed(Fixed::GapOfNobody, out),
        Some(_) => push_fixed(Fixed::GapOfOthers, out),
    }
}

#[tactic(auto, unfolding(crate::specs::LaneTexts::slots_text))]
fn push_slots(first: u32, last: u32, out: &mut String) -> Result<(), NoMemory>
    ensures { OnOk result (Appends out.old out.new (slots_text first last)) }
{
    if first == last {
        write!(out, "{first}</text>")
    } else {
        write!(out, "{first} to {last}</text>")
    }
}

// Appends the lane of a slot that is shown, if nobody is granted it on this channel.
#[tactic(auto, unfolding(crate::specs::LaneTexts::ungranted_text))]
fn push_ungranted(shows: Shows, grants: &[GrantRow], out: &mut String) -> Result<(), NoMemory>
    ensures { OnOk result (Appends out.old out.new (ungranted_text shows grants.now)) }
{
    if grants.is_empty() {
        push_free(shows, out)
    } else {
        Ok(())
    }
}

#[tactic(auto, unfolding(crate::specs::LaneTexts::free_text))]
fn push_free(shows: Shows, out: &mut String) -> Result<(), NoMemory>
    ensures { OnOk result (Appends out.old out.new (free_text shows)) }
{
    match shows {
        Shows::Slot(_) => push_fixed(Fixed::Free, out),
        Shows::Nothing | Shows::Gap(_, _) => Ok(()),
    }
}

#[tactic(auto, unfolding(crate::specs::LaneTexts::grants_text))]
fn push_grants(
    names: &[Name],
    cycles: u32,
    grants: &[GrantRow],
    out: &mut String,
) -> Result<(), NoMemory>
    ensures { OnOk result (Appends out.old out.new (grants_text names.now cycles grants.now)) }
{
    for grant in grants {
        push_grant(cycles, number_of(names, grant.supplier), grant, out)?;
    }
    Ok(())
}

// Appends the holder of a lane and the hatched lane, with the mark of the supplier of this number
// above and below it.
#[tactic(auto, unfolding(crate::specs::LaneTexts::grant_text))]
fn push_grant(
    cycles: u32,
    number: usize,
    grant: &GrantRow,
    out: &mut String,
) -> Result<(), NoMemory>
    ensures { OnOk result (Appends out.old out.new (grant_text cycles number grant.now)) }
{
    push_holder(
        grant.node,
        grant.supplier,
        grant.slot.get(),
        grant.channel.as_str(),
        out,
    )?;
    push_mark(number, out)?;
    push_foot(cycles, out)?;
    push_mark(number, out)?;
    push_fixed(Fixed::TextEnd, out)
}

#[tactic(auto, unfolding(crate::specs::LaneTexts::foot_text))]
fn push_foot(cycles: u32, out: &mut String) -> Result<(), NoMemory>
    ensures { OnOk result (Appends out.old out.new (foot_text cycles)) }
{
    write!(out, "</text><text y={cycles}>")
}

#[tactic(auto, unfolding(crate::specs::LaneTexts::holder_text))]
fn push_holder(
    node: Name,
    supplier: Name,
    slot: u32,
    channel: &str,
    out: &mut String,
) -> Result<(), NoMemory>
    ensures { OnOk result (Appends out.old out.new (holder_text node supplier slot channel.now)) }
{
    write!(
        out,
        "<title>{node} of {supplier}\n{slot} {channel}</title><use href=#held /><text y=-1>"
    )
}
