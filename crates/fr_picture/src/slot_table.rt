//! The table of slots: who holds each lane, what is sent there and in which cycles, and how full
//! the lane is.
ghost use Rattle.std.specs.Prelude.{◌≡◌, OnOk};
ghost use Rattle.fr_picture.specs.SlotTables.{all_sent_text, comma_text, frame_text, head_text, stands_behind_another, lane_name_text, lane_rows_text, load_of, load_text, owner_text, row_text, rows_text, sent_text, slot_table_text, turn_text};
ghost use Rattle.fr_picture.specs.Texts.{Appends};

use crate::drawing::{Lane, Rectangle};
use crate::kinds::{of_same_frame, push_when, set_of, was_drawn};
use crate::plan::Plan;
use crate::shares::{number_of, push_mark};
use crate::texts::{Fixed, push_fixed};
use fr_base::{GrantRow, Name, NoMemory};
use std::alloc::Global;

/// Appends the table of the plan's lanes.
#[tactic(auto, unfolding(crate::specs::SlotTables::slot_table_text))]
pub(crate) fn push_slot_table(
    alloc: Global,
    plan: &Plan,
    cycles: u32,
    lanes: &[Lane],
    out: &mut String,
) -> Result<(), NoMemory>
    ensures { OnOk result (Appends out.old out.new (slot_table_text plan.now cycles lanes.now)) }
{
    push_head(plan.variant, out)?;
    push_rows(alloc, plan.suppliers.as_slice(), cycles, lanes, out)?;
    push_fixed(Fixed::SlotTableEnd, out)
}

// Appends the end of the drawing, and the head of the table.
#[tactic(auto, unfolding(crate::specs::SlotTables::head_text))]
fn push_head(variant: Name, out: &mut String) -> Result<(), NoMemory>
    ensures { OnOk result (Appends out.old out.new (head_text variant)) }
{
    write!(
        out,
        "</g></svg></div>\n<h2>Slots</h2>\n<p>Before a frame's name stand its base and repetition, or its cycles. The load is the number of cycles in which something is sent.</p>\n<table>\n<thead><tr><th colspan=4>Variant {variant}: slots<tr><th>slot<th>granted to<th>sent<th>load<tbody>\n"
    )
}

#[tactic(auto, unfolding(crate::specs::SlotTables::rows_text))]
fn push_rows(
    alloc: Global,
    names: &[Name],
    cycles: u32,
    lanes: &[Lane],
    out: &mut String,
) -> Result<(), NoMemory>
    ensures { OnOk result (Appends out.old out.new (rows_text names.now cycles lanes.now)) }
{
    for lane in lanes {
        push_lane(alloc, names, cycles, lane, out)?;
    }
    Ok(())
}

// Appends a row for each grant of a lane.
#[tactic(auto, unfolding(crate::specs::SlotTables::lane_rows_text))]
fn push_lane(
    alloc: Global,
    names: &[Name],
    cycles: u32,
    lane: &Lane,
    out: &mut String,
) -> Result<(), NoMemory>
    ensures { OnOk result (Appends out.old out.new (lane_rows_text names.now cycles lane.now)) }
{
    let rectangles = lane.rectangles.as_slice();
    for grant in lane.grants.as_slice() {
        push_row(alloc, names, cycles, rectangles, grant, out)?;
    }
    Ok(())
}

#[tactic(auto, unfolding(crate::specs::SlotTables::row_text))]
fn push_row(
    alloc: Global,
    names: &[Name],
    cycles: u32,
    rectangles: &[Rectangle],
    grant: &GrantRow,
    out: &mut String,
) -> Result<(), NoMemory>
    ensures { OnOk result (Appends out.old out.new
        (row_text names.now cycles rectangles.now grant.now)) }
{
    push_fixed(Fixed::SlotRow, out)?;
    push_lane_name(grant.slot.get(), grant.channel.as_str(), out)?;
    push_mark(number_of(names, grant.supplier), out)?;
    push_owner(grant.node, grant.supplier, out)?;
    push_all_sent(alloc, cycles, rectangles, out)?;
    push_load(load_of(rectangles), cycles, out)
}

#[tactic(auto, unfolding(crate::specs::SlotTables::lane_name_text))]
fn push_lane_name(slot: u32, channel: &str, out: &mut String) -> Result<(), NoMemory>
    ensures { OnOk result (Appends out.old out.new (lane_name_text slot channel.now)) }
{
    write!(out, "{slot} {channel}<td>")
}

#[tactic(auto, unfolding(crate::specs::SlotTables::owner_text))]
fn push_owner(node: Name, supplier: Name, out: &mut String) -> Result<(), NoMemory>
    ensures { OnOk result (Appends out.old out.new (owner_text node supplier)) }
{
    write!(out, " {node} of {supplier}<td>")
}

#[tactic(auto, unfolding(crate::specs::SlotTables::load_text))]
fn push_load(load: u64, cycles: u32, out: &mut String) -> Result<(), NoMemory>
    ensures { OnOk result (Appends out.old out.new (load_text load cycles)) }
{
    write!(out, "<td>{load} of {cycles}\n")
}

// In how many cycles of the lane something is sent.
#[tactic(auto, unfolding(crate::specs::SlotTables::load_of))]
fn load_of(rectangles: &[Rectangle]) -> u64
    ensures { result ≡ load_of rectangles.now }
{
    let mut load: u64 = 0;
    for one in rectangles {
        load = load.saturating_add(u64::from(one.cycles));
    }
    load
}

// Appends what is sent in a lane.
#[tactic(auto, unfolding(crate::specs::SlotTables::all_sent_text))]
fn push_all_sent(
    alloc: Global,
    cycles: u32,
    all: &[Rectangle],
    out: &mut String,
) -> Result<(), NoMemory>
    ensures { OnOk result (Appends out.old out.new (all_sent_text cycles all.now)) }
{
    for one in all {
        push_sent(alloc, cycles, all, one, out)?;
    }
    Ok(())
}

// Appends the frame of this rectangle, if the rectangle is the first of the frame.
#[tactic(auto, unfolding(crate::specs::SlotTables::sent_text))]
fn push_sent(
    alloc: Global,
    cycles: u32,
    all: &[Rectangle],
    one: &Rectangle,
    out: &mut String,
) -> Result<(), NoMemory>
    ensures { OnOk result (Appends out.old out.new (sent_text cycles all.now one.now)) }
{
    if was_drawn(all, one) {
        return Ok(());
    }
    let same = of_same_frame(alloc, all, one)?;
    push_comma(all, one, out)?;
    push_turn(cycles, same.as_slice(), one, out)
}

// Appends a comma, where a frame stands before this one.
#[tactic(auto, unfolding(crate::specs::SlotTables::comma_text))]
fn push_comma(all: &[Rectangle], one: &Rectangle, out: &mut String) -> Result<(), NoMemory>
    ensures { OnOk result (Appends out.old out.new (comma_text all.now one.now)) }
{
    if stands_behind_another(all, one) {
        push_fixed(Fixed::Comma, out)
    } else {
        Ok(())
    }
}

// Whether something is sent in an earlier cycle of the lane.
#[tactic(auto, unfolding(crate::specs::SlotTables::stands_behind_another))]
fn stands_behind_another(all: &[Rectangle], one: &Rectangle) -> bool
    ensures { result ≡ stands_behind_another all.now one.now }
{
    all.iter().any(|other| other.first.cycle < one.first.cycle)
}

// Appends the cycles in which a frame is sent, and the frame's name.
#[tactic(auto, unfolding(crate::specs::SlotTables::turn_text))]
fn push_turn(
    cycles: u32,
    same: &[Rectangle],
    one: &Rectangle,
    out: &mut String,
) -> Result<(), NoMemory>
    ensures { OnOk result (Appends out.old out.new (turn_text cycles same.now one.now)) }
{
    let repetition = set_of(cycles, one.first.cycle, same);
    push_when(same, one, repetition, out)?;
    push_frame(one.first.frame, out)
}

#[tactic(auto, unfolding(crate::specs::SlotTables::frame_text))]
fn push_frame(frame: Name, out: &mut String) -> Result<(), NoMemory>
    ensures { OnOk result (Appends out.old out.new (frame_text frame)) }
{
    write!(out, " {frame}")
}
