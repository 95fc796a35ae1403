//! The page of a variant.
ghost use Rattle.std.specs.Prelude.{◌≡◌, OnOk, IfOk};
ghost use Rattle.std.specs.String.{string_bytes};
ghost use Rattle.fr_picture.specs.FrameIndexes.{AreByName};
ghost use Rattle.fr_picture.specs.Pages.{IsPage, bands_text, cluster_text, cycle_figures, cycle_text, cycles_text, drawing_text, figures_text, frame_parts, frames_head, head_text, heading_text, legend_end, opened_text, page_text, parent_text, segment_figures, sheet_text, state_text, strips_text, suppliers_text, top_text, viewer_text};
ghost use Rattle.fr_picture.specs.Texts.{Appends};

use crate::change_table::{push_change_style, push_changes_table, push_since};
use crate::changes::{SlotChanges, by_slot, rows_of};
use crate::drawing::{Drawing, Lane, Scale, draw};
use crate::frame_index::{Entry, index, push_index};
use crate::frame_table::push_frames;
use crate::lanes::push_lanes;
use crate::overview::{push_overview, starts_of};
use crate::plan::Plan;
use crate::sets::push_shapes;
use crate::shares::{Share, push_legend, shares_of};
use crate::slot_table::push_slot_table;
use crate::style::style;
use crate::texts::{Fixed, push, push_fixed};
use fr_base::{Channels, Name, NoMemory, Params, RawParams};
use std::alloc::Global;

/// The page of a plan, in HTML. Its drawing has exactly the grants and the cells of the plan, and over them its
/// changes. A name stands in the page as it is: it has
/// letters, digits and underscores alone, and none of these means anything in HTML or in an attribute. `NoMemory` is the only error.
pub fn write_page(alloc: Global, plan: &Plan) -> Result<String, NoMemory>
    ensures { IfOk result (λ text. IsPage plan.now (string_bytes text)) }
{
    let grants = plan.grants.as_slice();
    let cells = plan.cells.as_slice();
    let names = plan.suppliers.as_slice();
    let changes = rows_of(&plan.changes);
    let drawing = draw(alloc, &plan.params, grants, cells, changes)?;
    let slots = by_slot(alloc, changes)?;
    let entries = index(alloc, plan.frames.as_slice())?;
    let shares = shares_of(alloc, names, plan.params.cycles(), grants, cells)?;
    let text = write_parts(
        alloc,
        plan,
        &drawing,
        entries.as_slice(),
        slots.as_slice(),
        shares.as_slice(),
    )?;
    Ok(text)
}

// The parts of a page, one after another.
#[tactic(auto, unfolding(crate::specs::Pages::page_text))]
fn write_parts(
    alloc: Global,
    plan: &Plan,
    drawing: &Drawing,
    index: &[Entry],
    slots: &[SlotChanges],
    shares: &[Share],
) -> Result<String, NoMemory>
    requires by_name { AreByName index.now }
    ensures { IfOk result (λ text.
        string_bytes text
        ≡ page_text plan.now drawing.now index.now slots.now shares.now) }
{
    let cycles = drawing.scale.cycles;
    let lanes = drawing.lanes.as_slice();
    let starts = starts_of(alloc, lanes)?;
    let mut out = String::new(alloc);
    push_top(plan, &mut out)?;
    push_suppliers(plan, shares, &mut out)?;
    push_overview(cycles, starts.as_slice(), &mut out)?;
    push_drawing(alloc, plan, drawing.scale, index, slots, lanes, &mut out)?;
    push_slot_table(alloc, plan, cycles, lanes, &mut out)?;
    push_changes_table(plan.variant, &plan.changes, &mut out)?;
    push_frame_parts(plan, index, &mut out)?;
    Ok(out)
}

// Appends what stands above the legend.
#[tactic(auto, unfolding(crate::specs::Pages::top_text))]
fn push_top(plan: &Plan, out: &mut String) -> Result<(), NoMemory>
    ensures { OnOk result (Appends out.old out.new (top_text plan.now)) }
{
    push_head(plan.variant, out)?;
    push(style(), out)?;
    push_strips(16 * plan.params.payload_words(), out)?;
    push_sheet(plan.params.cycles() + 5, out)?;
    push_change_style(&plan.changes, out)?;
    push_figures(plan, out)
}

// Appends the style of the strips of payloads with so many bits.
#[tactic(auto, unfolding(crate::specs::Pages::strips_text))]
fn push_strips(bits: u32, out: &mut String) -> Result<(), NoMemory>
    ensures { OnOk result (Appends out.old out.new (strips_text bits)) }
{
    write!(out, "td path{{transform:scale(calc(400/{bits}),1)}}\n")
}

// Appends how high a part of the drawing is on paper, where it has this height.
#[tactic(auto, unfolding(crate::specs::Pages::sheet_text))]
fn push_sheet(height: u32, out: &mut String) -> Result<(), NoMemory>
    ensures { OnOk result (Appends out.old out.new (sheet_text height)) }
{
    write!(
        out,
        "@media print{{.plan>svg{{height:calc({height}*2.5mm)}}}}\n"
    )
}

#[tactic(auto, unfolding(crate::specs::Pages::head_text))]
fn push_head(variant: Name, out: &mut String) -> Result<(), NoMemory>
    ensures { OnOk result (Appends out.old out.new (head_text variant)) }
{
    write!(
        out,
        "<!DOCTYPE html>\n<html lang=en>\n<meta charset=utf-8>\n<meta name=viewport content=\"width=device-width,initial-scale=1\">\n<title>Plan of {variant}</title>\n<style>@page{{@bottom-left{{content:\"Variant {variant}\"}}}}"
    )
}

// Appends the variant and the figures of the cluster, and what the changes are of.
#[tactic(auto, unfolding(crate::specs::Pages::figures_text))]
fn push_figures(plan: &Plan, out: &mut String) -> Result<(), NoMemory>
    ensures { OnOk result (Appends out.old out.new (figures_text plan.now)) }
{
    push_heading(plan.variant, out)?;
    push_parent(plan.parent, out)?;
    push_state(plan.released, out)?;
    push_viewer(plan.supplier, out)?;
    push_cluster(&plan.params, out)?;
    push_since(&plan.changes, out)
}

#[tactic(auto, unfolding(crate::specs::Pages::heading_text))]
fn push_heading(variant: Name, out: &mut String) -> Result<(), NoMemory>
    ensures { OnOk result (Appends out.old out.new (heading_text variant)) }
{
    write!(out, "</style>\n<h1>Variant {variant}</h1>\n<p>")
}

#[tactic(auto, unfolding(crate::specs::Pages::parent_text))]
fn push_parent(parent: Option<Name>, out: &mut String) -> Result<(), NoMemory>
    ensures { OnOk result (Appends out.old out.new (parent_text parent)) }
{
    match parent {
        Some(parent) => push_opened(parent, out),
        None => push_fixed(Fixed::NoParent, out),
    }
}

#[tactic(auto, unfolding(crate::specs::Pages::opened_text))]
fn push_opened(parent: Name, out: &mut String) -> Result<(), NoMemory>
    ensures { OnOk result (Appends out.old out.new (opened_text parent)) }
{
    write!(out, "It was opened from {parent},")
}

#[tactic(auto, unfolding(crate::specs::Pages::state_text))]
fn push_state(released: bool, out: &mut String) -> Result<(), NoMemory>
    ensures { OnOk result (Appends out.old out.new (state_text released)) }
{
    if released {
        write!(out, " and is released.")
    } else {
        write!(out, " and is open.")
    }
}

#[tactic(auto, unfolding(crate::specs::Pages::viewer_text))]
fn push_viewer(supplier: Option<Name>, out: &mut String) -> Result<(), NoMemory>
    ensures { OnOk result (Appends out.old out.new (viewer_text supplier)) }
{
    match supplier {
        Some(supplier) => write!(out, " This page shows what is {supplier}'s alone."),
        None => Ok(()),
    }
}

#[tactic(auto, unfolding(crate::specs::Pages::cluster_text))]
fn push_cluster(params: &Params, out: &mut String) -> Result<(), NoMemory>
    ensures { OnOk result (Appends out.old out.new (cluster_text params.now)) }
{
    push_cycle_figures(params.channels().as_str(), params.raw(), out)?;
    push_segments(params.raw(), out)
}

// Appends the channels and the figures of a cycle.
#[tactic(auto, unfolding(crate::specs::Pages::cycle_figures))]
fn push_cycle_figures(channels: &str, raw: RawParams, out: &mut String) -> Result<(), NoMemory>
    ensures { OnOk result (Appends out.old out.new (cycle_figures channels.now raw)) }
{
    let RawParams {
        macroticks_per_cycle,
        payload_words,
        cycles,
        ..
    } = raw;
    write!(
        out,
        "</p>\n<p>Channels {channels}; {cycles} cycles of {macroticks_per_cycle} macroticks; payload length {payload_words} two-byte words; "
    )
}

// Appends the segments of a cycle.
#[tactic(auto, unfolding(crate::specs::Pages::segment_figures))]
fn push_segments(raw: RawParams, out: &mut String) -> Result<(), NoMemory>
    ensures { OnOk result (Appends out.old out.new (segment_figures raw)) }
{
    let RawParams {
        static_slots,
        slot_macroticks,
        dynamic_macroticks,
        symbol_macroticks,
        idle_macroticks,
        ..
    } = raw;
    write!(
        out,
        "{static_slots} static slots of {slot_macroticks} macroticks; in macroticks: dynamic segment {dynamic_macroticks}, symbol window {symbol_macroticks}, network idle time {idle_macroticks}.</p>\n"
    )
}

// Appends the legend: the suppliers, and what the drawing's marks mean.
#[tactic(auto, unfolding(crate::specs::Pages::suppliers_text))]
fn push_suppliers(plan: &Plan, shares: &[Share], out: &mut String) -> Result<(), NoMemory>
    ensures { OnOk result (Appends out.old out.new (suppliers_text plan.now shares.now)) }
{
    push_fixed(Fixed::LegendStart, out)?;
    push_legend(shares, out)?;
    push_legend_end(plan.supplier, out)
}

#[tactic(auto, unfolding(crate::specs::Pages::legend_end))]
fn push_legend_end(viewer: Option<Name>, out: &mut String) -> Result<(), NoMemory>
    ensures { OnOk result (Appends out.old out.new (legend_end viewer)) }
{
    match viewer {
        None => push_fixed(Fixed::LegendEnd, out),
        Some(_) => push_fixed(Fixed::LegendEndOfOne, out),
    }
}

// Appends the drawing.
#[tactic(auto, unfolding(crate::specs::Pages::drawing_text))]
fn push_drawing(
    alloc: Global,
    plan: &Plan,
    scale: Scale,
    index: &[Entry],
    slots: &[SlotChanges],
    lanes: &[Lane],
    out: &mut String,
) -> Result<(), NoMemory>
    requires by_name { AreByName index.now }
    ensures { OnOk result (Appends out.old out.new
        (drawing_text plan.now scale index.now slots.now lanes.now)) }
{
    push_fixed(Fixed::ShapesStart, out)?;
    push_shapes(scale, out)?;
    push_fixed(Fixed::NumbersStart, out)?;
    push_cycles(scale.cycles, out)?;
    push_bands(plan.params.channels(), out)?;
    push_lanes(alloc, plan, scale, index, slots, lanes, out)
}

// Appends the numbers of the cycles.
#[tactic(auto, unfolding(crate::specs::Pages::cycles_text))]
fn push_cycles(cycles: u32, out: &mut String) -> Result<(), NoMemory>
    ensures { OnOk result (Appends out.old out.new (cycles_text cycles)) }
{
    for cycle in 0..cycles {
        push_cycle(cycle, out)?;
    }
    Ok(())
}

#[tactic(auto, unfolding(crate::specs::Pages::cycle_text))]
fn push_cycle(cycle: u32, out: &mut String) -> Result<(), NoMemory>
    ensures { OnOk result (Appends out.old out.new (cycle_text cycle)) }
{
    write!(out, "<text class=names x=3.6 y={cycle}>{cycle}</text>")
}

// Appends what stands beside and above the lanes of each channel.
#[tactic(auto, unfolding(crate::specs::Pages::bands_text))]
fn push_bands(channels: Channels, out: &mut String) -> Result<(), NoMemory>
    ensures { OnOk result (Appends out.old out.new (bands_text channels)) }
{
    match channels {
        Channels::A => push_fixed(Fixed::BandA, out),
        Channels::B => push_fixed(Fixed::BandB, out),
        Channels::AB => push_fixed(Fixed::BandsAB, out),
    }
}

// Appends the index and the table of frames.
#[tactic(auto, unfolding(crate::specs::Pages::frame_parts))]
fn push_frame_parts(plan: &Plan, index: &[Entry], out: &mut String) -> Result<(), NoMemory>
    ensures { OnOk result (Appends out.old out.new (frame_parts plan.now index.now)) }
{
    push_fixed(Fixed::IndexStart, out)?;
    push_index(plan.suppliers.as_slice(), index, out)?;
    push_frames_head(plan.variant, out)?;
    push_frames(plan.frames.as_slice(), out)?;
    push_fixed(Fixed::PageEnd, out)
}

#[tactic(auto, unfolding(crate::specs::Pages::frames_head))]
fn push_frames_head(variant: Name, out: &mut String) -> Result<(), NoMemory>
    ensures { OnOk result (Appends out.old out.new (frames_head variant)) }
{
    write!(
        out,
        "</ul>\n<p>Frames that are never sent come first, then those with the largest gap. A placement has its slot, its channels, and its base and repetition. A gap is in macroticks. A payload has its bits from 0 on, from left to right. A signal has the bit at which it starts, and its length in bits; big order is said.</p>\n<table class=frames>\n<thead><tr><th colspan=7>Variant {variant}: frames<tr><th>number<th>frame<th>node<th>supplier<th>placements<th>greatest gap<th>payload and signals<tbody>\n"
    )
}
