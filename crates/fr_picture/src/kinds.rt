//! The rectangles of one frame in a lane, drawn as one shape with one title. It leads to the
//! frame's row.
ghost use Rattle.std.specs.Prelude.{◌≡◌, ◌+◌, ◌*◌, ◌/◌, ◌<◌, ◌^◌, ◌&&◌, filter, max, length, OnOk, IfOk};
ghost use Rattle.std.specs.String.{string_bytes};
ghost use Rattle.fr_picture.specs.FrameIndexes.{AreByName};
ghost use Rattle.fr_picture.specs.Kinds.{box_text, boxes_text, down_text, follows, was_drawn, is_of_same_frame, is_set, is_whole, shape_text, same_frame_text, label_text, link_start, link_text, names_text, path_text, rectangle_text, rectangles_text, set_of, set_text, shade_text, span_text, spans_text, tag_of, tag_start, title_text, way_text, when_text, within_text};
ghost use Rattle.fr_picture.specs.Texts.{Appends};

use crate::drawing::{Rectangle, Scale};
use crate::frame_index::{Entry, number_in};
use crate::texts::{Fixed, push, push_fixed};
use fr_base::{Name, NoMemory, Sending};
use std::alloc::Global;

// Whether the two rectangles of the lane are of the same frame.
#[tactic(auto, unfolding(crate::specs::Kinds::is_of_same_frame))]
fn is_of_same_frame(other: &Rectangle, one: &Rectangle) -> bool
    ensures { result ≡ is_of_same_frame other.now one.now }
{
    other.first.frame == one.first.frame
        && other.first.node == one.first.node
        && other.first.supplier == one.first.supplier
}

/// The rectangles of a lane that are of the same frame as `one`.
pub(crate) fn of_same_frame(
    alloc: Global,
    all: &[Rectangle],
    one: &Rectangle,
) -> Result<Vec<Rectangle>, NoMemory>
    ensures { IfOk result (λ same.
        same.items ≡ filter (λ other. is_of_same_frame other one.now) all.now) }
{
    let mut same = Vec::new(alloc);
    for other in all {
        if is_of_same_frame(other, one) {
            same.push(*other)?;
        }
    }
    Ok(same)
}

/// Whether a rectangle of the same frame as `one` stands in an earlier cycle of the lane.
#[tactic(auto, unfolding(crate::specs::Kinds::was_drawn))]
pub(crate) fn was_drawn(all: &[Rectangle], one: &Rectangle) -> bool
    ensures { result ≡ was_drawn all.now one.now }
{
    all.iter().any(|other| other.first.cycle < one.first.cycle && is_of_same_frame(other, one))
}

// Whether each rectangle has `height` cycles, the first begins in cycle `from`, and each next one
// begins `step` cycles later.
#[tactic(auto, unfolding(crate::specs::Kinds::follows))]
fn follows(from: u32, step: u32, height: u32, same: &[Rectangle]) -> bool
    ensures { result ≡ follows from step height same.now }
{
    let mut next = u64::from(from);
    for one in same {
        if u64::from(one.first.cycle) != next || one.cycles != height {
            return false;
        }
        next += u64::from(step);
    }
    true
}

/// The repetition, if the rectangles of one frame are exactly the cells of this base and a
/// repetition.
#[tactic(auto, unfolding(crate::specs::Kinds::set_of, crate::specs::Kinds::is_set, crate::specs::Kinds::is_whole))]
pub(crate) fn set_of(cycles: u32, base: u8, same: &[Rectangle]) -> Option<u32>
    ensures { result ≡ set_of cycles base same.now }
{
    let count = same.len() as u64;
    if count == 1 && follows(0, 1, cycles, same) {
        return Some(1);
    }
    let repetition = (u64::from(cycles) / count.max(1)) as u32;
    if repetition > 1
        && u64::from(repetition) * count == u64::from(cycles)
        && u32::from(base) < repetition
        && follows(u32::from(base), repetition, 1, same)
    {
        return Some(repetition);
    }
    None
}

/// Appends the rectangles of a lane. Those of one frame make one shape, which leads to the frame's
/// row.
#[tactic(auto, unfolding(crate::specs::Kinds::rectangles_text))]
pub(crate) fn push_rectangles(
    alloc: Global,
    scale: Scale,
    index: &[Entry],
    all: &[Rectangle],
    out: &mut String,
) -> Result<(), NoMemory>
    requires by_name { AreByName index.now }
    ensures { OnOk result (Appends out.old out.new (rectangles_text scale index.now all.now)) }
{
    for one in all {
        push_rectangle(alloc, scale, index, all, one, out)?;
    }
    Ok(())
}

// Appends all rectangles of the frame of `one`, if `one` is the first of them.
#[tactic(auto, unfolding(crate::specs::Kinds::rectangle_text))]
fn push_rectangle(
    alloc: Global,
    scale: Scale,
    index: &[Entry],
    all: &[Rectangle],
    one: &Rectangle,
    out: &mut String,
) -> Result<(), NoMemory>
    requires by_name { AreByName index.now }
    ensures { OnOk result (Appends out.old out.new
        (rectangle_text scale index.now all.now one.now)) }
{
    if was_drawn(all, one) {
        return Ok(());
    }
    let same = of_same_frame(alloc, all, one)?;
    push_same_frame(
        alloc,
        scale,
        number_in(index, &one.first),
        same.as_slice(),
        one,
        out,
    )
}

// Appends the rectangles of one frame, of which `one` is the first, with the number of the frame's
// row.
#[tactic(auto, unfolding(crate::specs::Kinds::same_frame_text))]
fn push_same_frame(
    alloc: Global,
    scale: Scale,
    number: Option<u64>,
    same: &[Rectangle],
    one: &Rectangle,
    out: &mut String,
) -> Result<(), NoMemory>
    ensures { OnOk result (Appends out.old out.new (same_frame_text scale number same.now one.now)) }
{
    let repetition = set_of(scale.cycles, one.first.cycle, same);
    let tag = tag_of(alloc, number)?;
    push_link_start(&one.first, number, out)?;
    push_title(same, one, repetition, out)?;
    push_shape(scale.width, same, one, repetition, out)?;
    push_label(scale.width, tag.as_str(), one, out)?;
    push_fixed(Fixed::LinkEnd, out)
}

// Appends the beginning of a frame's rectangles: their shade, and where they lead.
#[tactic(auto, unfolding(crate::specs::Kinds::link_start))]
fn push_link_start(cell: &Sending, number: Option<u64>, out: &mut String) -> Result<(), NoMemory>
    ensures { OnOk result (Appends out.old out.new (link_start cell.now number)) }
{
    push_fixed(Fixed::LinkStart, out)?;
    push_shade(cell.cycle, out)?;
    push_way(cell, number, out)
}

// Appends the shade of a frame that begins in this cycle.
#[tactic(auto, unfolding(crate::specs::Kinds::shade_text))]
fn push_shade(cycle: u8, out: &mut String) -> Result<(), NoMemory>
    ensures { OnOk result (Appends out.old out.new (shade_text cycle)) }
{
    if cycle % 2 == 0 {
        Ok(())
    } else {
        push_fixed(Fixed::OddShade, out)
    }
}

// Appends what leads to the row of this number.
#[tactic(auto, unfolding(crate::specs::Kinds::way_text))]
fn push_way(cell: &Sending, number: Option<u64>, out: &mut String) -> Result<(), NoMemory>
    ensures { OnOk result (Appends out.old out.new (way_text cell.now number)) }
{
    match number {
        Some(number) => push_link(cell.slot.get(), cell.channel.as_str(), number, out),
        None => push_fixed(Fixed::TagEnd, out),
    }
}

#[tactic(auto, unfolding(crate::specs::Kinds::link_text))]
fn push_link(slot: u32, channel: &str, number: u64, out: &mut String) -> Result<(), NoMemory>
    ensures { OnOk result (Appends out.old out.new (link_text slot channel.now number)) }
{
    write!(out, " id={slot}{channel}{number} href=#r{number}>")
}

// Appends a title: frame, node, supplier, slot, channel and cycles.
#[tactic(auto, unfolding(crate::specs::Kinds::title_text))]
fn push_title(
    same: &[Rectangle],
    one: &Rectangle,
    repetition: Option<u32>,
    out: &mut String,
) -> Result<(), NoMemory>
    ensures { OnOk result (Appends out.old out.new (title_text same.now one.now repetition)) }
{
    push_names(&one.first, out)?;
    push_when(same, one, repetition, out)?;
    push_fixed(Fixed::TitleEnd, out)
}

/// Appends the cycles in which a frame is sent: base and repetition, or the cycles themselves.
#[tactic(auto, unfolding(crate::specs::Kinds::when_text))]
pub(crate) fn push_when(
    same: &[Rectangle],
    one: &Rectangle,
    repetition: Option<u32>,
    out: &mut String,
) -> Result<(), NoMemory>
    ensures { OnOk result (Appends out.old out.new (when_text same.now one.now repetition)) }
{
    match repetition {
        Some(repetition) => push_within(one.first.cycle, repetition, out),
        None => {
            push_fixed(Fixed::CyclesStart, out)?;
            push_spans(same, out)
        }
    }
}

#[tactic(auto, unfolding(crate::specs::Kinds::shape_text))]
fn push_shape(
    width: u32,
    same: &[Rectangle],
    one: &Rectangle,
    repetition: Option<u32>,
    out: &mut String,
) -> Result<(), NoMemory>
    ensures { OnOk result (Appends out.old out.new (shape_text width same.now one.now repetition)) }
{
    match repetition {
        Some(repetition) => push_set(repetition, one.first.cycle, out),
        None => push_path(width, same, out),
    }
}

/// Appends the cells of a base and a repetition: they use a shape that the page has elsewhere.
#[tactic(auto, unfolding(crate::specs::Kinds::set_text))]
pub(crate) fn push_set(repetition: u32, base: u8, out: &mut String) -> Result<(), NoMemory>
    ensures { OnOk result (Appends out.old out.new (set_text repetition base)) }
{
    if base == 0 {
        write!(out, "<use href=#{repetition} />")
    } else {
        write!(out, "<use href=#{repetition} y={base} />")
    }
}

// Appends a base and a repetition.
#[tactic(auto, unfolding(crate::specs::Kinds::within_text))]
fn push_within(base: u8, repetition: u32, out: &mut String) -> Result<(), NoMemory>
    ensures { OnOk result (Appends out.old out.new (within_text base repetition)) }
{
    write!(out, " {base}/{repetition}")
}

// Appends the beginning of a title: frame, node, supplier, slot and channel.
#[tactic(auto, unfolding(crate::specs::Kinds::names_text))]
fn push_names(cell: &Sending, out: &mut String) -> Result<(), NoMemory>
    ensures { OnOk result (Appends out.old out.new (names_text cell.now)) }
{
    let (frame, node, supplier) = (cell.frame, cell.node, cell.supplier);
    let (slot, channel) = (cell.slot.get(), cell.channel.as_str());
    write!(
        out,
        "<title>{frame}\n{node} of {supplier}\n{slot} {channel}"
    )
}

// Appends rectangles of one frame as one path, and over it that of the supplier's pattern.
#[tactic(auto, unfolding(crate::specs::Kinds::path_text))]
fn push_path(width: u32, same: &[Rectangle], out: &mut String) -> Result<(), NoMemory>
    ensures { OnOk result (Appends out.old out.new (path_text width same.now)) }
{
    push_fixed(Fixed::PathStart, out)?;
    push_boxes(width, same, out)?;
    push_fixed(Fixed::OverStart, out)?;
    push_boxes(width, same, out)?;
    push_fixed(Fixed::PathEnd, out)
}

#[tactic(auto, unfolding(crate::specs::Kinds::boxes_text))]
fn push_boxes(width: u32, same: &[Rectangle], out: &mut String) -> Result<(), NoMemory>
    ensures { OnOk result (Appends out.old out.new (boxes_text width same.now)) }
{
    for one in same {
        push_box(u32::from(one.first.cycle), width, one.cycles, out)?;
    }
    Ok(())
}

/// Appends a rectangle as part of a path: the cycle in which it begins, its width and its height.
#[tactic(auto, unfolding(crate::specs::Kinds::box_text))]
pub(crate) fn push_box(y: u32, width: u32, height: u32, out: &mut String) -> Result<(), NoMemory>
    ensures { OnOk result (Appends out.old out.new (box_text y width height)) }
{
    write!(out, "M0 {y}h{width}v{height}h-{width}z")
}

// Appends the cycles of each rectangle: its cycle, or its first and its last one where it has more.
#[tactic(auto, unfolding(crate::specs::Kinds::spans_text))]
fn push_spans(same: &[Rectangle], out: &mut String) -> Result<(), NoMemory>
    ensures { OnOk result (Appends out.old out.new (spans_text same.now)) }
{
    for one in same {
        push_span(u64::from(one.first.cycle), u64::from(one.cycles), out)?;
    }
    Ok(())
}

#[tactic(auto, unfolding(crate::specs::Kinds::span_text))]
fn push_span(cycle: u64, cycles: u64, out: &mut String) -> Result<(), NoMemory>
    requires cycle { cycle < 256 }
    requires small { cycles < 4294967296 }
    ensures { OnOk result (Appends out.old out.new (span_text cycle cycles)) }
{
    if cycles < 2 {
        write!(out, " {cycle}")
    } else {
        let last = cycle + cycles - 1;
        write!(out, " {cycle}-{last}")
    }
}

// The number of a frame's row as a text, if it has one.
#[tactic(auto, unfolding(crate::specs::Kinds::tag_of))]
fn tag_of(alloc: Global, number: Option<u64>) -> Result<String, NoMemory>
    ensures { IfOk result (λ tag. string_bytes tag ≡ tag_of number) }
{
    let mut tag = String::new(alloc);
    if let Some(number) = number {
        write!(tag, "{number}")?;
    }
    Ok(tag)
}

// Appends the frame's number in its first rectangle, and its name beside it where it has room, else
// below.
#[tactic(auto, unfolding(crate::specs::Kinds::label_text))]
fn push_label(width: u32, tag: &str, one: &Rectangle, out: &mut String) -> Result<(), NoMemory>
    ensures { OnOk result (Appends out.old out.new (label_text width tag.now one.now)) }
{
    let frame = one.first.frame;
    let cycle = one.first.cycle;
    if tag.len() as u64 + (frame.as_str().len() as u64) < 2 * u64::from(width) {
        return write!(out, "<text y={cycle}>{tag} {frame}</text>");
    }
    push_tag_start(width, tag.len() as u64, cycle, out)?;
    push(tag, out)?;
    push_fixed(Fixed::TextEnd, out)?;
    push_down(cycle, one.cycles, frame, out)
}

// Appends the beginning of a number in a lane of this width: smaller, where it has more digits than
// a lane has room for.
#[tactic(auto, unfolding(crate::specs::Kinds::tag_start))]
fn push_tag_start(width: u32, digits: u64, cycle: u8, out: &mut String) -> Result<(), NoMemory>
    requires small { digits < 2 ^ 63 }
    ensures { OnOk result (Appends out.old out.new (tag_start width digits cycle)) }
{
    if digits + 1 < 2 * u64::from(width) + 1 {
        write!(out, "<text y={cycle}>")
    } else {
        write!(out, "<text class=s y={cycle}>")
    }
}

// Appends the frame's name down, below the number, where it has room.
#[tactic(auto, unfolding(crate::specs::Kinds::down_text))]
fn push_down(cycle: u8, cycles: u32, frame: Name, out: &mut String) -> Result<(), NoMemory>
    ensures { OnOk result (Appends out.old out.new (down_text cycle cycles frame)) }
{
    let below = u32::from(cycle) + 1;
    if frame.as_str().len() as u64 + 2 < 2 * u64::from(cycles) {
        write!(out, "<text class=v y={below}>{frame}</text>")
    } else {
        Ok(())
    }
}
