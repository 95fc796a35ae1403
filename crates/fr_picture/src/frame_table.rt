//! The table of frames: their numbers, placements, greatest gaps and payloads.
ghost use Rattle.std.specs.Prelude.{◌≡◌, OnErr, OnOk, IsPermutation};
ghost use Rattle.fr_picture.specs.FrameTables.{AreWorstFirst, KeepTies, back_text, first_of, frame_text, frames_text, gap_word, names_text, number_text, placement_text, row_start, placement_text_of, placements_text, urgency};
ghost use Rattle.fr_picture.specs.Texts.{Appends};

use crate::signals::{DrawnSignal, push_strip};
use crate::texts::{Fixed, push_fixed};
use fr_base::{Channel, Channels, FrameRow, Name, NoMemory, Placement, Rows};

/// A frame as the page shows it.
#[derive(Drop)]
pub struct DrawnFrame {
    /// The frame, and where it is sent.
    pub row: FrameRow,
    /// Its greatest gap in macroticks, if it is sent at all.
    pub gap: Option<u32>,
    /// Its signals.
    pub signals: Rows<DrawnSignal>,
}

/// Puts the frames in the order of the table: first those that are never sent, then those with a
/// greater gap before those with a smaller one. Frames with the same gap stay in their order. An
/// error leaves the frames as they were.
pub fn worst_first(frames: &mut Vec<DrawnFrame>) -> Result<(), NoMemory>
    ensures same { IsPermutation frames.old.items frames.new.items }
    ensures sorted { OnOk result (AreWorstFirst frames.new.items) }
    ensures stable { KeepTies frames.old.items frames.new.items }
    ensures err { OnErr result (frames.new.items ≡ frames.old.items) }
{
    frames.sort_by_key(|frame| urgency(frame.gap))?;
    Ok(())
}

// The place of a frame with this gap in the order of the table: a smaller number comes earlier.
fn urgency(gap: Option<u32>) -> u64
    ensures { result ≡ urgency gap }
{
    match gap {
        None => 0,
        Some(gap) => 0x1_0000_0000u64 - u64::from(gap),
    }
}

/// Appends the rows of the table.
#[tactic(auto, unfolding(crate::specs::FrameTables::frames_text))]
pub(crate) fn push_frames(frames: &[DrawnFrame], out: &mut String) -> Result<(), NoMemory>
    ensures { OnOk result (Appends out.old out.new (frames_text frames.now)) }
{
    for (place, frame) in frames.iter().enumerate() {
        push_frame(place as u64 + 1, frame, out)?;
    }
    Ok(())
}

#[tactic(auto, unfolding(crate::specs::FrameTables::frame_text))]
fn push_frame(number: u64, frame: &DrawnFrame, out: &mut String) -> Result<(), NoMemory>
    ensures { OnOk result (Appends out.old out.new (frame_text number frame.now)) }
{
    push_row_start(number, out)?;
    push_names(frame.row.frame, frame.row.node, frame.row.supplier, out)?;
    push_placements(number, frame.row.placements.as_slice(), out)?;
    push_gap(frame.gap, out)?;
    push_strip(frame.signals.as_slice(), out)
}

#[tactic(auto, unfolding(crate::specs::FrameTables::row_start))]
fn push_row_start(number: u64, out: &mut String) -> Result<(), NoMemory>
    ensures { OnOk result (Appends out.old out.new (row_start number)) }
{
    write!(out, "<tr id=r{number}><td>{number}")
}

#[tactic(auto, unfolding(crate::specs::FrameTables::names_text))]
fn push_names(frame: Name, node: Name, supplier: Name, out: &mut String) -> Result<(), NoMemory>
    ensures { OnOk result (Appends out.old out.new (names_text frame node supplier)) }
{
    write!(out, "<td>{frame}<td>{node}<td>{supplier}<td>")
}

#[tactic(auto, unfolding(crate::specs::FrameTables::placements_text))]
fn push_placements(number: u64, placements: &[Placement], out: &mut String) -> Result<(), NoMemory>
    ensures { OnOk result (Appends out.old out.new (placements_text number placements.now)) }
{
    for placement in placements {
        push_placement(number, placement, out)?;
    }
    Ok(())
}

// Appends a placement of the frame of this number, which leads to where it is drawn.
#[tactic(auto, unfolding(crate::specs::FrameTables::placement_text))]
fn push_placement(number: u64, placement: &Placement, out: &mut String) -> Result<(), NoMemory>
    ensures { OnOk result (Appends out.old out.new (placement_text number placement.now)) }
{
    push_back(
        number,
        placement.slot.get(),
        first_of(placement.channels).as_str(),
        out,
    )?;
    push_placement_of(
        placement.slot.get(),
        placement.channels.as_str(),
        placement.cycles.base(),
        placement.cycles.repetition(),
        out,
    )
}

// The first of a placement's channels.
#[tactic(auto, unfolding(crate::specs::FrameTables::first_of))]
fn first_of(channels: Channels) -> Channel
    ensures { result ≡ first_of channels }
{
    match channels {
        Channels::A | Channels::AB => Channel::A,
        Channels::B => Channel::B,
    }
}

#[tactic(auto, unfolding(crate::specs::FrameTables::back_text))]
fn push_back(number: u64, slot: u32, channel: &str, out: &mut String) -> Result<(), NoMemory>
    ensures { OnOk result (Appends out.old out.new (back_text number slot channel.now)) }
{
    write!(out, "<a href=#{slot}{channel}{number}>")
}

#[tactic(auto, unfolding(crate::specs::FrameTables::placement_text_of))]
fn push_placement_of(
    slot: u32,
    channels: &str,
    base: u8,
    repetition: u8,
    out: &mut String,
) -> Result<(), NoMemory>
    ensures { OnOk result (Appends out.old out.new
        (placement_text_of slot channels.now base repetition)) }
{
    write!(out, "{slot} {channels} {base}/{repetition}</a>\n")
}

#[tactic(auto, unfolding(crate::specs::FrameTables::gap_word))]
fn push_gap(gap: Option<u32>, out: &mut String) -> Result<(), NoMemory>
    ensures { OnOk result (Appends out.old out.new (gap_word gap)) }
{
    match gap {
        None => push_fixed(Fixed::Never, out),
        Some(gap) => push_number(gap, out),
    }
}

#[tactic(auto, unfolding(crate::specs::FrameTables::number_text))]
fn push_number(number: u32, out: &mut String) -> Result<(), NoMemory>
    ensures { OnOk result (Appends out.old out.new (number_text number)) }
{
    write!(out, "<td>{number}")
}
