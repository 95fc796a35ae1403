//! The frames of a plan, with their gaps and signals.
ghost use Rattle.std.specs.List.{All, slice_get};
ghost use Rattle.std.specs.Prelude.{◌≡◌, map, IfOk};
ghost use Rattle.fr_base.specs.Desks.{AsksDesk};
ghost use Rattle.fr_base.specs.declared.refusal.Refusal.TheVariants.{Unavailable};
ghost use Rattle.fr_picture.specs.Strips.{HasItsBits};
ghost use Rattle.fr_picture.specs.Frames.{AreDrawn, AreDrawnOf, AreFrames, AreSignals, IsDrawn, MayRefusePlan};
ghost use Rattle.fr_picture.specs.Reports.{GivesRead};

use crate::frame_table::{DrawnFrame, worst_first};
use crate::reports::{View, copy, frame_rows, gaps, signal_rows};
use crate::signals::DrawnSignal;
use fr_base::{Desk, FrameRow, GapRow, NoMemory, Refusal, Rows, SignalRow, Text};
use std::alloc::Global;

/// The frames as the reader sees them, each with its greatest gap and its signals. First come those
/// that are never sent, then those with a greater gap before those with a smaller one.
pub(crate) fn frames<D: Desk>(
    alloc: Global,
    desk: &mut D,
    view: &View<'_>,
) -> Result<Vec<DrawnFrame>, Refusal>
    ensures { AsksDesk D.Desk (GivesRead
        (λ c b frames. AreFrames c b view.now.reader view.now.variant.now frames.items)
        (λ c b e. MayRefusePlan c b view.now.reader view.now.variant.now e))
        desk.old desk.new result }
{
    let rows = frame_rows(alloc, desk, view)?;
    frames_of(alloc, desk, view, rows.as_slice())
}

// The frames of these rows, with their gaps, in the order of the page.
fn frames_of<D: Desk>(
    alloc: Global,
    desk: &mut D,
    view: &View<'_>,
    rows: &[FrameRow],
) -> Result<Vec<DrawnFrame>, Refusal>
    ensures { AsksDesk D.Desk (GivesRead
        (λ c b frames. AreDrawnOf c b view.now.reader view.now.variant.now rows.now frames.items)
        (λ c b e. MayRefusePlan c b view.now.reader view.now.variant.now e))
        desk.old desk.new result }
{
    let gaps = gaps(alloc, desk, view)?;
    let mut frames = draw_frames(alloc, desk, view.variant, rows, gaps.as_slice())?;
    worst_first(&mut frames)?;
    Ok(frames)
}

// The frames of these rows, each with the gap at the row's place.
fn draw_frames<D: Desk>(
    alloc: Global,
    desk: &mut D,
    variant: &str,
    rows: &[FrameRow],
    gaps: &[GapRow],
) -> Result<Vec<DrawnFrame>, Refusal>
    ensures { AsksDesk D.Desk (GivesRead
        (λ c b frames. AreDrawn c b variant.now rows.now gaps.now frames.items)
        (λ c b e. e ≡ Unavailable))
        desk.old desk.new result }
{
    let mut frames = Vec::new(alloc);
    for (place, row) in rows.iter().enumerate() {
        let Some(gap) = gap_at(gaps, place) else {
            return Err(Refusal::Unavailable);
        };
        frames.push(draw_frame(alloc, desk, variant, row, gap.gap)?)?;
    }
    Ok(frames)
}

// The gap at this place.
fn gap_at(gaps: &[GapRow], place: usize) -> Option<GapRow>
    ensures { result ≡ slice_get gaps.now place }
{
    gaps.get(place).copied()
}

// The frame of this row, with this gap.
fn draw_frame<D: Desk>(
    alloc: Global,
    desk: &mut D,
    variant: &str,
    row: &FrameRow,
    gap: Option<u32>,
) -> Result<DrawnFrame, Refusal>
    ensures { AsksDesk D.Desk (GivesRead
        (λ c b frame. IsDrawn c b variant.now row.now gap frame) (λ c b e. e ≡ Unavailable))
        desk.old desk.new result }
{
    let signals = draw_signals(alloc, desk, variant, row)?;
    let row = copy_row(alloc, row)?;
    Ok(DrawnFrame { row, gap, signals })
}

// The signals of this frame. The frame was listed, so only want of memory can be told in their
// place.
fn draw_signals<D: Desk>(
    alloc: Global,
    desk: &mut D,
    variant: &str,
    row: &FrameRow,
) -> Result<Rows<DrawnSignal>, Refusal>
    ensures { AsksDesk D.Desk (GivesRead
        (λ c b signals. AreSignals c b variant.now row.now signals) (λ c b e. e ≡ Unavailable))
        desk.old desk.new result }
{
    let frame = Text::copy(alloc, row.frame.as_str())?;
    match signal_rows(alloc, desk, row.supplier, variant, frame) {
        Ok(rows) => Ok(draw_rows(alloc, rows.as_slice())?),
        Err(_) => Err(Refusal::Unavailable),
    }
}

// The drawn signals of these rows.
fn draw_rows(alloc: Global, rows: &[SignalRow]) -> Result<Rows<DrawnSignal>, NoMemory>
    ensures signals { IfOk result
        (λ signals. map (λ s. s.signal) signals ≡ map (λ r. r.signal) rows.now) }
    ensures bits { IfOk result (λ signals. All HasItsBits signals) }
{
    let mut signals = Rows::new(alloc);
    for row in rows {
        signals.push(DrawnSignal::of(alloc, row.signal)?)?;
    }
    Ok(signals)
}

// A copy of the row.
fn copy_row(alloc: Global, row: &FrameRow) -> Result<FrameRow, NoMemory>
    ensures { IfOk result (λ copied. copied ≡ row.now) }
{
    Ok(FrameRow {
        frame: row.frame,
        node: row.node,
        supplier: row.supplier,
        placements: copy(alloc, row.placements.as_slice())?,
    })
}
