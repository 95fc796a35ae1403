//! The changes that free a frame, which rows of a replacement name.
ghost use Rattle.std.specs.Prelude.{◌≡◌, map, IfOk};
ghost use Rattle.fr_base.specs.Queries.{placements_in};
ghost use Rattle.fr_base.specs.Step.{frame_of_row, kind_of_row};
ghost use Rattle.fr_base.specs.Tables.{get};
ghost use Rattle.fr_world.specs.Pages.{frame_data, frame_of, own_rows_of};
ghost use Rattle.fr_world.specs.ReplacementDecisions.{freeing};

use super::rows::frame_named;
use crate::page::{Page, PageFrame};
use fr_base::{FrameChange, Header, Name, NoMemory, Row};
use std::alloc::Global;

/// The name of the row's frame.
pub(super) fn named_frame(row: &Row) -> Name
    ensures { result ≡ frame_of_row row.now }
{
    match row {
        Row::AddFrame { frame, .. } | Row::Place { frame, .. } | Row::AddSignal { frame, .. } => {
            *frame
        }
    }
}

/// The row's kind, as a file's header tells it.
pub(super) fn kind_of(row: &Row) -> Header
    ensures { result ≡ kind_of_row row.now }
{
    match row {
        Row::AddFrame { .. } => Header::Frames,
        Row::Place { .. } => Header::Placements,
        Row::AddSignal { .. } => Header::Signals,
    }
}

/// The changes that end the placements of the frame, or its signals, by the kind of the rows. A frame
/// that is not there has none.
pub(super) fn freeing(
    alloc: Global,
    page: &Page,
    kind: Header,
    frame: Name,
) -> Result<Vec<FrameChange>, NoMemory>
    ensures { IfOk result (λ ends.
        ends.items ≡ freeing kind (get (own_rows_of page.now).frames (page.now.supplier, frame))) }
{
    match kind {
        Header::Frames => Ok(Vec::new(alloc)),
        Header::Placements => match frame_named(page, frame) {
            Some(row) => ends_of_placements(alloc, row),
            None => Ok(Vec::new(alloc)),
        },
        Header::Signals => match frame_named(page, frame) {
            Some(row) => ends_of_signals(alloc, row),
            None => Ok(Vec::new(alloc)),
        },
    }
}

// The change that ends each placement of the frame.
fn ends_of_placements(alloc: Global, frame: &PageFrame) -> Result<Vec<FrameChange>, NoMemory>
    ensures { IfOk result (λ ends.
        ends.items ≡ map FrameChange.Unplace (placements_in (frame_of (frame_data frame.now)))) }
{
    let mut ends = Vec::new(alloc);
    for placement in frame.placements.iter() {
        ends.push(FrameChange::Unplace(*placement))?;
    }
    Ok(ends)
}

// The change that ends each signal of the frame.
fn ends_of_signals(alloc: Global, frame: &PageFrame) -> Result<Vec<FrameChange>, NoMemory>
    ensures { IfOk result (λ ends.
        ends.items ≡ map (λ s. FrameChange.DropSignal s.name) frame.now.layout.signals) }
{
    let mut ends = Vec::new(alloc);
    for signal in frame.layout.signals() {
        ends.push(FrameChange::DropSignal(signal.name()))?;
    }
    Ok(ends)
}
