//! The changes that clear all frames of the supplier, for a whole replacement.
ghost use Rattle.std.specs.Prelude.{◌≡◌, [], ◌∷◌, if◌then◌else◌, map, Some, IfErr, IfOk, OnOk};
ghost use Rattle.std.specs.List.{list_any};
ghost use Rattle.fr_base.specs.Step.{names_with};
ghost use Rattle.fr_base.specs.Tables.{get};
ghost use Rattle.fr_base.specs.declared.refusal.Refusal.TheVariants.{Unavailable};
ghost use Rattle.fr_world.specs.Drafts.{draft_data};
ghost use Rattle.fr_world.specs.Pages.{own_rows_of};
ghost use Rattle.fr_world.specs.ReplacementDecisions.{clear_all, clear_frame, clearing};

use super::draft::Draft;
use super::freeing::freeing;
use super::rows::frame_named;
use crate::page::Page;
use fr_base::{FrameChange, Header, Name, NoMemory, Refusal, Row, RowRead};
use std::alloc::Global;

/// Clears each frame of the draft's page. It loses its placements where the file's rows are
/// placements, and its signals where they are signals. Where they are frames it is dropped, unless a
/// row names it together with the node that it has.
pub(super) fn clear_all(
    alloc: Global,
    draft: &mut Draft,
    kind: Header,
    rows: &[RowRead],
) -> Result<(), Refusal>
    ensures ok { OnOk result (draft_data draft.new
        ≡ clear_all (draft_data draft.old) (Some kind) rows.now) }
    ensures err { IfErr result (λ e. e ≡ Unavailable) }
{
    let names = frame_names(alloc, &draft.page)?;
    for name in names.as_slice() {
        clear_frame(alloc, draft, kind, rows, *name)?;
    }
    Ok(())
}

// The names of the page's frames.
fn frame_names(alloc: Global, page: &Page) -> Result<Vec<Name>, NoMemory>
    ensures { IfOk result (λ names.
        names.items ≡ map (λ row. row.0.1) (own_rows_of page.now).frames.rows) }
{
    let mut names = Vec::new(alloc);
    for (name, _frame) in page.frames().iter() {
        names.push(*name)?;
    }
    Ok(names)
}

// Clears the frame of this name.
fn clear_frame(
    alloc: Global,
    draft: &mut Draft,
    kind: Header,
    rows: &[RowRead],
    frame: Name,
) -> Result<(), Refusal>
    ensures ok { OnOk result (draft_data draft.new
        ≡ clear_frame (draft_data draft.old) kind rows.now frame) }
    ensures err { IfErr result (λ e. e ≡ Unavailable) }
{
    // Gives the proof that the page's rows are kept.
    let _frames = draft.page.frames();
    let ends = clearing(alloc, &draft.page, kind, rows, frame)?;
    draft.make_all(alloc, frame, ends.as_slice())
}

// The changes that clear the frame.
fn clearing(
    alloc: Global,
    page: &Page,
    kind: Header,
    rows: &[RowRead],
    frame: Name,
) -> Result<Vec<FrameChange>, NoMemory>
    ensures { IfOk result (λ ends.
        ends.items ≡ clearing kind rows.now frame
        (get (own_rows_of page.now).frames (page.now.supplier, frame))) }
{
    match kind {
        Header::Frames => match frame_named(page, frame) {
            Some(row) => dropping(alloc, rows, frame, row.node),
            None => Ok(Vec::new(alloc)),
        },
        Header::Placements => freeing(alloc, page, Header::Placements, frame),
        Header::Signals => freeing(alloc, page, Header::Signals, frame),
    }
}

// The change that drops the frame, which is of this node, unless a row names it with the node.
fn dropping(
    alloc: Global,
    rows: &[RowRead],
    frame: Name,
    node: Name,
) -> Result<Vec<FrameChange>, NoMemory>
    ensures { IfOk result (λ ends.
        ends.items ≡ (if list_any (λ read. names_with frame node read.row) rows.now then []
        else FrameChange.Drop ∷ [])) }
{
    if is_named_with(rows, frame, node) {
        Ok(Vec::new(alloc))
    } else {
        Ok(vec![in alloc; FrameChange::Drop]?)
    }
}

// Whether one of the rows names the frame together with the node.
fn is_named_with(rows: &[RowRead], frame: Name, node: Name) -> bool
    ensures { result ≡ list_any (λ read. names_with frame node read.row) rows.now }
{
    rows.iter().any(|read| names_with(read, frame, node))
}

// Whether the row names the frame together with the node.
fn names_with(read: &RowRead, frame: Name, node: Name) -> bool
    ensures { result ≡ names_with frame node read.now.row }
{
    let (named, of) = match read.row {
        Ok(Row::AddFrame { frame, node }) => (frame, node),
        Ok(
            Row::Place {
                frame,
                node,
                placement: _,
            },
        ) => (frame, node),
        Ok(
            Row::AddSignal {
                frame: _,
                signal: _,
            },
        ) => return false,
        Err(_) => return false,
    };
    named == frame && of == node
}
