//! What would become of each row of a file, on the supplier's page.
ghost use Rattle.std.specs.Prelude.{◌≡◌, ◌⊎◌, Ok, Err, IfOk, IfErr, MatchResult, None, OnOk};
ghost use Rattle.fr_base.specs.Sound.{FitsCluster};
ghost use Rattle.fr_base.specs.Tables.{get};
ghost use Rattle.fr_base.specs.declared.import.Row.TheVariants as row;
ghost use Rattle.fr_base.specs.declared.refusal.Refusal.TheVariants.{Unavailable};
ghost use Rattle.fr_world.specs.Drafts.{draft_data};
ghost use Rattle.fr_world.specs.Pages.{own_rows_of};
ghost use Rattle.fr_world.specs.RowDecisions.{AreChecked, IsCheckedRow, draft_of, make_row};
ghost use Rattle.fr_world.specs.Trials.{IsMade, read_fate, trial, tried, try_row};

use super::draft::Draft;
use super::file::readable;
use super::replacement::begin;
use super::rows::frame_named;
use crate::page::Page;
use fr_base::{FateRow, FrameChange, Header, Manner, Name, Placement, Refusal, Row, RowRead, Rows};
use std::alloc::Global;

/// The fate of each row: what refuses it, or that it is done. Each row is decided as an import's or
/// a replacement's is, on the page that the rows before it left. A refused row leaves the page as
/// it was. A replacement first frees the frames of the rows before the first row that its own text
/// refuses. Where it is whole it first clears all frames, by the file's header and these rows.
/// `Unavailable` where memory is refused.
///
/// The page is given up. The rows were read under its parameters, below the header.
pub(super) fn try_rows(
    alloc: Global,
    page: Page,
    header: Option<Header>,
    rows: &[RowRead],
    how: Manner,
) -> Result<Rows<FateRow>, Refusal>
    requires checked { AreChecked page.params rows.now }
    ensures { MatchResult result (λ fates. fates ≡ trial how page header rows.now)
        (λ e. e ≡ Unavailable) }
{
    let mut draft = first_draft(alloc, page, header, rows, how)?;
    let mut fates = Rows::new(alloc);
    for read in rows {
        let fate = fate_of(alloc, &mut draft, read, how)?;
        fates.push(fate)?;
    }
    Ok(fates)
}

// The page on which the first row is decided.
fn first_draft(
    alloc: Global,
    page: Page,
    header: Option<Header>,
    rows: &[RowRead],
    how: Manner,
) -> Result<Draft, Refusal>
    ensures { MatchResult result
        (λ draft. draft_data draft ≡ tried how (draft_of page) header rows.now)
        (λ e. e ≡ Unavailable) }
{
    match how {
        Manner::Import => Ok(Draft::new(alloc, page)),
        Manner::Replace { whole } => {
            let kind = if whole { header } else { None };
            begin(alloc, page, kind, readable(rows))
        }
    }
}

// The fate of the row as it was read. The draft is the one that the row leaves.
fn fate_of(
    alloc: Global,
    draft: &mut Draft,
    read: &RowRead,
    how: Manner,
) -> Result<FateRow, Refusal>
    requires checked { IfOk read.now.row (IsCheckedRow draft.old.page.params) }
    ensures { MatchResult result
        (λ fate. read_fate how (draft_data draft.old) read.now ≡ (draft_data draft.new, fate))
        (λ e. e ≡ Unavailable) }
{
    let line = read.line;
    let refusal = match read.row {
        Ok(row) => refusal_of(alloc, draft, &row, how)?,
        Err(refusal) => Some(refusal),
    };
    Ok(FateRow { line, refusal })
}

// What refuses the row, if anything does. A refused row does nothing.
fn refusal_of(
    alloc: Global,
    draft: &mut Draft,
    row: &Row,
    how: Manner,
) -> Result<Option<Refusal>, Refusal>
    requires checked { IsCheckedRow draft.old.page.params row.now }
    ensures { MatchResult result
        (IsMade (draft_data draft.old) (draft_data draft.new)
        (try_row how (draft_data draft.old) row.now)) (λ e. e ≡ Unavailable) }
{
    match draft.try_row(alloc, row, how) {
        Ok(()) => Ok(None),
        Err(refusal) if refusal == Refusal::Unavailable => Err(refusal),
        Err(refusal) => Ok(Some(refusal)),
    }
}

impl Draft {
    // Does what the row asks, or gives its first refusal, which leaves the draft as it was.
    // `Unavailable` where memory is refused.
    fn try_row(&mut self, alloc: Global, row: &Row, how: Manner) -> Result<(), Refusal>
        requires checked { IsCheckedRow self.old.page.params row.now }
        ensures ok { OnOk result (try_row how (draft_data self.old) row.now
            ≡ Ok (draft_data self.new)) }
        ensures err { IfErr result (λ e. (e ≡ Unavailable)
            ⊎ (try_row how (draft_data self.old) row.now ≡ Err e)) }
        ensures left { IfErr result
            (λ e. (e ≡ Unavailable) ⊎ (draft_data self.new ≡ draft_data self.old)) }
    {
        match row {
            Row::AddFrame { frame, node } => self.try_frame(alloc, *frame, *node, how),
            Row::Place {
                frame,
                node,
                placement,
            } => self.try_place(alloc, *frame, *node, *placement),
            Row::AddSignal { frame, signal } => self.add_signal(alloc, *frame, *signal),
        }
    }

    // Adds the frame. For a replacement nothing changes where it is there already, and this node
    // sends it.
    fn try_frame(
        &mut self,
        alloc: Global,
        frame: Name,
        node: Name,
        how: Manner,
    ) -> Result<(), Refusal>
        ensures ok { OnOk result (try_row how (draft_data self.old) (row.AddFrame frame node)
            ≡ Ok (draft_data self.new)) }
        ensures err { IfErr result (λ e. (e ≡ Unavailable)
            ⊎ (try_row how (draft_data self.old) (row.AddFrame frame node) ≡ Err e)) }
        ensures left { IfErr result
            (λ e. (e ≡ Unavailable) ⊎ (draft_data self.new ≡ draft_data self.old)) }
    {
        match how {
            Manner::Replace { whole: _ } => self.make_frame(alloc, frame, node),
            Manner::Import => self.add_frame(alloc, frame, node),
        }
    }

    // Adds the frame where it is not there yet, and lets it be sent in the placement's cells too.
    fn try_place(
        &mut self,
        alloc: Global,
        frame: Name,
        node: Name,
        placement: Placement,
    ) -> Result<(), Refusal>
        requires checked { FitsCluster self.old.page.params placement }
        ensures ok { OnOk result (make_row (draft_data self.old) (row.Place frame node placement)
            ≡ Ok (draft_data self.new)) }
        ensures err { IfErr result (λ e. (e ≡ Unavailable)
            ⊎ (make_row (draft_data self.old) (row.Place frame node placement) ≡ Err e)) }
        ensures left { IfErr result
            (λ e. (e ≡ Unavailable) ⊎ (draft_data self.new ≡ draft_data self.old)) }
    {
        if frame_named(&self.page, frame).is_some() {
            self.make_frame(alloc, frame, node)?;
            self.place(alloc, frame, placement)
        } else {
            self.place_new(alloc, frame, node, placement)
        }
    }

    // Adds the frame, which is not there yet, and lets it be sent in the placement's cells. Where
    // the placement is refused the frame is taken back.
    fn place_new(
        &mut self,
        alloc: Global,
        frame: Name,
        node: Name,
        placement: Placement,
    ) -> Result<(), Refusal>
        requires checked { FitsCluster self.old.page.params placement }
        requires new { get (own_rows_of self.old.page).frames (self.old.page.supplier, frame)
            ≡ None }
        ensures ok { OnOk result (make_row (draft_data self.old) (row.Place frame node placement)
            ≡ Ok (draft_data self.new)) }
        ensures err { IfErr result (λ e. (e ≡ Unavailable)
            ⊎ (make_row (draft_data self.old) (row.Place frame node placement) ≡ Err e)) }
        ensures left { IfErr result
            (λ e. (e ≡ Unavailable) ⊎ (draft_data self.new ≡ draft_data self.old)) }
    {
        let edits = self.edits.len();
        self.make_frame(alloc, frame, node)?;
        match self.place(alloc, frame, placement) {
            Ok(()) => Ok(()),
            Err(refusal) if refusal == Refusal::Unavailable => Err(refusal),
            Err(refusal) => {
                self.make(alloc, frame, FrameChange::Drop)?;
                self.edits.truncate(edits);
                Err(refusal)
            }
        }
    }
}
