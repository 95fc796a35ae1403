//! A page that the rows of a file change, one after another.
ghost use Rattle.std.specs.Prelude.{◌≡◌, ◌⊎◌, Ok, Err, IfOk, IfErr, IsTrue, OnOk};
ghost use Rattle.fr_base.specs.Signals.{is_signal_length};
ghost use Rattle.fr_base.specs.Sound.{FitsCluster};
ghost use Rattle.fr_base.specs.declared.refusal.Refusal.TheVariants.{Unavailable};
ghost use Rattle.fr_world.specs.Decisions.{IsChecked, admits_alone};
ghost use Rattle.fr_world.specs.Drafts.{draft_data};
ghost use Rattle.fr_world.specs.ReplacementDecisions.{AreAdmitted, replace_row, with_changes};
ghost use Rattle.fr_world.specs.RowDecisions.{IsCheckedRow, draft_of, make, make_frame, make_row, with_change};
ghost use Rattle.fr_world.specs.Pages.{own_rows_of};

use super::frames::admit_frame;
use super::placements::admit_placement;
use super::rows::{frame_named, has_node};
use super::signals::admit_signal;
use crate::edit::Edit;
use crate::page::Page;
use fr_base::{Change, FrameChange, Name, Placement, Refusal, Row, RowsChange, Signal};
use std::alloc::Global;

/// A page, and the edits that led to it.
#[derive(Drop)]
pub struct Draft {
    pub page: Page,
    pub edits: Vec<Edit>,
}

impl Draft {
    /// The page before any row. It takes no memory.
    pub(super) fn new(alloc: Global, page: Page) -> Draft
        ensures { draft_data result ≡ draft_of page }
    {
        Draft {
            page,
            edits: Vec::new(alloc),
        }
    }

    /// Does what the row asks, or gives its first refusal, after which the draft is of no use.
    /// `Unavailable` where memory is refused.
    pub(super) fn make_row(&mut self, alloc: Global, row: &Row) -> Result<(), Refusal>
        requires checked { IsCheckedRow self.old.page.params row.now }
        ensures ok { OnOk result (make_row (draft_data self.old) row.now
            ≡ Ok (draft_data self.new)) }
        ensures err { IfErr result (λ e. (e ≡ Unavailable)
            ⊎ (make_row (draft_data self.old) row.now ≡ Err e)) }
    {
        match row {
            Row::AddFrame { frame, node } => self.add_frame(alloc, *frame, *node),
            Row::Place {
                frame,
                node,
                placement,
            } => {
                self.make_frame(alloc, *frame, *node)?;
                self.place(alloc, *frame, *placement)
            }
            Row::AddSignal { frame, signal } => self.add_signal(alloc, *frame, *signal),
        }
    }

    /// Does what the row of a replacement asks, or gives its first refusal, after which the draft
    /// is of no use.
    pub(super) fn replace_row(&mut self, alloc: Global, row: &Row) -> Result<(), Refusal>
        requires checked { IsCheckedRow self.old.page.params row.now }
        ensures ok { OnOk result (replace_row (draft_data self.old) row.now
            ≡ Ok (draft_data self.new)) }
        ensures err { IfErr result (λ e. (e ≡ Unavailable)
            ⊎ (replace_row (draft_data self.old) row.now ≡ Err e)) }
    {
        match row {
            Row::AddFrame { frame, node } => self.make_frame(alloc, *frame, *node),
            Row::Place { .. } | Row::AddSignal { .. } => self.make_row(alloc, row),
        }
    }

    /// Makes changes of the frame, one after another. The page admits each after those before it.
    pub(super) fn make_all(
        &mut self,
        alloc: Global,
        frame: Name,
        changes: &[FrameChange],
    ) -> Result<(), Refusal>
        requires admitted { AreAdmitted (own_rows_of self.old.page) frame changes.now }
        ensures ok { OnOk result (draft_data self.new
            ≡ with_changes (draft_data self.old) frame changes.now) }
        ensures err { IfErr result (λ e. e ≡ Unavailable) }
    {
        for change in changes {
            self.make(alloc, frame, *change)?;
        }
        Ok(())
    }

    /// Adds the frame. Where it is there already, and this node sends it, nothing changes. A
    /// refusal, but `Unavailable`, leaves the draft as it was.
    pub(super) fn make_frame(
        &mut self,
        alloc: Global,
        frame: Name,
        node: Name,
    ) -> Result<(), Refusal>
        ensures ok { OnOk result (make_frame (draft_data self.old) frame node
            ≡ Ok (draft_data self.new)) }
        ensures err { IfErr result (λ e. (e ≡ Unavailable)
            ⊎ (make_frame (draft_data self.old) frame node ≡ Err e)) }
        ensures left { IfErr result
            (λ e. (e ≡ Unavailable) ⊎ (draft_data self.new ≡ draft_data self.old)) }
    {
        if !has_node(&self.page, node) {
            return Err(Refusal::NoNode);
        }
        match frame_named(&self.page, frame) {
            Some(row) if row.node == node => Ok(()),
            Some(_) => Err(Refusal::NodeDiffers),
            None => self.add_frame(alloc, frame, node),
        }
    }

    /// Adds the frame. A refusal, but `Unavailable`, leaves the draft as it was.
    pub(super) fn add_frame(
        &mut self,
        alloc: Global,
        frame: Name,
        node: Name,
    ) -> Result<(), Refusal>
        ensures ok { OnOk result (make (draft_data self.old)
            (Change.Frame frame (FrameChange.Add node)) ≡ Ok (draft_data self.new)) }
        ensures err { IfErr result (λ e. (e ≡ Unavailable)
            ⊎ (make (draft_data self.old) (Change.Frame frame (FrameChange.Add node)) ≡ Err e)) }
        ensures left { IfErr result
            (λ e. (e ≡ Unavailable) ⊎ (draft_data self.new ≡ draft_data self.old)) }
    {
        admit_frame(&self.page, frame, node)?;
        self.make(alloc, frame, FrameChange::Add { node })
    }

    /// Lets the frame be sent in the placement's cells too. A refusal, but `Unavailable`, leaves
    /// the draft as it was.
    pub(super) fn place(
        &mut self,
        alloc: Global,
        frame: Name,
        placement: Placement,
    ) -> Result<(), Refusal>
        requires checked { FitsCluster self.old.page.params placement }
        ensures ok { OnOk result (make (draft_data self.old)
            (Change.Frame frame (FrameChange.Place placement)) ≡ Ok (draft_data self.new)) }
        ensures err { IfErr result (λ e. (e ≡ Unavailable)
            ⊎ (make (draft_data self.old) (Change.Frame frame (FrameChange.Place placement))
            ≡ Err e)) }
        ensures left { IfErr result
            (λ e. (e ≡ Unavailable) ⊎ (draft_data self.new ≡ draft_data self.old)) }
    {
        admit_placement(&self.page, frame, &placement)?;
        self.make(alloc, frame, FrameChange::Place(placement))
    }

    /// Adds the signal to the frame's payload. A refusal, but `Unavailable`, leaves the draft as it
    /// was.
    pub(super) fn add_signal(
        &mut self,
        alloc: Global,
        frame: Name,
        signal: Signal,
    ) -> Result<(), Refusal>
        requires checked { IsTrue (is_signal_length signal.length) }
        ensures ok { OnOk result (make (draft_data self.old)
            (Change.Frame frame (FrameChange.AddSignal signal)) ≡ Ok (draft_data self.new)) }
        ensures err { IfErr result (λ e. (e ≡ Unavailable)
            ⊎ (make (draft_data self.old) (Change.Frame frame (FrameChange.AddSignal signal))
            ≡ Err e)) }
        ensures left { IfErr result
            (λ e. (e ≡ Unavailable) ⊎ (draft_data self.new ≡ draft_data self.old)) }
    {
        admit_signal(&self.page, frame, &signal)?;
        self.make(alloc, frame, FrameChange::AddSignal(signal))
    }

    /// Makes the change of the frame, which the page admits.
    pub(super) fn make(
        &mut self,
        alloc: Global,
        frame: Name,
        change: FrameChange,
    ) -> Result<(), Refusal>
        requires admitted { admits_alone (own_rows_of self.old.page) (Change.Frame frame change)
            ≡ Ok tt }
        requires checked { IsChecked self.old.page.params (Change.Frame frame change) }
        ensures ok { OnOk result (draft_data self.new
            ≡ with_change (draft_data self.old) (Change.Frame frame change)) }
        ensures err { IfErr result (λ e. e ≡ Unavailable) }
    {
        // They give the proof that the parameters make a cluster, and that the page's rows are kept.
        let (_raw, _frames) = (self.page.params().raw(), self.page.frames());
        let edit = Edit::Rows(RowsChange {
            supplier: self.page.supplier(),
            variant: self.page.variant(),
            change: Change::Frame { frame, change },
        });
        self.page.amend(alloc, &edit)?;
        self.edits.push(edit)?;
        Ok(())
    }
}
