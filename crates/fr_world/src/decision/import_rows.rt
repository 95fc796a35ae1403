//! How the rows of an import are decided on the supplier's page.
ghost use Rattle.std.specs.Prelude.{◌≡◌, ◌⊎◌, false, Ok, Err, IfOk, IfErr, OnOk};
ghost use Rattle.std.specs.List.{list_any};
ghost use Rattle.fr_world.specs.Edits.{Leads, releases};
ghost use Rattle.fr_world.specs.Drafts.{IsOfSame, draft_data};
ghost use Rattle.fr_world.specs.Pages.{own_rows_of};
ghost use Rattle.fr_world.specs.RowDecisions.{AreChecked, IsCheckedRow, make_read, rows_decision};
ghost use Rattle.fr_world.specs.RowFaults.{IsFault};

use super::draft::Draft;
use crate::page::Page;
use fr_base::{Refusal, RowRead};
use std::alloc::Global;

/// Why the rows of a file were not carried out.
#[derive(Clone, Copy, Debug, PartialEq, Eq)]
pub enum RowFault {
    /// A row was refused.
    Row {
        /// The row's place among the file's records, of which the header is the first.
        line: u32,
        /// The first refusal that applies.
        refusal: Refusal,
    },
    /// Memory was refused.
    Unavailable,
}

/// What the rows of an import make of the page, and the edits that led to it; or the first row that
/// is refused. Each row is decided on the page that the rows before it left. It is refused by its
/// own text, or by
///
/// - for frames: `NoNode`, `Exists`, `Limit`;
/// - for placements: `NoNode`; then, where the frame is not there yet, `Limit`, or else
/// `NodeDiffers`; then the placement's `NotGranted`, `Limit`, `CellTaken`;
/// - for signals: `NoFrame`, `Exists`, `Limit`, `OutOfPayload`, `BitTaken`.
///
/// The page's variant has to be open, and the rows have to be read under its parameters. Where a
/// row is refused the page is given up, so a caller who wants to keep it gives a copy. The label
/// and the limits of imports are not looked at, and none of the edits keeps the import.
pub(super) fn decide_rows(alloc: Global, page: Page, rows: &[RowRead]) -> Result<Draft, RowFault>
    requires open { page.released ≡ false }
    requires checked { AreChecked page.params rows.now }
    ensures edits { IfOk result (λ draft. rows_decision page rows.now ≡ Ok draft.edits.items) }
    ensures leads { IfOk result (λ draft.
        Leads page.variant (own_rows_of page) draft.edits.items (own_rows_of draft.page)) }
    ensures page { IfOk result (λ draft. IsOfSame page draft.page) }
    ensures still { IfOk result (λ draft. list_any releases draft.edits.items ≡ false) }
    ensures fault { IfErr result (IsFault (rows_decision page rows.now)) }
{
    // They give the proof that the parameters make a cluster, and that the page's rows are kept.
    let (_raw, _frames) = (page.params().raw(), page.frames());
    let mut draft = Draft::new(alloc, page);
    for read in rows {
        make_read(alloc, &mut draft, read)?;
    }
    Ok(draft)
}

// Does what the row asks, unless its own text refuses it.
fn make_read(alloc: Global, draft: &mut Draft, read: &RowRead) -> Result<(), RowFault>
    requires checked { IfOk read.now.row (IsCheckedRow draft.old.page.params) }
    ensures ok { OnOk result (make_read (draft_data draft.old) read.now
        ≡ Ok (draft_data draft.new)) }
    ensures fault { IfErr result (IsFault (make_read (draft_data draft.old) read.now)) }
{
    let line = read.line;
    let row = match read.row {
        Ok(row) => row,
        Err(refusal) => return Err(RowFault::Row { line, refusal }),
    };
    match draft.make_row(alloc, &row) {
        Ok(()) => Ok(()),
        Err(refusal) if refusal == Refusal::Unavailable => Err(RowFault::Unavailable),
        Err(refusal) => Err(RowFault::Row { line, refusal }),
    }
}
