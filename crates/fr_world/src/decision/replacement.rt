//! How the rows of a replacement are decided on the supplier's page.
ghost use Rattle.std.specs.Prelude.{◌≡◌, [], false, Ok, IfOk, IfErr, OnOk};
ghost use Rattle.std.specs.List.{list_any};
ghost use Rattle.fr_world.specs.Drafts.{IsOfSame, draft_data};
ghost use Rattle.fr_world.specs.Edits.{Leads, releases};
ghost use Rattle.fr_world.specs.Pages.{own_rows_of};
ghost use Rattle.fr_world.specs.ReplacementDecisions.{begun, free_row, free_rows, replace_read, replace_rows, replacement_decision};
ghost use Rattle.fr_world.specs.RowDecisions.{AreChecked, IsCheckedRow, draft_of};
ghost use Rattle.fr_world.specs.RowFaults.{IsFault};
ghost use Rattle.fr_base.specs.declared.refusal.Refusal.TheVariants.{Unavailable};

use super::clearing::clear_all;
use super::draft::Draft;
use super::freeing::{freeing, kind_of, named_frame};
use super::import_rows::RowFault;
use super::page_edits::edits_between;
use crate::page::Page;
use fr_base::{Header, Refusal, Row, RowRead};
use std::alloc::Global;

/// What the rows of a replacement make of the page, and the edits that lead to it; or the first row
/// that is refused. First each frame that a row names, and that is there, loses its placements
/// where the rows are placements, and its signals where they are signals. Where the file is the
/// `whole` of a kind, each frame that is there does, and where the rows are frames it is dropped,
/// unless a row names it together with the node that it has. Then each row is decided
/// as an import's is, on the page that the rows before it left. But a row of frames whose frame
/// is there already changes nothing where the node is the same, and is refused with `NodeDiffers`
/// where it is another.
///
/// The edits are those between the page and what becomes of it, so a row that stays is in none of
/// them, and where all stay there are none. The page's variant is open, and the rows were read under
/// its parameters.
pub(super) fn decide_replacement(
    alloc: Global,
    page: &Page,
    whole: Option<Header>,
    rows: &[RowRead],
) -> Result<Draft, RowFault>
    requires open { page.now.released ≡ false }
    requires checked { AreChecked page.now.params rows.now }
    ensures edits { IfOk result (λ draft.
        replacement_decision page.now whole rows.now ≡ Ok draft.edits.items) }
    ensures leads { IfOk result (λ draft. Leads page.now.variant (own_rows_of page.now)
        draft.edits.items (own_rows_of draft.page)) }
    ensures none { IfOk result (λ draft. own_rows_of draft.page ≡ own_rows_of page.now
        → draft.edits.items ≡ []) }
    ensures page { IfOk result (λ draft. IsOfSame page.now draft.page) }
    ensures still { IfOk result (λ draft. list_any releases draft.edits.items ≡ false) }
    ensures fault { IfErr result (IsFault (replacement_decision page.now whole rows.now)) }
{
    // They give the proof that the parameters make a cluster, and that the page's rows are kept.
    let (_raw, _frames) = (page.params().raw(), page.frames());
    let copy = page.clone().map_err(|_refusal| RowFault::Unavailable)?;
    let mut draft = replaced(alloc, copy, whole, rows)?;
    draft.edits = edits_between(alloc, page, &draft.page).map_err(
        |_refusal| RowFault::Unavailable,
    )?;
    Ok(draft)
}

// The page where the rows acted, one after another, with the edits of each; or the first row that
// is refused.
fn replaced(
    alloc: Global,
    page: Page,
    whole: Option<Header>,
    rows: &[RowRead],
) -> Result<Draft, RowFault>
    requires checked { AreChecked page.params rows.now }
    ensures ok { IfOk result (λ draft. replace_rows (begun (draft_of page) whole rows.now) rows.now
        ≡ Ok (draft_data draft)) }
    ensures fault { IfErr result
        (IsFault (replace_rows (begun (draft_of page) whole rows.now) rows.now)) }
{
    let mut draft = begin(alloc, page, whole, rows).map_err(|_refusal| RowFault::Unavailable)?;
    for read in rows {
        replace_read(alloc, &mut draft, read)?;
    }
    Ok(draft)
}

/// The page on which the rows act, with the edits that led to it. All frames were cleared where the
/// file is the whole of a kind, and then the frame of each row was freed that its own text does not
/// refuse.
pub(super) fn begin(
    alloc: Global,
    page: Page,
    whole: Option<Header>,
    rows: &[RowRead],
) -> Result<Draft, Refusal>
    ensures ok { IfOk result (λ draft. draft_data draft ≡ begun (draft_of page) whole rows.now) }
    ensures err { IfErr result (λ e. e ≡ Unavailable) }
{
    let mut draft = Draft::new(alloc, page);
    if let Some(kind) = whole {
        clear_all(alloc, &mut draft, kind, rows)?;
    }
    free_all(alloc, &mut draft, rows)?;
    Ok(draft)
}

// Frees the frame of each row that its own text does not refuse.
fn free_all(alloc: Global, draft: &mut Draft, rows: &[RowRead]) -> Result<(), Refusal>
    ensures ok { OnOk result (draft_data draft.new ≡ free_rows (draft_data draft.old) rows.now) }
    ensures err { IfErr result (λ e. e ≡ Unavailable) }
{
    for read in rows {
        if let Ok(row) = &read.row {
            free_row(alloc, draft, row)?;
        }
    }
    Ok(())
}

// Frees the frame of the row.
fn free_row(alloc: Global, draft: &mut Draft, row: &Row) -> Result<(), Refusal>
    ensures ok { OnOk result (draft_data draft.new ≡ free_row (draft_data draft.old) (Ok row.now)) }
    ensures err { IfErr result (λ e. e ≡ Unavailable) }
{
    // Gives the proof that the page's rows are kept.
    let _frames = draft.page.frames();
    let frame = named_frame(row);
    let ends = freeing(alloc, &draft.page, kind_of(row), frame)?;
    draft.make_all(alloc, frame, ends.as_slice())
}

// Does what the row asks, unless its own text refuses it.
fn replace_read(alloc: Global, draft: &mut Draft, read: &RowRead) -> Result<(), RowFault>
    requires checked { IfOk read.now.row (IsCheckedRow draft.old.page.params) }
    ensures ok { OnOk result (replace_read (draft_data draft.old) read.now
        ≡ Ok (draft_data draft.new)) }
    ensures fault { IfErr result (IsFault (replace_read (draft_data draft.old) read.now)) }
{
    let line = read.line;
    let row = match read.row {
        Ok(row) => row,
        Err(refusal) => return Err(RowFault::Row { line, refusal }),
    };
    match draft.replace_row(alloc, &row) {
        Ok(()) => Ok(()),
        Err(refusal) if refusal == Refusal::Unavailable => Err(RowFault::Unavailable),
        Err(refusal) => Err(RowFault::Row { line, refusal }),
    }
}
