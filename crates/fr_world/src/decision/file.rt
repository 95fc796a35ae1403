//! How a delivered file is decided on the supplier's page.
ghost use Rattle.std.specs.Prelude.{◌≡◌, false, MatchResult};
ghost use Rattle.fr_base.specs.ImportRows.{up_to_refused};
ghost use Rattle.fr_world.specs.FileDecisions.{IsDecided, file_edits, is_proposal};
ghost use Rattle.fr_world.specs.RowDecisions.{AreChecked};
ghost use Rattle.fr_world.specs.RowFaults.{IsFault};

use super::draft::Draft;
use super::import_rows::{RowFault, decide_rows};
use super::replacement::decide_replacement;
use super::trial::try_rows;
use crate::page::Page;
use fr_base::{FateRow, Header, Name, Purpose, RowRead, Rows};
use std::alloc::Global;

/// What a delivered file comes to on its supplier's page.
#[derive(Drop)]
pub enum FileDecision {
    /// The rows act: the page that they leave, and the edits that lead to it. None of these keeps the
    /// file.
    Acts(Draft),
    /// The rows are tried: the fate of each.
    Told(Rows<FateRow>),
}

/// What the file with this header and these rows comes to on the page, by what it is delivered for.
/// The rows of an import or a replacement act up to the first that is refused by its own text, or as it
/// acts: then that row is the fault. Those of a trial are told, to the file's end, and the only fault is
/// want of memory. The page stays.
///
/// The file is no list of wishes. The page's variant is open, and the rows were read under its parameters.
/// The label and the limits of imports are not looked at.
pub fn decide_file(
    alloc: Global,
    page: &Page,
    header: Option<Header>,
    rows: &[RowRead],
    how: &Purpose<Name>,
) -> Result<FileDecision, RowFault>
    requires rows { is_proposal how.now ≡ false }
    requires open { page.now.released ≡ false }
    requires checked { AreChecked page.now.params rows.now }
    ensures { MatchResult result (IsDecided how.now page.now header rows.now)
        (IsFault (file_edits how.now page.now header rows.now)) }
{
    match how {
        Purpose::Import { .. } => {
            let draft = decide_rows(alloc, copy(page)?, readable(rows))?;
            Ok(FileDecision::Acts(draft))
        }
        Purpose::Replacement { whole } => {
            let kind = if *whole { header } else { None };
            let draft = decide_replacement(alloc, page, kind, readable(rows))?;
            Ok(FileDecision::Acts(draft))
        }
        Purpose::Trial { manner } => {
            let fates = try_rows(alloc, copy(page)?, header, rows, *manner);
            Ok(FileDecision::Told(fates.map_err(|_refusal| RowFault::Unavailable)?))
        }
        Purpose::Proposal { .. } => unreachable!(),
    }
}

// A copy of the page.
fn copy(page: &Page) -> Result<Page, RowFault>
    ensures { MatchResult result (λ copy. copy ≡ page.now) (λ fault. fault ≡ RowFault.Unavailable) }
{
    page.clone().map_err(|_refusal| RowFault::Unavailable)
}

/// The rows up to the first one that its own text refuses.
pub(super) fn readable(rows: &[RowRead]) -> &[RowRead]
    ensures { result.now ≡ up_to_refused rows.now }
{
    for (place, read) in rows.iter().enumerate() {
        if read.row.is_err() {
            return &rows[..place + 1];
        }
    }
    rows
}
