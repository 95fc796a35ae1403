//! The greatest gaps that a query shows.
ghost use Rattle.std.specs.Prelude.{◌≡◌, ◌++◌, OnOk};
ghost use Rattle.fr_base.specs.Queries.{gaps_of};
ghost use Rattle.fr_base.specs.declared.report.Report.TheVariants.{Gaps};
ghost use Rattle.fr_office.specs.Carried.{OnlyReads};
ghost use Rattle.fr_office.specs.Shown.{Shows};
ghost use Rattle.fr_world.specs.Pages.{own_rows_of};

use crate::lender::Lender;
use crate::queries::gathered::{Gathered, gather};
use crate::queries::suppliers::seen_suppliers;
use fr_base::{Actor, GapRow, Name, NoMemory, Refusal, ReportRows, Rows};
use fr_world::{Page, gap_row};
use std::alloc::Global;

/// The greatest gaps of the frames that the actor sees in the variant, by supplier and name.
#[tactic(auto, using(crate::proofs::ShownReplies::shows_gaps))]
pub(crate) fn show_gaps<R: Lender>(
    alloc: Global,
    records: &mut R,
    actor: &Actor,
    variant: Name,
) -> Result<ReportRows, Refusal>
    ensures { OnlyReads R.Records (Shows actor.now variant Gaps)
        records.old records.new result }
{
    let suppliers = seen_suppliers(alloc, records, actor)?;
    let rows = gather(alloc, records, &suppliers, variant, Rows::new(alloc))?;
    Ok(ReportRows::Gaps(rows))
}

/// Appends the greatest gaps of the page's frames, by name. Where memory is refused, some of them may
/// have been appended.
pub(crate) fn push_gaps(page: &Page, rows: &mut Rows<GapRow>) -> Result<(), NoMemory>
    ensures { OnOk result (rows.new ≡ rows.old
        ++ gaps_of page.now.params (own_rows_of page.now).frames) }
{
    let params = page.params();
    let supplier = page.supplier();
    for (name, frame) in page.frames().iter() {
        rows.push(gap_row(&params, supplier, *name, frame))?;
    }
    Ok(())
}

// The gaps of a supplier's frames come behind those of the suppliers before.
impl Gathered for Rows<GapRow> {
    ghost use Rattle.std.specs.Prelude.{◌≡◌};
    ghost use Rattle.std.specs.List.{flat_map};
    ghost use Rattle.fr_base.specs.Book.{own};
    ghost use Rattle.fr_base.specs.Queries.{gaps_of};

    ghost gathered = { λ p first ss x rows. rows ≡ flat_map (λ s. gaps_of p (own s x.frames)) ss };

    fn take(&mut self, _alloc: Global, page: &Page) -> Result<(), NoMemory> {
        push_gaps(page, self)
    }
}
