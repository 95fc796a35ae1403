//! The rows of all kinds that a query shows.
#![tactic(auto, using(fr_world::proofs::ReadLaws::reads_none, fr_world::proofs::ReadLaws::reads_then))]

ghost use Rattle.std.specs.Prelude.{◌≡◌, ◌++◌, map, OnOk, IfOk};
ghost use Rattle.fr_base.specs.declared.report.Report.TheVariants.{Rows as AllRows};
ghost use Rattle.fr_office.specs.Carried.{OnlyReads};
ghost use Rattle.fr_office.specs.Compared.{grant_told, seen_among};
ghost use Rattle.fr_office.specs.Shown.{Gathers, Shows};

use crate::lender::Lender;
use crate::queries::compared::ComparedRows;
use crate::queries::gathered::{Gathered, gather};
use crate::queries::grants::grant_rows;
use crate::queries::kind_rows::KindRows;
use crate::queries::suppliers::seen_suppliers;
use fr_base::{Actor, GrantRow, Name, NoMemory, Refusal, ReportRows, Rows, SeenRow};
use fr_world::{KeyedRow, Page};
use std::alloc::Global;
use std::collections::BTreeMap;

/// The rows that the actor sees in the variant, by kind, then key.
#[tactic(auto, using(crate::proofs::ShownReplies::shows_rows))]
pub(crate) fn show_rows<R: Lender>(
    alloc: Global,
    records: &mut R,
    actor: &Actor,
    variant: Name,
) -> Result<ReportRows, Refusal>
    ensures { OnlyReads R.Records (Shows actor.now variant AllRows)
        records.old records.new result }
{
    let suppliers = seen_suppliers(alloc, records, actor)?;
    let rows = gather_rows(alloc, records, &suppliers, variant)?;
    Ok(ReportRows::Seen(rows))
}

// The rows of these suppliers in the variant, by kind, then key.
#[tactic(auto, using(crate::proofs::GrantLaws::lanes_none))]
fn gather_rows<R: Lender>(
    alloc: Global,
    records: &mut R,
    suppliers: &[Name],
    variant: Name,
) -> Result<Rows<SeenRow>, Refusal>
    ensures { OnlyReads R.Records
        (Gathers variant (λ p x rows. rows ≡ seen_among p suppliers.now x))
        records.old records.new result }
{
    let nothing = (BTreeMap::new(alloc), KindRows::new(alloc));
    let (held, told) = gather(alloc, records, suppliers, variant, nothing)?;
    let held_lanes = grant_rows(alloc, &held)?;
    let grants = seen_grants(alloc, held_lanes.as_slice())?;
    Ok(told.behind(&grants)?)
}

// The grants as rows of a variant.
fn seen_grants(alloc: Global, grants: &[GrantRow]) -> Result<Vec<SeenRow>, NoMemory>
    ensures { IfOk result (λ rows. rows.items ≡ map grant_told grants.now) }
{
    let mut rows = Vec::new(alloc);
    push_seen(grants, &mut rows)?;
    Ok(rows)
}

// The rows of a supplier's frames come behind those of the suppliers before, of each kind.
impl Gathered for KindRows<SeenRow> {
    ghost use Rattle.std.specs.Prelude.{◌≡◌};
    ghost use Rattle.fr_office.specs.Compared.{kinds_told, suppliers_rows};

    ghost gathered = { λ p first ss x rows. rows ≡ kinds_told (suppliers_rows p ss x) };

    fn take(&mut self, alloc: Global, page: &Page) -> Result<(), NoMemory> {
        let rows = ComparedRows::of_page(alloc, page)?;
        push_seen(rows.frames.as_slice(), &mut self.frames)?;
        push_seen(rows.placements.as_slice(), &mut self.placements)?;
        push_seen(rows.signals.as_slice(), &mut self.signals)?;
        push_seen(rows.gaps.as_slice(), &mut self.gaps)
    }
}

// Appends these rows as rows of a variant. Where memory is refused, some of them may have been appended.
fn push_seen<T: KeyedRow>(kind: &[T], rows: &mut Vec<SeenRow>) -> Result<(), NoMemory>
    ensures { OnOk result (rows.new.items ≡ rows.old.items ++ map T.told kind.now) }
{
    for row in kind {
        rows.push(row.seen())?;
    }
    Ok(())
}
