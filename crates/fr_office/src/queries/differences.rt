//! The difference of two variants, as a query shows it.
#![tactic(auto, using(fr_world::proofs::ReadLaws::reads_none, fr_world::proofs::ReadLaws::reads_then))]

ghost use Rattle.std.specs.Prelude.{◌≡◌, IfOk};
ghost use Rattle.fr_base.specs.Differences.{grants_differ};
ghost use Rattle.fr_base.specs.Queries.{found};
ghost use Rattle.fr_base.specs.declared.query.Query.TheVariants.{Difference};
ghost use Rattle.fr_office.specs.Carried.{OnlyReads, Replies};
ghost use Rattle.fr_office.specs.Compared.{AreTaken, Compares, SeesDifferences, rows_among};
ghost use Rattle.fr_office.specs.Shown.{Gathers};
ghost use Rattle.fr_world.specs.Loads.{grants_in_lanes};

use crate::lender::Lender;
use crate::queries::compared::ComparedRows;
use crate::queries::frame_differences::push_frame_differences;
use crate::queries::grants::{add_grants, grant_rows};
use crate::queries::kind_rows::KindRows;
use crate::queries::suppliers::seen_suppliers;
use crate::queries::{find_page, is_there};
use fr_base::{Actor, DifferenceRow, LaneHolder, Name, NoMemory, Refusal, ReportRows, Rows};
use fr_world::{ChannelSlot, push_differences};
use std::alloc::Global;
use std::collections::BTreeMap;

/// The rows in which the variant differs from another one, as the actor sees them: a supplier its
/// own, the integrator those of all. `NoVariant` where one of the variants is not there.
pub(crate) fn differences<R: Lender>(
    alloc: Global,
    records: &mut R,
    actor: &Actor,
    variant: Name,
    from: Name,
) -> Result<ReportRows, Refusal>
    ensures { OnlyReads R.Records
        (Replies (λ c b. found c.params b actor.now (Difference variant from)))
        records.old records.new result }
{
    if !is_there(alloc, records, actor, variant)? {
        return Err(Refusal::NoVariant);
    }
    if !is_there(alloc, records, actor, from)? {
        return Err(Refusal::NoVariant);
    }
    let rows = gather_seen(alloc, records, actor, variant, from)?;
    Ok(ReportRows::Difference(rows))
}

// The rows in which the variants differ, as the actor sees them.
fn gather_seen<R: Lender>(
    alloc: Global,
    records: &mut R,
    actor: &Actor,
    variant: Name,
    from: Name,
) -> Result<Rows<DifferenceRow>, Refusal>
    ensures { OnlyReads R.Records (SeesDifferences actor.now variant from)
        records.old records.new result }
{
    let suppliers = seen_suppliers(alloc, records, actor)?;
    gather(alloc, records, &suppliers, variant, from)
}

// The rows of these suppliers in which the variants differ, by kind, then key. Each page is lent once.
fn gather<R: Lender>(
    alloc: Global,
    records: &mut R,
    suppliers: &[Name],
    variant: Name,
    from: Name,
) -> Result<Rows<DifferenceRow>, Refusal>
    ensures { OnlyReads R.Records
        (Compares variant from (λ p new old rows. rows ≡ rows_among p suppliers.now old new))
        records.old records.new result }
{
    let mut old_holders = BTreeMap::new(alloc);
    let mut new_holders = BTreeMap::new(alloc);
    let mut told = KindRows::new(alloc);
    for supplier in suppliers {
        let old = take_rows(alloc, records, *supplier, from, &mut old_holders)?;
        let new = take_rows(alloc, records, *supplier, variant, &mut new_holders)?;
        push_frame_differences(alloc, &old, &new, &mut told)?;
    }
    let grants = compare_grants(alloc, &old_holders, &new_holders)?;
    Ok(told.behind(grants.as_slice())?)
}

// The rows of the supplier's frames in the variant that a difference compares. Its grants are added to those that are
// held. Where memory or the records are refused, some of them may have been added.
fn take_rows<R: Lender>(
    alloc: Global,
    records: &mut R,
    supplier: Name,
    variant: Name,
    held: &mut BTreeMap<ChannelSlot, LaneHolder>,
) -> Result<ComparedRows, Refusal>
    ensures { OnlyReads R.Records
        (Gathers variant (λ p x rows. AreTaken p supplier x held.old.entries held.new.entries rows))
        records.old records.new result }
{
    find_page(alloc, records, supplier, variant)?;
    let page = records.lent();
    add_grants(page, held)?;
    Ok(ComparedRows::of_page(alloc, page)?)
}

// The rows in which these grants differ, by slot and channel.
fn compare_grants(
    alloc: Global,
    old: &BTreeMap<ChannelSlot, LaneHolder>,
    new: &BTreeMap<ChannelSlot, LaneHolder>,
) -> Result<Rows<DifferenceRow>, NoMemory>
    ensures { IfOk result (λ rows. rows
        ≡ grants_differ (grants_in_lanes old.now.entries) (grants_in_lanes new.now.entries)) }
{
    let old_rows = grant_rows(alloc, old)?;
    let new_rows = grant_rows(alloc, new)?;
    let mut rows = Rows::new(alloc);
    push_differences(old_rows.as_slice(), new_rows.as_slice(), &mut rows)?;
    Ok(rows)
}
