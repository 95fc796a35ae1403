//! The grants that a query shows.
#![tactic(auto, using(fr_world::proofs::ReadLaws::reads_none, fr_world::proofs::ReadLaws::reads_then))]

ghost use Rattle.std.specs.Prelude.{◌≡◌, IfOk, OnOk};
ghost use Rattle.fr_base.specs.Queries.{grants_of};
ghost use Rattle.fr_base.specs.declared.report.Report.TheVariants.{Grants};
ghost use Rattle.fr_office.specs.Carried.{OnlyReads};
ghost use Rattle.fr_office.specs.Shared.{grants_among, with_rows};
ghost use Rattle.fr_office.specs.Shown.{Gathers, Shows};
ghost use Rattle.fr_world.specs.Pages.{own_rows_of};
ghost use Rattle.fr_world.specs.Loads.{grants_in_lanes};

use crate::lender::Lender;
use crate::queries::gathered::{Gathered, gather};
use crate::queries::suppliers::seen_suppliers;
use fr_base::{Actor, GrantRow, LaneHolder, Name, NoMemory, Refusal, ReportRows, Rows};
use fr_world::{ChannelSlot, Page};
use std::alloc::Global;
use std::collections::BTreeMap;

/// The grants that the actor sees in the variant, by slot and channel.
pub(crate) fn show_grants<R: Lender>(
    alloc: Global,
    records: &mut R,
    actor: &Actor,
    variant: Name,
) -> Result<ReportRows, Refusal>
    ensures { OnlyReads R.Records (Shows actor.now variant Grants)
        records.old records.new result }
{
    let suppliers = seen_suppliers(alloc, records, actor)?;
    let rows = gather_grants(alloc, records, &suppliers, variant)?;
    Ok(ReportRows::Grants(rows))
}

// Which of these suppliers holds which slot and channel in the variant, by slot and channel.
#[tactic(auto, using(crate::proofs::GrantLaws::lanes_none))]
fn gather_grants<R: Lender>(
    alloc: Global,
    records: &mut R,
    suppliers: &[Name],
    variant: Name,
) -> Result<Rows<GrantRow>, Refusal>
    ensures { OnlyReads R.Records
        (Gathers variant (λ p x rows. rows ≡ grants_of (grants_among suppliers.now x.grants)))
        records.old records.new result }
{
    let held = gather(alloc, records, suppliers, variant, BTreeMap::new(alloc))?;
    Ok(grant_rows(alloc, &held)?)
}

// The page's grants are held too.
impl Gathered for BTreeMap<ChannelSlot, LaneHolder> {
    ghost use Rattle.std.specs.Prelude.{◌≡◌};
    ghost use Rattle.fr_office.specs.Shared.{grants_among};
    ghost use Rattle.fr_world.specs.Loads.{grants_in_lanes};

    ghost gathered = { λ p first ss x held. grants_in_lanes held.entries ≡ grants_among ss x.grants };

    fn take(&mut self, _alloc: Global, page: &Page) -> Result<(), NoMemory> {
        add_grants(page, self)
    }
}

/// The rows of these grants, by slot and channel.
pub(crate) fn grant_rows(
    alloc: Global,
    held: &BTreeMap<ChannelSlot, LaneHolder>,
) -> Result<Rows<GrantRow>, NoMemory>
    ensures { IfOk result (λ rows. rows ≡ grants_of (grants_in_lanes held.now.entries)) }
{
    let mut rows = Rows::new(alloc);
    for (at, holder) in held.iter() {
        rows.push(GrantRow {
            slot: at.slot,
            channel: at.channel,
            node: holder.node,
            supplier: holder.supplier,
        })?;
    }
    Ok(rows)
}

/// Adds the page's grants. Where memory is refused, some of them may have been added.
pub(crate) fn add_grants(
    page: &Page,
    held: &mut BTreeMap<ChannelSlot, LaneHolder>,
) -> Result<(), NoMemory>
    ensures { OnOk result (grants_in_lanes held.new.entries
        ≡ with_rows (grants_in_lanes held.old.entries) (own_rows_of page.now).grants.rows) }
{
    let supplier = page.supplier();
    for (at, node) in page.grants().iter() {
        let node = *node;
        held.insert(*at, LaneHolder { supplier, node })?;
    }
    Ok(())
}
