//! How full lanes are, as a query shows it.
#![tactic(auto, using(fr_world::proofs::ReadLaws::reads_none, fr_world::proofs::ReadLaws::reads_then))]

ghost use Rattle.std.specs.Prelude.{◌≡◌, filter, is_some, IfOk};
ghost use Rattle.fr_base.specs.declared.report.Report.TheVariants.{Load};
ghost use Rattle.fr_office.specs.Carried.{OnlyReads};
ghost use Rattle.fr_office.specs.Shared.{grants_among, placements_among};
ghost use Rattle.fr_office.specs.Shown.{Gathers, Shows, lanes_told};
ghost use Rattle.fr_world.specs.Loads.{filled_load};

use crate::lender::Lender;
use crate::queries::gathered::gather;
use crate::queries::suppliers::seen_suppliers;
use fr_base::{Actor, LoadRow, Name, NoMemory, Params, Refusal, ReportRows, Rows};
use fr_world::Triggerings;
use std::alloc::Global;
use std::collections::BTreeMap;

/// How full the lanes that the actor sees are in the variant.
pub(crate) fn show_load<R: Lender>(
    alloc: Global,
    records: &mut R,
    actor: &Actor,
    variant: Name,
) -> Result<ReportRows, Refusal>
    ensures { OnlyReads R.Records (Shows actor.now variant Load)
        records.old records.new result }
{
    let params = records.config().params();
    let suppliers = seen_suppliers(alloc, records, actor)?;
    let lanes = gather_load(alloc, records, &params, &suppliers, variant)?;
    Ok(ReportRows::Load(seen_lanes(alloc, lanes, actor)?))
}

// How full each lane of the cluster is in the variant, by the frames of these suppliers, and which
// of them holds it.
#[tactic(auto, using(crate::proofs::GrantLaws::lanes_none))]
fn gather_load<R: Lender>(
    alloc: Global,
    records: &mut R,
    params: &Params,
    suppliers: &[Name],
    variant: Name,
) -> Result<Rows<LoadRow>, Refusal>
    ensures { OnlyReads R.Records
        (Gathers variant (λ p x rows. rows
        ≡ filled_load params.now (grants_among suppliers.now x.grants)
        (placements_among suppliers.now x)))
        records.old records.new result }
{
    let nothing = (BTreeMap::new(alloc), Triggerings::new(alloc));
    let (held, triggerings) = gather(alloc, records, suppliers, variant, nothing)?;
    Ok(triggerings.load(alloc, params, &held)?)
}

// Of these lanes those that the actor sees: a supplier those that are held, the integrator all.
#[tactic(auto, unfolding(crate::specs::Shown::lanes_told))]
fn seen_lanes(alloc: Global, lanes: Rows<LoadRow>, actor: &Actor) -> Result<Rows<LoadRow>, NoMemory>
    ensures { IfOk result (λ rows. rows ≡ lanes_told actor.now lanes) }
{
    match actor {
        Actor::Integrator => Ok(lanes),
        Actor::Supplier(_) => held_lanes(alloc, lanes.as_slice()),
    }
}

// The lanes that are held.
fn held_lanes(alloc: Global, lanes: &[LoadRow]) -> Result<Rows<LoadRow>, NoMemory>
    ensures { IfOk result (λ rows. rows ≡ filter (λ lane. is_some lane.holder) lanes.now) }
{
    let held: Vec<LoadRow> = lanes
        .iter()
        .copied()
        .filter(|lane| lane.holder.is_some())
        .collect(alloc)?;
    Ok(Rows::from(held))
}
