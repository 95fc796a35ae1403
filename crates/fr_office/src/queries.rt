//! Answers queries: by what the register holds, or by the pages of those whose rows the actor sees.
#![tactic(auto, using(fr_world::proofs::ReadLaws::reads_none, fr_world::proofs::ReadLaws::reads_then))]

ghost use Rattle.std.specs.Prelude.{◌≡◌, IfSome, IsSome, IsTrue, Ok, OnOk};
ghost use Rattle.fr_base.specs.Checks.{divides, has_repetition, is_integrator};
ghost use Rattle.fr_base.specs.Queries.{found, held, reply};
ghost use Rattle.fr_base.specs.Tables.{contains};
ghost use Rattle.fr_base.specs.declared.query.Query.TheVariants.{Variant as OfVariant};
ghost use Rattle.fr_office.specs.Carried.{OnlyReads, Replies};
ghost use Rattle.fr_office.specs.Shown.{FindsPage, Shows};
ghost use Rattle.fr_world.specs.Held.{Tells};

mod cluster;
mod compared;
mod differences;
mod exports;
mod frame_differences;
mod frames;
mod gaps;
mod gathered;
mod grants;
mod kind_rows;
mod layout;
mod load;
mod nodes;
mod room;
mod rows;
mod schedule;
mod suppliers;

use crate::lender::Lender;
use crate::queries::cluster::cluster_rows;
use crate::queries::differences::differences;
use crate::queries::exports::show_export;
use crate::queries::frames::show_frames;
use crate::queries::gaps::show_gaps;
use crate::queries::grants::show_grants;
use crate::queries::layout::show_layout;
use crate::queries::load::show_load;
use crate::queries::nodes::node_rows;
use crate::queries::room::find_room;
use crate::queries::rows::show_rows;
use crate::queries::schedule::show_schedule;
use fr_base::{Actor, Answer, Inventory, Name, Query, Refusal, Report, ReportRows, Rows};
use std::alloc::Global;

/// The answer to a query with checked values: to a supplier by its own rows, to the integrator by
/// those of all suppliers. Refusals: `NoVariant`; for a layout then `NoFrame`; `Unavailable` where
/// memory or the records are refused.
pub(crate) fn reply<R: Lender>(
    alloc: Global,
    records: &mut R,
    actor: &Actor,
    query: &Query<Name>,
) -> Result<Answer, Refusal>
    requires { IsTrue (has_repetition (R.params records.old) query.now) }
    ensures { OnlyReads R.Records (Replies (λ c b. reply c.params b actor.now query.now))
        records.old records.new result }
{
    let rows = find_rows(alloc, records, actor, query)?;
    let all = is_integrator(actor);
    Ok(Answer::Report { all, rows })
}

// Whether the integrator asks.
fn is_integrator(actor: &Actor) -> bool
    ensures { result ≡ is_integrator actor.now }
{
    matches!(actor, Actor::Integrator)
}

// The rows of the answer to a query.
fn find_rows<R: Lender>(
    alloc: Global,
    records: &mut R,
    actor: &Actor,
    query: &Query<Name>,
) -> Result<ReportRows, Refusal>
    requires { IsTrue (has_repetition (R.params records.old) query.now) }
    ensures { OnlyReads R.Records (Replies (λ c b. found c.params b actor.now query.now))
        records.old records.new result }
{
    match query {
        Query::Register(inventory) => inventory_rows(alloc, records, actor, *inventory),
        Query::Variant { variant, report } => of_variant(alloc, records, actor, *variant, report),
        Query::Difference { variant, from } => {
            differences(alloc, records, actor, *variant, *from)
        }
    }
}

// What the register holds, as the actor sees it.
fn inventory_rows<R: Lender>(
    alloc: Global,
    records: &mut R,
    actor: &Actor,
    inventory: Inventory,
) -> Result<ReportRows, Refusal>
    ensures { OnlyReads R.Records (Replies (λ c b. Ok (held c.params b actor.now inventory)))
        records.old records.new result }
{
    match inventory {
        Inventory::Cluster => {
            let rows = cluster_rows(alloc, records.config(), actor)?;
            Ok(ReportRows::Cluster(rows))
        }
        Inventory::Variants => {
            let rows = records.variants(alloc)?;
            Ok(ReportRows::Variants(Rows::from(rows)))
        }
        Inventory::Nodes => {
            let rows = node_rows(alloc, records, actor)?;
            Ok(ReportRows::Nodes(rows))
        }
    }
}

// The rows of the variant's report, as the actor sees them.
fn of_variant<R: Lender>(
    alloc: Global,
    records: &mut R,
    actor: &Actor,
    variant: Name,
    report: &Report<Name>,
) -> Result<ReportRows, Refusal>
    requires { IsTrue (divides (R.params records.old) report.now) }
    ensures { OnlyReads R.Records
        (Replies (λ c b. found c.params b actor.now (OfVariant variant report.now)))
        records.old records.new result }
{
    if is_there(alloc, records, actor, variant)? {
        show(alloc, records, actor, variant, report)
    } else {
        Err(Refusal::NoVariant)
    }
}

/// Whether the variant is there. Where a supplier asks, its page of the variant is lent, so that it is not read again.
pub(crate) fn is_there<R: Lender>(
    alloc: Global,
    records: &mut R,
    actor: &Actor,
    variant: Name,
) -> Result<bool, Refusal>
    ensures { OnlyReads R.Records
        (λ old new r. Tells old new r (λ c b there. there ≡ contains b.variants variant))
        records.old records.new result }
{
    match actor {
        Actor::Supplier(supplier) => records.lend(alloc, *supplier, variant),
        Actor::Integrator => records.has_variant(variant),
    }
}

// What the report shows the actor of a variant that is there, gathered from those whose rows it sees.
fn show<R: Lender>(
    alloc: Global,
    records: &mut R,
    actor: &Actor,
    variant: Name,
    report: &Report<Name>,
) -> Result<ReportRows, Refusal>
    requires { IsTrue (divides (R.params records.old) report.now) }
    ensures { OnlyReads R.Records (Shows actor.now variant report.now)
        records.old records.new result }
{
    match report {
        Report::Grants => show_grants(alloc, records, actor, variant),
        Report::Frames => show_frames(alloc, records, actor, variant),
        Report::Schedule => show_schedule(alloc, records, actor, variant),
        Report::Gaps => show_gaps(alloc, records, actor, variant),
        Report::Layout { frame } => show_layout(alloc, records, actor, variant, *frame),
        Report::Load => show_load(alloc, records, actor, variant),
        Report::Rows => show_rows(alloc, records, actor, variant),
        Report::Room { frame, repetition } => {
            find_room(alloc, records, actor, variant, *frame, *repetition)
        }
        Report::Export { header, part } => {
            show_export(alloc, records, actor, variant, *header, *part)
        }
    }
}

/// Lends the supplier's page of the variant. `NoVariant` where the variant is not there.
pub(crate) fn find_page<R: Lender>(
    alloc: Global,
    records: &mut R,
    supplier: Name,
    variant: Name,
) -> Result<(), Refusal>
    ensures lent { OnOk result (IsSome (R.lent records.new)) }
    ensures params { IfSome (R.lent records.new) (λ page. page.params ≡ R.params records.old) }
    ensures finds { OnlyReads R.Records (FindsPage (R.lent records.new) supplier variant)
        records.old records.new result }
{
    if records.lend(alloc, supplier, variant)? {
        Ok(())
    } else {
        Err(Refusal::NoVariant)
    }
}
