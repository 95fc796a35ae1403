//! Where a frame may still be placed, as a query shows it.
#![tactic(auto, using(fr_world::proofs::ReadLaws::reads_none, fr_world::proofs::ReadLaws::reads_then))]

ghost use Rattle.std.specs.Prelude.{IsTrue};
ghost use Rattle.fr_base.specs.Cycles.{is_repetition};
ghost use Rattle.fr_base.specs.declared.report.Report.TheVariants.{Room};
ghost use Rattle.fr_office.specs.Carried.{OnlyReads};
ghost use Rattle.fr_office.specs.Shown.{Shows};

use crate::lender::Lender;
use crate::queries::find_page;
use fr_base::{Actor, Name, Refusal, ReportRows};
use fr_world::room;
use std::alloc::Global;

/// Where the actor's frame may be placed with this repetition, which divides the count of cycles.
/// `NotYours` for the integrator, who has no frames.
pub(crate) fn find_room<R: Lender>(
    alloc: Global,
    records: &mut R,
    actor: &Actor,
    variant: Name,
    frame: Name,
    repetition: u32,
) -> Result<ReportRows, Refusal>
    requires { IsTrue (is_repetition (R.params records.old).cycles repetition) }
    ensures { OnlyReads R.Records (Shows actor.now variant (Room frame repetition))
        records.old records.new result }
{
    match actor {
        Actor::Integrator => Err(Refusal::NotYours),
        Actor::Supplier(supplier) => {
            find_page(alloc, records, *supplier, variant)?;
            let places = room(alloc, records.lent(), frame, repetition)?;
            Ok(ReportRows::Room(places))
        }
    }
}
