//! The schedule that a query shows.
#![tactic(auto, using(fr_world::proofs::ReadLaws::reads_none, fr_world::proofs::ReadLaws::reads_then))]

ghost use Rattle.std.specs.Prelude.{◌≡◌};
ghost use Rattle.fr_base.specs.Cells.{cluster_cells};
ghost use Rattle.fr_base.specs.declared.report.Report.TheVariants.{Schedule};
ghost use Rattle.fr_office.specs.Carried.{OnlyReads};
ghost use Rattle.fr_office.specs.Shared.{placements_among};
ghost use Rattle.fr_office.specs.Shown.{Gathers, Shows};
ghost use Rattle.fr_world.specs.Sendings.{sent_in};

use crate::lender::Lender;
use crate::queries::gathered::{Gathered, gather};
use crate::queries::suppliers::seen_suppliers;
use fr_base::{Actor, Name, NoMemory, Params, Refusal, ReportRows, Rows, Sending};
use fr_world::{Page, Triggerings};
use std::alloc::Global;

/// The schedule that the actor sees in the variant, by cycle, slot and channel.
pub(crate) fn show_schedule<R: Lender>(
    alloc: Global,
    records: &mut R,
    actor: &Actor,
    variant: Name,
) -> Result<ReportRows, Refusal>
    ensures { OnlyReads R.Records (Shows actor.now variant Schedule)
        records.old records.new result }
{
    let params = records.config().params();
    let suppliers = seen_suppliers(alloc, records, actor)?;
    let rows = gather_schedule(alloc, records, &params, &suppliers, variant)?;
    Ok(ReportRows::Schedule(rows))
}

// Which of these suppliers' frames is sent in which cycle, slot and channel of the cluster in the
// variant: by cycle, slot and channel. Where several frames have a cell, the first one is sent.
fn gather_schedule<R: Lender>(
    alloc: Global,
    records: &mut R,
    params: &Params,
    suppliers: &[Name],
    variant: Name,
) -> Result<Rows<Sending>, Refusal>
    ensures { OnlyReads R.Records
        (Gathers variant (λ p x rows. rows
        ≡ sent_in (placements_among suppliers.now x) (cluster_cells params.now)))
        records.old records.new result }
{
    let triggerings = gather(alloc, records, suppliers, variant, Triggerings::new(alloc))?;
    Ok(triggerings.schedule(alloc, params)?)
}

// The placements of a supplier's frames come behind those of the suppliers before.
impl Gathered for Triggerings {
    ghost use Rattle.std.specs.Prelude.{◌≡◌};
    ghost use Rattle.fr_office.specs.Shared.{placements_among};

    ghost gathered = { λ p first ss x triggerings. triggerings ≡ placements_among ss x };

    fn take(&mut self, _alloc: Global, page: &Page) -> Result<(), NoMemory> {
        self.push_page(page)
    }
}
