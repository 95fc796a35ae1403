//! The frames that a query shows.
ghost use Rattle.fr_base.specs.declared.report.Report.TheVariants.{Frames};
ghost use Rattle.fr_office.specs.Carried.{OnlyReads};
ghost use Rattle.fr_office.specs.Shown.{Shows};

use crate::lender::Lender;
use crate::queries::gathered::{Gathered, gather};
use crate::queries::suppliers::seen_suppliers;
use fr_base::{Actor, FrameRow, Name, NoMemory, Refusal, ReportRows, Rows};
use fr_world::{Page, frame_row};
use std::alloc::Global;

/// The frames that the actor sees in the variant, by supplier and name.
#[tactic(auto, using(crate::proofs::ShownReplies::shows_frames))]
pub(crate) fn show_frames<R: Lender>(
    alloc: Global,
    records: &mut R,
    actor: &Actor,
    variant: Name,
) -> Result<ReportRows, Refusal>
    ensures { OnlyReads R.Records (Shows actor.now variant Frames)
        records.old records.new result }
{
    let suppliers = seen_suppliers(alloc, records, actor)?;
    let rows = gather(alloc, records, &suppliers, variant, Rows::new(alloc))?;
    Ok(ReportRows::Frames(rows))
}

// The frames of a page, by name, with their nodes and placements, come behind those of the pages before.
impl Gathered for Rows<FrameRow> {
    ghost use Rattle.std.specs.Prelude.{◌≡◌};
    ghost use Rattle.std.specs.List.{flat_map};
    ghost use Rattle.fr_base.specs.Book.{own};
    ghost use Rattle.fr_base.specs.Queries.{frames_of};

    ghost gathered = { λ p first ss x rows. rows ≡ flat_map (λ s. frames_of (own s x.frames)) ss };

    fn take(&mut self, alloc: Global, page: &Page) -> Result<(), NoMemory> {
        let supplier = page.supplier();
        for (name, frame) in page.frames().iter() {
            self.push(frame_row(alloc, supplier, *name, frame)?)?;
        }
        Ok(())
    }
}
