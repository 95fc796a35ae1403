//! The records of a part of an export.
#![tactic(auto, using(fr_world::proofs::ReadLaws::reads_none, fr_world::proofs::ReadLaws::reads_then))]

ghost use Rattle.std.specs.Prelude.{◌≡◌, ◌++◌, List, map, OnOk};
ghost use Rattle.std.specs.List.{flat_map};
ghost use Rattle.fr_base.specs.Book.{own};
ghost use Rattle.fr_base.specs.Exports.{exported, part_of};
ghost use Rattle.fr_base.specs.declared.report.Report.TheVariants.{Export};
ghost use Rattle.fr_office.specs.Carried.{OnlyReads};
ghost use Rattle.fr_office.specs.Shown.{Gathers, Shows};
ghost use Rattle.fr_world.specs.Pages.{own_rows_of};
ghost use Rattle.fr_world.specs.Parts.{in_part};

use crate::lender::Lender;
use crate::queries::gathered::{Gathered, gather};
use crate::queries::suppliers::seen_suppliers;
use fr_base::{Actor, Header, Name, NoMemory, Refusal, ReportRows, Rows};
use fr_world::{FileRecord, Page, Part};
use std::alloc::Global;

/// The records below the header of the frames that the actor sees in the variant: the part of this number.
#[tactic(auto, using(crate::proofs::ShownReplies::shows_export))]
pub(crate) fn show_export<R: Lender>(
    alloc: Global,
    records: &mut R,
    actor: &Actor,
    variant: Name,
    header: Header,
    number: u32,
) -> Result<ReportRows, Refusal>
    ensures { OnlyReads R.Records (Shows actor.now variant (Export header number))
        records.old records.new result }
{
    let suppliers = seen_suppliers(alloc, records, actor)?;
    gather_export(alloc, records, &suppliers, variant, header, number)
}

// The records below the header of these suppliers' frames in the variant, supplier after supplier:
// the part of this number.
fn gather_export<R: Lender>(
    alloc: Global,
    records: &mut R,
    suppliers: &[Name],
    variant: Name,
    header: Header,
    number: u32,
) -> Result<ReportRows, Refusal>
    ensures { OnlyReads R.Records
        (Gathers variant (λ p x rows. rows
        ≡ exported header number (flat_map (λ s. (own s x.frames).rows) suppliers.now)))
        records.old records.new result }
{
    match header {
        Header::Frames => {
            let rows = gather_part(alloc, records, suppliers, variant, number)?;
            Ok(ReportRows::FrameRecords(rows))
        }
        Header::Placements => {
            let rows = gather_part(alloc, records, suppliers, variant, number)?;
            Ok(ReportRows::PlacementRecords(rows))
        }
        Header::Signals => {
            let rows = gather_part(alloc, records, suppliers, variant, number)?;
            Ok(ReportRows::SignalRecords(rows))
        }
    }
}

// The records of a kind of these suppliers' frames in the variant: the part of this number.
fn gather_part<T: FileRecord + Drop, R: Lender>(
    alloc: Global,
    records: &mut R,
    suppliers: &[Name],
    variant: Name,
    number: u32,
) -> Result<Rows<T>, Refusal>
    ensures { OnlyReads R.Records
        (Gathers variant (λ p x rows. rows
        ≡ part_of number (map T.records (flat_map (λ s. (own s x.frames).rows) suppliers.now))))
        records.old records.new result }
{
    let nothing = PartRows {
        part: Part::new(number),
        rows: Rows::new(alloc),
    };
    let gathered = gather(alloc, records, suppliers, variant, nothing)?;
    Ok(gathered.rows)
}

/// The records of a part of an export, and how far the part has come.
#[derive(Drop)]
pub(crate) struct PartRows<T> {
    part: Part,
    rows: Rows<T>,
}

// The records of the page's frames that the part takes come behind those of the pages before.
impl<T: FileRecord + Drop> Gathered for PartRows<T> {
    ghost use Rattle.fr_office.specs.Gathered.{IsPartOf};

    ghost gathered = { IsPartOf T.records };

    fn take(&mut self, _alloc: Global, page: &Page) -> Result<(), NoMemory> {
        push_part(page, &mut self.part, &mut self.rows)
    }
}

// Appends the records of the page's frames that the part takes. Where memory is refused, some of
// them may have been appended.
fn push_part<T: FileRecord + Drop>(
    page: &Page,
    part: &mut Part,
    rows: &mut Rows<T>,
) -> Result<(), NoMemory>
    ensures { OnOk result ((rest : List (List T))
        → rows.new ++ in_part part.new rest ≡ rows.old
        ++ in_part part.old (map T.records (own_rows_of page.now).frames.rows ++ rest)) }
{
    let supplier = page.supplier();
    for (name, frame) in page.frames().iter() {
        if part.takes(T::count(frame)) {
            T::push(supplier, *name, frame, rows)?;
        }
    }
    Ok(())
}
