//! Carries a delivered file out, answers it once more, tells the fate of its rows, or what is proposed for its wishes.
#![tactic(auto, using(fr_world::proofs::ReadLaws::reads_none, fr_world::proofs::ReadLaws::reads_then))]

ghost use Rattle.std.specs.Prelude.{◌≡◌, ◌≤◌, IfSome, IsSome, MatchResult, Ok, Err, false};
ghost use Rattle.fr_base.specs.Book.{own};
ghost use Rattle.fr_base.specs.Tables.{len};
ghost use Rattle.fr_office.specs.Carried.{CarriesEdits, OnlyReads, Replies};
ghost use Rattle.fr_office.specs.Decided.{LeadsTo};
ghost use Rattle.fr_office.specs.Deliveries.{CarriesActed, CarriesDelivery, CarriesFile, acted_answer, edits_of_file, label_said, proposal_answer};
ghost use Rattle.fr_world.specs.FileDecisions.{is_proposal, is_trial};
ghost use Rattle.fr_world.specs.Held.{Tells};
ghost use Rattle.fr_world.specs.ImportLimits.{file_room};

use crate::lender::{Lender, open_page};
use fr_base::{Answer, Body, Delivery, Purpose, Refusal, ReportRows};
use fr_text::{read_header, read_rows, read_wishes};
use fr_world::{
    Draft, Edit, FileDecision, Records, RowFault, admit_file, all_rows_are_checked, decide_file,
    decide_label, propose_wishes,
};
use std::alloc::Global;

/// Carries out, or tries, a file with checked names, of a supplier that is there, or tells what is proposed
/// for its wishes. An import that is kept under its label is answered as before. For all else the variant,
/// the room for the file and its rows or wishes are decided in turn. A new import is kept together with what
/// its rows change.
pub(crate) fn deliver<R: Lender>(
    alloc: Global,
    records: &mut R,
    delivery: &Delivery<'_>,
) -> Result<Answer, Refusal>
    ensures { CarriesDelivery R.Records delivery.now delivery.now.how
        records.old records.new result }
{
    if let Some(rows) = rows_kept(alloc, records, delivery)? {
        return Ok(Answer::Imported { rows });
    }
    let kept = imports_kept(alloc, records, delivery)?;
    open_page(alloc, records, delivery.supplier, delivery.variant)?;
    admit_file(delivery, kept)?;
    decide(alloc, records, delivery)
}

// How many rows the file has, if it is an import that is kept under its label.
fn rows_kept<R: Records>(
    alloc: Global,
    records: &mut R,
    delivery: &Delivery<'_>,
) -> Result<Option<u32>, Refusal>
    ensures { OnlyReads R.Records
        (Replies (λ c b. label_said b delivery.now delivery.now.how))
        records.old records.new result }
{
    match delivery.how {
        Purpose::Import { label } => {
            let kept = records.import(alloc, delivery.supplier, label)?;
            decide_label(kept.as_ref(), delivery)
        }
        Purpose::Replacement { .. } | Purpose::Trial { .. } | Purpose::Proposal { .. } => Ok(None),
    }
}

// How many imports the supplier keeps, where the file is to be another one.
fn imports_kept<R: Records>(
    alloc: Global,
    records: &mut R,
    delivery: &Delivery<'_>,
) -> Result<usize, Refusal>
    ensures { OnlyReads R.Records
        (λ old new r. Tells old new r (λ c b count.
        file_room delivery.now delivery.now.how count
        ≡ file_room delivery.now delivery.now.how (len (own delivery.now.supplier b.imports))))
        records.old records.new result }
{
    match delivery.how {
        Purpose::Import { .. } => records.imports(alloc, delivery.supplier),
        Purpose::Replacement { .. } | Purpose::Trial { .. } | Purpose::Proposal { .. } => Ok(0),
    }
}

// Does what the file is delivered for, on the page that is lent.
fn decide<R: Lender>(
    alloc: Global,
    records: &mut R,
    delivery: &Delivery<'_>,
) -> Result<Answer, Refusal>
    requires lent { IsSome (R.lent records.old) }
    requires open { IfSome (R.lent records.old) (λ page. page.released ≡ false) }
    ensures { IfSome (R.lent records.old)
        (CarriesFile R.Records delivery.now delivery.now.how records.old records.new result) }
{
    match delivery.how {
        Purpose::Proposal { replace } => propose(alloc, records, delivery, replace),
        _ => decide_rows(alloc, records, delivery),
    }
}

// Tells what is proposed for the wishes of the file, on the page that is lent.
fn propose<R: Lender>(
    alloc: Global,
    records: &R,
    delivery: &Delivery<'_>,
    replace: bool,
) -> Result<Answer, Refusal>
    requires lent { IsSome (R.lent records.now) }
    ensures { IfSome (R.lent records.now) (λ page. MatchResult result
        (λ answer. answer ≡ proposal_answer delivery.now replace page)
        (λ e. e ≡ Refusal.Unavailable)) }
{
    let page = records.lent();
    let wishes = read_wishes(alloc, &page.params(), delivery.body.as_slice())?;
    let proposal = propose_wishes(alloc, page, wishes.as_slice(), replace)?;
    Ok(Answer::Report {
        all: false,
        rows: ReportRows::Proposal {
            replaces: replace,
            proposal,
        },
    })
}

// Does what the rows of the file are decided to on the page that is lent: they are carried out, the
// first refused one is told, or the fate of each.
fn decide_rows<R: Lender>(
    alloc: Global,
    records: &mut R,
    delivery: &Delivery<'_>,
) -> Result<Answer, Refusal>
    requires rows { is_proposal delivery.now.how ≡ false }
    requires lent { IsSome (R.lent records.old) }
    requires open { IfSome (R.lent records.old) (λ page. page.released ≡ false) }
    ensures { IfSome (R.lent records.old)
        (CarriesFile R.Records delivery.now delivery.now.how records.old records.new result) }
{
    let page = records.lent();
    let header = read_header(alloc, delivery.body.as_slice())?;
    let rows = read_rows(alloc, &page.params(), delivery.body.as_slice())?;
    all_rows_are_checked();
    match decide_file(alloc, page, header, rows.as_slice(), &delivery.how) {
        Ok(FileDecision::Acts(draft)) => {
            // A file of which no row is refused has at most 512.
            let count = rows.len() as u32;
            carry_out(alloc, records, delivery, draft, count)
        }
        Ok(FileDecision::Told(fates)) => Ok(Answer::Report {
            all: false,
            rows: ReportRows::Fates(fates),
        }),
        Err(RowFault::Row { line, refusal }) => Ok(Answer::RefusedRow { line, refusal }),
        Err(RowFault::Unavailable) => Err(Refusal::Unavailable),
    }
}

// Carries out the edits that led from the page that is lent to the draft's; for an import one more,
// which keeps it with this count of rows. Then the draft's page is the one that is lent.
fn carry_out<R: Lender>(
    alloc: Global,
    records: &mut R,
    delivery: &Delivery<'_>,
    draft: Draft,
    rows: u32,
) -> Result<Answer, Refusal>
    requires acts { is_trial delivery.now.how ≡ false }
    requires rows { is_proposal delivery.now.how ≡ false }
    requires lent { IsSome (R.lent records.old) }
    requires leads { IfSome (R.lent records.old) (λ page. LeadsTo page
        (edits_of_file delivery.now delivery.now.how draft.edits.items rows) draft.page) }
    ensures { CarriesActed R.Records
        (edits_of_file delivery.now delivery.now.how draft.edits.items rows)
        (acted_answer delivery.now.how rows) records.old records.new result }
{
    let Draft { page, mut edits } = draft;
    let answer = match delivery.how {
        Purpose::Import { label } => {
            edits.push(Edit::KeepImport {
                supplier: delivery.supplier,
                label,
                variant: delivery.variant,
                body: Body::copy(alloc, delivery.body.as_slice())?,
                rows,
            })?;
            Answer::Imported { rows }
        }
        _ => Answer::Replaced { rows },
    };
    records.change_to(alloc, &edits, page)?;
    Ok(answer)
}
