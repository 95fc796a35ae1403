//! The signals that a query of a frame's layout shows.
#![tactic(auto, using(fr_world::proofs::ReadLaws::reads_none, fr_world::proofs::ReadLaws::reads_then))]

ghost use Rattle.std.specs.Prelude.{◌≡◌, ◌==◌, ◌++◌, not, IfOk, OnOk};
ghost use Rattle.fr_base.specs.Queries.{named, signals_of};
ghost use Rattle.fr_base.specs.Tables.{len};
ghost use Rattle.fr_base.specs.declared.report.Report.TheVariants.{Layout};
ghost use Rattle.fr_office.specs.Carried.{OnlyReads};
ghost use Rattle.fr_office.specs.Shown.{AreSignals, Gathers, Shows};
ghost use Rattle.fr_world.specs.Pages.{own_rows_of};

use crate::lender::Lender;
use crate::queries::gathered::{Gathered, gather};
use crate::queries::suppliers::seen_suppliers;
use fr_base::{Actor, Name, NoMemory, Refusal, ReportRows, Rows, SignalRow};
use fr_world::{Page, push_signal_rows};
use std::alloc::Global;

/// The signals of the frames of this name that the actor sees in the variant. `NoFrame` where it sees none.
#[tactic(auto, using(crate::proofs::ShownReplies::shows_layout, crate::proofs::ShownReplies::shows_no_frame))]
pub(crate) fn show_layout<R: Lender>(
    alloc: Global,
    records: &mut R,
    actor: &Actor,
    variant: Name,
    frame: Name,
) -> Result<ReportRows, Refusal>
    ensures { OnlyReads R.Records (Shows actor.now variant (Layout frame))
        records.old records.new result }
{
    let suppliers = seen_suppliers(alloc, records, actor)?;
    match gather_signals(alloc, records, &suppliers, variant, frame)? {
        Some(rows) => Ok(ReportRows::Layout(rows)),
        None => Err(Refusal::NoFrame),
    }
}

// The signals of the frames of this name in the variant, of these suppliers, supplier after supplier.
// `None` where none of them has such a frame.
fn gather_signals<R: Lender>(
    alloc: Global,
    records: &mut R,
    suppliers: &[Name],
    variant: Name,
    name: Name,
) -> Result<Option<Rows<SignalRow>>, Refusal>
    ensures { OnlyReads R.Records
        (Gathers variant (λ p x found. AreSignals name suppliers.now x found))
        records.old records.new result }
{
    let nothing = NamedSignals {
        name,
        rows: Rows::new(alloc),
        found: false,
    };
    let signals = gather(alloc, records, suppliers, variant, nothing)?;
    Ok(if signals.found {
        Some(signals.rows)
    } else {
        None
    })
}

/// The signals of frames of a name, and whether there is such a frame.
#[derive(Drop)]
pub(crate) struct NamedSignals {
    name: Name,
    rows: Rows<SignalRow>,
    found: bool,
}

// The signals of the page's frame, by start, come behind those of the pages before.
impl Gathered for NamedSignals {
    ghost use Rattle.fr_office.specs.Gathered.{AreNamed};

    ghost gathered = { λ p first ss x all. AreNamed first.name ss x all };

    fn take(&mut self, _alloc: Global, page: &Page) -> Result<(), NoMemory> {
        if push_signals(page, self.name, &mut self.rows)? {
            self.found = true;
        }
        Ok(())
    }
}

// Appends the signals of the page's frame of this name, by start. The answer says whether there is
// such a frame. Where memory is refused, some of them may have been appended.
fn push_signals(page: &Page, name: Name, rows: &mut Rows<SignalRow>) -> Result<bool, NoMemory>
    ensures rows { OnOk result (rows.new ≡ rows.old
        ++ signals_of (named name (own_rows_of page.now).frames)) }
    ensures found { IfOk result (λ found.
        not found ≡ (len (named name (own_rows_of page.now).frames) == 0)) }
{
    match page.frames().get(&name) {
        Some(frame) => {
            push_signal_rows(page.supplier(), frame, rows)?;
            Ok(true)
        }
        None => Ok(false),
    }
}
