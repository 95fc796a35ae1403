//! Writes the lines of any report.
ghost use Rattle.std.specs.Prelude.{◌≡◌, ◌++◌, IfOk, IfSome, OnOk, OnErr, Bool, List, ℕ, ◌∷◌};
ghost use Rattle.fr_text.specs.AnswerText.{report_of};
ghost use Rattle.fr_text.specs.Report.{lines_of_rows};
ghost use Rattle.fr_text.specs.Styles.{joined, lines_in, marked, set_in};
ghost use Rattle.fr_text.specs.Words.{Extends};

mod cluster;
mod differences;
mod fates;
mod frames;
mod gaps;
mod grants;
mod layout;
mod load;
mod nodes;
mod proposal;
mod records;
mod room;
mod schedule;
mod variants;

use crate::report::proposal::push_proposal;
pub use crate::report::proposal::{write_proposed, write_unplaced};
use crate::report::records::push_records;
use crate::report::room::push_room;
use crate::style::Style;
use crate::words::push;
use fr_base::{Answer, Header, NoMemory, ReportRows};
use std::alloc::Global;

/// A row of a report, which makes one line or more.
pub(crate) trait Row {
    /// The first line, by whether the supplier is shown.
    ghost first: { Bool → Self → List ℕ };

    /// The lines behind the first line.
    ghost others: { Bool → Self → List (List ℕ) };

    /// Appends the row's lines, with a mark between each two. An error leaves the old bytes in front.
    fn push(&self, all: bool, mark: &str, out: &mut Vec<u8>) -> Result<(), NoMemory>
        ensures ok { OnOk result (out.new.items ≡ out.old.items
            ++ joined mark.now (first all self.now ∷ others all self.now)) }
        ensures err { OnErr result (Extends out.old.items out.new.items) };
}

/// Appends the lines of the rows. An error leaves the old bytes in front.
#[tactic(auto, using(crate::proofs::WordsLemmas::extending))]
pub(crate) fn push_rows<R: Row>(
    rows: &[R],
    all: bool,
    style: Style,
    out: &mut Vec<u8>,
) -> Result<(), NoMemory>
    ensures ok { OnOk result (out.new.items ≡ out.old.items
        ++ set_in style (lines_in R.first R.others all rows.now)) }
    ensures err { OnErr result (Extends out.old.items out.new.items) }
{
    let [first, rest @ ..] = rows else {
        return Ok(());
    };
    push(style.before(), out)?;
    first.push(all, style.between(), out)?;
    push_behind(rest, all, style.between(), out)?;
    push(style.after(), out)
}

// Appends the lines of the rows, with the mark before each line. An error leaves the old bytes in front.
#[tactic(auto, using(crate::proofs::WordsLemmas::extending), unfolding(crate::specs::Styles::marked))]
fn push_behind<R: Row>(rows: &[R], all: bool, mark: &str, out: &mut Vec<u8>) -> Result<(), NoMemory>
    ensures ok { OnOk result (out.new.items ≡ out.old.items
        ++ marked mark.now (lines_in R.first R.others all rows.now)) }
    ensures err { OnErr result (Extends out.old.items out.new.items) }
{
    for row in rows {
        push(mark, out)?;
        row.push(all, mark, out)?;
    }
    Ok(())
}

/// Appends the lines of a report. An error leaves the old bytes in front.
#[tactic(auto, using(crate::proofs::ReportLemmas::rows), unfolding(crate::specs::Report::lines_of_rows))]
pub(crate) fn push_lines(
    rows: &ReportRows,
    all: bool,
    style: Style,
    out: &mut Vec<u8>,
) -> Result<(), NoMemory>
    ensures ok { OnOk result (out.new.items ≡ out.old.items
        ++ set_in style (lines_of_rows all rows.now)) }
    ensures err { OnErr result (Extends out.old.items out.new.items) }
{
    match rows {
        ReportRows::Cluster(rows) => push_rows(rows.as_slice(), all, style, out),
        ReportRows::Variants(rows) => push_rows(rows.as_slice(), all, style, out),
        ReportRows::Nodes(rows) => push_rows(rows.as_slice(), all, style, out),
        ReportRows::Grants(rows) => push_rows(rows.as_slice(), all, style, out),
        ReportRows::Frames(rows) => push_rows(rows.as_slice(), all, style, out),
        ReportRows::Schedule(rows) => push_rows(rows.as_slice(), all, style, out),
        ReportRows::Gaps(rows) => push_rows(rows.as_slice(), all, style, out),
        ReportRows::Layout(rows) => push_rows(rows.as_slice(), all, style, out),
        ReportRows::Load(rows) => push_rows(rows.as_slice(), all, style, out),
        ReportRows::Seen(rows) => push_rows(rows.as_slice(), all, style, out),
        ReportRows::Room(places) => push_room(places.as_slice(), style, out),
        ReportRows::FrameRecords(records) => {
            push_records(Header::Frames, records.as_slice(), all, style, out)
        }
        ReportRows::PlacementRecords(records) => {
            push_records(Header::Placements, records.as_slice(), all, style, out)
        }
        ReportRows::SignalRecords(records) => {
            push_records(Header::Signals, records.as_slice(), all, style, out)
        }
        ReportRows::Difference(rows) => push_rows(rows.as_slice(), all, style, out),
        ReportRows::Fates(rows) => push_rows(rows.as_slice(), all, style, out),
        ReportRows::Proposal {
            replaces: _,
            proposal,
        } => push_proposal(proposal, style, out),
    }
}

/// The lines of a query's answer, each with a line feed behind it. Any other answer has no lines.
#[tactic(auto, using(crate::proofs::ReportLemmas::rows), unfolding(crate::specs::AnswerText::report_of, crate::specs::Report::lines_of, crate::specs::Styles::set_in))]
pub fn write_lines(alloc: Global, answer: &Answer) -> Result<Vec<u8>, NoMemory>
    ensures { IfOk result (λ text. text.items ≡ report_of answer.now) }
{
    let mut out = Vec::new(alloc);
    match answer {
        Answer::Report { all, rows } => push_lines(rows, *all, Style::Plain, &mut out)?,
        Answer::Done
        | Answer::Imported { .. }
        | Answer::Replaced { .. }
        | Answer::Refused(_)
        | Answer::RefusedRow { .. } => {}
    }
    Ok(out)
}

/// What is said of a report to who may ask for it.
#[derive(Clone, Copy)]
pub struct ReportText {
    /// The word by which it is asked for.
    pub word: &'static str,
    /// What it tells, in a line.
    pub about: &'static str,
    /// What its lines are, with an example.
    pub lines: &'static str,
}

/// What is said of the report of this word.
pub fn report_text(word: &str) -> Option<&'static ReportText>
    ensures { IfSome result (λ text. text.now.word.now ≡ word.now) }
{
    REPORT_TEXTS.iter().find(|text| word == text.word)
}

// What is said of each report that has a subcommand of its own.
const REPORT_TEXTS: &[ReportText] = &[
    ReportText {
        word: "cluster",
        about: "Prints the figures of the cluster, and the suppliers",
        lines: "\
A line for each figure of the cluster file, with its key; then a line for each supplier.
With --supplier the last line is this supplier.

Example:
  slotplan cluster car.db
  slotplan cluster car.db --supplier s1",
    },
    ReportText {
        word: "variants",
        about: "Prints the variants: which there are, and which was opened from which",
        lines: "\
Each line: name, parent, depth, and open or released. A variant that was opened empty
or flat has - for its parent. Each supplier sees all variants.

Example:
  slotplan variants car.db
  slotplan variants car.db --supplier s1",
    },
    ReportText {
        word: "nodes",
        about: "Prints the nodes of the suppliers",
        lines: "\
Each line: node, supplier. With --supplier its own nodes are shown, and the last is left
out.

Example:
  slotplan nodes car.db
  slotplan nodes car.db --supplier s1",
    },
    ReportText {
        word: "diff",
        about: "Prints what differs between two variants: the rows that are gone, and those that are new",
        lines: "\
A line for each grant, frame, placement, signal and greatest gap that one of the two has
and the other has not: - where FROM has it, + where TO has it. Behind it the supplier.
With --supplier the last is left out.

Example:
  slotplan diff car.db v1 v2
  slotplan diff car.db v1 v2 --supplier s1",
    },
    ReportText {
        word: "grants",
        about: "Prints a variant's grants: which node holds which slot and channel",
        lines: "\
Each line: slot, channel, node, supplier. With --supplier the last is left out.

Example:
  slotplan grants car.db v1
  slotplan grants car.db v1 --supplier s1",
    },
    ReportText {
        word: "frames",
        about: "Prints a variant's frames, with their nodes and placements",
        lines: "\
A line for each frame: FRAME, frame, node, supplier. With --supplier the last is left
out. Behind it a line for each placement: AT, slot, channels, base, repetition.

Example:
  slotplan frames car.db v1
  slotplan frames car.db v1 --supplier s1",
    },
    ReportText {
        word: "schedule",
        about: "Prints a variant's schedule: what is sent in which cycle, slot and channel",
        lines: "\
Each line: cycle, slot, channel, frame, node, supplier. With --supplier the last is
left out.

Example:
  slotplan schedule car.db v1
  slotplan schedule car.db v1 --supplier s1",
    },
    ReportText {
        word: "gaps",
        about: "Prints the greatest gap between two sendings of each frame of a variant, in macroticks",
        lines: "\
Each line: GAP, macroticks or never, frame, supplier. With --supplier the last is left
out.

Example:
  slotplan gaps car.db v1
  slotplan gaps car.db v1 --supplier s1",
    },
    ReportText {
        word: "load",
        about: "Prints how full each slot and channel of a variant is",
        lines: "\
A line for each slot on each channel: slot, channel, used cycles, all cycles, node,
supplier. Where it is not granted - stands for node and supplier. With --supplier the
last is left out, and so are the slots and channels that are not this supplier's.

Example:
  slotplan load car.db v1
  slotplan load car.db v1 --supplier s1",
    },
    ReportText {
        word: "rows",
        about: "Prints all rows of a variant: grants, frames, placements, signals and gaps",
        lines: "\
A line for each grant, frame, placement, signal and gap, in this order. Each is that of
diff without its sign, such as AT f1 0001 AB 02 04 s1. All are of one moment. With
--supplier the last is left out, and so are the rows of other suppliers.

Example:
  slotplan rows car.db v1
  slotplan rows car.db v1 --supplier s1",
    },
    ReportText {
        word: "layout",
        about: "Prints a frame's layout: the signals in its payload",
        lines: "\
Each line: first bit, length, little or big, signal, supplier. With --supplier the
last is left out; without it the frames of this name of all suppliers are shown.

Example:
  slotplan layout car.db v1 f1
  slotplan layout car.db v1 f1 --supplier s1",
    },
    ReportText {
        word: "room",
        about: "Prints where a supplier's frame can still be placed, in every so many cycles",
        lines: "\
Each line: slot, channels, repetition, and the base cycles with which the frame can be
placed there.

Example:
  slotplan room car.db v1 f1 8 --supplier s1",
    },
];
