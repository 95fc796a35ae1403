//! Writes answers as compact JSON.
ghost use Rattle.std.specs.Prelude.{◌≡◌, ◌++◌, IfOk, OnOk, OnErr};
ghost use Rattle.fr_text.specs.AnswerText.{text_of, text_of_report, text_of_imported, text_of_plain, text_of_refusal, text_of_replaced, text_of_row};
ghost use Rattle.fr_base.specs.declared.refusal.Refusal.TheVariants as refused;
ghost use Rattle.fr_base.specs.Queries.{name_of_rows};
ghost use Rattle.fr_text.specs.Report.{lines_of_rows};
ghost use Rattle.fr_text.specs.Styles.{quoted};
ghost use Rattle.fr_text.specs.Words.{Extends};

use crate::report::push_lines;
use crate::style::Style;
use crate::words::{push, push_decimal};
use fr_base::{Answer, Channel, Name, NoMemory, Refusal, ReportRows};
use std::alloc::Global;

/// The answer's text: compact JSON, its keys in byte order, with no line feed.
pub fn write_answer(alloc: Global, answer: &Answer) -> Result<Vec<u8>, NoMemory>
    ensures { IfOk result (λ text. text.items ≡ text_of answer.now) }
{
    let mut out = Vec::new(alloc);
    push_answer(answer, &mut out)?;
    Ok(out)
}

#[tactic(auto, using(crate::proofs::WordsLemmas::extending), unfolding(crate::specs::AnswerText::text_of))]
fn push_answer(answer: &Answer, out: &mut Vec<u8>) -> Result<(), NoMemory>
    ensures ok { OnOk result (out.new.items ≡ out.old.items ++ text_of answer.now) }
    ensures err { OnErr result (Extends out.old.items out.new.items) }
{
    match answer {
        Answer::Done => push("{\"ok\":\"done\"}", out),
        Answer::Imported { rows } => push_imported(*rows, out),
        Answer::Replaced { rows } => push_replaced(*rows, out),
        Answer::Report { all, rows } => push_report(rows, *all, out),
        Answer::Refused(refusal) => push_refusal(refusal, out),
        Answer::RefusedRow { line, refusal } => push_refused_row(*line, refusal, out),
    }
}

// Appends a report: the texts of its lines, then its name.
#[tactic(auto, using(crate::proofs::WordsLemmas::extending))]
fn push_report(rows: &ReportRows, all: bool, out: &mut Vec<u8>) -> Result<(), NoMemory>
    ensures ok { OnOk result (out.new.items ≡ out.old.items
        ++ text_of_report (lines_of_rows all rows.now) (name_of_rows rows.now)) }
    ensures err { OnErr result (Extends out.old.items out.new.items) }
{
    push("{\"lines\":[", out)?;
    push_lines(rows, all, Style::Json, out)?;
    push("],\"ok\":", out)?;
    push_quoted(rows.name(), out)?;
    push("}", out)
}

// Appends the answer to an import of so many rows.
#[tactic(auto, using(crate::proofs::WordsLemmas::extending))]
fn push_imported(rows: u32, out: &mut Vec<u8>) -> Result<(), NoMemory>
    ensures ok { OnOk result (out.new.items ≡ out.old.items ++ text_of_imported rows) }
    ensures err { OnErr result (Extends out.old.items out.new.items) }
{
    push("{\"ok\":\"imported\",\"rows\":", out)?;
    push_decimal(rows, out)?;
    push("}", out)
}

// Appends the answer to a replacement of so many rows.
#[tactic(auto, using(crate::proofs::WordsLemmas::extending))]
fn push_replaced(rows: u32, out: &mut Vec<u8>) -> Result<(), NoMemory>
    ensures ok { OnOk result (out.new.items ≡ out.old.items ++ text_of_replaced rows) }
    ensures err { OnErr result (Extends out.old.items out.new.items) }
{
    push("{\"ok\":\"replaced\",\"rows\":", out)?;
    push_decimal(rows, out)?;
    push("}", out)
}

// Appends the answer to a file with a refused row: its line, and its own refusal.
#[tactic(auto, using(crate::proofs::WordsLemmas::extending))]
fn push_refused_row(line: u32, refusal: &Refusal, out: &mut Vec<u8>) -> Result<(), NoMemory>
    ensures ok { OnOk result (out.new.items ≡ out.old.items ++ text_of_row line refusal.now) }
    ensures err { OnErr result (Extends out.old.items out.new.items) }
{
    push("{\"line\":", out)?;
    push_decimal(line, out)?;
    push(",\"no\":29,\"refused\":\"BadRow\",\"row\":", out)?;
    push_refusal(refusal, out)?;
    push("}", out)
}

fn push_refusal(refusal: &Refusal, out: &mut Vec<u8>) -> Result<(), NoMemory>
    ensures ok { OnOk result (out.new.items ≡ out.old.items ++ text_of_refusal refusal.now) }
    ensures err { OnErr result (Extends out.old.items out.new.items) }
{
    match refusal {
        Refusal::CellTaken {
            cycle,
            channel,
            frame,
        } => push_cell_taken(*cycle, *channel, *frame, out),
        Refusal::BitTaken { bit, signal } => push_bit_taken(*bit, *signal, out),
        plain => push_plain(u32::from(plain.number()), plain.name(), out),
    }
}

#[tactic(auto, using(crate::proofs::WordsLemmas::extending))]
fn push_cell_taken(
    cycle: u8,
    channel: Channel,
    frame: Name,
    out: &mut Vec<u8>,
) -> Result<(), NoMemory>
    ensures ok { OnOk result (out.new.items ≡ out.old.items
        ++ text_of_refusal (refused.CellTaken cycle channel frame)) }
    ensures err { OnErr result (Extends out.old.items out.new.items) }
{
    push("{\"channel\":", out)?;
    push_quoted(channel.as_str(), out)?;
    push(",\"cycle\":", out)?;
    push_decimal(u32::from(cycle), out)?;
    push(",\"frame\":", out)?;
    push_quoted(frame.as_str(), out)?;
    push(",\"no\":25,\"refused\":\"CellTaken\"}", out)
}

#[tactic(auto, using(crate::proofs::WordsLemmas::extending))]
fn push_bit_taken(bit: u32, signal: Name, out: &mut Vec<u8>) -> Result<(), NoMemory>
    ensures ok { OnOk result (out.new.items ≡ out.old.items
        ++ text_of_refusal (refused.BitTaken bit signal)) }
    ensures err { OnErr result (Extends out.old.items out.new.items) }
{
    push("{\"bit\":", out)?;
    push_decimal(bit, out)?;
    push(",\"no\":27,\"refused\":\"BitTaken\",\"signal\":", out)?;
    push_quoted(signal.as_str(), out)?;
    push("}", out)
}

// Appends a refusal that has no fields: its number, and its name.
#[tactic(auto, using(crate::proofs::WordsLemmas::extending))]
fn push_plain(number: u32, name: &str, out: &mut Vec<u8>) -> Result<(), NoMemory>
    ensures ok { OnOk result (out.new.items ≡ out.old.items ++ text_of_plain number name.now) }
    ensures err { OnErr result (Extends out.old.items out.new.items) }
{
    push("{\"no\":", out)?;
    push_decimal(number, out)?;
    push(",\"refused\":", out)?;
    push_quoted(name, out)?;
    push("}", out)
}

// Appends the text in double quotes. It has no character that needs an escape.
#[tactic(auto, using(crate::proofs::WordsLemmas::extending))]
fn push_quoted(text: &str, out: &mut Vec<u8>) -> Result<(), NoMemory>
    ensures ok { OnOk result (out.new.items ≡ out.old.items ++ quoted text.now) }
    ensures err { OnErr result (Extends out.old.items out.new.items) }
{
    push("\"", out)?;
    push(text, out)?;
    push("\"", out)
}
