//! The lines of a proposal: a line for each wish, then a line for each lack. The file of its placements.
ghost use Rattle.std.specs.Prelude.{◌≡◌, ◌∷◌, ◌++◌, [], IfOk, OnOk, OnErr};
ghost use Rattle.std.specs.List.{filter_map};
ghost use Rattle.fr_text.specs.ProposalFiles.{file_lines, other_lines, record_of, refused_line};
ghost use Rattle.fr_text.specs.Report.{lack_line, proposal_line, proposal_lines, proposed_record, proposed_words};
ghost use Rattle.fr_text.specs.Styles.{plain_lines, set_in};
ghost use Rattle.fr_text.specs.Words.{behind, Extends};

use super::fates::push_refusal;
use super::records::{header_text, push_placement};
use super::{Row, push_behind, push_rows};
use crate::style::Style;
use crate::words::{four_digits, push, push_field, push_word};
use fr_base::{Header, LackRow, NoMemory, Proposal, ProposalRow, ProposedPlacement, Refusal};
use std::alloc::Global;

/// Appends the lines of a proposal. An error leaves the old bytes in front.
#[tactic(auto, using(crate::proofs::WordsLemmas::extending))]
pub(super) fn push_proposal(
    proposal: &Proposal,
    style: Style,
    out: &mut Vec<u8>,
) -> Result<(), NoMemory>
    ensures ok { OnOk result (out.new.items ≡ out.old.items
        ++ set_in style (proposal_lines proposal.now)) }
    ensures err { OnErr result (Extends out.old.items out.new.items) }
{
    let lacks = proposal.lacks.as_slice();
    let [first, rest @ ..] = proposal.rows.as_slice() else {
        return push_rows(lacks, false, style, out);
    };
    push(style.before(), out)?;
    first.push(false, style.between(), out)?;
    push_behind(rest, false, style.between(), out)?;
    push_behind(lacks, false, style.between(), out)?;
    push(style.after(), out)
}

impl Row for ProposalRow {
    ghost first = { λ _ row. proposal_line row };

    ghost others = { λ _ _. [] };

    #[tactic(auto, using(crate::proofs::WordsLemmas::extending), unfolding(crate::specs::Report::proposal_line, crate::specs::Styles::joined))]
    fn push(&self, _all: bool, _mark: &str, out: &mut Vec<u8>) -> Result<(), NoMemory> {
        out.extend_from_slice(&four_digits(self.line))?;
        push_proposed(&self.proposed, out)
    }
}

// Appends the record of the placement that is proposed, or what refuses the wish.
#[tactic(auto, using(crate::proofs::WordsLemmas::extending))]
fn push_proposed(
    proposed: &Result<ProposedPlacement, Refusal>,
    out: &mut Vec<u8>,
) -> Result<(), NoMemory>
    ensures ok { OnOk result (out.new.items ≡ out.old.items
        ++ behind (proposed_words proposed.now)) }
    ensures err { OnErr result (Extends out.old.items out.new.items) }
{
    match proposed {
        Ok(placed) => {
            push_word(b"00", out)?;
            push(" ", out)?;
            push_record(placed, out)
        }
        Err(refusal) => push_refusal(refusal, out),
    }
}

// Appends the record of a placement that is proposed.
#[tactic(auto, using(crate::proofs::WordsLemmas::extending), unfolding(crate::specs::Report::proposed_record))]
fn push_record(placed: &ProposedPlacement, out: &mut Vec<u8>) -> Result<(), NoMemory>
    ensures ok { OnOk result (out.new.items ≡ out.old.items ++ proposed_record placed.now) }
    ensures err { OnErr result (Extends out.old.items out.new.items) }
{
    out.extend_from_slice(placed.frame.as_str().as_bytes())?;
    push_field(placed.node.as_str().as_bytes(), out)?;
    push_placement(&placed.placement, out)
}

impl Row for LackRow {
    ghost first = { λ _ lack. lack_line lack };

    ghost others = { λ _ _. [] };

    #[tactic(auto, using(crate::proofs::WordsLemmas::extending), unfolding(crate::specs::Report::lack_line, crate::specs::Styles::joined))]
    fn push(&self, _all: bool, _mark: &str, out: &mut Vec<u8>) -> Result<(), NoMemory> {
        out.extend_from_slice(b"LACK")?;
        push_word(self.node.as_str().as_bytes(), out)?;
        push_word(self.channels.as_str().as_bytes(), out)?;
        push_word(&four_digits(self.slots), out)
    }
}

/// The file with which a supplier takes a proposal: the header of placements, and the record of each that
/// is proposed.
#[tactic(auto, using(crate::proofs::ProposalLemmas::file_is), unfolding(crate::specs::ProposalFiles::file_lines))]
pub fn write_proposed(alloc: Global, proposal: &Proposal) -> Result<Vec<u8>, NoMemory>
    ensures { IfOk result (λ text. text.items ≡ plain_lines (file_lines proposal.now)) }
{
    let mut out = Vec::new(alloc);
    push(header_text(Header::Placements), &mut out)?;
    push("\n", &mut out)?;
    push_placed(proposal.rows.as_slice(), &mut out)?;
    Ok(out)
}

// Appends the records of the placements that are proposed, each with a line feed behind it.
fn push_placed(rows: &[ProposalRow], out: &mut Vec<u8>) -> Result<(), NoMemory>
    ensures { OnOk result (out.new.items ≡ out.old.items
        ++ plain_lines (filter_map (λ row. record_of row.proposed) rows.now)) }
{
    for row in rows {
        push_record_of(row, out)?;
    }
    Ok(())
}

// Appends the record of the placement that is proposed for a wish, if one is, with a line feed behind it.
#[tactic(auto, unfolding(crate::specs::Styles::plain_lines))]
fn push_record_of(row: &ProposalRow, out: &mut Vec<u8>) -> Result<(), NoMemory>
    ensures { OnOk result (out.new.items ≡ out.old.items
        ++ plain_lines (filter_map (λ row. record_of row.proposed) (row.now ∷ []))) }
{
    match &row.proposed {
        Ok(placed) => {
            push_record(placed, out)?;
            push("\n", out)
        }
        Err(_) => Ok(()),
    }
}

/// The other lines of a proposal, each with a line feed behind it: those of wishes for which no placement
/// is proposed, and those of the lacks.
#[tactic(auto, using(crate::proofs::ProposalLemmas::others_are), unfolding(crate::specs::ProposalFiles::other_lines))]
pub fn write_unplaced(alloc: Global, proposal: &Proposal) -> Result<Vec<u8>, NoMemory>
    ensures { IfOk result (λ text. text.items ≡ plain_lines (other_lines proposal.now)) }
{
    let mut out = Vec::new(alloc);
    push_unplaced(proposal.rows.as_slice(), &mut out)?;
    push_rows(proposal.lacks.as_slice(), false, Style::Plain, &mut out)?;
    Ok(out)
}

// Appends the lines of wishes for which no placement is proposed, each with a line feed behind it.
fn push_unplaced(rows: &[ProposalRow], out: &mut Vec<u8>) -> Result<(), NoMemory>
    ensures { OnOk result (out.new.items ≡ out.old.items
        ++ plain_lines (filter_map refused_line rows.now)) }
{
    for row in rows {
        push_refused(row, out)?;
    }
    Ok(())
}

// Appends the line of a wish, if no placement is proposed for it, with a line feed behind it.
#[tactic(auto, unfolding(crate::specs::Styles::plain_lines, crate::specs::Styles::joined))]
fn push_refused(row: &ProposalRow, out: &mut Vec<u8>) -> Result<(), NoMemory>
    ensures { OnOk result (out.new.items ≡ out.old.items
        ++ plain_lines (filter_map refused_line (row.now ∷ []))) }
{
    if row.proposed.is_ok() {
        return Ok(());
    }
    row.push(false, "", out)?;
    push("\n", out)
}
