//! The lines of a trial: the fate of each row of a file.
ghost use Rattle.std.specs.Prelude.{◌≡◌, ◌++◌, [], OnOk, OnErr};
ghost use Rattle.fr_text.specs.FateLines.{fate_line, fate_words, refusal_words, taken_words};
ghost use Rattle.fr_text.specs.Words.{behind, Extends};

use super::Row;
use crate::words::{four_digits, push_word, two_digits};
use fr_base::{FateRow, NoMemory, Refusal};

impl Row for FateRow {
    ghost first = { λ _ row. fate_line row };

    ghost others = { λ _ _. [] };

    #[tactic(auto, using(crate::proofs::WordsLemmas::extending), unfolding(crate::specs::FateLines::fate_line, crate::specs::Styles::joined))]
    fn push(&self, _all: bool, _mark: &str, out: &mut Vec<u8>) -> Result<(), NoMemory> {
        out.extend_from_slice(&four_digits(self.line))?;
        push_fate(&self.refusal, out)
    }
}

// Appends what refuses a row, or the word that it is done.
#[tactic(auto, using(crate::proofs::WordsLemmas::extending))]
fn push_fate(refusal: &Option<Refusal>, out: &mut Vec<u8>) -> Result<(), NoMemory>
    ensures ok { OnOk result (out.new.items ≡ out.old.items ++ behind (fate_words refusal.now)) }
    ensures err { OnErr result (Extends out.old.items out.new.items) }
{
    match refusal {
        Some(refusal) => push_refusal(refusal, out),
        None => {
            push_word(b"00", out)?;
            push_word(b"done", out)
        }
    }
}

/// Appends the number and the name of what refuses a row, and what it meets.
#[tactic(auto, using(crate::proofs::WordsLemmas::extending))]
pub(super) fn push_refusal(refusal: &Refusal, out: &mut Vec<u8>) -> Result<(), NoMemory>
    ensures ok { OnOk result (out.new.items ≡ out.old.items ++ behind (refusal_words refusal.now)) }
    ensures err { OnErr result (Extends out.old.items out.new.items) }
{
    push_word(&two_digits(u32::from(refusal.number())), out)?;
    push_word(refusal.name().as_bytes(), out)?;
    push_taken(refusal, out)
}

// Appends what has taken the cell or the bit. Other refusals have no more words.
#[tactic(auto, using(crate::proofs::WordsLemmas::extending))]
fn push_taken(refusal: &Refusal, out: &mut Vec<u8>) -> Result<(), NoMemory>
    ensures ok { OnOk result (out.new.items ≡ out.old.items ++ behind (taken_words refusal.now)) }
    ensures err { OnErr result (Extends out.old.items out.new.items) }
{
    match refusal {
        Refusal::CellTaken {
            cycle,
            channel,
            frame,
        } => {
            push_word(&two_digits(u32::from(*cycle)), out)?;
            push_word(channel.as_str().as_bytes(), out)?;
            push_word(frame.as_str().as_bytes(), out)
        }
        Refusal::BitTaken { bit, signal } => {
            push_word(&four_digits(*bit), out)?;
            push_word(signal.as_str().as_bytes(), out)
        }
        _ => Ok(()),
    }
}
