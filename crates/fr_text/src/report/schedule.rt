//! The lines of a schedule: cycle, slot, channel, frame, node.
ghost use Rattle.std.specs.Prelude.{◌≡◌, [], ◌∷◌, ◌++◌, OnOk, OnErr};
ghost use Rattle.fr_base.specs.Channels.{text_of_channel};
ghost use Rattle.fr_text.specs.Report.{schedule_line};
ghost use Rattle.fr_text.specs.Words.{two_digits, four_digits, line, Extends};

use super::Row;
use crate::words::{four_digits, push_supplier, push_word, two_digits};
use fr_base::{NoMemory, Sending};

impl Row for Sending {
    ghost first = { schedule_line };

    ghost others = { λ _ _. [] };

    #[tactic(auto, using(crate::proofs::WordsLemmas::extending), unfolding(crate::specs::Report::schedule_line, crate::specs::Styles::joined))]
    fn push(&self, all: bool, _mark: &str, out: &mut Vec<u8>) -> Result<(), NoMemory> {
        push_cell(self, out)?;
        push_word(self.frame.as_str().as_bytes(), out)?;
        push_word(self.node.as_str().as_bytes(), out)?;
        push_supplier(all, &self.supplier, out)
    }
}

// Appends cycle, slot and channel.
#[tactic(auto, using(crate::proofs::WordsLemmas::extending))]
fn push_cell(sending: &Sending, out: &mut Vec<u8>) -> Result<(), NoMemory>
    ensures ok { OnOk result (out.new.items ≡ out.old.items
        ++ line (two_digits sending.now.cycle ∷ four_digits sending.now.slot ∷ text_of_channel
        sending.now.channel ∷ [])) }
    ensures err { OnErr result (Extends out.old.items out.new.items) }
{
    out.extend_from_slice(&two_digits(u32::from(sending.cycle)))?;
    push_word(&four_digits(sending.slot.get()), out)?;
    push_word(sending.channel.as_str().as_bytes(), out)
}
