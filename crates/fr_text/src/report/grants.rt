//! The lines of a grants report: slot, channel, node.
ghost use Rattle.std.specs.Prelude.{[]};
ghost use Rattle.fr_text.specs.Report.{grant_line};

use super::Row;
use crate::words::{four_digits, push_supplier, push_word};
use fr_base::{GrantRow, NoMemory};

impl Row for GrantRow {
    ghost first = { grant_line };

    ghost others = { λ _ _. [] };

    #[tactic(auto, using(crate::proofs::WordsLemmas::extending), unfolding(crate::specs::Report::grant_line, crate::specs::Styles::joined))]
    fn push(&self, all: bool, _mark: &str, out: &mut Vec<u8>) -> Result<(), NoMemory> {
        out.extend_from_slice(&four_digits(self.slot.get()))?;
        push_word(self.channel.as_str().as_bytes(), out)?;
        push_word(self.node.as_str().as_bytes(), out)?;
        push_supplier(all, &self.supplier, out)
    }
}
