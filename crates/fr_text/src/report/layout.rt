//! The lines of a layout: start, length, order and name of each signal.
ghost use Rattle.std.specs.Prelude.{[]};
ghost use Rattle.fr_text.specs.Report.{signal_line};

use super::Row;
use crate::words::{four_digits, push_supplier, push_word, two_digits};
use fr_base::{NoMemory, SignalRow};

impl Row for SignalRow {
    ghost first = { signal_line };

    ghost others = { λ _ _. [] };

    #[tactic(auto, using(crate::proofs::WordsLemmas::extending), unfolding(crate::specs::Report::signal_line, crate::specs::Styles::joined))]
    fn push(&self, all: bool, _mark: &str, out: &mut Vec<u8>) -> Result<(), NoMemory> {
        out.extend_from_slice(&four_digits(self.signal.start()))?;
        push_word(&two_digits(self.signal.length()), out)?;
        push_word(self.signal.order().as_str().as_bytes(), out)?;
        push_word(self.signal.name().as_str().as_bytes(), out)?;
        push_supplier(all, &self.supplier, out)
    }
}
