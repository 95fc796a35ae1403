//! The lines of a gaps report: each frame's greatest gap.
ghost use Rattle.std.specs.Prelude.{◌≡◌, ◌++◌, [], OnOk, OnErr};
ghost use Rattle.fr_text.specs.Report.{gap_line};
ghost use Rattle.fr_text.specs.Words.{right_in, gap_word, Extends};

use super::Row;
use crate::words::{push, push_right, push_supplier, push_word};
use fr_base::{GapRow, NoMemory};

impl Row for GapRow {
    ghost first = { gap_line };

    ghost others = { λ _ _. [] };

    #[tactic(auto, using(crate::proofs::WordsLemmas::extending), unfolding(crate::specs::Report::gap_line, crate::specs::Styles::joined))]
    fn push(&self, all: bool, _mark: &str, out: &mut Vec<u8>) -> Result<(), NoMemory> {
        push("GAP ", out)?;
        push_gap(self.gap, out)?;
        push_word(self.frame.as_str().as_bytes(), out)?;
        push_supplier(all, &self.supplier, out)
    }
}

// Appends the gap at the right of seven places.
#[tactic(auto, using(crate::proofs::WordsLemmas::extending), unfolding(crate::specs::Words::right_in))]
fn push_gap(gap: Option<u32>, out: &mut Vec<u8>) -> Result<(), NoMemory>
    ensures ok { OnOk result (out.new.items ≡ out.old.items ++ right_in 7 (gap_word gap)) }
    ensures err { OnErr result (Extends out.old.items out.new.items) }
{
    match gap {
        Some(gap) => push_right(gap, 7, out),
        None => push("  never", out),
    }
}
