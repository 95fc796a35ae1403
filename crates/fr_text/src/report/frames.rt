//! The lines of a frames report: each frame, and its placements.
ghost use Rattle.std.specs.Prelude.{◌≡◌, ◌++◌, map, OnOk, OnErr};
ghost use Rattle.fr_text.specs.Report.{frame_line, placement_line};
ghost use Rattle.fr_text.specs.Styles.{marked};
ghost use Rattle.fr_text.specs.Words.{Extends};

use super::Row;
use crate::words::{four_digits, push, push_supplier, push_word, two_digits};
use fr_base::{FrameRow, NoMemory, Placement};

impl Row for FrameRow {
    ghost first = { frame_line };

    ghost others = { λ _ frame. map placement_line frame.placements };

    #[tactic(auto, using(crate::proofs::WordsLemmas::extending), unfolding(crate::specs::Report::frame_line, crate::specs::Styles::joined, crate::specs::Styles::marked))]
    fn push(&self, all: bool, mark: &str, out: &mut Vec<u8>) -> Result<(), NoMemory> {
        push("FRAME", out)?;
        push_word(self.frame.as_str().as_bytes(), out)?;
        push_word(self.node.as_str().as_bytes(), out)?;
        push_supplier(all, &self.supplier, out)?;
        push_placements(self.placements.as_slice(), mark, out)
    }
}

// Appends a line for each placement, with the mark before it.
#[tactic(auto, using(crate::proofs::WordsLemmas::extending), unfolding(crate::specs::Styles::marked))]
fn push_placements(placements: &[Placement], mark: &str, out: &mut Vec<u8>) -> Result<(), NoMemory>
    ensures ok { OnOk result (out.new.items ≡ out.old.items
        ++ marked mark.now (map placement_line placements.now)) }
    ensures err { OnErr result (Extends out.old.items out.new.items) }
{
    for placement in placements {
        push(mark, out)?;
        push_placement(placement, out)?;
    }
    Ok(())
}

#[tactic(auto, using(crate::proofs::WordsLemmas::extending), unfolding(crate::specs::Report::placement_line))]
fn push_placement(placement: &Placement, out: &mut Vec<u8>) -> Result<(), NoMemory>
    ensures ok { OnOk result (out.new.items ≡ out.old.items ++ placement_line placement.now) }
    ensures err { OnErr result (Extends out.old.items out.new.items) }
{
    push("AT", out)?;
    push_word(&four_digits(placement.slot.get()), out)?;
    push_word(placement.channels.as_str().as_bytes(), out)?;
    push_word(&two_digits(u32::from(placement.cycles.base())), out)?;
    push_word(&two_digits(u32::from(placement.cycles.repetition())), out)
}
