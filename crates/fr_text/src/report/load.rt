//! The lines of a load: slot, channel, used cycles, count of cycles, and who holds the lane.
ghost use Rattle.std.specs.Prelude.{◌≡◌, ◌++◌, [], None, OnOk, OnErr};
ghost use Rattle.fr_text.specs.Report.{holder_words, load_line};
ghost use Rattle.fr_text.specs.Words.{behind, Extends};

use super::Row;
use crate::words::{four_digits, push_supplier, push_word, two_digits};
use fr_base::{LaneHolder, LoadRow, NoMemory};

impl Row for LoadRow {
    ghost first = { load_line };

    ghost others = { λ _ _. [] };

    #[tactic(auto, using(crate::proofs::WordsLemmas::extending), unfolding(crate::specs::Report::load_line, crate::specs::Styles::joined))]
    fn push(&self, all: bool, _mark: &str, out: &mut Vec<u8>) -> Result<(), NoMemory> {
        out.extend_from_slice(&four_digits(self.slot.get()))?;
        push_word(self.channel.as_str().as_bytes(), out)?;
        push_word(&two_digits(self.used), out)?;
        push_word(&two_digits(self.cycles), out)?;
        push_holder(all, &self.holder, out)
    }
}

// Appends the node that holds a lane, and its supplier where the rows of all are shown. Where
// nobody holds the lane, a hyphen stands for each.
#[tactic(auto, using(crate::proofs::WordsLemmas::extending))]
fn push_holder(all: bool, holder: &Option<LaneHolder>, out: &mut Vec<u8>) -> Result<(), NoMemory>
    ensures ok { OnOk result (out.new.items ≡ out.old.items
        ++ behind (holder_words all holder.now)) }
    ensures err { OnErr result (Extends out.old.items out.new.items) }
{
    match holder {
        Some(holder) => {
            push_word(holder.node.as_str().as_bytes(), out)?;
            push_supplier(all, &holder.supplier, out)
        }
        None => push_nobody(all, out),
    }
}

// Appends the hyphens of a lane that nobody holds.
#[tactic(auto, using(crate::proofs::WordsLemmas::extending))]
fn push_nobody(all: bool, out: &mut Vec<u8>) -> Result<(), NoMemory>
    ensures ok { OnOk result (out.new.items ≡ out.old.items ++ behind (holder_words all None)) }
    ensures err { OnErr result (Extends out.old.items out.new.items) }
{
    push_word(b"-", out)?;
    if all { push_word(b"-", out) } else { Ok(()) }
}
