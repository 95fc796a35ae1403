//! The lines of a variant's rows, and of a difference: each row that is gone, or new.
ghost use Rattle.std.specs.Prelude.{◌≡◌, [], ◌∷◌, ◌++◌, codes, OnOk, OnErr};
ghost use Rattle.fr_base.specs.Channels.{text_of_channels};
ghost use Rattle.fr_base.specs.declared.answer.SeenRow.TheVariants as seen;
ghost use Rattle.fr_text.specs.Report.{difference_line, seen_line};
ghost use Rattle.fr_text.specs.Words.{Extends, four_digits, line, two_digits};

use super::Row;
use crate::words::{four_digits, push, push_supplier, push_word, two_digits};
use fr_base::{
    DifferenceRow, FrameRecord, GrantRow, Name, NoMemory, Placement, SeenRow, SignalRecord,
};

impl Row for DifferenceRow {
    ghost first = { difference_line };

    ghost others = { λ _ _. [] };

    #[tactic(auto, using(crate::proofs::WordsLemmas::extending), unfolding(crate::specs::Report::difference_line, crate::specs::Styles::joined))]
    fn push(&self, all: bool, _mark: &str, out: &mut Vec<u8>) -> Result<(), NoMemory> {
        if self.is_new {
            push("+ ", out)?;
        } else {
            push("- ", out)?;
        }
        self.row.push(all, "", out)
    }
}

impl Row for SeenRow {
    ghost first = { seen_line };

    ghost others = { λ _ _. [] };

    #[tactic(auto, using(crate::proofs::WordsLemmas::extending), unfolding(crate::specs::Report::seen_line, crate::specs::Styles::joined))]
    fn push(&self, all: bool, _mark: &str, out: &mut Vec<u8>) -> Result<(), NoMemory> {
        match self {
            SeenRow::Grant(grant) => push_grant(grant, all, out),
            SeenRow::Frame(frame) => push_frame(frame, all, out),
            SeenRow::Placement {
                frame,
                placement,
                supplier,
            } => push_placement(frame, placement, supplier, all, out),
            SeenRow::Signal(signal) => push_signal(signal, all, out),
            SeenRow::Gap(gap) => gap.push(all, "", out),
        }
    }
}

#[tactic(auto, using(crate::proofs::WordsLemmas::extending), unfolding(crate::specs::Report::seen_line))]
fn push_grant(grant: &GrantRow, all: bool, out: &mut Vec<u8>) -> Result<(), NoMemory>
    ensures ok { OnOk result (out.new.items ≡ out.old.items
        ++ seen_line all (seen.Grant grant.now)) }
    ensures err { OnErr result (Extends out.old.items out.new.items) }
{
    push("GRANT", out)?;
    push_word(&four_digits(grant.slot.get()), out)?;
    push_word(grant.channel.as_str().as_bytes(), out)?;
    push_word(grant.node.as_str().as_bytes(), out)?;
    push_supplier(all, &grant.supplier, out)
}

#[tactic(auto, using(crate::proofs::WordsLemmas::extending), unfolding(crate::specs::Report::seen_line))]
fn push_frame(frame: &FrameRecord, all: bool, out: &mut Vec<u8>) -> Result<(), NoMemory>
    ensures ok { OnOk result (out.new.items ≡ out.old.items
        ++ seen_line all (seen.Frame frame.now)) }
    ensures err { OnErr result (Extends out.old.items out.new.items) }
{
    push("FRAME", out)?;
    push_word(frame.frame.as_str().as_bytes(), out)?;
    push_word(frame.node.as_str().as_bytes(), out)?;
    push_supplier(all, &frame.supplier, out)
}

#[tactic(auto, using(crate::proofs::WordsLemmas::extending), unfolding(crate::specs::Report::seen_line))]
fn push_placement(
    frame: &Name,
    placement: &Placement,
    supplier: &Name,
    all: bool,
    out: &mut Vec<u8>,
) -> Result<(), NoMemory>
    ensures ok { OnOk result (out.new.items ≡ out.old.items
        ++ seen_line all (seen.Placement frame.now placement.now supplier.now)) }
    ensures err { OnErr result (Extends out.old.items out.new.items) }
{
    push_slot(frame, placement, out)?;
    push_word(&two_digits(u32::from(placement.cycles.base())), out)?;
    push_word(&two_digits(u32::from(placement.cycles.repetition())), out)?;
    push_supplier(all, supplier, out)
}

#[tactic(auto, using(crate::proofs::WordsLemmas::extending), unfolding(crate::specs::Report::seen_line))]
fn push_signal(signal: &SignalRecord, all: bool, out: &mut Vec<u8>) -> Result<(), NoMemory>
    ensures ok { OnOk result (out.new.items ≡ out.old.items
        ++ seen_line all (seen.Signal signal.now)) }
    ensures err { OnErr result (Extends out.old.items out.new.items) }
{
    push_bits(signal, out)?;
    push_word(signal.signal.order().as_str().as_bytes(), out)?;
    push_word(signal.signal.name().as_str().as_bytes(), out)?;
    push_supplier(all, &signal.supplier, out)
}

// Appends the frame, and the slot and channels of its placement.
#[tactic(auto, using(crate::proofs::WordsLemmas::extending))]
fn push_slot(frame: &Name, placement: &Placement, out: &mut Vec<u8>) -> Result<(), NoMemory>
    ensures ok { OnOk result (out.new.items ≡ out.old.items
        ++ line (codes "AT" ∷ frame.now ∷ four_digits placement.now.slot ∷ text_of_channels
        placement.now.channels ∷ [])) }
    ensures err { OnErr result (Extends out.old.items out.new.items) }
{
    push("AT", out)?;
    push_word(frame.as_str().as_bytes(), out)?;
    push_word(&four_digits(placement.slot.get()), out)?;
    push_word(placement.channels.as_str().as_bytes(), out)
}

// Appends the frame, and the start and length of its signal.
#[tactic(auto, using(crate::proofs::WordsLemmas::extending))]
fn push_bits(signal: &SignalRecord, out: &mut Vec<u8>) -> Result<(), NoMemory>
    ensures ok { OnOk result (out.new.items ≡ out.old.items
        ++ line (codes "SIGNAL" ∷ signal.now.frame ∷ four_digits signal.now.signal.start
        ∷ two_digits signal.now.signal.length ∷ [])) }
    ensures err { OnErr result (Extends out.old.items out.new.items) }
{
    push("SIGNAL", out)?;
    push_word(signal.frame.as_str().as_bytes(), out)?;
    push_word(&four_digits(signal.signal.start()), out)?;
    push_word(&two_digits(signal.signal.length()), out)
}
