//! The records of a file: the header's, and one for each frame, placement or signal.
ghost use Rattle.std.specs.Prelude.{◌≡◌, ◌∷◌, ◌++◌, [], OnOk, OnErr};
ghost use Rattle.fr_base.specs.ImportRows.{spelled};
ghost use Rattle.fr_text.specs.Report.{frame_record, header_line, placement_fields, placement_record, signal_fields, signal_record};
ghost use Rattle.fr_text.specs.Styles.{lines_in, set_in};
ghost use Rattle.fr_text.specs.Words.{comma_behind, comma_line, Extends};

use super::{Row, push_behind};
use crate::style::Style;
use crate::words::{push, push_field, push_number, push_owner};
use fr_base::{FrameRecord, Header, NoMemory, Placement, PlacementRecord, Signal, SignalRecord};

/// Appends the header's record and the records below it. An error leaves the old bytes in front.
#[tactic(auto, using(crate::proofs::WordsLemmas::extending))]
pub(super) fn push_records<R: Row>(
    header: Header,
    records: &[R],
    all: bool,
    style: Style,
    out: &mut Vec<u8>,
) -> Result<(), NoMemory>
    ensures ok { OnOk result (out.new.items ≡ out.old.items
        ++ set_in style (header_line all header ∷ lines_in R.first R.others all records.now)) }
    ensures err { OnErr result (Extends out.old.items out.new.items) }
{
    push(style.before(), out)?;
    push_header(header, all, out)?;
    push_behind(records, all, style.between(), out)?;
    push(style.after(), out)
}

// Appends the names of the fields.
#[tactic(auto, using(crate::proofs::WordsLemmas::extending), unfolding(crate::specs::Report::header_line))]
fn push_header(header: Header, all: bool, out: &mut Vec<u8>) -> Result<(), NoMemory>
    ensures ok { OnOk result (out.new.items ≡ out.old.items ++ header_line all header) }
    ensures err { OnErr result (Extends out.old.items out.new.items) }
{
    push(header_text(header), out)?;
    push_owner(all, b"supplier", out)
}

/// The names of a supplier's fields.
pub(super) fn header_text(header: Header) -> &'static str
    ensures { result.now ≡ comma_line (spelled header) }
{
    match header {
        Header::Frames => "frame,node",
        Header::Placements => "frame,node,slot,channels,base,repetition",
        Header::Signals => "frame,signal,start,length,order",
    }
}

impl Row for FrameRecord {
    ghost first = { frame_record };

    ghost others = { λ _ _. [] };

    #[tactic(auto, using(crate::proofs::WordsLemmas::extending), unfolding(crate::specs::Report::frame_record, crate::specs::Styles::joined))]
    fn push(&self, all: bool, _mark: &str, out: &mut Vec<u8>) -> Result<(), NoMemory> {
        out.extend_from_slice(self.frame.as_str().as_bytes())?;
        push_field(self.node.as_str().as_bytes(), out)?;
        push_owner(all, self.supplier.as_str().as_bytes(), out)
    }
}

impl Row for PlacementRecord {
    ghost first = { placement_record };

    ghost others = { λ _ _. [] };

    #[tactic(auto, using(crate::proofs::WordsLemmas::extending), unfolding(crate::specs::Report::placement_record, crate::specs::Styles::joined))]
    fn push(&self, all: bool, _mark: &str, out: &mut Vec<u8>) -> Result<(), NoMemory> {
        out.extend_from_slice(self.frame.as_str().as_bytes())?;
        push_field(self.node.as_str().as_bytes(), out)?;
        push_placement(&self.placement, out)?;
        push_owner(all, self.supplier.as_str().as_bytes(), out)
    }
}

/// Appends slot, channels, base and repetition, a comma before each.
#[tactic(auto, using(crate::proofs::WordsLemmas::extending))]
pub(super) fn push_placement(placement: &Placement, out: &mut Vec<u8>) -> Result<(), NoMemory>
    ensures ok { OnOk result (out.new.items ≡ out.old.items
        ++ comma_behind (placement_fields placement.now)) }
    ensures err { OnErr result (Extends out.old.items out.new.items) }
{
    push_number(placement.slot.get(), out)?;
    push_field(placement.channels.as_str().as_bytes(), out)?;
    push_number(u32::from(placement.cycles.base()), out)?;
    push_number(u32::from(placement.cycles.repetition()), out)
}

impl Row for SignalRecord {
    ghost first = { signal_record };

    ghost others = { λ _ _. [] };

    #[tactic(auto, using(crate::proofs::WordsLemmas::extending), unfolding(crate::specs::Report::signal_record, crate::specs::Styles::joined))]
    fn push(&self, all: bool, _mark: &str, out: &mut Vec<u8>) -> Result<(), NoMemory> {
        out.extend_from_slice(self.frame.as_str().as_bytes())?;
        push_signal(&self.signal, out)?;
        push_owner(all, self.supplier.as_str().as_bytes(), out)
    }
}

// Appends name, start, length and order, a comma before each.
#[tactic(auto, using(crate::proofs::WordsLemmas::extending))]
fn push_signal(signal: &Signal, out: &mut Vec<u8>) -> Result<(), NoMemory>
    ensures ok { OnOk result (out.new.items ≡ out.old.items
        ++ comma_behind (signal_fields signal.now)) }
    ensures err { OnErr result (Extends out.old.items out.new.items) }
{
    push_field(signal.name().as_str().as_bytes(), out)?;
    push_number(signal.start(), out)?;
    push_number(signal.length(), out)?;
    push_field(signal.order().as_str().as_bytes(), out)
}
