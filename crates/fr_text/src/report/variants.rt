//! The lines of the variants: name, parent, depth and state of each.
ghost use Rattle.std.specs.Prelude.{◌≡◌, ◌++◌, [], codes, OnOk, OnErr};
ghost use Rattle.fr_text.specs.Report.{parent_word, state_word, variant_line};
ghost use Rattle.fr_text.specs.Words.{Extends};

use super::Row;
use crate::words::{push, push_decimal, push_word};
use fr_base::{Name, NoMemory, VariantRow};

impl Row for VariantRow {
    ghost first = { λ _ row. variant_line row };

    ghost others = { λ _ _. [] };

    #[tactic(auto, using(crate::proofs::WordsLemmas::extending), unfolding(crate::specs::Report::variant_line, crate::specs::Styles::joined))]
    fn push(&self, _all: bool, _mark: &str, out: &mut Vec<u8>) -> Result<(), NoMemory> {
        out.extend_from_slice(self.variant.as_str().as_bytes())?;
        push_parent(&self.parent, out)?;
        push(" ", out)?;
        push_decimal(self.depth, out)?;
        push_word(state_word(self.released).as_bytes(), out)
    }
}

// Appends a space and the parent's name, or a hyphen where there is none. An error leaves the old bytes in front.
fn push_parent(parent: &Option<Name>, out: &mut Vec<u8>) -> Result<(), NoMemory>
    ensures ok { OnOk result (out.new.items ≡ out.old.items
        ++ (codes " " ++ parent_word parent.now)) }
    ensures err { OnErr result (Extends out.old.items out.new.items) }
{
    match parent {
        Some(parent) => push_word(parent.as_str().as_bytes(), out),
        None => push_word(b"-", out),
    }
}

// Whether a variant may still change.
fn state_word(released: bool) -> &'static str
    ensures { result.now ≡ state_word released }
{
    if released { "released" } else { "open" }
}
