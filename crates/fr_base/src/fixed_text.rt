//! A text held in place, as names and keys are.
ghost use Rattle.std.specs.Prelude.{◌≡◌, ◌≤◌, length, take, Some, nat_eq, refl};
ghost use Rattle.std.specs.Ordering.{nat_cmp};
ghost use Rattle.std.specs.Hash as fed;
ghost use Rattle.std.specs.Cmp.Lexicographic.{pointwise, slice_cmp, nat_list_eq_equiv, nat_list_cmp_total, texts_ties, texts_po};
ghost use Rattle.std.specs.Cmp.{partial_equiv_from_equiv};
ghost use Rattle.std.specs.Cmp.Rules.{hashing};
ghost use Rattle.std.proofs.Common.{rules};
ghost use Rattle.fr_base.specs.FixedText.{IsPadded};

use std::cmp::Ordering;
use std::fmt::{self, Debug, Display, Formatter};
use std::hash::{Hash, Hasher};
use std::marker::Model;
use std::str;

/// A text of at most `N` bytes, held in place. The bytes past its end are zero.
#[derive(Clone, Copy)]
pub(crate) struct FixedText<const N: usize> {
    bytes: [u8; N],
    len: usize,
}

impl<const N: usize> Model for FixedText<N> {
    ghost use Rattle.std.specs.Prelude.{List, ℕ, take, replicate, ◌-◌, ◌++◌, length};
    ghost use Rattle.std.proofs.Common.{arith, ap, sym, ◌∙◌, length-take-le};
    ghost use Rattle.fr_base.specs.FixedText.{IsPadded};

    ghost Value = { List ℕ };

    ghost view = { λ t. take t.len t.bytes };

    ghost invariant = { λ t. IsPadded N t.bytes t.len };

    ghost inverse = { λ text. record { bytes = text ++ replicate (N - length text) 0; len = length text } };

    ghost inverse_ok = { λ t h i. record {
      bytes = (ap (λ n. take t.len t.bytes ++ replicate (N - n) 0) (length-take-le t.len t.bytes (omega (arith, h.within, h.full))) ∙ sym h.zeros) i;
      len = length-take-le t.len t.bytes (omega (arith, h.within, h.full)) i;
    } };
}

impl<const N: usize> FixedText<N> {
    /// The text that the first `len` of these bytes are. Those past them are zero.
    pub(crate) fn of(bytes: [u8; N], len: usize) -> Self
        requires { IsPadded N bytes len }
        ensures { result ≡ take len bytes.entry }
    {
        FixedText { bytes, len }
    }

    /// A copy of the text.
    pub(crate) fn copy(text: &str) -> Self
        requires { length text.now ≤ N }
        ensures { result ≡ text.now }
    {
        let mut bytes = [0; N];
        bytes[..text.len()].copy_from_slice(text.as_bytes());
        FixedText {
            bytes,
            len: text.len(),
        }
    }

    /// The text's bytes.
    pub(crate) fn as_bytes(&self) -> &[u8]
        ensures { result.now ≡ self.now }
    {
        &self.bytes[..self.len]
    }

    /// The text.
    pub(crate) fn as_str(&self) -> &str
        ensures { result.now ≡ self.now }
    {
        str::from_utf8(&self.bytes[..self.len]).unwrap()
    }
}

impl<const N: usize> PartialEq for FixedText<N> {
    ghost eq = { pointwise nat_eq };

    ghost laws = { partial_equiv_from_equiv nat_list_eq_equiv };

    fn eq(&self, other: &Self) -> bool {
        self.as_bytes() == other.as_bytes()
    }
}

impl<const N: usize> Eq for FixedText<N> {
    ghost laws = { nat_list_eq_equiv };
}

/// The byte order of the texts.
impl<const N: usize> PartialOrd for FixedText<N> {
    ghost partial_cmp = { λ x y. Some (slice_cmp nat_cmp x y) };

    ghost laws = { texts_po };

    fn partial_cmp(&self, other: &Self) -> Option<Ordering> {
        Some(self.cmp(other))
    }
}

impl<const N: usize> Ord for FixedText<N> {
    ghost cmp = { slice_cmp nat_cmp };

    ghost total = { nat_list_cmp_total };

    ghost matches_partial_cmp = { λ x y. refl };

    ghost matches_eq = { texts_ties };

    fn cmp(&self, other: &Self) -> Ordering {
        self.as_bytes().cmp(other.as_bytes())
    }
}

impl<const N: usize> Hash for FixedText<N> {
    ghost hash_input = { fed.str };

    ghost respects_eq = { Prim.search (hashing, rules) };

    fn hash<H: Hasher>(&self, state: &mut H) {
        self.as_str().hash(state);
    }
}

impl<const N: usize> Debug for FixedText<N> {
    fn fmt<W: fmt::Write>(&self, f: &mut Formatter<W>) -> fmt::Result {
        Debug::fmt(&self.as_str(), f)
    }
}

impl<const N: usize> Display for FixedText<N> {
    ghost output = { λ text. Some text };

    fn fmt<W: fmt::Write>(&self, f: &mut Formatter<W>) -> fmt::Result {
        f.pad(self.as_str())
    }
}
