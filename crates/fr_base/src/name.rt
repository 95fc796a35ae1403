//! Names of suppliers, nodes, variants, frames, signals and labels.
ghost use Rattle.std.specs.Prelude.{◌≡◌, IsTrue, Some, None, if◌then◌else◌};
ghost use Rattle.std.specs.List.{list_all};
ghost use Rattle.fr_base.specs.Names.{is_name, is_name_byte, starts_with_letter};

use crate::fixed_text::FixedText;
use std::fmt::{self, Debug, Display, Formatter};
use std::marker::Model;

/// Which bytes may stand in a name, behind its first letter: for each byte one entry, 16 in a line.
#[rattlefmt::skip]
const NAME_BYTES: &[bool; 256] = &[
    false, false, false, false, false, false, false, false, false, false, false, false, false, false, false, false,
    false, false, false, false, false, false, false, false, false, false, false, false, false, false, false, false,
    false, false, false, false, false, false, false, false, false, false, false, false, false, false, false, false,
    true, true, true, true, true, true, true, true, true, true, false, false, false, false, false, false,
    false, true, true, true, true, true, true, true, true, true, true, true, true, true, true, true,
    true, true, true, true, true, true, true, true, true, true, true, false, false, false, false, true,
    false, true, true, true, true, true, true, true, true, true, true, true, true, true, true, true,
    true, true, true, true, true, true, true, true, true, true, true, false, false, false, false, false,
    false, false, false, false, false, false, false, false, false, false, false, false, false, false, false, false,
    false, false, false, false, false, false, false, false, false, false, false, false, false, false, false, false,
    false, false, false, false, false, false, false, false, false, false, false, false, false, false, false, false,
    false, false, false, false, false, false, false, false, false, false, false, false, false, false, false, false,
    false, false, false, false, false, false, false, false, false, false, false, false, false, false, false, false,
    false, false, false, false, false, false, false, false, false, false, false, false, false, false, false, false,
    false, false, false, false, false, false, false, false, false, false, false, false, false, false, false, false,
    false, false, false, false, false, false, false, false, false, false, false, false, false, false, false, false,
];

/// The name of a supplier, node, variant, frame or signal: 1 to 32 ASCII letters, digits and
/// underscores, of which the first is a letter. Case matters.
#[derive(Clone, Copy, PartialEq, Eq, PartialOrd, Ord)]
pub struct Name {
    text: FixedText<32>,
}

impl Model for Name {
    ghost use Rattle.std.specs.Prelude.{List, ℕ, IsTrue};
    ghost use Rattle.fr_base.specs.Names.{is_name};

    ghost Value = { List ℕ };

    ghost view = { λ n. n.text };

    ghost invariant = { λ n. IsTrue (is_name n.text) };

    ghost inverse = { λ text. record { text = text } };
}

impl Name {
    /// The name that the text is, if it is one.
    pub fn read(text: &str) -> Option<Name>
        ensures { result ≡ (if is_name text.now then Some text.now else None) }
    {
        Name::from_bytes(text.as_bytes())
    }

    /// The name that the bytes are, if they are one. They need not be a text.
    #[inline(always)]
    pub fn from_bytes(bytes: &[u8]) -> Option<Name>
        ensures { result ≡ (if is_name bytes.now then Some bytes.now else None) }
    {
        if !starts_with_letter(bytes) || bytes.len() > 32 {
            return None;
        }
        let mut copy = [0; 32];
        for (place, byte) in bytes.iter().enumerate() {
            if !is_name_byte(*byte) {
                return None;
            }
            copy[place] = *byte;
        }
        Some(Name {
            text: FixedText::of(copy, bytes.len()),
        })
    }

    /// The name's text.
    pub fn as_str(&self) -> &str
        ensures value { result.now ≡ self.now }
        ensures is_name { IsTrue (is_name self.now) }
    {
        self.text.as_str()
    }
}

fn starts_with_letter(bytes: &[u8]) -> bool
    ensures { result ≡ starts_with_letter bytes.now }
{
    bytes.first().is_some_and(u8::is_ascii_alphabetic)
}

fn is_name_byte(byte: u8) -> bool
    ensures { result ≡ is_name_byte byte }
{
    NAME_BYTES[usize::from(byte)]
}

impl Debug for Name {
    fn fmt<W: fmt::Write>(&self, f: &mut Formatter<W>) -> fmt::Result {
        Debug::fmt(&self.text, f)
    }
}

impl Display for Name {
    ghost output = { λ name. Some name };

    fn fmt<W: fmt::Write>(&self, f: &mut Formatter<W>) -> fmt::Result {
        Display::fmt(&self.text, f)
    }
}
