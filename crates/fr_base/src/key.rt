//! Keys, by which it is known who asks.
ghost use Rattle.std.specs.Prelude.{◌≡◌, ◌||◌, IsTrue, Some, None, if◌then◌else◌};
ghost use Rattle.std.specs.List.{list_all};
ghost use Rattle.fr_base.specs.Names.{is_key, is_key_byte};

use crate::fixed_text::FixedText;
use std::fmt::{self, Debug, Display, Formatter};
use std::marker::Model;

/// A key: it says who sends a request's line. It has 8 to 64 ASCII letters and digits. Case
/// matters.
#[derive(Clone, Copy, PartialEq, Eq)]
pub struct Key {
    text: FixedText<64>,
}

impl Model for Key {
    ghost use Rattle.std.specs.Prelude.{List, ℕ, IsTrue};
    ghost use Rattle.fr_base.specs.Names.{is_key};

    ghost Value = { List ℕ };

    ghost view = { λ k. k.text };

    ghost invariant = { λ k. IsTrue (is_key k.text) };

    ghost inverse = { λ text. record { text = text } };
}

impl Key {
    /// The key that the text is, if it is one.
    #[tactic(auto, unfolding(crate::specs::Names::is_key))]
    pub fn read(text: &str) -> Option<Key>
        ensures { result ≡ (if is_key text.now then Some text.now else None) }
    {
        if is_key(text) {
            Some(Key {
                text: FixedText::copy(text),
            })
        } else {
            None
        }
    }

    /// The key's text.
    pub fn as_str(&self) -> &str
        ensures value { result.now ≡ self.now }
        ensures is_key { IsTrue (is_key self.now) }
    {
        self.text.as_str()
    }
}

#[tactic(auto, unfolding(crate::specs::Names::is_key))]
fn is_key(text: &str) -> bool
    ensures { result ≡ is_key text.now }
{
    (8..=64).contains(&text.len()) && are_key_bytes(text.as_bytes())
}

fn are_key_bytes(bytes: &[u8]) -> bool
    ensures { result ≡ list_all is_key_byte bytes.now }
{
    bytes.iter().all(u8::is_ascii_alphanumeric)
}

impl Debug for Key {
    fn fmt<W: fmt::Write>(&self, f: &mut Formatter<W>) -> fmt::Result {
        Debug::fmt(&self.text, f)
    }
}

impl Display for Key {
    ghost output = { λ key. Some key };

    fn fmt<W: fmt::Write>(&self, f: &mut Formatter<W>) -> fmt::Result {
        Display::fmt(&self.text, f)
    }
}
