//! What a word of the program means.
ghost use Rattle.std.specs.Prelude.{◌≡◌, IfOk};
ghost use Rattle.fr_cli.specs.Explaining.{IsExplained, IsUnknown, hint};

use crate::failure::Failure;
use fr_base::NoMemory;
use fr_guide::{alike, explanation, meant_word, overview};
use std::alloc::Global;

/// What the word means, or the refusal of this number. Where no word is given, all words are listed, with a line on each. A word
/// that is not explained is refused, with the lines on the words that begin alike.
pub fn explain_word(alloc: Global, word: Option<&str>) -> Result<Vec<u8>, Failure>
    ensures { IsExplained word.entry result }
{
    let Some(word) = word else {
        return Ok(overview(alloc)?);
    };
    match explanation(alloc, meant_word(word))? {
        Some(text) => Ok(text),
        None => Err(Failure::Refused {
            line: unknown_text(alloc, word)?,
        }),
    }
}

// What is said of a word that is not explained.
fn unknown_text(alloc: Global, word: &str) -> Result<Vec<u8>, NoMemory>
    ensures { IfOk result (λ text. IsUnknown word.now text.items) }
{
    let alike = alike(alloc, word)?;
    let mut text = Vec::new(alloc);
    text.extend_from_slice(b"slotplan: no refusal and no fault has this name. ")?;
    text.extend_from_slice(hint(&alike))?;
    text.extend_from_slice(&alike)?;
    Ok(text)
}

// What stands before the lines of words that begin alike, or in place of them.
fn hint(alike: &[u8]) -> &'static [u8]
    ensures { result.now ≡ hint alike.now }
{
    if alike.is_empty() {
        b"`slotplan explain` lists all.\n"
    } else {
        b"These begin alike:\n"
    }
}
