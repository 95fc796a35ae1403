//! The explanation of one word, of all words, or of the words that begin alike.
ghost use Rattle.std.specs.Prelude.{◌≡◌, ◌++◌, IfOk, OnOk};
ghost use Rattle.fr_guide.specs.Explaining.{Explains, ListsAlike, ListsAll};
ghost use Rattle.fr_guide.specs.Topics.{begin_alike, is_explained, line_of, lines_of, page_of};

use crate::topic::Topic;
use crate::topics::{are_about, find, topics};
use fr_base::NoMemory;
use std::alloc::Global;

/// How many letters two words that begin alike have in common at their front.
const ALIKE_LETTERS: usize = 3;

/// What is said of the word, in lines, of which the first begins with the word: what it means, when it comes and what to do,
/// in words that no clause fixes. There is none where the word is neither a refusal's name nor a fault's word.
pub fn explanation(alloc: Global, word: &str) -> Result<Option<Vec<u8>>, NoMemory>
    ensures { IfOk result (Explains word.now) }
{
    match find(&topics(alloc)?, word) {
        Some(topic) => Ok(Some(page(alloc, topic)?)),
        None => Ok(None),
    }
}

/// Whether the word is a refusal's name or a fault's word, of which [`explanation`] says more.
pub fn explains(word: &str) -> bool
    ensures { result ≡ is_explained word.now }
{
    are_about(word)
}

/// A line for each word that is explained, with its meaning.
pub fn overview(alloc: Global) -> Result<Vec<u8>, NoMemory>
    ensures { IfOk result (λ text. ListsAll text.items) }
{
    lines(alloc, &topics(alloc)?)
}

/// The lines of the words that begin like this one: the first three letters are the same, or, where
/// one of the two has fewer, all of its letters. Small and capital letters count as the same.
pub fn alike(alloc: Global, word: &str) -> Result<Vec<u8>, NoMemory>
    ensures { IfOk result (λ text. ListsAlike word.now text.items) }
{
    let mut topics = topics(alloc)?;
    topics.retain(|topic| begin_alike(topic.word, word));
    lines(alloc, &topics)
}

// All lines of a topic.
fn page(alloc: Global, topic: &Topic) -> Result<Vec<u8>, NoMemory>
    ensures { IfOk result (λ text. text.items ≡ page_of topic.now) }
{
    let mut text = Vec::new(alloc);
    append_line(&mut text, topic)?;
    text.extend_from_slice(topic.help.as_bytes())?;
    Ok(text)
}

// The lines of topics.
fn lines(alloc: Global, topics: &[Topic]) -> Result<Vec<u8>, NoMemory>
    ensures { IfOk result (λ text. text.items ≡ lines_of topics.now) }
{
    let mut text = Vec::new(alloc);
    for topic in topics {
        append_line(&mut text, topic)?;
    }
    Ok(text)
}

// Adds the line of a topic.
fn append_line(text: &mut Vec<u8>, topic: &Topic) -> Result<(), NoMemory>
    ensures { OnOk result (text.new.items ≡ text.old.items ++ line_of topic.now) }
{
    text.extend_from_slice(topic.word.as_bytes())?;
    text.extend_from_slice(b": ")?;
    text.extend_from_slice(topic.about.as_bytes())?;
    text.push(b'\n')?;
    Ok(())
}

// Whether the two words begin alike.
fn begin_alike(one: &str, other: &str) -> bool
    ensures { result ≡ begin_alike one.now other.now }
{
    let letters = ALIKE_LETTERS.min(one.len()).min(other.len());
    let (one, other) = (one.as_bytes(), other.as_bytes());
    one[..letters].eq_ignore_ascii_case(&other[..letters])
}
