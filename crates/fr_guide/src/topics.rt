//! The words that are explained, in the order in which they are listed.
ghost use Rattle.std.specs.Prelude.{◌≡◌, ◌++◌, IfOk, OnOk, option_copied};
ghost use Rattle.std.specs.List.{find, list_any};
ghost use Rattle.std.specs.Str.{bytes_eq};
ghost use Rattle.fr_guide.specs.Topics.{explained, is_explained, words_of};

mod clusters;
mod edits;
mod fields;
mod files;
mod grants;
mod inputs;
mod keys;
mod labels;
mod missing;
mod register;
mod rows;
mod segments;
mod senders;
mod signals;
mod variants;
mod wishes;

use crate::topic::Topic;
use fr_base::NoMemory;
use std::alloc::Global;

/// All topics.
pub fn topics(alloc: Global) -> Result<Vec<Topic>, NoMemory>
    ensures { IfOk result (λ all. words_of all.items ≡ explained) }
{
    let mut all = Vec::new(alloc);
    add(&mut all, &senders::topics())?;
    add(&mut all, &fields::topics())?;
    add(&mut all, &labels::topics())?;
    add(&mut all, &variants::topics())?;
    add(&mut all, &missing::topics())?;
    add(&mut all, &grants::topics())?;
    add(&mut all, &edits::topics())?;
    add(&mut all, &signals::topics())?;
    add(&mut all, &register::topics())?;
    add(&mut all, &rows::topics())?;
    add(&mut all, &keys::topics())?;
    add(&mut all, &wishes::topics())?;
    add(&mut all, &clusters::topics())?;
    add(&mut all, &segments::topics())?;
    add(&mut all, &inputs::topics())?;
    add(&mut all, &files::topics())?;
    Ok(all)
}

// Adds topics.
fn add(all: &mut Vec<Topic>, more: &[Topic]) -> Result<(), NoMemory>
    ensures { OnOk result (words_of all.new.items ≡ words_of all.old.items ++ words_of more.now) }
{
    Ok(all.extend_from_slice(more)?)
}

/// Whether one of the topics has the word.
pub fn are_about(word: &str) -> bool
    ensures { result ≡ is_explained word.now }
{
    has(&senders::topics(), word)
        | has(&fields::topics(), word)
        | has(&labels::topics(), word)
        | has(&variants::topics(), word)
        | has(&missing::topics(), word)
        | has(&grants::topics(), word)
        | has(&edits::topics(), word)
        | has(&signals::topics(), word)
        | has(&register::topics(), word)
        | has(&rows::topics(), word)
        | has(&keys::topics(), word)
        | has(&wishes::topics(), word)
        | has(&clusters::topics(), word)
        | has(&segments::topics(), word)
        | has(&inputs::topics(), word)
        | has(&files::topics(), word)
}

// Whether one of these topics has the word.
fn has(topics: &[Topic], word: &str) -> bool
    ensures { result ≡ list_any (λ w. bytes_eq w word.now) (words_of topics.now) }
{
    find(topics, word).is_some()
}

/// The topic of this word.
pub fn find<'a>(topics: &'a [Topic], word: &str) -> Option<&'a Topic>
    ensures { option_copied result ≡ find (λ t. bytes_eq t.word.now word.now) topics.now }
{
    topics.iter().find(|topic| topic.word == word)
}
