//! Conditions on what a request asks for: its tag, and the fields that list tags.
ghost use Rattle.std.specs.Prelude.{◌≡◌, IfOk, reverse};
ghost use Rattle.std.specs.Iterator.{YieldsFirstRef, item_count};
ghost use Rattle.std.specs.List.{list_any};
ghost use Rattle.std.specs.String.{string_bytes};
ghost use Rattle.httparse.specs.Grammar.{skip_ows, trim_ows};
ghost use Rattle.fr_http.specs.Conditions.{elements, means, none_matches, quoted, without_weakness};
ghost use Rattle.fr_http.specs.Listed.{elements_left};

use crate::head::Values;
use fr_base::NoMemory;
use httparse::is_space_or_tab;
use std::alloc::Global;

/// The tag of bytes that have this SHA-256: its hexadecimal digits between quotes.
pub(crate) fn tag_of(alloc: Global, digest: [u8; 32]) -> Result<String, NoMemory>
    ensures { IfOk result (λ tag. string_bytes tag ≡ quoted digest) }
{
    let digits = hex::encode(alloc, digest)?;
    let mut tag = String::new(alloc);
    tag.push_str("\"")?;
    tag.push_str(digits.as_str())?;
    tag.push_str("\"")?;
    Ok(tag)
}

/// Whether `if-none-match` is met, by the values of its fields: none of them lists the tag, weak or
/// not, nor `*`.
#[tactic(auto, using(crate::proofs::ConditionLaws::listing), unfolding(crate::specs::Conditions::none_matches))]
pub(crate) fn none_matches(mut values: Values<'_>, tag: &str) -> bool
    ensures { result ≡ none_matches tag.now values.entry }
{
    while let Some(value) = values.next() {
        if lists(value, tag.as_bytes()) {
            return false;
        }
    }
    true
}

// Whether an element of the value means the tag, weak or not.
fn lists(value: &[u8], tag: &[u8]) -> bool
    ensures { result ≡ list_any (means without_weakness tag.now) (elements value.now) }
{
    Elements::new(value).any(|element| means(element, tag))
}

// Whether an element is the tag, weak or not, or stands for every tag.
fn means(element: &[u8], tag: &[u8]) -> bool
    ensures { result ≡ means without_weakness tag.now element.now }
{
    element == b"*".as_slice() || without_weakness(element) == tag
}

// An element without a `W/` before it, by which a tag is weak.
fn without_weakness(element: &[u8]) -> &[u8]
    ensures { result.now ≡ without_weakness element.now }
{
    match element {
        [b'W', b'/', tag @ ..] => tag,
        _ => element,
    }
}

// The elements of a field's value that are still to come.
#[derive(Drop)]
struct Elements<'a> {
    rest: Option<&'a [u8]>,
}

impl<'a> Elements<'a> {
    fn new(value: &'a [u8]) -> Elements<'a>
        ensures { elements_left result ≡ elements value.now }
    {
        Elements { rest: Some(value) }
    }
}

impl<'a> Iterator for Elements<'a> {
    type Item = &'a [u8];

    ghost next_gives = { YieldsFirstRef elements_left };

    ghost remaining = { item_count elements_left };

    fn next(&mut self) -> Option<&'a [u8]> {
        let rest = self.rest?;
        match rest.iter().position(|byte| *byte == b',') {
            Some(comma) => {
                self.rest = Some(&rest[comma + 1..]);
                Some(trim(&rest[..comma]))
            }
            None => {
                self.rest = None;
                Some(trim(rest))
            }
        }
    }
}

// The text without the spaces and tabs round it.
fn trim(text: &[u8]) -> &[u8]
    ensures { result.now ≡ trim_ows text.now }
{
    trim_end(trim_start(text))
}

fn trim_start(mut text: &[u8]) -> &[u8]
    ensures { result.now ≡ skip_ows text.now }
{
    while let [first, rest @ ..] = text
        && is_space_or_tab(*first)
    {
        text = rest;
    }
    text
}

fn trim_end(mut text: &[u8]) -> &[u8]
    ensures { result.now ≡ reverse (skip_ows (reverse text.now)) }
{
    while let [rest @ .., last] = text
        && is_space_or_tab(*last)
    {
        text = rest;
    }
    text
}
