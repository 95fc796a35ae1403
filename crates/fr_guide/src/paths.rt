//! What is wrong with the path of a request over HTTP: it has none of the forms that paths have, or
//! a part of it that must be a name, a number or a word is none.
ghost use Rattle.std.specs.Prelude.{◌≡◌, find, IfOk, false, map};
ghost use Rattle.std.specs.List.{list_all, zip};
ghost use Rattle.fr_base.specs.Forms.{form_of};
ghost use Rattle.fr_guide.specs.Faults.{are_none};
ghost use Rattle.fr_guide.specs.Paths.{asks_report, forms, has_form, is_fine_part, is_fine_path, is_hole, is_number, is_word, parts_of, stands};

use crate::explain::explains;
use crate::line_faults::one_fault;
use crate::refusal_numbers::meant_word;
use crate::shown::shown;
use fr_base::{Name, NoMemory, Query, form_of};
use fr_text::read_number;
use std::alloc::Global;

/// The form of a path, by its parts. What stands in braces says of what a name, a number or a word is.
type PathForm = &'static [&'static str];

/// What is wrong with a path: it has no form, or one of its names, numbers or words is none. Which form it has, and which words say
/// what is wrong, no clause says.
pub fn path_faults(alloc: Global, path: &str) -> Result<Vec<String>, NoMemory>
    ensures { IfOk result (λ faults. are_none faults.items ≡ is_fine_path path.now) }
{
    let texts = parts(alloc, path)?;
    match fitting(&path_forms(), &texts) {
        Some(form) => part_faults(alloc, form, &texts),
        None => no_form(alloc, path),
    }
}

// The parts of a path.
#[tactic(auto, unfolding(crate::specs::Paths::parts_of))]
fn parts<'a>(alloc: Global, path: &'a str) -> Result<Vec<&'a str>, NoMemory>
    ensures { IfOk result (λ texts. map (λ text. text.now) texts.items ≡ parts_of path.entry.now) }
{
    path.split('/').collect(alloc)
}

// The first of these forms that the path with these parts has.
fn fitting(forms: &[PathForm], texts: &[&str]) -> Option<PathForm>
    ensures { result ≡ find (λ form. has_form (map (λ text. text.now) texts.now)
        (map (λ part. part.now) form.now)) forms.now }
{
    forms.iter().copied().find(|form| has_form(form, texts))
}

// Whether the path with these parts has this form.
#[tactic(auto, using(crate::proofs::PathLemmas::behind_references))]
fn has_form(form: &[&str], texts: &[&str]) -> bool
    ensures { result ≡ has_form (map (λ text. text.now) texts.now)
        (map (λ part. part.now) form.now) }
{
    form.len() == texts.len() && all_stand(form, texts)
}

// Whether each of the texts may stand for the part of a form at its place.
fn all_stand(form: &[&str], texts: &[&str]) -> bool
    ensures { result ≡ list_all (λ both. stands (both.0.now, both.1.now))
        (zip form.now texts.now) }
{
    form.iter()
        .zip(texts)
        .all(|(part, text)| stands(part, text))
}

// Whether a text may stand for a part of a form, whatever name or number it is. For the word of a report only such a word may.
fn stands(part: &str, text: &str) -> bool
    ensures { result ≡ stands (part.now, text.now) }
{
    if part == "{report}" {
        asks_report(text)
    } else {
        is_hole(part) || part == text
    }
}

// Whether a text is the word of a request for a report of a variant, which names nothing else.
fn asks_report(text: &str) -> bool
    ensures { result ≡ asks_report (form_of text.now) }
{
    match form_of(text) {
        Some(form) => matches!(form.asks, Some(Query::Variant { .. })) && form.fields.len() == 1,
        None => false,
    }
}

// Whether a part of a form is in braces.
fn is_hole(part: &str) -> bool
    ensures { result ≡ is_hole part.now }
{
    match part.as_bytes() {
        [first, ..] => *first == b'{',
        [] => false,
    }
}

// Whether a part in braces is a number.
fn is_number(part: &str) -> bool
    ensures { result ≡ is_number part.now }
{
    part == "{repetition}" || part == "{part}"
}

// Whether a part in braces is a word that may be explained.
fn is_word(part: &str) -> bool
    ensures { result ≡ is_word part.now }
{
    part == "{word}"
}

// The faults of the names, numbers and words of a path that has this form.
#[tactic(auto, using(crate::proofs::PathLemmas::behind_references))]
fn part_faults(alloc: Global, form: &[&str], texts: &[&str]) -> Result<Vec<String>, NoMemory>
    ensures { IfOk result (λ faults. are_none faults.items ≡ list_all is_fine_part
        (zip (map (λ part. part.now) form.now) (map (λ text. text.now) texts.now))) }
{
    let pairs = pairs(alloc, form, texts)?;
    pair_faults(alloc, &pairs)
}

// The parts of a form, each with the text that stands in its place.
fn pairs<'f, 't>(
    alloc: Global,
    form: &[&'f str],
    texts: &[&'t str],
) -> Result<Vec<(&'f str, &'t str)>, NoMemory>
    ensures { IfOk result (λ pairs. pairs.items ≡ zip form.entry.now texts.entry.now) }
{
    form.iter()
        .copied()
        .zip(texts.iter().copied())
        .collect(alloc)
}

// The faults of these texts, each with its part of a form.
fn pair_faults(alloc: Global, pairs: &[(&str, &str)]) -> Result<Vec<String>, NoMemory>
    ensures { IfOk result (λ faults. are_none faults.items
        ≡ list_all (λ both. is_fine_part (both.0.now, both.1.now)) pairs.now) }
{
    let mut faults = Vec::new(alloc);
    for (part, text) in pairs {
        if !is_fine_part(part, text) {
            faults.push(part_fault(alloc, part, text)?)?;
        }
    }
    Ok(faults)
}

// Whether a text is the name, the number or the word that a part of a form says.
fn is_fine_part(part: &str, text: &str) -> bool
    ensures { result ≡ is_fine_part (part.now, text.now) }
{
    if !is_hole(part) {
        true
    } else if is_number(part) {
        read_number(text.as_bytes()).is_some()
    } else if is_word(part) {
        explains(meant_word(text))
    } else {
        Name::read(text).is_some()
    }
}

// The fault of a text that is not the name, the number or the word that a part of a form says.
fn part_fault(alloc: Global, part: &str, text: &str) -> Result<String, NoMemory> {
    let text = shown(alloc, text)?;
    if is_number(part) {
        format!(in alloc; "{part} is \"{text}\", a number is 1 to 10 digits, at most 4294967295")
    } else if is_word(part) {
        format!(in alloc; "{part} is \"{text}\", no refusal and no fault has this name or number")
    } else {
        format!(in alloc;
            "{part} is \"{text}\", a name is 1 to 32 ASCII letters, digits and underscores, a letter first"
        )
    }
}

// The fault of a path that has no form.
fn no_form(alloc: Global, path: &str) -> Result<Vec<String>, NoMemory>
    ensures { IfOk result (λ faults. are_none faults.items ≡ false) }
{
    let hint = if path.starts_with("/v1/") {
        ""
    } else {
        ": it begins with /v1/"
    };
    one_fault(alloc, format!(in alloc; "no route has this path{hint}")?)
}

// The forms that paths have.
#[tactic(auto, unfolding(crate::specs::Paths::forms))]
fn path_forms() -> [PathForm; 23]
    ensures { map (λ form. map (λ part. part.now) form.now) result ≡ forms }
{
    [
        &["", ""],
        &["", "v1", "explanations"],
        &["", "v1", "explanations", "{word}"],
        &["", "v1", "checks", "rows"],
        &["", "v1", "checks", "requests"],
        &["", "v1", "commands"],
        &["", "v1", "cluster"],
        &["", "v1", "variants"],
        &["", "v1", "nodes"],
        &["", "v1", "variants", "{variant}", "imports", "{label}"],
        &["", "v1", "variants", "{variant}", "since", "{from}"],
        &["", "v1", "variants", "{variant}", "{report}"],
        &[
            "",
            "v1",
            "variants",
            "{variant}",
            "frames",
            "{frame}",
            "layout",
        ],
        &[
            "",
            "v1",
            "variants",
            "{variant}",
            "frames",
            "{frame}",
            "room",
            "{repetition}",
        ],
        &[
            "",
            "v1",
            "variants",
            "{variant}",
            "exports",
            "frames",
            "{part}",
        ],
        &[
            "",
            "v1",
            "variants",
            "{variant}",
            "exports",
            "placements",
            "{part}",
        ],
        &[
            "",
            "v1",
            "variants",
            "{variant}",
            "exports",
            "signals",
            "{part}",
        ],
        &["", "v1", "variants", "{variant}", "rows", "whole"],
        &["", "v1", "variants", "{variant}", "tries"],
        &["", "v1", "variants", "{variant}", "tries", "whole"],
        &["", "v1", "variants", "{variant}", "proposals"],
        &["", "v1", "variants", "{variant}", "picture"],
        &[
            "",
            "v1",
            "variants",
            "{variant}",
            "since",
            "{from}",
            "picture",
        ],
    ]
}
