//! The names and keys of a request that have not their form.
ghost use Rattle.std.specs.Prelude.{◌≡◌, IfOk, map};
ghost use Rattle.fr_guide.specs.Faults.{are_none};
ghost use Rattle.fr_guide.specs.Requests.{formed_in, has_form, have_forms, names_in};

use crate::form::Form;
use crate::shown::shown;
use fr_base::{Beginning, Key, Name, NoMemory, Purpose, Query, Report, Request, Text};
use std::alloc::Global;

/// A text of a request that must have a form, and its field.
#[derive(Clone, Copy)]
pub struct Formed<'a> {
    form: Form,
    field: &'static str,
    text: &'a str,
}

/// The faults of a request's texts that have not their form.
#[tactic(auto, unfolding(crate::specs::Requests::formed_in))]
pub fn name_faults(alloc: Global, request: &Request) -> Result<Vec<String>, NoMemory>
    ensures { IfOk result (λ faults. are_none faults.items ≡ have_forms (formed_in request.now)) }
{
    match request {
        Request::OpenVariant { variant, beginning } => {
            let variant = name("variant", variant);
            match beginning {
                Beginning::Empty => faults(alloc, &[variant]),
                Beginning::From(from) | Beginning::Flat(from) => {
                    faults(alloc, &[variant, name("from", from)])
                }
            }
        }
        Request::Release { variant } => faults(alloc, &[name("variant", variant)]),
        Request::AddSupplier { supplier, key } | Request::SetKey { supplier, key } => {
            faults(alloc, &[name("supplier", supplier), key_in("key", key)])
        }
        Request::AddNode { supplier, node } => {
            faults(alloc, &[name("supplier", supplier), name("node", node)])
        }
        Request::Grant {
            variant,
            supplier,
            node,
            slot: _,
            channel: _,
        } => faults(
            alloc,
            &[
                name("variant", variant),
                name("supplier", supplier),
                name("node", node),
            ],
        ),
        Request::Revoke {
            variant,
            supplier,
            slot: _,
            channel: _,
        } => faults(
            alloc,
            &[name("variant", variant), name("supplier", supplier)],
        ),
        Request::AddFrame {
            variant,
            frame,
            node,
        } => faults(
            alloc,
            &[
                name("variant", variant),
                name("frame", frame),
                name("node", node),
            ],
        ),
        Request::DropFrame { variant, frame } => {
            faults(alloc, &[name("variant", variant), name("frame", frame)])
        }
        Request::Place {
            variant,
            frame,
            slot: _,
            channels: _,
            base: _,
            repetition: _,
        } => faults(alloc, &[name("variant", variant), name("frame", frame)]),
        Request::Unplace {
            variant,
            frame,
            slot: _,
            channels: _,
            base: _,
            repetition: _,
        } => faults(alloc, &[name("variant", variant), name("frame", frame)]),
        Request::AddSignal {
            variant,
            frame,
            signal,
            start: _,
            length: _,
            order: _,
        } => faults(
            alloc,
            &[
                name("variant", variant),
                name("frame", frame),
                name("signal", signal),
            ],
        ),
        Request::DropSignal {
            variant,
            frame,
            signal,
        } => faults(
            alloc,
            &[
                name("variant", variant),
                name("frame", frame),
                name("signal", signal),
            ],
        ),
        Request::Deliver {
            variant,
            how,
            body: _,
        } => {
            let variant = name("variant", variant);
            match how {
                Purpose::Import { label } => faults(alloc, &[variant, name("label", label)]),
                Purpose::Replacement { whole: _ }
                | Purpose::Trial { manner: _ }
                | Purpose::Proposal { replace: _ } => faults(alloc, &[variant]),
            }
        }
        Request::Query(query) => query_faults(alloc, query),
    }
}

// The faults of a query's names that are not names.
fn query_faults(alloc: Global, query: &Query<Text>) -> Result<Vec<String>, NoMemory>
    ensures { IfOk result (λ faults. are_none faults.items ≡ have_forms (names_in query.now)) }
{
    match query {
        Query::Register(_) => faults(alloc, &[]),
        Query::Variant { variant, report } => {
            let variant = name("variant", variant);
            match report {
                Report::Layout { frame }
                | Report::Room {
                    frame,
                    repetition: _,
                } => faults(alloc, &[variant, name("frame", frame)]),
                _ => faults(alloc, &[variant]),
            }
        }
        Query::Difference { variant, from } => {
            faults(alloc, &[name("variant", variant), name("from", from)])
        }
    }
}

// A text that must be a name.
fn name<'a>(field: &'static str, text: &'a Text) -> Formed<'a>
    ensures { (result.form ≡ Form.Name) × (result.text.now ≡ text.now) }
{
    Formed {
        form: Form::Name,
        field,
        text: text.as_str(),
    }
}

// A text that must be a key.
fn key_in<'a>(field: &'static str, text: &'a Text) -> Formed<'a>
    ensures { (result.form ≡ Form.Key) × (result.text.now ≡ text.now) }
{
    Formed {
        form: Form::Key,
        field,
        text: text.as_str(),
    }
}

// The faults of the texts that have not their form.
fn faults(alloc: Global, texts: &[Formed<'_>]) -> Result<Vec<String>, NoMemory>
    ensures { IfOk result (λ faults.
        are_none faults.items ≡ have_forms (map (λ it. (it.form, it.text.now)) texts.now)) }
{
    let mut faults = Vec::new(alloc);
    for formed in texts {
        if !has_form(formed.form, formed.text) {
            faults.push(fault(alloc, formed)?)?;
        }
    }
    Ok(faults)
}

// Whether the text has this form.
fn has_form(form: Form, text: &str) -> bool
    ensures { result ≡ has_form form text.now }
{
    match form {
        Form::Name => Name::read(text).is_some(),
        Form::Key => Key::read(text).is_some(),
    }
}

// The fault of a text that has not its form. A key is not shown.
fn fault(alloc: Global, formed: &Formed<'_>) -> Result<String, NoMemory> {
    let field = formed.field;
    match formed.form {
        Form::Name => {
            let text = shown(alloc, formed.text)?;
            format!(in alloc;
                "field \"{field}\" is \"{text}\", a name is 1 to 32 ASCII letters, digits and underscores, a letter first"
            )
        }
        Form::Key => format!(in alloc;
            "field \"{field}\" is no key, which is 8 to 64 ASCII letters and digits"
        ),
    }
}
