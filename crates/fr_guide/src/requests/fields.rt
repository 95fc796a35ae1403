//! Which fields of a request are missing, unknown, of another kind, or given alone.
ghost use Rattle.std.specs.Prelude.{◌≡◌, IfOk};
ghost use Rattle.fr_guide.specs.Faults.{are_none};

use crate::requests::json::kind_name;
use crate::shown::shown;
use fr_base::{Field, Form, Kind, NoMemory, request_forms};
use fr_text::FieldFault;
use serde_json::Value;
use std::alloc::Global;

/// The fault of a field `do` that names no request, or is not there.
pub(super) fn no_request(alloc: Global, found: Option<&Value>) -> Result<String, NoMemory> {
    let words = words(alloc)?;
    match found {
        Some(Value::String(name)) => {
            let name = shown(alloc, name.as_str())?;
            format!(in alloc; "field \"do\" is \"{name}\", it may be: {words}")
        }
        Some(value) => {
            let kind = kind_name(value);
            format!(in alloc; "field \"do\" is {kind}, it may be: {words}")
        }
        None => format!(in alloc; "field \"do\" is missing, it may be: {words}"),
    }
}

/// The faults of the fields of a request of this form, in words.
pub(super) fn field_faults(
    alloc: Global,
    form: &Form,
    faults: &[FieldFault<'_>],
) -> Result<Vec<String>, NoMemory>
    ensures { IfOk result (λ told. are_none told.items ≡ are_none faults.now) }
{
    let mut told = Vec::new(alloc);
    for fault in faults {
        told.push(field_fault(alloc, form, fault)?)?;
    }
    Ok(told)
}

// The fault of a field, in words.
fn field_fault(alloc: Global, form: &Form, fault: &FieldFault<'_>) -> Result<String, NoMemory> {
    match fault {
        FieldFault::Unknown(name) => unknown(alloc, form, name),
        FieldFault::Missing(field) => {
            let (name, request) = (field.name, form.word);
            format!(in alloc; "field \"{name}\" of {request} is missing")
        }
        FieldFault::OtherKind(field, value) => other_kind(alloc, field, value),
        FieldFault::Alone(field, other, value) => alone(alloc, form, field, other, *value),
    }
}

// The fault of a field that is given without the other one, which is missing, null or false.
fn alone(
    alloc: Global,
    form: &Form,
    field: &Field,
    other: &str,
    value: Option<&Value>,
) -> Result<String, NoMemory> {
    let (name, request) = (field.name, form.word);
    let state = match value {
        None => "is missing",
        Some(Value::Null) => "is null",
        Some(_) => "is false",
    };
    format!(in alloc; "field \"{name}\" of {request} needs field \"{other}\", which {state}")
}

// The fault of a field that the request does not have.
fn unknown(alloc: Global, form: &Form, name: &str) -> Result<String, NoMemory> {
    let name = shown(alloc, name)?;
    let request = form.word;
    if form.fields.is_empty() {
        return format!(in alloc; "field \"{name}\" is none of {request}, which has no fields");
    }
    let list = field_names(alloc, form)?;
    format!(in alloc; "field \"{name}\" is none of {request}: {list}")
}

// What stands in the field, and what may stand there. A key is not shown.
fn other_kind(alloc: Global, field: &Field, value: &Value) -> Result<String, NoMemory> {
    let (name, range) = (field.name, range(field.kind));
    match value {
        Value::String(text) if name != "key" => {
            let text = shown(alloc, text.as_str())?;
            format!(in alloc; "field \"{name}\" is the text \"{text}\", it may be {range}")
        }
        Value::Number(number) if name != "key" => format!(in alloc;
            "field \"{name}\" is {number}, it may be {range}"
        ),
        _ => {
            let kind = kind_name(value);
            format!(in alloc; "field \"{name}\" is {kind}, it may be {range}")
        }
    }
}

// What a field of this kind may have.
fn range(kind: Kind) -> &'static str {
    match kind {
        Kind::Text => "a text, in double quotes",
        Kind::TextOrNull => "a text, in double quotes, or null",
        Kind::Flag => "true or false, without quotes",
        Kind::Number => "a whole number from 0 to 4294967295, without quotes",
    }
}

// The words of all requests, with commas between.
fn words(alloc: Global) -> Result<String, NoMemory> {
    let mut list = String::new(alloc);
    for form in request_forms() {
        append(&mut list, form.word)?;
    }
    Ok(list)
}

// The names of the form's fields, with commas between.
fn field_names(alloc: Global, form: &Form) -> Result<String, NoMemory> {
    let mut list = String::new(alloc);
    for field in form.fields {
        append(&mut list, field.name)?;
    }
    Ok(list)
}

// Adds a word to a list, with a comma before it where it is not the first.
fn append(list: &mut String, word: &str) -> Result<(), NoMemory> {
    if !list.is_empty() {
        list.push_str(", ")?;
    }
    list.push_str(word)
}
