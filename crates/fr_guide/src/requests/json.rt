//! Why a text is not a request: it is not JSON, or not an object.
use fr_base::NoMemory;
use serde_json::{Error, Value};
use std::alloc::Global;

/// The fault of JSON that is not an object.
pub(super) fn no_object(alloc: Global, value: &Value) -> Result<String, NoMemory> {
    let kind = kind_name(value);
    format!(in alloc; "the text is {kind}, a request is an object, in braces")
}

/// The kind of a value.
pub fn kind_name(value: &Value) -> &'static str {
    match value {
        Value::Null => "null",
        Value::Bool(_) => "true or false",
        Value::Number(_) => "a number",
        Value::String(_) => "a text",
        Value::Array(_) => "a list",
        Value::Object(_) => "an object",
    }
}

/// Where a text, which begins behind so many bytes of its line, stops being JSON.
pub(super) fn no_json(
    alloc: Global,
    text: &[u8],
    before: usize,
    error: &Error,
) -> Result<String, NoMemory> {
    if error.is_eof() {
        return String::from_str(alloc, "the text is no JSON: it ends too early");
    }
    let column = before.saturating_add(error.column());
    let rest = text.get(error.column().saturating_sub(1)..);
    match rest.and_then(|rest| rest.first()) {
        Some(b'\'') => format!(in alloc;
            "column {column}: the text is no JSON: texts stand in double quotes"
        ),
        Some(byte) if matches!(*byte, b'!'..=b'~') => {
            let found = char::from(*byte);
            format!(in alloc; "column {column}: the text is no JSON: {found} may not stand here")
        }
        _ => format!(in alloc; "column {column}: the text is no JSON from here on"),
    }
}
