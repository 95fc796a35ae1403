//! Which key of a cluster file is missing, unknown, or has a value of another kind.
use crate::place::kind::kind;
use crate::shown::shown;
use fr_base::{Channels, NoMemory};
use fr_text::{file_keys, is_file_key};
use std::alloc::Global;
use toml::{Table, Value};

/// The first key that is unknown, else the first that is missing or has a value that it may not have.
pub fn bad_field(alloc: Global, file: &Table) -> Result<String, NoMemory> {
    if let Some(key) = file.keys().find(|key| !is_file_key(key.as_str())) {
        let key = shown(alloc, key.as_str())?;
        return format!(in alloc; "\"{key}\" is no key of a cluster file");
    }
    for key in file_keys() {
        let key = *key;
        match file.get(key) {
            None if key == "cycles" => {}
            None => return format!(in alloc; "{key} is missing"),
            Some(value) if is_allowed(key, value) => {}
            Some(value) => return not_allowed(alloc, key, value),
        }
    }
    bad_supplier(alloc, file)
}

// Whether the key may have a value of this kind.
fn is_allowed(key: &str, value: &Value) -> bool {
    match key {
        "channels" => value.as_str().and_then(Channels::read).is_some(),
        "integrator" => value.is_str(),
        "suppliers" => value.is_table(),
        _ => value
            .as_integer()
            .is_some_and(|number| u32::try_from(number).is_ok()),
    }
}

// What stands at a key, and what may stand there.
fn not_allowed(alloc: Global, key: &str, value: &Value) -> Result<String, NoMemory> {
    let range = range(key);
    match value {
        Value::Integer(number) if is_open(key) => format!(in alloc;
            "{key} is {number}, it may be {range}"
        ),
        Value::String(text) if is_open(key) => {
            let text = shown(alloc, text.as_str())?;
            format!(in alloc; "{key} is the text \"{text}\", it may be {range}")
        }
        _ => {
            let kind = kind(value);
            format!(in alloc; "{key} is {kind}, it may be {range}")
        }
    }
}

// Whether the value may be shown: the keys of the integrator and the suppliers may not.
fn is_open(key: &str) -> bool {
    !matches!(key, "integrator" | "suppliers")
}

/// What the value of a cluster file's key may be.
pub fn range(key: &str) -> &'static str {
    match key {
        "channels" => "\"A\", \"B\" or \"AB\"",
        "static_slots" => "2 to 1023",
        "slot_macroticks" | "idle_macroticks" => "1 or more",
        "dynamic_macroticks" | "symbol_macroticks" => "0 or more",
        "macroticks_per_cycle" => "at most 16000",
        "payload_words" => "0 to 127",
        "cycles" => "an even number from 8 to 64",
        "integrator" => "a text of 8 to 64 ASCII letters and digits",
        _ => "a table from each supplier's name to its key",
    }
}

// The first supplier whose key is not a text.
fn bad_supplier(alloc: Global, file: &Table) -> Result<String, NoMemory> {
    let suppliers = file.get("suppliers").and_then(Value::as_table);
    let bad = suppliers.and_then(|table| table.iter().find(|entry| !entry.1.is_str()));
    match bad {
        Some((name, value)) => {
            let (name, kind) = (shown(alloc, name.as_str())?, kind(value));
            format!(in alloc; "suppliers: the key of {name} is {kind}, it may be a text")
        }
        None => String::from_str(alloc, "a field is of another kind"),
    }
}
