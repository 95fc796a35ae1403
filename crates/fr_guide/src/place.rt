//! Where the fault of a cluster file is.
mod field;
mod figure;
mod kind;
mod supplier;

use crate::place::field::bad_field;
use crate::place::figure::bad_figure;
use crate::place::supplier::{bad_key, bad_name, same_keys, too_many};
use fr_base::NoMemory;
use fr_text::ConfigFault;
use std::alloc::{AllocError, Global};
use toml::de::Error;
use toml::table_from_slice;

/// Where the fault of a cluster file with these bytes is, and what may stand there, in words.
pub fn place(alloc: Global, fault: ConfigFault, bytes: &[u8]) -> Result<String, NoMemory> {
    let file = match table_from_slice(alloc, bytes) {
        Ok(file) => file,
        Err(error) => return no_document(alloc, bytes, &error),
    };
    match fault {
        ConfigFault::Params(fault) => bad_figure(alloc, fault, &file),
        ConfigFault::Limit => too_many(alloc, &file),
        ConfigFault::BadName => bad_name(alloc, &file),
        ConfigFault::BadKey => bad_key(alloc, &file),
        ConfigFault::KeyTwice => same_keys(alloc, &file),
        ConfigFault::BadToml | ConfigFault::BadField | ConfigFault::NoMemory => {
            bad_field(alloc, &file)
        }
    }
}

// Where the bytes stop being TOML.
fn no_document(alloc: Global, bytes: &[u8], error: &Error) -> Result<String, NoMemory> {
    let Some(span) = error.span() else {
        return Err(AllocError);
    };
    let ends = bytes
        .iter()
        .take(span.start)
        .filter(|byte| **byte == b'\n')
        .count();
    let line = ends.saturating_add(1);
    let message = error.message();
    format!(in alloc; "line {line}: {message}")
}
