//! Texts as they are shown: their first characters, in printable ASCII.
use fr_base::NoMemory;
use std::alloc::Global;

/// How many characters of a text are shown.
const SHOWN_CHARS: usize = 64;

/// The text's first 64 characters. A question mark stands for each that is not printable ASCII.
pub fn shown(alloc: Global, text: &str) -> Result<String, NoMemory> {
    let mut shown = String::new(alloc);
    for character in text.chars().take(SHOWN_CHARS) {
        shown.push(if matches!(character, ' '..='~') {
            character
        } else {
            '?'
        })?;
    }
    Ok(shown)
}

/// The first 64 bytes, shown in the same way. They need not be a text.
pub fn shown_bytes(alloc: Global, bytes: &[u8]) -> Result<String, NoMemory> {
    let mut shown = String::new(alloc);
    for byte in bytes.iter().take(SHOWN_CHARS) {
        shown.push(if matches!(*byte, b' '..=b'~') {
            char::from(*byte)
        } else {
            '?'
        })?;
    }
    Ok(shown)
}
