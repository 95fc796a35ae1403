//! What is wrong with the lines of a file of requests.
ghost use Rattle.std.specs.Prelude.{◌≡◌, IfOk, false};
ghost use Rattle.fr_base.specs.Names.{is_key};
ghost use Rattle.fr_guide.specs.Faults.{are_none};
ghost use Rattle.fr_guide.specs.RequestFile.{AreToldOfRequests, is_fine_ask, is_fine_line};

use crate::line_faults::{LineFaults, one_fault};
use crate::requests::request_faults;
use fr_base::{Key, NoMemory};
use fr_text::{LINE_BYTES, key_and_text, next_line};
use std::alloc::Global;

/// What some editors write at the beginning of a file.
const BYTE_ORDER_MARK: &[u8] = b"\xef\xbb\xbf";

/// What is wrong with each line that is no request, whoever asks. An empty line is passed over.
pub fn request_file_faults(alloc: Global, bytes: &[u8]) -> Result<Vec<LineFaults>, NoMemory>
    ensures { IfOk result (λ told. AreToldOfRequests bytes.now told.items) }
{
    let mut told = Vec::new(alloc);
    let mut rest = bytes;
    let mut line = 0;
    while let Some((text, after)) = next_line(rest) {
        line += 1;
        let faults = line_faults(alloc, text)?;
        if !faults.is_empty() {
            told.push(LineFaults { line, faults })?;
        }
        rest = after;
    }
    Ok(told)
}

// What is wrong with a line.
#[tactic(auto, unfolding(crate::specs::RequestFile::is_fine_line))]
fn line_faults(alloc: Global, line: &[u8]) -> Result<Vec<String>, NoMemory>
    ensures { IfOk result (λ faults. are_none faults.items ≡ is_fine_line line.now) }
{
    if line.is_empty() {
        return Ok(Vec::new(alloc));
    }
    if line.len() > LINE_BYTES {
        return too_long(alloc);
    }
    match key_and_text(line) {
        Some((key, text)) => part_faults(alloc, key, text),
        None => no_space(alloc),
    }
}

// What is wrong with a key and the text behind it.
fn part_faults(alloc: Global, key: &[u8], text: &[u8]) -> Result<Vec<String>, NoMemory>
    ensures { IfOk result (λ faults. are_none faults.items ≡ is_fine_ask key.now text.now) }
{
    let mut faults = request_faults(alloc, text, key.len() + 1)?;
    if !is_key(key) {
        faults.insert(0, no_key(alloc, key)?)?;
    }
    Ok(faults)
}

// Whether the bytes are a key.
fn is_key(bytes: &[u8]) -> bool
    ensures { result ≡ is_key bytes.now }
{
    match str::from_utf8(bytes) {
        Ok(text) => Key::read(text).is_some(),
        Err(_) => false,
    }
}

// What is said of a text in a key's place that is no key. The text is not shown.
fn no_key(alloc: Global, key: &[u8]) -> Result<String, NoMemory> {
    let hint = if key.starts_with(BYTE_ORDER_MARK) {
        ": a byte order mark stands before it"
    } else if key.contains(&0) {
        ": the file is UTF-16, and has to be UTF-8"
    } else {
        ""
    };
    format!(in alloc; "the key is none, which is 8 to 64 ASCII letters and digits{hint}")
}

// What is said of a line that is too long.
fn too_long(alloc: Global) -> Result<Vec<String>, NoMemory>
    ensures { IfOk result (λ faults. are_none faults.items ≡ false) }
{
    one_fault(
        alloc,
        format!(in alloc; "the line has more than {LINE_BYTES} bytes")?,
    )
}

// What is said of a line without a space.
fn no_space(alloc: Global) -> Result<Vec<String>, NoMemory>
    ensures { IfOk result (λ faults. are_none faults.items ≡ false) }
{
    let fault = "there is no space: a line is a key, a space and a request";
    one_fault(alloc, String::from_str(alloc, fault)?)
}
