//! Checks the text of a file: of a cluster, of requests, or of an import's rows; the path of a
//! request over HTTP; or whether a register can be used.
ghost use Rattle.std.specs.Prelude.{◌≡◌, ◌++◌, IfOk, codes};
ghost use Rattle.fr_guide.specs.RequestFile.{AreToldOfRequests};
ghost use Rattle.fr_guide.specs.Rows.{AreToldOfRows};
ghost use Rattle.fr_cli.specs.Checking.{AreChecked, IsChecked, IsCheckedFile, IsCheckedPath, IsCheckedRegister, fault_lines_of, fine_line, fine_requests, fine_rows, hindrance_lines_of};
ghost use Rattle.fr_cli.specs.Endings.{word_line};
ghost use Rattle.fr_cli.specs.Texts.{readings};

use crate::failure::Failure;
use crate::files::file_contents::{read_file, read_front};
use crate::files::hindrance::Hindrance;
use crate::files::registers::Registers;
use crate::files::text_files::TextFiles;
use crate::jobs::create::CONFIG_BYTES;
use crate::jobs::deliver::FILE_BYTES;
use crate::streams::input::SCRIPT_BYTES;
use crate::words::check_subject::CheckSubject;
use fr_base::NoMemory;
use fr_guide::{
    Finding, LineFaults, are_fine, examine, fault_lines, path_faults, request_file_faults,
    row_faults,
};
use fr_text::RequestLines;
use std::alloc::Global;

/// What is said of rows without a fault that only a register can tell.
const UNTOLD: &[u8] =
    b"the register alone knows its slots, channels and cycles, and which are granted and free\n";

/// A line on what the file or the path says, if it has no fault. Else it is refused: with a line on a cluster file's fault, or
/// with a line for each fault of requests, of rows or of a path. Of a register that can be used nothing is said; else it is refused,
/// with a line for each thing that stands in the way.
pub fn check<G: Registers, F: TextFiles>(
    alloc: Global,
    registers: &G,
    files: &mut F,
    file: CheckSubject<'_>,
) -> Result<Vec<u8>, Failure>
    ensures { let read = readings F.TextFiles F.Reader.Read files.old files.new in
        IsCheckedFile read (G.hinders registers.now) file.entry result }
{
    match file {
        CheckSubject::Config { path } => {
            let text = read_file(alloc, files, path, CONFIG_BYTES)?;
            check_config(alloc, &text)
        }
        CheckSubject::Requests { path } => {
            let text = read_file(alloc, files, path, SCRIPT_BYTES)?;
            check_requests(alloc, &text)
        }
        CheckSubject::Rows { path } => {
            let text = read_front(alloc, files, path, FILE_BYTES)?;
            check_rows(alloc, &text)
        }
        CheckSubject::Target { path } => check_path(alloc, path),
        CheckSubject::Register { path } => check_register(alloc, registers, path),
    }
}

// A line with the figures of the cluster file; or, as a refusal, the line on its fault.
fn check_config(alloc: Global, text: &[u8]) -> Result<Vec<u8>, Failure>
    ensures { IsChecked text.now result }
{
    match examine(alloc, text)? {
        Finding::Good { text } => Ok(with_line_end(text)?),
        Finding::Bad { text } => Err(Failure::Refused {
            line: fault_line(alloc, &text)?,
        }),
    }
}

// A line that says how many requests there are, if none has a fault; else, as a refusal, a line for each fault.
fn check_requests(alloc: Global, text: &[u8]) -> Result<Vec<u8>, Failure>
    ensures { AreChecked (AreToldOfRequests text.now) (fine_requests text.now) result }
{
    let told = request_file_faults(alloc, text)?;
    let count = RequestLines::new(text).count();
    tell(alloc, &told, "requests", count)
}

// A line that says how many rows stand below the header, and one on what the file does not tell, if none has a fault; else, as
// a refusal, a line for each fault.
fn check_rows(alloc: Global, text: &[u8]) -> Result<Vec<u8>, Failure>
    ensures { AreChecked (AreToldOfRows text.now) fine_rows result }
{
    let told = row_faults(alloc, text)?;
    let count = told.len().saturating_sub(1);
    let mut text = tell(alloc, &told, "rows", count)?;
    text.extend_from_slice(UNTOLD)?;
    Ok(text)
}

// A line that says that the path has no fault; else, as a refusal, a line for each fault.
fn check_path(alloc: Global, path: &str) -> Result<Vec<u8>, Failure>
    ensures { IsCheckedPath path.now result }
{
    let faults = path_faults(alloc, path)?;
    let lines = path_lines(alloc, &faults)?;
    if faults.is_empty() {
        let text = String::from_str(alloc, "path: no fault\n")?;
        return Ok(text.into_bytes());
    }
    Err(Failure::Refused { line: lines })
}

// Nothing, if nothing stands in the way of using the register; else, as a refusal, a line for each thing that does.
fn check_register<G: Registers>(
    alloc: Global,
    registers: &G,
    path: &str,
) -> Result<Vec<u8>, Failure>
    ensures { IsCheckedRegister (G.hinders registers.now path.now) result }
{
    let found = registers.hindrances(path)?;
    let lines = hindrance_lines(alloc, &found)?;
    if found.is_empty() {
        return Ok(lines);
    }
    Err(Failure::Refused { line: lines })
}

// What stands in the way of using a register, each on a line of its own.
fn hindrance_lines(alloc: Global, found: &[Hindrance]) -> Result<Vec<u8>, NoMemory>
    ensures { IfOk result (λ text. text.items ≡ hindrance_lines_of found.now) }
{
    let mut text = Vec::new(alloc);
    for hindrance in found {
        let line = fault_line(alloc, hindrance.as_str().as_bytes())?;
        text.extend_from_slice(&line)?;
    }
    Ok(text)
}

// The faults of a path, each on a line of its own.
fn path_lines(alloc: Global, faults: &[String]) -> Result<Vec<u8>, NoMemory>
    ensures { IfOk result (λ text. text.items ≡ fault_lines_of faults.now) }
{
    let mut text = Vec::new(alloc);
    for fault in faults {
        let line = fault_line(alloc, fault.as_bytes())?;
        text.extend_from_slice(&line)?;
    }
    Ok(text)
}

// A line that says that so many have no fault, if none of these has one; else, as a refusal, a line for each fault.
fn tell(alloc: Global, told: &[LineFaults], what: &str, count: usize) -> Result<Vec<u8>, Failure>
    ensures { AreChecked (λ x. x ≡ told.now) (λ x. fine_line what.now count) result }
{
    if are_fine(told) {
        let text = format!(in alloc; "{what}: {count}, no fault\n")?;
        return Ok(text.into_bytes());
    }
    Err(Failure::Refused {
        line: fault_lines(alloc, told)?,
    })
}

// The text with a line's end.
fn with_line_end(mut text: Vec<u8>) -> Result<Vec<u8>, NoMemory>
    ensures { IfOk result (λ line. line.items ≡ text.items ++ codes "\n") }
{
    text.push(b'\n')?;
    Ok(text)
}

// The line on a fault of which this is said.
fn fault_line(alloc: Global, text: &[u8]) -> Result<Vec<u8>, NoMemory>
    ensures { IfOk result (λ line. line.items ≡ word_line text.now) }
{
    let mut line = Vec::new(alloc);
    line.extend_from_slice(b"slotplan: ")?;
    line.extend_from_slice(text)?;
    line.push(b'\n')?;
    Ok(line)
}
