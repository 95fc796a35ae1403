//! The faults of a file's lines, and how they are printed.
ghost use Rattle.std.specs.Prelude.{◌≡◌, ◌++◌, IfOk, OnOk, false};
ghost use Rattle.fr_guide.specs.Faults.{all_fine, all_lines, are_none, fault_line, lines_of};

use fr_base::NoMemory;
use std::alloc::Global;

/// A line of a file, with the faults of its text.
#[derive(Debug, Drop)]
pub struct LineFaults {
    /// The line's number, as an editor counts lines: the first is 1.
    pub line: usize,
    /// The faults, in words; none where the line is as it may be.
    pub faults: Vec<String>,
}

/// A list of one fault.
pub fn one_fault(alloc: Global, fault: String) -> Result<Vec<String>, NoMemory>
    ensures { IfOk result (λ faults. are_none faults.items ≡ false) }
{
    let mut faults = Vec::new(alloc);
    faults.push(fault)?;
    Ok(faults)
}

/// Whether none of the lines has a fault.
pub fn are_fine(told: &[LineFaults]) -> bool
    ensures { result ≡ all_fine told.now }
{
    told.iter().all(|line| line.faults.is_empty())
}

/// The faults, each on a line of its own, which begins with the number of its line in the file.
pub fn fault_lines(alloc: Global, told: &[LineFaults]) -> Result<Vec<u8>, NoMemory>
    ensures { IfOk result (λ text. text.items ≡ all_lines told.now) }
{
    let mut text = Vec::new(alloc);
    for line in told {
        append_faults(alloc, &mut text, line)?;
    }
    Ok(text)
}

// Adds the faults of a line.
fn append_faults(alloc: Global, text: &mut Vec<u8>, told: &LineFaults) -> Result<(), NoMemory>
    ensures { OnOk result (text.new.items ≡ text.old.items ++ lines_of told.now) }
{
    for fault in &told.faults {
        append_fault(alloc, text, told.line, fault.as_str())?;
    }
    Ok(())
}

// Adds a fault.
fn append_fault(alloc: Global, text: &mut Vec<u8>, line: usize, fault: &str) -> Result<(), NoMemory>
    ensures { OnOk result (text.new.items ≡ text.old.items ++ fault_line line fault.now) }
{
    let head = format!(in alloc; "line {line}: ")?;
    text.extend_from_slice(head.as_bytes())?;
    text.extend_from_slice(fault.as_bytes())?;
    text.push(b'\n')?;
    Ok(())
}
