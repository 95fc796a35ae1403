//! What is printed of a job on standard output and standard error, and its status.
ghost use Rattle.std.specs.Prelude.{◌≡◌};
ghost use Rattle.fr_cli.specs.Endings.{IsPrinted, IsTold, Tells, status_of, word_line, word_pieces};
ghost use Rattle.fr_cli.specs.Outlets.{IsPut, IsWritten, outlet};

use crate::failure::Failure;
use crate::fault::Fault;
use fr_text::{Output, Sink, WriteFailed};

/// Prints the text of a job, or why it was not done, and gives its status.
pub fn tell<O: Sink, E: Sink>(done: Result<Vec<u8>, Failure>, out: &mut O, err: &mut E) -> u8
    ensures { IsTold (outlet O.Sink out.old out.new) (outlet E.Sink err.old err.new) done result }
{
    match done {
        Ok(text) => print_all(&text, out, err),
        Err(Failure::RefusedRows { text }) => {
            let _ = print_all(&text, out, err);
            1
        }
        Err(Failure::UnplacedWishes { file, lines }) => {
            let _ = print(&lines, err);
            let _ = print_all(&file, out, err);
            1
        }
        Err(Failure::Refused { line }) => {
            let _ = print(&line, err);
            1
        }
        Err(Failure::Fault(fault)) => end(Err(fault), err),
    }
}

/// Prints a whole text, and gives the status.
pub fn print_all<O: Sink, E: Sink>(text: &[u8], out: &mut O, err: &mut E) -> u8
    ensures { IsPrinted (outlet O.Sink out.old out.new) (outlet E.Sink err.old err.new) text.now
        result }
{
    match print(text, out) {
        Ok(()) => 0,
        Err(WriteFailed) => end(Err(Fault::WriteFailed), err),
    }
}

/// The status of a job that ended so. The fault's word is printed.
pub fn end<E: Sink>(done: Result<(), Fault>, err: &mut E) -> u8
    ensures status { result ≡ status_of done }
    ensures tells { Tells E.Sink err.old err.new done }
{
    match done {
        Ok(()) => 0,
        Err(fault) => {
            let _ = print_word(fault.word(), err);
            1
        }
    }
}

/// Writes the text, as far as no write fails. It has [`WRITE_RETRIES`](fr_text::WRITE_RETRIES) retries of its own.
pub fn print<W: Sink>(text: &[u8], writer: &mut W) -> Result<(), WriteFailed>
    ensures { IsPut (outlet W.Sink writer.old writer.new) text.now result }
{
    Output::new(writer).write_all(text)
}

/// Writes the line that names a fault, as far as no write fails. The line has retries of its own.
pub fn print_word<W: Sink>(word: &str, writer: &mut W) -> Result<(), WriteFailed>
    ensures { IsWritten W.Sink (word_line word.now) (word_pieces word.now) writer.old writer.new
        result }
{
    let mut output = Output::new(writer);
    output.write_all(b"slotplan: ")?;
    output.write_all(word.as_bytes())?;
    output.write_all(b"\n")
}
