//! Advice on a text that is to be sent: the lines of its faults, as they are printed.
ghost use Rattle.std.specs.Prelude.{IfOk};
ghost use Rattle.fr_guide.specs.Advice.{AreTold, IsAdvice};

use crate::line_faults::{LineFaults, fault_lines};
use crate::request_file::request_file_faults;
use crate::rows::row_faults;
use fr_base::NoMemory;
use std::alloc::Global;

/// What a text is to be, on which advice is wanted.
#[derive(Clone, Copy, Debug, PartialEq, Eq)]
pub enum Subject {
    /// A file of rows.
    Rows,
    /// Lines of requests, each with its key.
    Requests,
}

/// The faults of the text, each on a line of its own, which begins with the number of its line in
/// the text. There is none exactly where the text has none. Whoever asks, and whatever the register
/// holds, the text alone decides.
#[tactic(auto, using(crate::proofs::AdviceLaws::telling))]
pub fn advise(alloc: Global, subject: Subject, text: &[u8]) -> Result<Vec<u8>, NoMemory>
    ensures { IfOk result (λ lines. IsAdvice subject text.now lines.items) }
{
    let told = faults_of(alloc, subject, text)?;
    fault_lines(alloc, &told)
}

// What is wrong with the text's lines.
fn faults_of(alloc: Global, subject: Subject, text: &[u8]) -> Result<Vec<LineFaults>, NoMemory>
    ensures { IfOk result (λ told. AreTold subject text.now told.items) }
{
    match subject {
        Subject::Rows => row_faults(alloc, text),
        Subject::Requests => request_file_faults(alloc, text),
    }
}
