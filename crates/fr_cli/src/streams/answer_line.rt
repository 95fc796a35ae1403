//! An answer as a line, with the number of the line that it answers, if lines are numbered.
ghost use Rattle.std.specs.Prelude.{◌≡◌, ◌++◌, codes, IfOk};
ghost use Rattle.fr_text.specs.AnswerText.{text_of};
ghost use Rattle.fr_cli.specs.Numbered.{front_of};
ghost use Rattle.fr_cli.specs.Outcomes.{line_of};

use fr_base::{Answer, NoMemory};
use fr_text::write_answer;
use std::alloc::Global;

/// The answer's text, on a line of its own.
pub fn line_of(alloc: Global, answer: &Answer) -> Result<Vec<u8>, NoMemory>
    ensures { IfOk result (λ text. text.items ≡ text_of answer.now ++ codes "\n") }
{
    let mut text = write_answer(alloc, answer)?;
    text.push(b'\n')?;
    Ok(text)
}

/// The answer's text, on a line of its own; where lines are numbered, behind the number of the line that it answers and a space.
pub fn numbered_line(
    alloc: Global,
    numbered: bool,
    number: u64,
    answer: &Answer,
) -> Result<Vec<u8>, NoMemory>
    ensures { IfOk result (λ text. text.items ≡ front_of numbered number ++ line_of answer.now) }
{
    let text = line_of(alloc, answer)?;
    if !numbered {
        return Ok(text);
    }
    let mut line = format!(in alloc; "{number} ")?.into_bytes();
    line.extend_from_slice(&text)?;
    Ok(line)
}
