//! The requests of a text with the numbers of their lines, and how many lines a text has. Empty lines count.
ghost use Rattle.std.specs.Prelude.{◌≡◌, ◌+◌, ◌<◌, ◌^◌, [], length, IsNone, IfSome};
ghost use Rattle.std.specs.Str.Lines.{lines};
ghost use Rattle.fr_cli.specs.Numbered.{IsNext, numbered_lines};

use fr_text::next_line;

/// A request's line with its number, and what follows it.
#[derive(Clone, Copy)]
pub struct NumberedLine<'a> {
    pub number: u64,
    pub line: &'a [u8],
    pub rest: &'a [u8],
}

/// The first line that is not empty, if there is one. The text's first line has the number `first`.
pub fn next_request(text: &[u8], first: u64) -> Option<NumberedLine<'_>>
    requires room { first + length (lines text.now) < 2 ^ 64 }
    ensures none { IsNone result → numbered_lines first text.now ≡ [] }
    ensures some { IfSome result (IsNext first text.now) }
{
    let mut rest = text;
    let mut number = first;
    while let Some((line, after)) = next_line(rest) {
        if !line.is_empty() {
            return Some(NumberedLine {
                number,
                line,
                rest: after,
            });
        }
        number += 1;
        rest = after;
    }
    None
}

/// How many lines the text has.
pub fn line_count(text: &[u8]) -> u64
    ensures { result ≡ length (lines text.now) }
{
    let mut rest = text;
    let mut count = 0;
    while let Some((_, after)) = next_line(rest) {
        count += 1;
        rest = after;
    }
    count
}
