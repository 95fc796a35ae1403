//! The parts of a script, and the lines of its requests.
ghost use Rattle.std.specs.Prelude.{◌≡◌, ◌↔◌, ◌==◌, [], IsNone, IfSome, position};
ghost use Rattle.std.specs.Option.{option_map};
ghost use Rattle.std.specs.Str.Lines.{strip_carriage_return};
ghost use Rattle.std.specs.Iterator.{YieldsFirstRef, item_count};
ghost use Rattle.fr_text.specs.Script.{IsFirstLine, key_and_text, parts_around, parts_of, request_lines};

/// The line between a script's cluster file and its requests.
const SEPARATOR: &[u8] = b"---";

/// How many bytes a line of requests has at most, without its line feed.
pub const LINE_BYTES: usize = 1_048_576;

/// The parts of a script: the cluster file, which is all before the first line that is exactly
/// `---`, and all after that line. `None` where no line is `---`.
pub fn split_script(bytes: &[u8]) -> Option<(&[u8], &[u8])>
    ensures { option_map (λ parts. (parts.0.now, parts.1.now)) result ≡ parts_of bytes.now }
{
    let mut rest = bytes;
    while let Some((line, after)) = next_line(rest) {
        if line == SEPARATOR {
            let cluster_len = bytes.len() - rest.len();
            return Some((&bytes[..cluster_len], after));
        }
        rest = after;
    }
    None
}

/// The first line, without its end, and all after that end. A line ends with a line feed, which
/// the last one may lack; a carriage return before the line feed belongs to the end. `None` where
/// there are no bytes.
pub fn next_line(bytes: &[u8]) -> Option<(&[u8], &[u8])>
    ensures none { IsNone result ↔ (bytes.now ≡ []) }
    ensures first { IfSome result (λ x. IsFirstLine bytes.now x.0.now x.1.now) }
{
    if bytes.is_empty() {
        return None;
    }
    match split_once(bytes, b'\n') {
        Some((line, after)) => Some((without_return(line), after)),
        None => Some((bytes, &[])),
    }
}

/// A line without the carriage return at its end, if it has one.
fn without_return(line: &[u8]) -> &[u8]
    ensures { result.now ≡ strip_carriage_return line.now }
{
    match line {
        [text @ .., b'\r'] => text,
        _ => line,
    }
}

/// The requests of a script, in order: each line after the separator's that is not empty.
#[derive(Clone, Copy)]
pub struct RequestLines<'a> {
    rest: &'a [u8],
}

impl<'a> RequestLines<'a> {
    /// The requests of what follows the separator's line.
    pub fn new(rest: &'a [u8]) -> Self
        ensures { result.rest.now ≡ rest.now }
    {
        RequestLines { rest }
    }
}

impl<'a> Iterator for RequestLines<'a> {
    type Item = &'a [u8];

    ghost next_gives = { YieldsFirstRef (λ s. request_lines s.rest.now) };

    ghost remaining = { item_count (λ s. request_lines s.rest.now) };

    #[tactic(auto, using(crate::proofs::LineLemmas::request_taken))]
    fn next(&mut self) -> Option<&'a [u8]> {
        while let Some((line, rest)) = next_line(self.rest) {
            self.rest = rest;
            if !line.is_empty() {
                return Some(line);
            }
        }
        None
    }
}

/// The key and the text of a request's line: all before its first space, and all after it. `None`
/// where the line has no space.
pub fn key_and_text(line: &[u8]) -> Option<(&[u8], &[u8])>
    ensures { option_map (λ x. (x.0.now, x.1.now)) result ≡ key_and_text line.now }
{
    split_once(line, b' ')
}

/// What stands before the first byte of this value, and what stands after it. `None` where there is none.
pub fn split_once(bytes: &[u8], byte: u8) -> Option<(&[u8], &[u8])>
    ensures { option_map (λ x. (x.0.now, x.1.now)) result ≡ parts_around byte bytes.now }
{
    let at = index_of(bytes, byte)?;
    Some((&bytes[..at], &bytes[at + 1..]))
}

/// The index of the first byte of this value.
fn index_of(bytes: &[u8], byte: u8) -> Option<usize>
    ensures { result ≡ position (λ b. b == byte) bytes.now }
{
    bytes.iter().position(|b| *b == byte)
}
