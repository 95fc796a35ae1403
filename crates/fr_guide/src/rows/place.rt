//! The line of a file in which a byte stands.
ghost use Rattle.std.specs.Prelude.{◌≡◌, ◌≤◌, ◌<◌, ◌+◌, ◌^◌};
ghost use Rattle.fr_guide.specs.Rows.{ends_line, line_count, line_ends};

/// A place in a file, which moves towards the file's end.
#[derive(Drop)]
pub struct Place<'b> {
    /// How many bytes the file has.
    length: usize,
    /// The bytes from the place on.
    rest: &'b [u8],
    /// The number of the place's line, as an editor counts lines: the first is 1.
    line: usize,
}

impl<'b> Place<'b> {
    /// The file's beginning.
    pub fn new(bytes: &'b [u8]) -> Place<'b>
        ensures line { result.line ≡ 1 }
        ensures all { result.line + line_ends result.rest.now ≡ line_count bytes.now }
    {
        Place {
            length: bytes.len(),
            rest: bytes,
            line: 1,
        }
    }

    /// Moves to the beginning of the record that comes behind so many bytes, and gives its line.
    /// The ends of the line before it, and of empty lines, come first.
    pub fn line_behind(&mut self, bytes: u64) -> usize
        requires room { self.old.line + line_ends self.old.rest.now < 2 ^ 64 }
        ensures line { result ≡ self.new.line }
        ensures order { self.old.line ≤ self.new.line }
        ensures all { self.new.line + line_ends self.new.rest.now
            ≡ self.old.line + line_ends self.old.rest.now }
    {
        while let [byte, after @ ..] = self.rest {
            let passed = self.length.saturating_sub(self.rest.len());
            if passed as u64 >= bytes && !matches!(*byte, b'\r' | b'\n') {
                break;
            }
            if ends_line(*byte, after) {
                self.line += 1;
            }
            self.rest = after;
        }
        self.line
    }
}

// Whether the byte ends a line, where these follow it.
fn ends_line(byte: u8, after: &[u8]) -> bool
    ensures { result ≡ ends_line byte after.now }
{
    match byte {
        b'\n' => true,
        b'\r' => !matches!(after, [b'\n', ..]),
        _ => false,
    }
}
