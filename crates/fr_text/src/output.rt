//! Text written whole to a writer: a write that is interrupted is tried again.
ghost use Rattle.std.specs.Prelude.{◌≡◌, ◌↔◌, ℕ, ◌+◌, ◌<◌, ◌≤◌, take, length, OnOk, OnErr, IsOk, Result, ⊤};
ghost use Rattle.std.specs.Io.KnownBytes.{Appends, Keeps};
ghost use Rattle.std.specs.IoError.{error_kind};
ghost use Rattle.std.specs.declared.io.Error as io;
ghost use Rattle.fr_text.specs.Writing.{IsWriting};

use crate::retry::try_again;
use crate::sink::Sink;
use std::io::{Error, ErrorKind};

/// How many interrupted writes of an output are tried again.
pub const WRITE_RETRIES: u32 = 1_000;

/// A text was not written whole: a write failed, took nothing of a piece that is not empty, or was
/// interrupted when no retry was left. Or a flush failed, after all was written. Which it was, the value does not tell.
#[derive(Clone, Copy, Debug, PartialEq, Eq)]
pub struct WriteFailed;

/// A writer, and how many more of its interrupted writes are tried again. It alone has the writer, so all
/// that is written shares these retries.
#[derive(Drop)]
pub struct Output<'a, W> {
    writer: &'a mut W,
    retries: u32,
}

impl<'a, W: Sink> Output<'a, W> {
    /// The output of a writer, with [`WRITE_RETRIES`] retries.
    pub fn new(writer: &'a mut W) -> Output<'a, W>
        ensures same { result.writer.ghost_name ≡ writer.entry.ghost_name }
        ensures holds { result.writer.now ≡ writer.old }
        ensures retries { result.retries ≡ WRITE_RETRIES }
    {
        Output {
            writer,
            retries: WRITE_RETRIES,
        }
    }

    /// Writes all the bytes; or fails, and a front of them was written, but not all. A write that is interrupted is tried
    /// again, as long as a retry is left.
    pub fn write_all(&mut self, bytes: &[u8]) -> Result<(), WriteFailed>
        ensures ok { OnOk result (Appends (W.contents self.old.writer.now)
            (W.contents self.new.writer.now) bytes.now) }

        // A front of the bytes was written, and not all of them.
        ensures err { OnErr result ((n : ℕ) × (n < length bytes.now)
            × Appends (W.contents self.old.writer.now) (W.contents self.new.writer.now)
            (take n bytes.now)) }

        // An interrupted write is tried again as long as a retry is left, and no other failed one is.
        ensures writing { IsWriting W.writes
            (record { writer = self.old.writer.now; retries = self.old.retries; rest = bytes.now })
            result self.new.writer.now self.new.retries }
        ensures retries { self.new.retries ≤ self.old.retries }
        ensures same { self.new.writer.ghost_name ≡ self.old.writer.ghost_name }
    {
        let mut rest = bytes;
        while !rest.is_empty() {
            match self.writer.write_once(rest) {
                Ok(0) => return Err(WriteFailed),
                Ok(n) => rest = &rest[n..],
                Err(error) => self.use_retry(&error)?,
            }
        }
        Ok(())
    }

    // Uses up a retry where the write was interrupted and a retry is left. Else it is `WriteFailed`,
    // and the retries stay.
    fn use_retry(&mut self, error: &Error) -> Result<(), WriteFailed>
        ensures ok { OnOk result (self.new.retries + 1 ≡ self.old.retries) }
        ensures err { OnErr result (self.new.retries ≡ self.old.retries) }
        ensures again { IsOk result ↔
            ((error_kind error.now ≡ ErrorKind.Interrupted) × (0 < self.old.retries)) }
        ensures same { self.new.writer ≡ self.old.writer }
    {
        try_again(error, WriteFailed)?;
        self.retries = self.retries.checked_sub(1).ok_or(WriteFailed)?;
        Ok(())
    }

    /// Flushes the writer. What it holds stays.
    pub fn flush(&mut self) -> Result<(), WriteFailed>
        ensures flushed { (given : Result ⊤ io.Error)
            × W.flushes self.old.writer.now given self.new.writer.now × (IsOk result ↔ IsOk given) }
        ensures holds { Keeps (W.contents self.old.writer.now) (W.contents self.new.writer.now) }
        ensures retries { self.new.retries ≡ self.old.retries }
        ensures same { self.new.writer.ghost_name ≡ self.old.writer.ghost_name }
    {
        self.writer.flush_once().map_err(|_| WriteFailed)
    }
}
