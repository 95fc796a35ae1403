//! What gives the bytes of a connection.
use std::io::{self, Read};

/// Gives bytes, a read at a time. The contract of a connection is proved for each source, whatever its reads give. So the
/// clauses count these reads, and know of no others.
pub trait Source: Read {
    ghost use Rattle.std.specs.Prelude.{ℕ, List, Result};
    ghost use Rattle.std.specs.Io.{ReadsAtMost};
    ghost use Rattle.std.specs.Io.KnownBytes.{ReadConsumes};
    ghost use Rattle.std.specs.declared.io.Error.{Error};

    /// What a read may come to: the piece after it, its result, and the source after it.
    ghost reads: { Self → List ℕ → Result ℕ Error → Self → Type 0 };

    /// One read.
    fn read_once(&mut self, piece: &mut [u8]) -> io::Result<usize>
        ensures bound { ReadsAtMost result piece.new }
        ensures bytes { ReadConsumes (Self.remaining self.old) (Self.remaining self.new) result
            piece.new }
        ensures goes { reads self.old piece.new result self.new };
}

// Of a reader of the standard library no clause tells more of a read than what becomes of the bytes that it is known to give.
impl<R: Read> Source for R {
    ghost use Rattle.std.specs.Io.{ReadsAtMost};
    ghost use Rattle.std.specs.Io.KnownBytes.{ReadConsumes};

    ghost reads = { λ old piece given new. ReadsAtMost given piece × ReadConsumes (R.remaining old) (R.remaining new) given piece };

    fn read_once(&mut self, piece: &mut [u8]) -> io::Result<usize> {
        self.read(piece)
    }
}
