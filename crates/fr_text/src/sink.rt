//! What takes the bytes of an output.
use std::io::{self, Write};

/// Takes bytes, a write at a time. What is proved of an output is proved for every sink, whatever the sink's writes and
/// flushes come to. So an output makes the writes and flushes that its clauses tell, and no others.
pub trait Sink: Write {
    ghost use Rattle.std.specs.Prelude.{ℕ, List, Result, ⊤};
    ghost use Rattle.std.specs.Io.{WritesAtMost};
    ghost use Rattle.std.specs.Io.KnownBytes.{Keeps, WriteAppends};
    ghost use Rattle.std.specs.declared.io.Error.{Error};

    /// What a write of these bytes may come to: its result, and the sink after it.
    ghost writes: { Self → List ℕ → Result ℕ Error → Self → Type 0 };

    /// What a flush may come to: its result, and the sink after it.
    ghost flushes: { Self → Result ⊤ Error → Self → Type 0 };

    /// One write.
    fn write_once(&mut self, bytes: &[u8]) -> io::Result<usize>
        ensures bound { WritesAtMost result bytes.now }
        ensures bytes { WriteAppends (Self.contents self.old) (Self.contents self.new) result
            bytes.now }
        ensures goes { writes self.old bytes.now result self.new };

    /// One flush.
    fn flush_once(&mut self) -> io::Result<()>
        ensures bytes { Keeps (Self.contents self.old) (Self.contents self.new) }
        ensures goes { flushes self.old result self.new };
}

// Of a writer of the standard library no clause tells more of a write than what becomes of the bytes that it is known to hold.
impl<W: Write> Sink for W {
    ghost use Rattle.std.specs.Io.{WritesAtMost};
    ghost use Rattle.std.specs.Io.KnownBytes.{Keeps, WriteAppends};

    ghost writes = { λ old bytes given new. WritesAtMost given bytes × WriteAppends (W.contents old) (W.contents new) given bytes };

    ghost flushes = { λ old given new. Keeps (W.contents old) (W.contents new) };

    fn write_once(&mut self, bytes: &[u8]) -> io::Result<usize> {
        self.write(bytes)
    }

    fn flush_once(&mut self) -> io::Result<()> {
        self.flush()
    }
}
