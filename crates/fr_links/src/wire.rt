//! The stream of a connection, which never waits.
ghost use Rattle.std.specs.Io.{ReadsAtMost, WritesAtMost};
ghost use Rattle.std.specs.Io.KnownBytes.{Keeps, ReadConsumes, WriteAppends};

use mio::net::TcpStream;
use mio::{Interest, Registry, Token};
use std::io::{self, ErrorKind, Read, Write};
use std::net::Shutdown;

/// The stream of a connection: each call on it returns at once, where it would wait with `WouldBlock`. What is proved of a
/// connection is proved for each stream, whatever its calls come to.
pub trait Wire {
    ghost use Rattle.std.specs.Prelude.{ℕ, List, Option};

    /// The bytes that reads will give from here on, where they are known.
    ghost remaining: { Self → Option (List ℕ) };

    /// The bytes that it took so far, where they are known.
    ghost contents: { Self → Option (List ℕ) };

    /// Reads what is there, as far as the piece reaches.
    fn read_now(&mut self, piece: &mut [u8]) -> io::Result<usize>
        ensures bound { ReadsAtMost result piece.new }
        ensures bytes { ReadConsumes (remaining self.old) (remaining self.new) result piece.new }
        ensures contents { Keeps (contents self.old) (contents self.new) };

    /// Writes as much as is taken.
    fn write_now(&mut self, bytes: &[u8]) -> io::Result<usize>
        ensures bound { WritesAtMost result bytes.now }
        ensures bytes { WriteAppends (contents self.old) (contents self.new) result bytes.now }
        ensures remaining { Keeps (remaining self.old) (remaining self.new) };

    /// Says that nothing more is written.
    fn end_output(&mut self) -> io::Result<()>
        ensures contents { Keeps (contents self.old) (contents self.new) }
        ensures remaining { Keeps (remaining self.old) (remaining self.new) };

    /// Has the poll tell of it under this key.
    fn watch(&mut self, registry: &Registry, key: usize) -> io::Result<()>
        ensures contents { Keeps (contents self.old) (contents self.new) }
        ensures remaining { Keeps (remaining self.old) (remaining self.new) };
}

// No clause tells which bytes a socket gives and takes.
impl Wire for TcpStream {
    ghost use Rattle.std.specs.Prelude.{None};

    ghost remaining = { λ _. None };

    ghost contents = { λ _. None };

    fn read_now(&mut self, piece: &mut [u8]) -> io::Result<usize> {
        self.read(piece)
    }

    fn write_now(&mut self, bytes: &[u8]) -> io::Result<usize> {
        self.write(bytes)
    }

    fn end_output(&mut self) -> io::Result<()> {
        self.shutdown(Shutdown::Write)
    }

    fn watch(&mut self, registry: &Registry, key: usize) -> io::Result<()> {
        let both = Interest::READABLE | Interest::WRITABLE;
        match registry.register(self, Token(key), both) {
            Err(error) if error.kind() == ErrorKind::AlreadyExists => {
                registry.reregister(self, Token(key), both)
            }
            done => done,
        }
    }
}
