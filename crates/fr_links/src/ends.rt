//! The two ends of a connection whose request came: one gives the bytes of the request, the other takes those of the reply.
ghost use Rattle.std.specs.Prelude.{◌≡◌, Some};
ghost use Rattle.fr_links.specs.Ends.{given_bytes};

use crate::link::Link;
use crate::stage::Ending;
use crate::wire::Wire;
use std::io::{self, Cursor, ErrorKind, Read, Write};

/// Gives the bytes of a request. Behind them stands the input's end, or a read that fails or is interrupted.
#[derive(Drop)]
pub struct Given {
    bytes: Cursor<Vec<u8>>,
    ending: Ending,
}

impl Given {
    /// These bytes, and what stands behind them.
    pub fn new(bytes: Vec<u8>, ending: Ending) -> Given
        ensures bytes { given_bytes result ≡ Some bytes.items }
        ensures ending { result.ending ≡ ending }
    {
        Given {
            bytes: Cursor::new(bytes),
            ending,
        }
    }
}

impl Read for Given {
    ghost use Rattle.fr_links.specs.Ends.{given_bytes};

    ghost remaining = { given_bytes };

    fn read(&mut self, buf: &mut [u8]) -> io::Result<usize> {
        let n = self.bytes.read(buf)?;
        if n > 0 || buf.is_empty() {
            return Ok(n);
        }
        match self.ending {
            Ending::Closed => Ok(0),
            Ending::Complete | Ending::Failed => Err(io::Error::from(ErrorKind::TimedOut)),
            Ending::Interrupted => Err(io::Error::from(ErrorKind::Interrupted)),
        }
    }
}

/// Takes a reply: sends it, or keeps what the client does not take yet.
#[derive(Drop)]
pub struct Reply<S> {
    // Where the connection stood in the table.
    pub(crate) key: usize,
    pub(crate) link: Link<S>,
    // Whether the poll tells of it under that key.
    pub(crate) told: bool,
}

impl<S: Wire> Write for Reply<S> {
    ghost use Rattle.std.specs.Prelude.{◌≤◌, length, take, IfOk, MatchResult};
    ghost use Rattle.std.specs.Io.{WritesAtMost};
    ghost use Rattle.std.specs.Io.KnownBytes.{Keeps};
    ghost use Rattle.fr_links.specs.Connection.{Writes, due_of, early_of};
    ghost use Rattle.fr_links.specs.Sending.{Rests};

    fn write(&mut self, buf: &[u8]) -> io::Result<usize>
        ensures bound { WritesAtMost result buf.now }
        ensures written { MatchResult result
            (λ n. Writes S.contents self.old.link self.new.link (take n buf.now))
            (λ _. Rests (S.contents self.old.link.stream) (S.contents self.new.link.stream)
            (early_of self.old.link.outbox) (due_of self.old.link.outbox)
            (early_of self.new.link.outbox) (due_of self.new.link.outbox)) }
        ensures inbox { self.new.link.inbox ≡ self.old.link.inbox }
        ensures key { self.new.key ≡ self.old.key }
        ensures remaining { Keeps (S.remaining self.old.link.stream)
            (S.remaining self.new.link.stream) }
    {
        self.link.put(buf)
    }

    fn flush(&mut self) -> io::Result<()>
        ensures { self.new ≡ self.old }
    {
        Ok(())
    }
}
