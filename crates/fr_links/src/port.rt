//! Where connections come in.
use crate::wire::Wire;
use mio::net::{TcpListener, TcpStream};
use mio::{Interest, Registry, Token};
use std::io::{self, ErrorKind};

/// Where connections come in: each call on it returns at once, where it would wait with `WouldBlock`. What is proved of many
/// connections is proved at each port, whatever may come in there.
pub trait Port {
    ghost use Rattle.std.specs.Prelude.{IfOk};

    /// The stream of a connection.
    type Stream: Wire + Drop;

    /// What is so of the stream of a connection that came in, before anything was read or written on it.
    ghost fresh: { Self.Stream → Type 0 };

    /// Takes in a connection that waits.
    fn accept_now(&mut self) -> io::Result<Self::Stream>
        ensures { IfOk result (λ stream. fresh stream) };

    /// Has the poll tell under this token where one waits, from now on or once more.
    fn watch(&mut self, registry: &Registry, token: Token) -> io::Result<()>;
}

// No clause tells who comes in at a socket.
impl Port for TcpListener {
    ghost use Rattle.std.specs.Prelude.{⊤};

    type Stream = TcpStream;

    ghost fresh = { λ _. ⊤ };

    fn accept_now(&mut self) -> io::Result<TcpStream> {
        let (stream, _) = self.accept()?;
        let _ = stream.set_nodelay(true);
        Ok(stream)
    }

    fn watch(&mut self, registry: &Registry, token: Token) -> io::Result<()> {
        match registry.register(self, token, Interest::READABLE) {
            Err(error) if error.kind() == ErrorKind::AlreadyExists => {
                registry.reregister(self, token, Interest::READABLE)
            }
            done => done,
        }
    }
}
