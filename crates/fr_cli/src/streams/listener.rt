//! A port at which the connections of a server come in.
use fr_http::{LinkFault, Served, Source};
use fr_text::Sink;
use std::io;

/// A port at which connections come in, one after another. Each has two ends: one gives what comes in, the other takes what
/// goes out. What a server is proved to do, it is proved to do at each listener, whatever may come in at it.
pub trait Listener {
    ghost use Rattle.std.specs.Prelude.{◌≡◌, ℕ, Result, IfOk, OnOk, OnErr};
    ghost use Rattle.fr_http.specs.declared.fault.LinkFault.{LinkFault as Fault};
    ghost use Rattle.fr_http.specs.declared.serve.Served.{Served as Reply};

    /// Gives the bytes that come in.
    type Reader: Source + Drop;

    /// Takes the bytes that go out.
    type Writer: Sink + Drop;

    /// What listening at a port may make of it.
    ghost listens: { Self → ℕ → Self → Type 0 };

    /// When it may refuse to listen at a port.
    ghost refuses: { Self → ℕ → Type 0 };

    /// What accepting a connection with these ends may make of it; the connection is to last so many seconds at most.
    ghost accepts: { Self → ℕ → Self.Reader → Self.Writer → Self → Type 0 };

    /// When no further connection can come in.
    ghost ends: { Self → Type 0 };

    /// What closing a connection may make of it: by its two ends, and how it was served.
    ghost closes: { Self → Self.Reader → Self.Writer → Result Reply Fault → Self → Type 0 };

    /// Listens at the port.
    fn listen(&mut self, port: u16) -> io::Result<()>
        ensures ok { OnOk result (listens self.old port self.new) }
        ensures err { OnErr result (refuses self.old port × (self.new ≡ self.old)) };

    /// The next connection, which is to last so many seconds at most. No clause speaks of time.
    fn accept(&mut self, seconds: u32) -> io::Result<(Self::Reader, Self::Writer)>
        ensures ok { IfOk result (λ made. accepts self.old seconds made.0 made.1 self.new) }
        ensures err { OnErr result (ends self.old × (self.new ≡ self.old)) };

    /// Closes the connection. How it was served decides whether what its client sent behind its request is read first.
    fn close(
        &mut self,
        reader: Self::Reader,
        writer: Self::Writer,
        done: &Result<Served, LinkFault>,
    )
        ensures { closes self.old reader writer done.now self.new };
}
