//! The connections that come in at a TCP port of this machine, many side by side.
ghost use Rattle.std.specs.Prelude.{◌≡◌, None, Some};

use crate::streams::listener::Listener;
use fr_http::{Engine, LinkFault, Need, Served};
use fr_links::{Given, Judge, Judgement, Links, Reply};
use mio::net;
use std::io::{self, ErrorKind};
use std::marker::Model;
use std::net::{Ipv4Addr, TcpListener};
use std::os::fd::AsRawFd;

/// How many connections may wait to be accepted: as many as the system lets, which takes less where that is its most.
const BACKLOG: i32 = i32::MAX;

/// Tells how long a request is, by the server's own reading of it.
#[derive(Drop)]
struct Requests {
    engine: Engine,
}

impl Judge for Requests {
    ghost use Rattle.std.specs.Prelude.{◌≡◌, ℕ, Bool};
    ghost use Rattle.fr_http.specs.Complete.{IsKnown, IsOpen};
    ghost use Rattle.fr_links.specs.declared.judge.Judgement.TheVariants.{Known, Open};

    ghost tells = { λ _ came told. (told ≡ Open → IsOpen came)
        × ((n : ℕ) → (invites : Bool) → told ≡ Known n invites → IsKnown came n invites) };

    fn judge(&self, bytes: &[u8]) -> Judgement {
        match self.engine.need_of(bytes) {
            Need::Open => Judgement::Open,
            Need::Known { bytes, invites } => Judgement::Known { bytes, invites },
        }
    }
}

// The connections at the port. What sockets give and take no clause sees.
#[derive(Drop)]
struct Port {
    links: Links<net::TcpListener, Requests>,
}

impl Model for Port {
    ghost Value = { Unit {0} };

    ghost view = { λ _. tt };
}

/// A port on 127.0.0.1. Its connections are read and written side by side, and given out one after another, each as its request
/// is complete, or no more of it comes. No contract of the standard library says what a socket gives and takes, or that a port
/// is the one that was asked for. So at this type a clause says nothing of a connection's bytes: that they are those of the wire
/// rests on the system.
#[derive(Drop)]
pub struct LocalListener<'a> {
    rt: &'a HostRuntime,
    /// The socket at which connections come in; none before it listens.
    pub listener: Option<TcpListener>,
    /// How many connections are accepted at most.
    pub most: u32,
    // Its connections; none before the first is accepted.
    port: Option<Port>,
}

impl<'a> LocalListener<'a> {
    /// One that does not listen yet.
    pub fn new(rt: &'a HostRuntime) -> LocalListener<'a>
        ensures { result.listener ≡ None }
    {
        LocalListener {
            rt,
            listener: None,
            most: u32::MAX,
            port: None,
        }
    }

    /// One that listens at this socket.
    pub fn of(rt: &'a HostRuntime, listener: TcpListener) -> LocalListener<'a>
        ensures { result.listener ≡ Some listener }
    {
        LocalListener {
            rt,
            listener: Some(listener),
            most: u32::MAX,
            port: None,
        }
    }

    /// Sends what is still to go out, until each client took it or its time is over. What was not answered is let go.
    pub fn finish(&mut self)
        ensures listener { self.new.listener ≡ self.old.listener }
        ensures most { self.new.most ≡ self.old.most }
    {
        if let Some(port) = &mut self.port {
            let _ = port.links.finish(self.rt);
        }
    }

    // Its connections, from now on.
    fn open(&self) -> io::Result<Port> {
        let Some(listener) = &self.listener else {
            return Err(io::Error::from(ErrorKind::NotConnected));
        };
        let engine = match Engine::new(self.rt.alloc()) {
            Ok(engine) => engine,
            Err(_) => return Err(io::Error::from(ErrorKind::OutOfMemory)),
        };
        let listener = listener.try_clone()?;
        listener.set_nonblocking(true)?;
        let port = net::TcpListener::from_std(listener);
        let links = Links::new(self.rt, port, Requests { engine }, self.most)?;
        Ok(Port { links })
    }
}

impl<'a> Listener for LocalListener<'a> {
    ghost use Rattle.std.specs.Prelude.{⊤};

    type Reader = Given;

    type Writer = Reply<net::TcpStream>;

    ghost listens = { λ _ _ _. ⊤ };

    ghost refuses = { λ _ _. ⊤ };

    ghost accepts = { λ _ _ _ _ _. ⊤ };

    ghost ends = { λ _. ⊤ };

    ghost closes = { λ _ _ _ _ _. ⊤ };

    fn listen(&mut self, port: u16) -> io::Result<()> {
        let listener = TcpListener::bind(self.rt, (Ipv4Addr::LOCALHOST, port))?;
        let _ = libc::net::listen(listener.as_raw_fd(), BACKLOG);
        self.listener = Some(listener);
        Ok(())
    }

    fn accept(&mut self, seconds: u32) -> io::Result<(Given, Reply<net::TcpStream>)> {
        if let Some(port) = &mut self.port {
            return port.links.accept(self.rt, seconds);
        }
        let mut port = self.open()?;
        let ends = port.links.accept(self.rt, seconds)?;
        self.port = Some(port);
        Ok(ends)
    }

    fn close(
        &mut self,
        _reader: Given,
        writer: Reply<net::TcpStream>,
        done: &Result<Served, LinkFault>,
    ) {
        if let Some(port) = &mut self.port {
            let served = match done {
                Ok(served) => Some(served.asked),
                Err(_) => None,
            };
            port.links.close(self.rt, writer, served);
        }
    }
}
