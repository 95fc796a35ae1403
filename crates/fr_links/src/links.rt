//! The connections that come in at a port, side by side.
ghost use Rattle.std.specs.Prelude.{◌≡◌, ◌≢◌, ℕ, IfOk, IfSome, IsTrue, None, OnErr, OnOk};
ghost use Rattle.slab.specs.Slab.{slab_len};
ghost use Rattle.fr_links.specs.Connection.{IsAnswered, IsMoved};
ghost use Rattle.fr_links.specs.Connections.{Queues, Stays, at};
ghost use Rattle.fr_links.specs.Turning.{Gives, Reached, Reaches, Turns};

use crate::ends::{Given, Reply};
use crate::judge::Judge;
use crate::port::Port;
use crate::table::{MAX_LINKS, Table};
use mio::{Events, Poll, Token};
use std::alloc::Global;
use std::io::{self, ErrorKind};
use std::time::{Duration, Instant};

/// The token of the port.
const EARS: Token = Token(usize::MAX);

/// How many changes the poll tells at once.
const EVENTS: usize = 256;

/// How many connections are taken in before those that are open are looked at.
const AT_ONCE: u32 = 64;

/// The number of the system's error of a connection that failed before it was accepted, for which there is no `ErrorKind`.
const EPROTO: i32 = 71;

/// The numbers of the system's errors where it lacks what a connection needs.
const ENFILE: i32 = 23;

const EMFILE: i32 = 24;

const ENOBUFS: i32 = 105;

/// For how many milliseconds it waits where the system lacks what the only connection needs.
const LACK: u64 = 50;

/// Connections that come in at a port, side by side.
#[derive(Drop)]
pub struct Links<P: Port, J> {
    alloc: Global,
    judge: J,
    port: P,
    poll: Poll,
    events: Events,
    table: Table<P::Stream>,
    // How many more connections are accepted.
    most: u32,
    // How many may be open now: fewer than `MAX_LINKS` where the system lacked what one more needed.
    limit: usize,
    // Whether further connections may wait at the port.
    hears: bool,
    // Whether one does: the poll told so, and none was accepted since.
    knocks: bool,
    seconds: u32,
    // When the last connection was given out.
    given: Instant,
}

/// What became of taking connections in.
#[derive(Clone, Copy, PartialEq, Eq)]
enum Taken {
    /// None waits, as far as is known.
    All,
    /// More may wait.
    Some,
    /// The system lacks what the only connection needs.
    Lacks,
}

impl<P: Port + Drop, J: Judge + Drop> Links<P, J> {
    /// Those that come in at this port, as many as `most`.
    pub fn new(rt: &HostRuntime, mut port: P, judge: J, most: u32) -> io::Result<Links<P, J>>
        ensures none { IfOk result (λ links. (key : ℕ) → at links.table key ≡ None) }
        ensures judge { IfOk result (λ links. links.judge ≡ judge) }
        ensures most { IfOk result (λ links. links.most ≡ most) }
    {
        let poll = Poll::new(rt)?;
        port.watch(poll.registry(), EARS)?;
        Ok(Links {
            alloc: rt.alloc(),
            judge,
            port,
            poll,
            events: Events::with_capacity(rt.alloc(), EVENTS)?,
            table: Table::new(rt.alloc())?,
            most,
            limit: MAX_LINKS,
            hears: true,
            knocks: false,
            seconds: 1,
            given: Instant::now(rt)?,
        })
    }

    /// The next connection that is to be answered. Its request has so many seconds to come, from when it was accepted; and its
    /// reply has as many, from when it was made.
    pub fn accept(
        &mut self,
        rt: &HostRuntime,
        seconds: u32,
    ) -> io::Result<(Given, Reply<P::Stream>)>
        ensures gives { IfOk result (λ ends. Gives P.Stream.remaining P.Stream.contents P.fresh
            (J.tells self.old.judge) self.old.table self.new.table ends.0 ends.1) }
        ensures err { OnErr result (Reached P.Stream.remaining P.Stream.contents P.fresh
            (J.tells self.old.judge) self.old.table self.new.table) }
        ensures judge { self.new.judge ≡ self.old.judge }
    {
        self.seconds = seconds;
        for _ in 0..u64::MAX {
            self.turn(rt)?;
            if let Some(ends) = self.table.next(self.alloc) {
                self.given = Instant::now(rt).unwrap_or(self.given);
                return Ok(ends);
            }
            if self.is_over() {
                break;
            }
        }
        Err(io::Error::from(ErrorKind::TimedOut))
    }

    // Whether nothing is left to do.
    fn is_over(&self) -> bool
        ensures { IsTrue result → slab_len self.now.table.links ≡ 0 }
    {
        self.most == 0 && self.table.is_empty()
    }

    // Takes in what waits at the port, and goes on with each connection of which something is told. Waits for that where
    // nothing is to be answered.
    fn turn(&mut self, rt: &HostRuntime) -> io::Result<()>
        ensures turns { Turns P.Stream.remaining P.Stream.contents P.fresh
            (J.tells self.old.judge) self.old.table self.new.table }
        ensures judge { self.new.judge ≡ self.old.judge }
    {
        let now = Instant::now(rt)?;
        self.table.expire(now);
        let taken = self.take_in(now)?;
        if self.is_over() || self.table.has_ready() && !self.table.awaits() {
            return Ok(());
        }
        let wait = self.wait(now, taken);
        match self.poll.poll(&mut self.events, wait) {
            Err(error) if error.kind() == ErrorKind::Interrupted => return Ok(()),
            done => done?,
        }
        let now = Instant::now(rt)?;
        let told = self.table.go_on_each(&self.events, EARS, now, &self.judge);
        self.hears |= told;
        self.knocks |= told;
        Ok(())
    }

    // How long it may be waited.
    fn wait(&self, now: Instant, taken: Taken) -> Option<Duration> {
        if self.table.has_ready() || taken == Taken::Some {
            return Some(Duration::ZERO);
        }
        match (self.table.rest(now), taken) {
            (Some(rest), Taken::Lacks) => Some(rest.min(Duration::from_millis(LACK))),
            (None, Taken::Lacks) => Some(Duration::from_millis(LACK)),
            (rest, _) => rest,
        }
    }

    // Takes in connections that wait at the port.
    fn take_in(&mut self, now: Instant) -> io::Result<Taken>
        ensures turns { Turns P.Stream.remaining P.Stream.contents P.fresh
            (J.tells self.old.judge) self.old.table self.new.table }
        ensures judge { self.new.judge ≡ self.old.judge }
    {
        for _ in 0..AT_ONCE {
            if !self.hears || self.most == 0 {
                return Ok(Taken::All);
            }
            let has_room = self.has_room()?;
            if !has_room {
                return Ok(Taken::All);
            }
            match self.port.accept_now() {
                Ok(stream) => self.welcome(stream, now),
                Err(error) => match kind_of(&error) {
                    Refusal::NoneWaits => (self.hears, self.knocks) = (false, false),
                    Refusal::WasGivenUp => {}
                    Refusal::Lacks if self.table.is_empty() => return Ok(Taken::Lacks),
                    Refusal::Lacks => self.limit = self.table.len(),
                    Refusal::Fails => return Err(error),
                },
            }
        }
        Ok(Taken::Some)
    }

    // Whether one more connection may be open. Where as many are open as may be, others make room for it; but only where one is
    // known to wait, which the poll is asked to tell, and no request is to be answered, behind which a connection ends anyway.
    fn has_room(&mut self) -> io::Result<bool>
        ensures turns { Turns P.Stream.remaining P.Stream.contents P.fresh
            (J.tells self.old.judge) self.old.table self.new.table }
        ensures judge { self.new.judge ≡ self.old.judge }
    {
        self.limit = if self.table.is_empty() {
            MAX_LINKS
        } else {
            self.limit
        };
        if self.table.len() < self.limit {
            return Ok(true);
        }
        if !self.knocks {
            self.hears = false;
            self.port.watch(self.poll.registry(), EARS)?;
            return Ok(false);
        }
        for _ in 0..MAX_LINKS {
            if self.table.has_ready() {
                return Ok(false);
            }
            let made = self.table.make_room();
            if !made || self.table.len() < self.limit {
                return Ok(made);
            }
        }
        Ok(false)
    }

    // Takes in a connection that was accepted.
    fn welcome(&mut self, stream: P::Stream, now: Instant)
        requires { P.fresh stream }
        ensures turns { Turns P.Stream.remaining P.Stream.contents P.fresh
            (J.tells self.old.judge) self.old.table self.new.table }
        ensures judge { self.new.judge ≡ self.old.judge }
    {
        let end = self.end_from(now);
        let registry = self.poll.registry();
        self.knocks = false;
        if self
            .table
            .add(self.alloc, stream, end, registry, &self.judge)
        {
            self.most = self.most.saturating_sub(1);
        }
    }

    // When the time of what begins now is over.
    fn end_from(&self, now: Instant) -> Instant {
        let time = Duration::from_secs(u64::from(self.seconds));
        now.checked_add(time).unwrap_or(now)
    }

    /// Takes back a connection that was answered, or lets it go where it was not: `served` says whether its request was read to
    /// its end.
    pub fn close(&mut self, rt: &HostRuntime, reply: Reply<P::Stream>, served: Option<bool>)
        ensures others { (other : ℕ) → other ≢ self.old.table.links.vacant_key
            → Stays (at self.old.table other) (at self.new.table other) }
        ensures own { IfSome (at self.new.table self.old.table.links.vacant_key)
            (λ held. IsMoved P.Stream.remaining P.Stream.contents reply.link held.link held.stage
            × IsAnswered held.stage) }
        ensures queue { Queues self.old.table self.new.table }
        ensures judge { self.new.judge ≡ self.old.judge }
        ensures most { self.new.most ≡ self.old.most }
    {
        let now = Instant::now(rt).unwrap_or(self.given);
        self.table
            .postpone(now.saturating_duration_since(self.given));
        let end = self.end_from(now);
        self.table
            .take_back(reply, served, now, end, self.poll.registry());
    }

    /// Sends what is still to go out, until each client took it or its time is over. No further request is answered. Where it
    /// does not fail, no connection is open then.
    pub fn finish(&mut self, rt: &HostRuntime) -> io::Result<()>
        ensures none { OnOk result (slab_len self.new.table.links ≡ 0) }
        ensures each { (key : ℕ) → Reaches P.Stream.remaining P.Stream.contents P.fresh
            (at self.old.table key) (at self.new.table key) }
    {
        self.most = 0;
        self.table.let_go_unanswered();
        for _ in 0..u64::MAX {
            if self.is_over() {
                return Ok(());
            }
            self.turn(rt)?;
        }
        Err(io::Error::from(ErrorKind::TimedOut))
    }
}

/// Why no connection was accepted.
#[derive(Clone, Copy, PartialEq, Eq)]
enum Refusal {
    NoneWaits,
    WasGivenUp,
    Lacks,
    Fails,
}

fn kind_of(error: &io::Error) -> Refusal {
    match error.kind() {
        ErrorKind::WouldBlock => Refusal::NoneWaits,
        ErrorKind::Interrupted | ErrorKind::ConnectionAborted => Refusal::WasGivenUp,
        ErrorKind::OutOfMemory => Refusal::Lacks,
        _ => match error.raw_os_error() {
            Some(EPROTO) => Refusal::WasGivenUp,
            Some(ENFILE | EMFILE | ENOBUFS) => Refusal::Lacks,
            _ => Refusal::Fails,
        },
    }
}
