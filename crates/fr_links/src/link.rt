//! One connection: its stream, what came in on it, and what is still to go out.
ghost use Rattle.std.specs.Prelude.{◌≡◌, ◌≤◌, ◌↔◌, [], length, take, vec_len, IfOk, IsTrue, MatchResult, None};
ghost use Rattle.std.specs.Io.KnownBytes.{Keeps};
ghost use Rattle.fr_links.specs.Gathering.{Gathers, IsTold, Leaves, LetsGo, room_of};

use crate::heard::{Heard, Sent};
use crate::inbox::Inbox;
use crate::judge::Judge;
use crate::outbox::Outbox;
use crate::wire::Wire;
use mio::Registry;
use std::alloc::Global;
use std::io::{self, ErrorKind};

/// How many bytes of what is let go are read at once.
const PIECE: usize = 4096;

/// A connection over a stream that never waits.
#[derive(Drop)]
pub struct Link<S> {
    stream: S,
    inbox: Inbox,
    outbox: Outbox,
}

impl<S: Wire> Link<S> {
    ghost use Rattle.fr_links.specs.Connection.{Writes, due_of, early_of};
    ghost use Rattle.fr_links.specs.Sending.{Rests};

    /// A connection on which nothing came yet.
    pub fn new(alloc: Global, stream: S) -> Link<S>
        ensures stream { result.stream ≡ stream }
        ensures came { result.inbox.came.items ≡ [] }
        ensures open { result.inbox.need ≡ None }
        ensures due { due_of result.outbox ≡ [] }
        ensures early { early_of result.outbox ≡ [] }
    {
        Link {
            stream,
            inbox: Inbox::new(alloc),
            outbox: Outbox::new(alloc),
        }
    }

    /// Reads what lies there, as far as the request reaches. Sends the interim reply, once, where the client waits for it.
    pub fn hear<J: Judge>(&mut self, judge: &J) -> Heard
        ensures gathered { Gathers (S.remaining self.old.stream) (S.remaining self.new.stream)
            self.old.inbox.came.items self.new.inbox.came.items result }
        ensures told { IsTold (J.tells judge.now) self.old.inbox.need self.old.inbox.came.items
            → IsTold (J.tells judge.now) self.new.inbox.need self.new.inbox.came.items }
        ensures room { Leaves result (room_of self.new.inbox.need (vec_len self.new.inbox.came)) }
        ensures written { Writes S.contents self.old self.new [] }
    {
        let heard = self.inbox.hear(&mut self.stream, judge);
        if heard == Heard::More && self.inbox.take_invitation() {
            self.outbox.invite(&mut self.stream);
        }
        heard
    }

    /// Whether nothing came in.
    pub fn is_silent(&self) -> bool
        ensures { IsTrue result ↔ (self.now.inbox.came.items ≡ []) }
    {
        self.inbox.is_empty()
    }

    /// What came in. Nothing is left of it.
    pub fn take_came(&mut self, alloc: Global) -> Vec<u8>
        ensures given { result.items ≡ self.old.inbox.came.items }
        ensures empty { self.new.inbox.came.items ≡ [] }
        ensures stream { self.new.stream ≡ self.old.stream }
        ensures outbox { self.new.outbox ≡ self.old.outbox }
    {
        self.inbox.take(alloc)
    }

    /// How many bytes are still to go out.
    pub fn left(&self) -> usize
        ensures { result ≡ length (due_of self.now.outbox) }
    {
        self.outbox.left()
    }

    /// Writes these bytes, as a writer does: they are sent, or kept where the stream does not take them now.
    pub fn put(&mut self, bytes: &[u8]) -> io::Result<usize>
        ensures bound { IfOk result (λ n. n ≤ length bytes.now) }
        ensures written { MatchResult result
            (λ n. Writes S.contents self.old self.new (take n bytes.now))
            (λ _. Rests (S.contents self.old.stream) (S.contents self.new.stream)
            (early_of self.old.outbox) (due_of self.old.outbox)
            (early_of self.new.outbox) (due_of self.new.outbox)) }
        ensures inbox { self.new.inbox ≡ self.old.inbox }
        ensures remaining { Keeps (S.remaining self.old.stream) (S.remaining self.new.stream) }
    {
        self.outbox.put(&mut self.stream, bytes)
    }

    /// Sends what was kept, as far as the stream takes it. Where all went out, it says so to the client.
    pub fn send(&mut self) -> Sent
        ensures written { Writes S.contents self.old self.new [] }
        ensures inbox { self.new.inbox ≡ self.old.inbox }
        ensures remaining { Keeps (S.remaining self.old.stream) (S.remaining self.new.stream) }
    {
        match self.outbox.send(&mut self.stream) {
            Sent::More => return Sent::More,
            Sent::Failed => return Sent::Failed,
            Sent::All => {}
        }
        match self.stream.end_output() {
            Ok(()) => Sent::All,
            Err(_) => Sent::Failed,
        }
    }

    /// Has the poll tell of it under this key. Gives whether that did not fail.
    pub fn watch(&mut self, registry: &Registry, key: usize) -> bool
        ensures contents { Keeps (S.contents self.old.stream) (S.contents self.new.stream) }
        ensures remaining { Keeps (S.remaining self.old.stream) (S.remaining self.new.stream) }
        ensures inbox { self.new.inbox ≡ self.old.inbox }
        ensures outbox { self.new.outbox ≡ self.old.outbox }
    {
        self.stream.watch(registry, key).is_ok()
    }

    /// Reads what still comes, and lets it go: so many bytes at most. Gives how many may still come; none where the input has
    /// ended, or more came.
    pub fn let_go(&mut self, room: usize) -> Option<usize>
        ensures lost { LetsGo (S.remaining self.old.stream) (S.remaining self.new.stream) }
        ensures inbox { self.new.inbox ≡ self.old.inbox }
        ensures outbox { self.new.outbox ≡ self.old.outbox }
        ensures contents { Keeps (S.contents self.old.stream) (S.contents self.new.stream) }
    {
        let mut left = room;
        let mut piece = [0; PIECE];
        for _ in 0..room {
            match self.stream.read_now(&mut piece) {
                Ok(0) => return None,
                Ok(n) => left = left.checked_sub(n)?,
                Err(error) => match error.kind() {
                    ErrorKind::Interrupted => {}
                    ErrorKind::WouldBlock => return Some(left),
                    _ => return None,
                },
            }
        }
        None
    }
}
