//! A connection of the table: its link, where it stands, and when its time is over.
ghost use Rattle.std.specs.Prelude.{◌≡◌, ◌↔◌, [], IsTrue, length, vec_len};
ghost use Rattle.std.specs.Io.KnownBytes.{Keeps};
ghost use Rattle.fr_links.specs.Gathering.{Fits, room_of};

use crate::heard::Sent;
use crate::judge::Judge;
use crate::link::Link;
use crate::stage::{Ending, Stage};
use crate::wire::Wire;
use mio::Registry;
use std::alloc::Global;
use std::time::{Duration, Instant};

/// How many bytes that come behind a request are read at most, and for how many seconds. A socket that is closed before they
/// are read might lose its reply.
const REST_BYTES: usize = 1_048_576;

const REST_SECONDS: u64 = 1;

/// A connection of the table.
#[derive(Drop)]
pub struct Held<S> {
    pub link: Link<S>,
    pub stage: Stage,
    /// When its time is over; while its request waits for its turn, none.
    pub end: Instant,
    /// Whether the poll tells of it.
    pub told: bool,
    ghost fits: { Fits stage (room_of link.inbox.need (vec_len link.inbox.came)) },
}

impl<S: Wire> Held<S> {
    ghost use Rattle.std.specs.Bool.{OnFalse, OnTrue};
    ghost use Rattle.fr_links.specs.Gathering.{IsTold};
    ghost use Rattle.fr_links.specs.declared.stage.Ending.TheVariants.{Failed};
    ghost use Rattle.fr_links.specs.declared.stage.Stage.TheVariants.{Asking, Ready};
    ghost use Rattle.fr_links.specs.Connection.{Follows, IsAnswered, IsBegun, IsMoved, IsReady, IsUnanswered, due_of};

    /// A connection whose request is awaited until then. What lies there is read at once; where more has to come, the poll tells
    /// of it under this key.
    pub fn new<J: Judge>(
        alloc: Global,
        stream: S,
        end: Instant,
        judge: &J,
        registry: &Registry,
        key: usize,
    ) -> Held<S>
        ensures begun { IsBegun S.remaining S.contents stream result.link result.stage }
        ensures told { IsTold (J.tells judge.now) result.link.inbox.need
            result.link.inbox.came.items }
        ensures stage { IsUnanswered result.stage }
    {
        let mut held = Held {
            link: Link::new(alloc, stream),
            stage: Stage::Asking,
            end,
            told: false,
        };
        let is_ready = held.hear(judge);
        if is_ready {
            return held;
        }
        let is_told = held.watch(registry, key);
        if is_told {
            return held;
        }
        held.give_up();
        held
    }

    /// From now on it is to be answered as one whose time is over.
    pub fn give_up(&mut self)
        requires { self.old.stage ≡ Asking }
        ensures link { self.new.link ≡ self.old.link }
        ensures stage { self.new.stage ≡ Ready Failed }
    {
        self.stage = Stage::Ready {
            ending: Ending::Failed,
        };
    }

    /// Whether its request is to be answered.
    pub fn is_ready(&self) -> bool
        ensures { IsTrue result ↔ IsReady self.now.stage }
    {
        matches!(self.stage, Stage::Ready { .. })
    }

    /// Whether its request is awaited, and nothing of it came.
    pub fn is_silent(&self) -> bool
        ensures { IsTrue result ↔ ((self.now.stage ≡ Asking) × (self.now.link.inbox.came.items ≡ [])) }
    {
        self.stage == Stage::Asking && self.link.is_silent()
    }

    /// How many bytes are still to go out.
    pub fn left(&self) -> usize
        ensures { result ≡ length (due_of self.now.link.outbox) }
    {
        self.link.left()
    }

    /// Has the poll tell of it under this key, unless it does. Gives whether that did not fail.
    pub fn watch(&mut self, registry: &Registry, key: usize) -> bool
        ensures contents { Keeps (S.contents self.old.link.stream)
            (S.contents self.new.link.stream) }
        ensures remaining { Keeps (S.remaining self.old.link.stream)
            (S.remaining self.new.link.stream) }
        ensures inbox { self.new.link.inbox ≡ self.old.link.inbox }
        ensures outbox { self.new.link.outbox ≡ self.old.link.outbox }
        ensures stage { self.new.stage ≡ self.old.stage }
    {
        if self.told {
            return true;
        }
        self.told = true;
        self.link.watch(registry, key)
    }

    /// Reads what lies there. Gives whether its request is to be answered from now on.
    pub fn hear<J: Judge>(&mut self, judge: &J) -> bool
        requires { self.old.stage ≡ Asking }
        ensures moved { IsMoved S.remaining S.contents self.old.link self.new.link self.new.stage }
        ensures told { IsTold (J.tells judge.now) self.old.link.inbox.need self.old.link.inbox.came.items
            → IsTold (J.tells judge.now) self.new.link.inbox.need self.new.link.inbox.came.items }
        ensures ready { OnTrue result (IsReady self.new.stage) }
        ensures stage { OnFalse result (self.new.stage ≡ self.old.stage) }
    {
        let Some(ending) = self.link.hear(judge).ending() else {
            return false;
        };
        self.stage = Stage::Ready { ending };
        true
    }

    /// Sends what is to go out, and then reads what still comes, where its request was answered. Gives whether something is left
    /// to do.
    pub fn move_on(&mut self, now: Instant) -> bool
        ensures moved { IsMoved S.remaining S.contents self.old.link self.new.link self.new.stage }
        ensures inbox { self.new.link.inbox ≡ self.old.link.inbox }
        ensures stage { Follows self.old.stage self.new.stage }
        ensures ready { IsReady self.new.stage → IsReady self.old.stage }
    {
        match self.stage {
            Stage::Asking => true,
            Stage::Ready { .. } => true,
            Stage::Replying { asked } => self.reply(asked, now),
            Stage::Resting { asked, room } => self.rest(asked, room),
        }
    }

    // Sends what is to go out, and then reads what still comes.
    fn reply(&mut self, asked: bool, now: Instant) -> bool
        requires { IsAnswered self.old.stage }
        ensures moved { IsMoved S.remaining S.contents self.old.link self.new.link self.new.stage }
        ensures inbox { self.new.link.inbox ≡ self.old.link.inbox }
        ensures stage { IsAnswered self.new.stage }
    {
        match self.link.send() {
            Sent::More => return true,
            Sent::Failed => return false,
            Sent::All => {}
        }
        let time = Duration::from_secs(REST_SECONDS);
        self.end = now.checked_add(time).unwrap_or(now);
        self.rest(asked, REST_BYTES)
    }

    // Reads what still comes, so many bytes at most.
    fn rest(&mut self, asked: bool, room: usize) -> bool
        ensures moved { IsMoved S.remaining S.contents self.old.link self.new.link self.new.stage }
        ensures inbox { self.new.link.inbox ≡ self.old.link.inbox }
        ensures outbox { self.new.link.outbox ≡ self.old.link.outbox }
        ensures contents { Keeps (S.contents self.old.link.stream)
            (S.contents self.new.link.stream) }
        ensures stage { IsAnswered self.new.stage }
    {
        let left = self.link.let_go(room);
        let more = left.unwrap_or(0);
        self.stage = Stage::Resting { asked, room: more };
        left.is_some() && !asked
    }
}
