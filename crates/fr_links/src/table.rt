//! The connections that are open, and which of them have a complete request.
ghost use Rattle.std.specs.Prelude.{◌≡◌, ◌≢◌, ◌↔◌, ◌<◌, ◌++◌, ℕ, [], ◌∷◌, length, IfNone, IfOk, IfSome, IsTrue, None, Some};
ghost use Rattle.slab.specs.Slab.{get, slab_len};
ghost use Rattle.fr_links.specs.Waiting.{AllQueued, Joins};

use crate::ends::{Given, Reply};
use crate::held::Held;
use crate::judge::Judge;
use crate::stage::Stage;
use crate::wire::Wire;
use mio::{Events, Registry, Token};
use slab::Slab;
use std::alloc::{AllocError, Global};
use std::collections::VecDeque;
use std::time::{Duration, Instant};

/// How many connections are open at most.
pub const MAX_LINKS: usize = 1024;

/// How many connections make room at once, where one more comes.
pub const ROOM: usize = 64;

/// How many bytes of replies are kept at most for clients that do not take them, beside the last reply.
pub const MAX_KEPT: usize = 67_108_864;

/// The connections, each under a key, and the keys of those whose request is to be answered, in order.
#[derive(Drop)]
pub struct Table<S> {
    links: Slab<Held<S>>,
    ready: VecDeque<usize>,
    // No connection's time is over before this.
    soonest: Option<Instant>,
    ghost queued: { AllQueued links ready.items },
}

impl<S: Wire + Drop> Table<S> {
    ghost use Rattle.fr_links.specs.Connection.{IsAnswered, IsBegun, IsMoved};
    ghost use Rattle.fr_links.specs.Connections.{AllStay, Goes, IsGivenOut, IsKnown, IsUnready, OthersStay, Queues, Stays, TakesFirst, at};
    ghost use Rattle.fr_links.specs.Turning.{GoesOn};

    /// One without a connection.
    pub fn new(alloc: Global) -> Result<Table<S>, AllocError>
        ensures none { IfOk result (λ table. (key : ℕ) → at table key ≡ None) }
        ensures ready { IfOk result (λ table. table.ready.items ≡ []) }
    {
        Ok(Table {
            links: Slab::with_capacity(alloc, MAX_LINKS)?,
            ready: VecDeque::with_capacity(alloc, MAX_LINKS)?,
            soonest: None,
        })
    }

    /// How many connections are open.
    pub fn len(&self) -> usize
        ensures { result ≡ slab_len self.now.links }
    {
        self.links.len()
    }

    /// Whether no connection is open.
    pub fn is_empty(&self) -> bool
        ensures { IsTrue result ↔ (slab_len self.now.links ≡ 0) }
    {
        self.links.is_empty()
    }

    /// Whether a request is to be answered.
    pub fn has_ready(&self) -> bool
        ensures { IsTrue result ↔ (0 < length self.now.ready.items) }
    {
        !self.ready.is_empty()
    }

    /// Whether something is awaited of a client: that it sends its request, or takes its reply.
    pub fn awaits(&self) -> bool
        ensures { IsTrue result ↔ (length self.now.ready.items < slab_len self.now.links) }
    {
        self.ready.len() < self.links.len()
    }

    /// How long nothing ends by itself; none where no end is known.
    pub fn rest(&self, now: Instant) -> Option<Duration>
        ensures { IfNone result (self.now.soonest ≡ None) }
    {
        let soonest = self.soonest?;
        Some(soonest.saturating_duration_since(now))
    }

    // Notes that something ends then.
    fn note(&mut self, end: Instant)
        ensures links { self.new.links ≡ self.old.links }
        ensures ready { self.new.ready ≡ self.old.ready }
    {
        let soonest = self.soonest.unwrap_or(end);
        self.soonest = Some(if soonest <= end { soonest } else { end });
    }

    /// Takes in a connection, whose request is awaited until then, and hears what lies there. Gives whether it will be given
    /// out: it is let go where there is no memory.
    #[tactic(auto, using(crate::proofs::Queueing::stands, crate::proofs::Queueing::queues_on))]
    pub fn add<J: Judge>(
        &mut self,
        alloc: Global,
        stream: S,
        end: Instant,
        registry: &Registry,
        judge: &J,
    ) -> bool
        ensures others { OthersStay self.old self.new self.old.links.vacant_key }
        ensures vacant { at self.old self.old.links.vacant_key ≡ None }
        ensures own { IfSome (at self.new self.old.links.vacant_key)
            (λ held. IsBegun S.remaining S.contents stream held.link held.stage) }
        ensures told { IsKnown (J.tells judge.now) (at self.new self.old.links.vacant_key) }
        ensures queue { Queues self.old self.new }
    {
        let key = self.links.vacant_key();
        let held = Held::new(alloc, stream, end, judge, registry, key);
        let is_ready = held.is_ready();
        let Ok(at) = self.links.insert(held) else {
            return false;
        };
        if is_ready {
            queue(&mut self.links, &mut self.ready, at);
        } else {
            self.note(end);
        }
        true
    }

    fn end(&mut self, key: usize)
        ensures others { OthersStay self.old self.new key }
        ensures gone { at self.new key ≡ None }
        ensures ready { self.new.ready ≡ self.old.ready }
    {
        let _ = self.links.try_remove(key);
    }

    // Reads what lies there for a connection whose request is awaited.
    #[tactic(auto, using(crate::proofs::Queueing::stands, crate::proofs::Queueing::queues_on))]
    fn hear<J: Judge>(&mut self, key: usize, judge: &J)
        ensures others { OthersStay self.old self.new key }
        ensures own { Goes S.remaining S.contents (at self.old key) (at self.new key) }
        ensures told { IsKnown (J.tells judge.now) (at self.old key)
            → IsKnown (J.tells judge.now) (at self.new key) }
        ensures queue { Queues self.old self.new }
    {
        let Some(held) = self.links.get_mut(key) else {
            return;
        };
        if held.stage == Stage::Asking && held.hear(judge) {
            queue(&mut self.links, &mut self.ready, key);
        }
    }

    /// Goes on with a connection of which something was told.
    #[tactic(auto, using(crate::proofs::Queueing::stands, crate::proofs::Queueing::queues_on))]
    pub fn go_on<J: Judge>(&mut self, key: usize, now: Instant, judge: &J)
        ensures others { OthersStay self.old self.new key }
        ensures own { Goes S.remaining S.contents (at self.old key) (at self.new key) }
        ensures told { IsKnown (J.tells judge.now) (at self.old key)
            → IsKnown (J.tells judge.now) (at self.new key) }
        ensures queue { Queues self.old self.new }
    {
        let Some(held) = self.links.get_mut(key) else {
            return;
        };
        match held.stage {
            Stage::Asking => self.hear(key, judge),
            Stage::Ready { .. } => {}
            Stage::Replying { .. } | Stage::Resting { .. } => self.move_on(key, now),
        }
    }

    /// Goes on with each connection of which the poll told something. Gives whether it told of the port, which has this token.
    pub fn go_on_each<J: Judge>(
        &mut self,
        events: &Events,
        port: Token,
        now: Instant,
        judge: &J,
    ) -> bool
        ensures { GoesOn S.remaining S.contents (J.tells judge.now) self.old self.new }
    {
        let mut told = false;
        for event in events {
            let token = event.token();
            if token == port {
                told = true;
                continue;
            }
            self.go_on(token.0, now, judge);
        }
        told
    }

    // Sends what is to go out, and then reads what still comes.
    #[tactic(auto, using(crate::proofs::Queueing::stands, crate::proofs::Queueing::queues_on))]
    fn move_on(&mut self, key: usize, now: Instant)
        ensures others { OthersStay self.old self.new key }
        ensures own { Goes S.remaining S.contents (at self.old key) (at self.new key) }
        ensures queue { Queues self.old self.new }
    {
        let Some(held) = self.links.get_mut(key) else {
            return;
        };
        let lasts = held.move_on(now);
        let end = held.end;
        if lasts {
            self.note(end);
        } else {
            self.end(key);
        }
    }

    /// The next connection that is to be answered: the first that came to be so.
    pub fn next(&mut self, alloc: Global) -> Option<(Given, Reply<S>)>
        ensures others { IfSome result (λ ends. OthersStay self.old self.new ends.1.key) }
        ensures once { IfSome result (λ ends. at self.new ends.1.key ≡ None) }
        ensures given { IfSome result (λ ends. IsGivenOut (at self.old ends.1.key) ends.0 ends.1) }
        ensures stays { IfNone result (self.new.links ≡ self.old.links) }
        ensures none { IfNone result ((key : ℕ) → IsUnready (at self.old key)) }
        ensures first { IfSome result (λ ends. TakesFirst self.old self.new ends.1.key) }
    {
        while let Some(key) = self.ready.front().copied() {
            let ends = self.give_out(alloc, key);
            self.ready.pop_front();
            if ends.is_some() {
                return ends;
            }
        }
        None
    }

    // Gives the connection out, where its request is to be answered.
    fn give_out(&mut self, alloc: Global, key: usize) -> Option<(Given, Reply<S>)>
        ensures key { IfSome result (λ ends. ends.1.key ≡ key) }
        ensures others { OthersStay self.old self.new key }
        ensures once { IfSome result (λ _. at self.new key ≡ None) }
        ensures given { IfSome result (λ ends. IsGivenOut (at self.old key) ends.0 ends.1) }
        ensures none { IfNone result (self.new.links ≡ self.old.links) }
        ensures ready { self.new.ready ≡ self.old.ready }
        ensures unready { IfNone result (IsUnready (at self.old key)) }
    {
        let Some(
            Held {
                stage: Stage::Ready { ending },
                ..
            },
        ) = self.links.get(key)
        else {
            return None;
        };
        let ending = *ending;
        let held = self.links.try_remove(key)?;
        let Held { mut link, told, .. } = held;
        let bytes = link.take_came(alloc);
        Some((Given::new(bytes, ending), Reply { key, link, told }))
    }

    /// Takes a connection back that was answered, until then, or lets it go where it was not: `served` says whether its request
    /// was read to its end.
    #[tactic(auto, using(crate::proofs::Queueing::stands, crate::proofs::Queueing::queues_on))]
    pub fn take_back(
        &mut self,
        reply: Reply<S>,
        served: Option<bool>,
        now: Instant,
        end: Instant,
        registry: &Registry,
    )
        ensures others { (other : ℕ) → other ≢ self.old.links.vacant_key
            → Stays (at self.old other) (at self.new other) }
        ensures vacant { at self.old self.old.links.vacant_key ≡ None }
        ensures own { IfSome (at self.new self.old.links.vacant_key)
            (λ held. IsMoved S.remaining S.contents reply.link held.link held.stage
            × IsAnswered held.stage) }
        ensures queue { Queues self.old self.new }
    {
        let spare = self.links.vacant_key();
        let Reply { key, link, told } = reply;
        let Some(asked) = served else {
            return;
        };
        let mut held = Held {
            link,
            stage: Stage::Replying { asked },
            end,
            told: told && key == spare,
        };
        let lasts = held.move_on(now);
        if !lasts {
            return;
        }
        let is_told = held.watch(registry, spare);
        if !is_told {
            return;
        }
        self.note(held.end);
        let Ok(at) = self.links.insert(held) else {
            return;
        };
        self.keep_bound(at);
    }

    // Lets connections go whose clients do not take their replies, those first that were to end first, until the bound on what
    // is kept is met.
    #[tactic(auto, using(crate::proofs::Queueing::stands, crate::proofs::Queueing::queues_on))]
    fn keep_bound(&mut self, last: usize)
        ensures stay { AllStay self.old self.new }
        ensures queue { Queues self.old self.new }
    {
        for _ in 0..MAX_LINKS {
            if self.kept_beside(last) <= MAX_KEPT {
                return;
            }
            match self.first_to_end(|held, key| key != last && held.left() > 0) {
                Some(key) => self.end(key),
                None => return,
            }
        }
    }

    // How many bytes are kept for clients, beside those for this one.
    fn kept_beside(&self, last: usize) -> usize {
        let mut kept: usize = 0;
        for (key, held) in self.links.iter() {
            if key != last {
                kept = kept.saturating_add(held.left());
            }
        }
        kept
    }

    /// Makes room for more connections. One that only ends its reply is let go; else those whose requests have been awaited longest
    /// are answered next, as ones whose time is over, so many at once: first those of which nothing came. Where no request is
    /// awaited, the connection is let go whose time to take its reply ends first. Gives whether there is room now.
    #[tactic(auto, using(crate::proofs::Queueing::stands, crate::proofs::Queueing::queues_on))]
    pub fn make_room(&mut self) -> bool
        ensures stay { AllStay self.old self.new }
        ensures queue { Queues self.old self.new }
    {
        if let Some(key) = self.first_to_end(|held, _| matches!(
            held.stage,
            Stage::Resting { .. }
        )) {
            self.end(key);
            return true;
        }
        if self.give_up_some() {
            return false;
        }
        match self.first_to_end(|held, _| matches!(held.stage, Stage::Replying { .. })) {
            Some(key) => {
                self.end(key);
                true
            }
            None => false,
        }
    }

    // Has those answered whose requests have been awaited longest, so many at most: first those of which nothing came. Gives
    // whether there were any.
    #[tactic(auto, using(crate::proofs::Queueing::stands, crate::proofs::Queueing::queues_on))]
    fn give_up_some(&mut self) -> bool
        ensures stay { AllStay self.old self.new }
        ensures queue { Queues self.old self.new }
    {
        for given_up in 0..ROOM {
            let silent = self.first_to_end(|held, _| held.is_silent());
            let awaited = match silent {
                Some(key) => Some(key),
                None => self.first_to_end(|held, _| held.stage == Stage::Asking),
            };
            match awaited {
                Some(key) => self.give_up(key),
                None => return given_up > 0,
            }
        }
        true
    }

    // The connection is answered as one whose time is over.
    #[tactic(auto, using(crate::proofs::Queueing::stands, crate::proofs::Queueing::queues_on))]
    fn give_up(&mut self, key: usize)
        ensures others { OthersStay self.old self.new key }
        ensures own { Stays (at self.old key) (at self.new key) }
        ensures queue { Queues self.old self.new }
    {
        let Some(held) = self.links.get_mut(key) else {
            return;
        };
        if held.stage == Stage::Asking {
            held.give_up();
            queue(&mut self.links, &mut self.ready, key);
        }
    }

    // The connection whose time ends first among those of which this holds.
    fn first_to_end<F: Fn(&Held<S>, usize) -> bool>(&self, is_meant: F) -> Option<usize>
        requires { F.IsAlwaysCallable is_meant }
    {
        let mut found: Option<(Instant, usize)> = None;
        for (key, held) in self.links.iter() {
            if is_meant(held, key) {
                match found {
                    Some((end, _)) if end <= held.end => {}
                    _ => found = Some((held.end, key)),
                }
            }
        }
        Some(found?.1)
    }

    /// Lets each connection go that was not answered.
    pub fn let_go_unanswered(&mut self)
        ensures { AllStay self.old self.new }
    {
        for key in 0..MAX_LINKS {
            self.let_go_one(key);
        }
        while let Some(key) = self.ready.front().copied() {
            self.let_go_one(key);
            self.ready.pop_front();
        }
    }

    // Lets this connection go, where it was not answered.
    fn let_go_one(&mut self, key: usize)
        ensures others { OthersStay self.old self.new key }
        ensures own { Stays (at self.old key) (at self.new key) }
        ensures unready { IsUnready (at self.new key) }
        ensures ready { self.new.ready ≡ self.old.ready }
    {
        if let Some(held) = self.links.get(key) {
            if matches!(held.stage, Stage::Asking | Stage::Ready { .. }) {
                self.end(key);
            }
        }
    }

    /// Gives each connection so much more time, in which the register was at work.
    #[tactic(auto, using(crate::proofs::Queueing::stands, crate::proofs::Queueing::queues_on))]
    pub fn postpone(&mut self, time: Duration)
        ensures stay { AllStay self.old self.new }
        ensures vacant { self.new.links.vacant_key ≡ self.old.links.vacant_key }
        ensures queue { Queues self.old self.new }
    {
        self.soonest = None;
        for key in 0..MAX_LINKS {
            self.postpone_one(key, time);
        }
    }

    // Gives this connection so much more time.
    #[tactic(auto, using(crate::proofs::Queueing::stands, crate::proofs::Queueing::queues_on))]
    fn postpone_one(&mut self, key: usize, time: Duration)
        ensures others { OthersStay self.old self.new key }
        ensures own { Stays (at self.old key) (at self.new key) }
        ensures vacant { self.new.links.vacant_key ≡ self.old.links.vacant_key }
        ensures queue { Queues self.old self.new }
    {
        let Some(held) = self.links.get_mut(key) else {
            return;
        };
        let end = held.end.checked_add(time).unwrap_or(held.end);
        held.end = end;
        self.note(end);
    }

    /// Ends what is over by now: a connection whose request is awaited is answered, one that does not take its reply is let go.
    #[tactic(auto, using(crate::proofs::Queueing::stands, crate::proofs::Queueing::queues_on))]
    pub fn expire(&mut self, now: Instant)
        ensures stay { AllStay self.old self.new }
        ensures queue { Queues self.old self.new }
    {
        let soonest = self.soonest;
        if !soonest.is_some_and(|soonest| soonest <= now) {
            return;
        }
        self.soonest = None;
        for key in 0..MAX_LINKS {
            self.expire_one(key, now);
        }
    }

    // Ends this connection, where its time is over by now.
    #[tactic(auto, using(crate::proofs::Queueing::stands, crate::proofs::Queueing::queues_on))]
    fn expire_one(&mut self, key: usize, now: Instant)
        ensures others { OthersStay self.old self.new key }
        ensures own { Stays (at self.old key) (at self.new key) }
        ensures queue { Queues self.old self.new }
    {
        let Some(held) = self.links.get(key) else {
            return;
        };
        let (end, stage) = (held.end, held.stage);
        match stage {
            Stage::Ready { .. } => {}
            _ if end > now => self.note(end),
            Stage::Asking => self.give_up(key),
            Stage::Replying { .. } | Stage::Resting { .. } => self.end(key),
        }
    }
}

// Puts the connection behind all others whose requests are to be answered.
fn queue<S: Wire + Drop>(links: &mut Slab<Held<S>>, ready: &mut VecDeque<usize>, key: usize)
    ensures { Joins links.old links.new ready.old.items ready.new.items key }
{
    if ready.push_back(key).is_err() {
        let _ = links.try_remove(key);
    }
}
