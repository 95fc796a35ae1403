//! What is still to go out on a connection.
ghost use Rattle.std.specs.Prelude.{◌≡◌, ◌≢◌, ◌<◌, ◌≤◌, ◌++◌, [], drop, length, take, vec_len, IfOk, MatchResult, OnErr, Some};
ghost use Rattle.std.specs.Io.KnownBytes.{Keeps};
ghost use Rattle.fr_links.specs.Sending.{GoesOut, Moves, Rests, early};

use crate::heard::Sent;
use crate::wire::Wire;
use std::alloc::Global;
use std::io::{self, ErrorKind};

/// How many writes in a row may be interrupted.
const MAX_WRITES: usize = 1_000;

/// The interim reply.
pub const INTERIM: [u8; 25] = *b"HTTP/1.1 100 Continue\r\n\r\n";

/// The bytes of a reply that the stream did not take yet.
#[derive(Drop)]
pub struct Outbox {
    // What is to go out, behind the first `sent` bytes.
    kept: Vec<u8>,
    sent: usize,
    // How many bytes of the interim reply went out before they were written, and how many of these were written since.
    ahead: usize,
    passed: usize,
    ghost within: { sent ≤ vec_len kept },
    ghost interim: { ahead ≤ 25 },
    ghost written: { passed ≤ ahead },
    ghost turn: { passed < ahead → vec_len kept ≡ 0 },
}

impl Outbox {
    /// One in which nothing lies.
    pub fn new(alloc: Global) -> Outbox
        ensures due { drop result.sent result.kept.items ≡ [] }
        ensures early { early result.ahead result.passed ≡ [] }
    {
        Outbox {
            kept: Vec::new(alloc),
            sent: 0,
            ahead: 0,
            passed: 0,
        }
    }

    /// How many bytes are still to go out.
    pub fn left(&self) -> usize
        ensures { result ≡ length (drop self.now.sent self.now.kept.items) }
    {
        self.kept.len() - self.sent
    }

    /// Sends the interim reply before it is written, as far as the stream takes it now, where nothing else is to go out.
    pub fn invite<S: Wire>(&mut self, stream: &mut S)
        ensures moved { Moves (S.contents stream.old) (S.contents stream.new)
            (early self.old.ahead self.old.passed) (drop self.old.sent self.old.kept.items) []
            (early self.new.ahead self.new.passed) (drop self.new.sent self.new.kept.items) }
        ensures remaining { Keeps (S.remaining stream.old) (S.remaining stream.new) }
    {
        if self.kept.is_empty() && self.passed == self.ahead {
            if let Ok(n) = stream.write_now(&INTERIM) {
                self.ahead = n;
                self.passed = 0;
            }
        }
    }

    /// Writes these bytes: they are sent, or kept where the stream does not take them now. Gives how many that are, as a writer
    /// does. What of the interim reply went out before is not sent again.
    pub fn put<S: Wire>(&mut self, stream: &mut S, bytes: &[u8]) -> io::Result<usize>
        ensures bound { IfOk result (λ n. n ≤ length bytes.now) }
        ensures moved { MatchResult result (λ n. Moves (S.contents stream.old) (S.contents stream.new)
            (early self.old.ahead self.old.passed) (drop self.old.sent self.old.kept.items)
            (take n bytes.now)
            (early self.new.ahead self.new.passed) (drop self.new.sent self.new.kept.items))
            (λ _. Rests (S.contents stream.old) (S.contents stream.new)
            (early self.old.ahead self.old.passed) (drop self.old.sent self.old.kept.items)
            (early self.new.ahead self.new.passed) (drop self.new.sent self.new.kept.items)) }
        ensures remaining { Keeps (S.remaining stream.old) (S.remaining stream.new) }
    {
        if self.passed < self.ahead {
            let n = self.pass_over(bytes)?;
            return Ok(n);
        }
        if self.left() == 0 {
            match stream.write_now(bytes) {
                Err(error) if error.kind() == ErrorKind::WouldBlock => {}
                done => return done,
            }
        }
        self.kept.extend_from_slice(bytes)?;
        Ok(bytes.len())
    }

    // Passes over what went out already, which has to be what is written now.
    fn pass_over(&mut self, bytes: &[u8]) -> io::Result<usize>
        requires { self.old.passed < self.old.ahead }
        ensures bound { IfOk result (λ n. n ≤ length bytes.now) }
        ensures passed { IfOk result (λ n. early self.old.ahead self.old.passed
            ≡ take n bytes.now ++ early self.new.ahead self.new.passed) }
        ensures err { OnErr result (self.new ≡ self.old) }
        ensures kept { self.new.kept ≡ self.old.kept }
        ensures sent { self.new.sent ≡ self.old.sent }
    {
        let n = (self.ahead - self.passed).min(bytes.len());
        if INTERIM[self.passed..self.passed + n] != bytes[..n] {
            return Err(io::Error::from(ErrorKind::InvalidData));
        }
        self.passed += n;
        Ok(n)
    }

    /// Sends what was kept, as far as the stream takes it.
    #[tactic(auto, using(crate::proofs::Moved::goes_on, crate::proofs::Moved::stays))]
    pub fn send<S: Wire>(&mut self, stream: &mut S) -> Sent
        ensures out { GoesOut (S.contents stream.old) (S.contents stream.new)
            (drop self.old.sent self.old.kept.items) (drop self.new.sent self.new.kept.items) }
        ensures early { early self.new.ahead self.new.passed
            ≡ early self.old.ahead self.old.passed }
        ensures all { result ≡ Sent.All → drop self.new.sent self.new.kept.items ≡ [] }
        ensures remaining { Keeps (S.remaining stream.old) (S.remaining stream.new) }
    {
        for _ in 0..self.kept.len().saturating_add(MAX_WRITES) {
            if self.left() == 0 {
                return Sent::All;
            }
            if let Some(end) = self.send_once(stream) {
                return end;
            }
        }
        Sent::Failed
    }

    // One write of what was kept. Gives how sending ends, unless it goes on.
    #[tactic(auto, using(crate::proofs::Moved::wrote, crate::proofs::Moved::kept))]
    fn send_once<S: Wire>(&mut self, stream: &mut S) -> Option<Sent>
        ensures out { GoesOut (S.contents stream.old) (S.contents stream.new)
            (drop self.old.sent self.old.kept.items) (drop self.new.sent self.new.kept.items) }
        ensures kept { self.new.kept ≡ self.old.kept }
        ensures ahead { self.new.ahead ≡ self.old.ahead }
        ensures passed { self.new.passed ≡ self.old.passed }
        ensures unfinished { result ≢ Some Sent.All }
        ensures remaining { Keeps (S.remaining stream.old) (S.remaining stream.new) }
    {
        match stream.write_now(&self.kept[self.sent..]) {
            Ok(n) => {
                self.sent += n;
                if n == 0 { Some(Sent::Failed) } else { None }
            }
            Err(error) => match error.kind() {
                ErrorKind::Interrupted => None,
                ErrorKind::WouldBlock => Some(Sent::More),
                _ => Some(Sent::Failed),
            },
        }
    }
}
