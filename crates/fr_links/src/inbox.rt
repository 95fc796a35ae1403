//! What came in on a connection, until its request is complete.
ghost use Rattle.std.specs.Prelude.{◌≡◌, ◌≤◌, ◌++◌, ◌↔◌, [], false, length, vec_len, IsTrue, None, OnErr, OnOk};
ghost use Rattle.std.specs.Io.KnownBytes.{Keeps};
ghost use Rattle.fr_links.specs.Gathering.{Gathers, Invites, IsTold, Leaves, known_of, room_of};

use crate::heard::Heard;
use crate::judge::{Judge, Judgement, MAX_REQUEST};
use crate::wire::Wire;
use std::alloc::{AllocError, Global};
use std::io::ErrorKind;
use std::mem;

/// How many bytes a head has at most.
pub const MAX_HEAD: usize = 8192;

/// How many bytes one read asks for at most.
const PIECE: usize = 8192;

/// In how many reads a request is gathered at most.
pub const MAX_READS: u32 = 100_000;

/// The bytes of a request, as far as they came.
#[derive(Drop)]
pub struct Inbox {
    came: Vec<u8>,
    // How many bytes the request has, once it is known.
    need: Option<usize>,
    // Whether its client waits for the interim reply.
    invites: bool,
    // How often the stream was read.
    reads: u32,
    ghost known: { known_of need ≤ 73728 },
    ghost bound: { vec_len came ≤ 73728 },
}

impl Inbox {
    /// One into which nothing came yet.
    pub fn new(alloc: Global) -> Inbox
        ensures empty { result.came.items ≡ [] }
        ensures open { result.need ≡ None }
        ensures uninvited { result.invites ≡ false }
    {
        Inbox {
            came: Vec::new(alloc),
            need: None,
            invites: false,
            reads: 0,
        }
    }

    /// Whether nothing came.
    pub fn is_empty(&self) -> bool
        ensures { IsTrue result ↔ (self.now.came.items ≡ []) }
    {
        self.came.is_empty()
    }

    // How many bytes are still wanted.
    fn room(&self) -> usize
        ensures { result ≡ room_of self.now.need (vec_len self.now.came) }
    {
        match self.need {
            Some(bytes) => bytes.saturating_sub(self.came.len()),
            None => MAX_HEAD.saturating_sub(self.came.len()),
        }
    }

    /// Reads what lies there, as far as the request reaches.
    pub fn hear<S: Wire, J: Judge>(&mut self, stream: &mut S, judge: &J) -> Heard
        ensures gathered { Gathers (S.remaining stream.old) (S.remaining stream.new)
            self.old.came.items self.new.came.items result }
        ensures quiet { Keeps (S.contents stream.old) (S.contents stream.new) }
        ensures told { IsTold (J.tells judge.now) self.old.need self.old.came.items
            → IsTold (J.tells judge.now) self.new.need self.new.came.items }
        ensures room { Leaves result (room_of self.new.need (vec_len self.new.came)) }
    {
        let mut piece = [0; PIECE];
        while self.reads < MAX_READS {
            let room = self.room().min(PIECE);
            if room == 0 {
                return Heard::Complete;
            }
            self.reads += 1;
            match stream.read_now(&mut piece[..room]) {
                Ok(0) => return Heard::Closed,
                Ok(n) => {
                    if self.take_in(&piece[..n], judge).is_err() {
                        return Heard::Failed;
                    }
                }
                Err(error) => match error.kind() {
                    ErrorKind::Interrupted => {}
                    ErrorKind::WouldBlock => return Heard::More,
                    _ => return Heard::Failed,
                },
            }
        }
        Heard::TooOften
    }

    // Takes in what was read.
    fn take_in<J: Judge>(&mut self, piece: &[u8], judge: &J) -> Result<(), AllocError>
        requires { length piece.now ≤ room_of self.old.need (vec_len self.old.came) }
        ensures ok { OnOk result (self.new.came.items ≡ self.old.came.items ++ piece.now) }
        ensures err { OnErr result (self.new.came.items ≡ self.old.came.items) }
        ensures told { IsTold (J.tells judge.now) self.old.need self.old.came.items
            → IsTold (J.tells judge.now) self.new.need self.new.came.items }
        ensures invites { Invites (J.tells judge.now) self.old.need self.old.invites
            self.new.need self.new.invites self.new.came.items }
        ensures kept { OnErr result (self.new.need ≡ self.old.need) }
        ensures reads { self.new.reads ≡ self.old.reads }
    {
        self.came.extend_from_slice(piece)?;
        if self.need.is_none() {
            if let Judgement::Known { bytes, invites } = judge.judge(&self.came) {
                self.need = Some(bytes.min(MAX_REQUEST));
                self.invites = invites;
            }
        }
        Ok(())
    }

    /// Whether its client waits for the interim reply: once.
    pub fn take_invitation(&mut self) -> bool
        ensures came { self.new.came.items ≡ self.old.came.items }
        ensures need { self.new.need ≡ self.old.need }
        ensures told { result ≡ self.old.invites }
        ensures once { self.new.invites ≡ false }
    {
        mem::replace(&mut self.invites, false)
    }

    /// What came in. Nothing is left of it.
    pub fn take(&mut self, alloc: Global) -> Vec<u8>
        ensures given { result.items ≡ self.old.came.items }
        ensures empty { self.new.came.items ≡ [] }
    {
        mem::replace(&mut self.came, Vec::new(alloc))
    }
}
