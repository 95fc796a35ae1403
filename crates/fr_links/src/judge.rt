//! How long the request is that bytes begin with.

/// How many bytes a request has at most: a head of 8,192 and a body of 65,536.
pub const MAX_REQUEST: usize = 73_728;

/// What is known of a request by the bytes that came.
#[derive(Clone, Copy, Debug, PartialEq, Eq)]
pub enum Judgement {
    /// More has to come before its length is known.
    Open,
    /// It is answered by its first bytes, which are so many. `invites` says that its client waits for an interim reply before it
    /// sends the rest of them.
    Known { bytes: usize, invites: bool },
}

/// Tells how long a request is.
pub trait Judge {
    ghost use Rattle.std.specs.Prelude.{ℕ, List};
    ghost use Rattle.fr_links.specs.declared.judge.Judgement.{Judgement as Verdict};

    /// What it may tell of a request that begins with these bytes.
    ghost tells: { Self → List ℕ → Verdict → Type 0 };

    /// What is known of the request that begins with these bytes.
    fn judge(&self, bytes: &[u8]) -> Judgement
        ensures { tells self.now bytes.now result };
}
