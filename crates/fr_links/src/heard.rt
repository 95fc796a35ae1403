//! What became of gathering a request, and of sending a reply.

use crate::stage::Ending;

/// What became of gathering a request.
#[derive(Clone, Copy, Debug, PartialEq, Eq)]
pub enum Heard {
    /// More has to come.
    More,
    /// It is complete.
    Complete,
    /// The input ended before.
    Closed,
    /// A read failed, or there was no memory.
    Failed,
    /// It was read as often as may be.
    TooOften,
}

impl Heard {
    ghost use Rattle.std.specs.Prelude.{◌≡◌};
    ghost use Rattle.fr_links.specs.Gathering.{ending_of};

    /// What stands behind the bytes that were gathered; none while more has to come.
    pub fn ending(self) -> Option<Ending>
        ensures { result ≡ ending_of self }
    {
        match self {
            Heard::More => None,
            Heard::Complete => Some(Ending::Complete),
            Heard::Closed => Some(Ending::Closed),
            Heard::Failed => Some(Ending::Failed),
            Heard::TooOften => Some(Ending::Interrupted),
        }
    }
}

/// What became of sending.
#[derive(Clone, Copy, Debug, PartialEq, Eq)]
pub enum Sent {
    /// The stream takes no more now.
    More,
    /// All was taken.
    All,
    /// A write failed.
    Failed,
}
