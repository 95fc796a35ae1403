//! Why a connection asks nothing of the register: the engine answers itself, the request is refused,
//! or a fault ends the connection.
use crate::method::Allowed;
use fr_base::{NoMemory, Refusal, Text};
use fr_page::Part;

/// The answers that the engine gives itself.
#[derive(Clone, Copy, PartialEq, Eq)]
pub enum Rejection {
    /// The bytes are not a head and cannot become one; or the body's length is not a number, or two
    /// fields give it.
    BadRequest,
    /// The path has no route.
    NotFound,
    /// The path's route has other methods: these.
    MethodNotAllowed(Allowed),
    /// The body has no length.
    LengthRequired,
    /// The body is too long.
    PayloadTooLarge,
    /// The head is too long, or has too many field lines.
    HeadTooLarge,
    /// The body has a transfer coding.
    NotImplemented,
}

/// Why a connection had no final reply, or may not have a whole one. `asked` says whether the register was asked.
#[derive(Clone, Copy, Debug, PartialEq, Eq)]
pub enum LinkFault {
    /// The input ended before a whole request had come.
    Truncated,
    /// A read failed, other than by an interruption.
    ReadFailed,
    /// The request did not come within the bound of reads.
    TooManyReads,
    /// A write failed, took nothing of a piece that is not empty, or was interrupted too often; or
    /// a flush failed after all was written.
    WriteFailed { asked: bool },
    /// There was no memory for the request, or for the final reply.
    NoMemory { asked: bool },
}

/// Why a connection asks nothing of the register.
#[derive(Drop)]
pub enum Unasked {
    /// The engine answers itself.
    Engine(Rejection),
    /// A part of the planner's page is asked for, which is the engine's own. Who asks may hold it as it is.
    Page { part: Part, held: bool },
    /// The meaning of a word or number is asked for, or a line on each word that is explained.
    Explained { word: Option<Text> },
    /// The request is refused: its text is not a request, or its key is nobody's.
    Refused(Refusal),
    /// A fault ends the connection.
    Fault(LinkFault),
}

impl From<Rejection> for Unasked {
    ghost use Rattle.std.specs.Prelude.{◌≡◌};
    ghost use Rattle.fr_http.specs.declared.fault.Unasked.TheVariants.{Engine};

    ghost from_gives = { λ rejection unasked. unasked ≡ Engine rejection };

    fn from(rejection: Rejection) -> Self {
        Self::Engine(rejection)
    }
}

impl From<LinkFault> for Unasked {
    ghost use Rattle.std.specs.Prelude.{◌≡◌};
    ghost use Rattle.fr_http.specs.declared.fault.Unasked.TheVariants.{Fault};

    ghost from_gives = { λ fault unasked. unasked ≡ Fault fault };

    fn from(fault: LinkFault) -> Self {
        Self::Fault(fault)
    }
}

/// Want of memory for a request that was not asked.
impl From<NoMemory> for LinkFault {
    ghost use Rattle.std.specs.Prelude.{◌≡◌, false};
    ghost use Rattle.fr_http.specs.declared.fault.LinkFault.TheVariants.{NoMemory};

    ghost from_gives = { λ _ fault. fault ≡ NoMemory false };

    fn from(_refused: fr_base::NoMemory) -> Self {
        Self::NoMemory { asked: false }
    }
}

impl From<NoMemory> for Unasked {
    ghost use Rattle.std.specs.Prelude.{◌≡◌, false};
    ghost use Rattle.fr_http.specs.declared.fault.LinkFault.TheVariants.{NoMemory};
    ghost use Rattle.fr_http.specs.declared.fault.Unasked.TheVariants.{Fault};

    ghost from_gives = { λ _ unasked. unasked ≡ Fault (NoMemory false) };

    fn from(_refused: fr_base::NoMemory) -> Self {
        Self::Fault(LinkFault::NoMemory { asked: false })
    }
}
