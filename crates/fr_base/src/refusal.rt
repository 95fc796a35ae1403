//! Why a request is refused: each refusal, with its number, name and HTTP status.
use crate::NoMemory;
use crate::channel::Channel;
use crate::name::Name;
use std::alloc::AllocFailed;
use std::fmt;

/// Why a request was refused. A refusal changes nothing. Refusals are checked in the order of their
/// numbers, but `BadKey` after `BadName`, and `KeyTaken` after `Exists`; the first that applies is
/// answered. Number 29, `BadRow`, is none of these: it is the answer where a row of a file is refused,
/// and has the row's own refusal in it.
#[derive(Clone, Copy, Debug, PartialEq, Eq)]
pub enum Refusal {
    /// The request's text does not have the form of a request.
    BadText,
    /// The key belongs to nobody.
    UnknownKey,
    /// A supplier gives an integrator's command, or the integrator a supplier's.
    NotYours,
    /// One of the names or the label is no name.
    BadName,
    /// Base and repetition select no set of cycles.
    BadCycles,
    /// The slot is 0 or above the cluster's number of static slots.
    BadSlot,
    /// There is no such channel, or the cluster does not have it.
    BadChannel,
    /// The signal's length is 0 or above 64 bits, or its order is neither `little` nor `big`.
    BadSignal,
    /// The label is kept with another variant or another body.
    LabelUsed,
    /// There is no such variant, or no such parent.
    NoVariant,
    /// The variant is released, and never changes.
    Released,
    /// The variant from which another is opened is not released.
    NotReleased,
    /// The parent is of depth 16.
    TooDeep,
    /// There is no such supplier.
    NoSupplier,
    /// The supplier has no such node.
    NoNode,
    /// There is no such frame.
    NoFrame,
    /// There is no such signal.
    NoSignal,
    /// There is no placement with exactly these fields.
    NoPlacement,
    /// The variant, supplier, node, frame, signal or grant is there already.
    Exists,
    /// The supplier holds the slot and channel, or has the frame, with another node.
    NodeDiffers,
    /// Slot and channel are not granted to the frame's node, or not to the supplier.
    NotGranted,
    /// A placement uses slot and channel.
    InUse,
    /// A limit is reached.
    Limit,
    /// Another supplier holds slot and channel.
    Taken,
    /// A cell of the placement is filled: the one of least cycle, A before B.
    CellTaken {
        /// The communication cycle, 0 to 63.
        cycle: u8,
        /// The channel.
        channel: Channel,
        /// The frame that is sent there.
        frame: Name,
    },
    /// A bit of the signal lies past the payload.
    OutOfPayload,
    /// A bit is used: the least one, and its signal.
    BitTaken {
        /// The payload bit.
        bit: u32,
        /// The signal that uses it.
        signal: Name,
    },
    /// The store or memory refused. It changes nothing; but where the disk failed at a change, what is opened afterwards
    /// has that change or has it not. It may come at any point, but never in place of a refusal by the request itself or of
    /// a key that is nobody's, numbers 2 to 8 and 30.
    Unavailable,
    /// The key is not 8 to 64 ASCII letters and digits. This is checked after `BadName`.
    BadKey,
    /// The integrator or a supplier has the key. This is checked after `Exists` and before `Limit`.
    KeyTaken,
    /// No placement is left for a wish. No request is refused so, and no row of another file.
    NoRoom,
}

impl Refusal {
    ghost use Rattle.std.specs.Prelude.{◌≡◌};
    ghost use Rattle.fr_base.specs.Refusals.{number_of, name_of, status_of};

    /// The refusal's number, 1 to 28, or 30 to 32.
    pub fn number(&self) -> u8
        ensures { result ≡ number_of self.now }
    {
        self.row().0
    }

    /// The refusal's name, as answers spell it.
    pub fn name(&self) -> &'static str
        ensures { result.now ≡ name_of self.now }
    {
        self.row().1
    }

    /// The HTTP status of a reply that gives this refusal.
    pub fn status(&self) -> u16
        ensures { result ≡ status_of self.now }
    {
        self.row().2
    }

    // Number, name and HTTP status.
    fn row(&self) -> (u8, &'static str, u16)
        ensures number { result.0 ≡ number_of self.now }
        ensures name { result.1.now ≡ name_of self.now }
        ensures status { result.2 ≡ status_of self.now }
    {
        match self {
            Refusal::BadText => (1, "BadText", 400),
            Refusal::UnknownKey => (2, "UnknownKey", 401),
            Refusal::NotYours => (3, "NotYours", 403),
            Refusal::BadName => (4, "BadName", 422),
            Refusal::BadCycles => (5, "BadCycles", 422),
            Refusal::BadSlot => (6, "BadSlot", 422),
            Refusal::BadChannel => (7, "BadChannel", 422),
            Refusal::BadSignal => (8, "BadSignal", 422),
            Refusal::LabelUsed => (9, "LabelUsed", 409),
            Refusal::NoVariant => (10, "NoVariant", 404),
            Refusal::Released => (11, "Released", 409),
            Refusal::NotReleased => (12, "NotReleased", 409),
            Refusal::TooDeep => (13, "TooDeep", 409),
            Refusal::NoSupplier => (14, "NoSupplier", 404),
            Refusal::NoNode => (15, "NoNode", 404),
            Refusal::NoFrame => (16, "NoFrame", 404),
            Refusal::NoSignal => (17, "NoSignal", 404),
            Refusal::NoPlacement => (18, "NoPlacement", 404),
            Refusal::Exists => (19, "Exists", 409),
            Refusal::NodeDiffers => (20, "NodeDiffers", 409),
            Refusal::NotGranted => (21, "NotGranted", 409),
            Refusal::InUse => (22, "InUse", 409),
            Refusal::Limit => (23, "Limit", 409),
            Refusal::Taken => (24, "Taken", 409),
            Refusal::CellTaken { .. } => (25, "CellTaken", 409),
            Refusal::OutOfPayload => (26, "OutOfPayload", 422),
            Refusal::BitTaken { .. } => (27, "BitTaken", 409),
            Refusal::Unavailable => (28, "Unavailable", 503),
            Refusal::BadKey => (30, "BadKey", 422),
            Refusal::KeyTaken => (31, "KeyTaken", 409),
            Refusal::NoRoom => (32, "NoRoom", 409),
        }
    }
}

impl fmt::Display for Refusal {
    ghost use Rattle.std.specs.Prelude.{Some};
    ghost use Rattle.fr_base.specs.Refusals.{name_of};

    ghost output = { λ refusal. Some (name_of refusal) };

    /// Writes the refusal's name.
    fn fmt<W: fmt::Write>(&self, f: &mut fmt::Formatter<W>) -> fmt::Result {
        f.write_str(self.name())
    }
}

/// Want of memory refuses a request as `Unavailable`.
impl From<NoMemory> for Refusal {
    ghost use Rattle.std.specs.Prelude.{◌≡◌};
    ghost use Rattle.fr_base.specs.declared.refusal.Refusal.TheVariants.{Unavailable};

    ghost from_gives = { λ _ refusal. refusal ≡ Unavailable };

    fn from(_refused: NoMemory) -> Refusal {
        Refusal::Unavailable
    }
}

/// Want of memory for a value refuses a request as `Unavailable`. The value is given up.
impl<T: Drop> From<AllocFailed<T>> for Refusal {
    ghost use Rattle.std.specs.Prelude.{◌≡◌};
    ghost use Rattle.fr_base.specs.declared.refusal.Refusal.TheVariants.{Unavailable};

    ghost from_gives = { λ _ refusal. refusal ≡ Unavailable };

    fn from(_refused: AllocFailed<T>) -> Refusal {
        Refusal::Unavailable
    }
}
