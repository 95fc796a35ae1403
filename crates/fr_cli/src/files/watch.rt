//! What looks at the files of a register that is open, between what is asked of it: whether they are still those that were there.
ghost use Rattle.std.specs.Prelude.{◌≡◌};

use crate::fault::Fault;
use crate::script_fault::ScriptFault;
use fr_store::StoreFault;
use std::io::{self, ErrorKind};

/// The files of an open register, as they were seen last. No clause says what is seen of them.
pub trait Watch: Drop {
    /// It is of the same files as before.
    ghost stays: { Self → Self → Type 0 };

    /// Whether the files are those that were seen first, as they were written last. Where they cannot be looked at,
    /// other than because one is missing, nothing tells against it.
    fn holds(&mut self) -> bool
        ensures { stays self.old self.new };

    /// Takes the files as they are now, since the register itself wrote to them, unless others stand in their place. Gives whether they are
    /// still those that were seen first, as `holds` does.
    fn note_own_writes(&mut self) -> bool
        ensures { stays self.old self.new };
}

/// Why a register's files are not watched.
#[derive(Clone, Copy, Debug, PartialEq, Eq)]
pub enum WatchFault {
    /// There was no memory to look at them.
    NoMemory,
    /// They cannot be looked at where they were opened.
    Unavailable,
}

impl From<io::Error> for WatchFault {
    ghost use Rattle.std.specs.IoError.{error_kind};
    ghost use Rattle.fr_cli.specs.Guarding.{watch_fault_of};

    ghost from_gives = { λ error fault. fault ≡ watch_fault_of (error_kind error) };

    fn from(error: io::Error) -> Self {
        match error.kind() {
            ErrorKind::OutOfMemory => Self::NoMemory,
            _ => Self::Unavailable,
        }
    }
}

impl From<WatchFault> for Fault {
    ghost use Rattle.fr_cli.specs.Guarding.{fault_unwatched};

    ghost from_gives = { λ watch fault. fault ≡ fault_unwatched watch };

    fn from(fault: WatchFault) -> Self {
        match fault {
            WatchFault::NoMemory => Self::NoMemory,
            WatchFault::Unavailable => Self::Register(StoreFault::Unavailable),
        }
    }
}

impl From<WatchFault> for ScriptFault {
    ghost use Rattle.fr_cli.specs.Guarding.{script_fault_unwatched};

    ghost from_gives = { λ watch fault. fault ≡ script_fault_unwatched watch };

    fn from(fault: WatchFault) -> Self {
        match fault {
            WatchFault::NoMemory => Self::NoMemory,
            WatchFault::Unavailable => Self::Unavailable,
        }
    }
}
