//! Why a register cannot be made or opened.

use sqlite::Error;
use std::alloc::AllocError;

/// Why a register cannot be made or opened, or why it cannot do what was asked of it.
#[derive(Clone, Copy, Debug, PartialEq, Eq, Drop)]
pub enum StoreFault {
    /// A register was to be made where one of its tables is already.
    NotEmpty,
    /// There is no database, or no table `register` with one number.
    NotARegister,
    /// The number of the schema is another version's.
    WrongSchema,
    /// All else: there was no memory, the disk failed, or the rows are no register's. No clause says which it was. The
    /// rows do not show a change that was refused so. But where the disk failed, a register that is opened afterwards
    /// may have the change.
    Unavailable,
}

/// A statement that failed is `Unavailable`.
impl From<Error> for StoreFault {
    ghost use Rattle.std.specs.Prelude.{◌≡◌};
    ghost use Rattle.fr_store.specs.declared.fault.StoreFault.TheVariants.{Unavailable};

    ghost from_gives = { λ _ fault. fault ≡ Unavailable };

    fn from(_error: Error) -> StoreFault {
        StoreFault::Unavailable
    }
}

/// Want of memory is `Unavailable`.
impl From<AllocError> for StoreFault {
    ghost use Rattle.std.specs.Prelude.{◌≡◌};
    ghost use Rattle.fr_store.specs.declared.fault.StoreFault.TheVariants.{Unavailable};

    ghost from_gives = { λ _ fault. fault ≡ Unavailable };

    fn from(_refused: AllocError) -> StoreFault {
        StoreFault::Unavailable
    }
}
