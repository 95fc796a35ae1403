//! A job that is not done: it was refused, or rows of a file would be, or wishes have no placement, or a fault ended it.
ghost use Rattle.std.specs.Prelude.{◌≡◌};

use crate::fault::Fault;
use fr_base::NoMemory;

/// Why a job is not done.
#[derive(Debug, Drop)]
pub enum Failure {
    /// It was refused; these are the lines that say so, with their ends.
    Refused { line: Vec<u8> },
    /// Rows of a file that was tried would be refused; this text tells of each row.
    RefusedRows { text: Vec<u8> },
    /// Wishes of a file have no placement. This is the file of what is proposed, and the lines that say of the others.
    UnplacedWishes { file: Vec<u8>, lines: Vec<u8> },
    /// A fault ended it.
    Fault(Fault),
}

impl From<Fault> for Failure {
    ghost use Rattle.fr_cli.specs.declared.failure.Failure.TheVariants.{Fault as Ended};

    ghost from_gives = { λ fault failure. failure ≡ Ended fault };

    fn from(fault: Fault) -> Self {
        Self::Fault(fault)
    }
}

impl From<NoMemory> for Failure {
    ghost use Rattle.fr_cli.specs.declared.fault.Fault.TheVariants.{NoMemory};
    ghost use Rattle.fr_cli.specs.declared.failure.Failure.TheVariants.{Fault as Ended};

    ghost from_gives = { λ _ failure. failure ≡ Ended NoMemory };

    fn from(_refused: NoMemory) -> Self {
        Self::Fault(Fault::NoMemory)
    }
}
