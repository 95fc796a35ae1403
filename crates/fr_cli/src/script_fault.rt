//! Why a script's run ended early, and the word for it.
ghost use Rattle.std.specs.Prelude.{◌≡◌, Some};
ghost use Rattle.fr_cli.specs.ScriptFault.{script_fault_word};

use fr_base::NoMemory;
use fr_text::{ConfigFault, WriteFailed};
use std::fmt;

/// Why the run of a script, or of requests that come in, ended before all lines were answered. When a read fails, or the
/// reads are too many, no clause says.
#[derive(Clone, Copy, Debug, PartialEq, Eq)]
pub enum ScriptFault {
    /// The script has more than 16,777,216 bytes.
    TooLong,
    /// The script's end was not reached in 20,000,000 reads.
    TooManyReads,
    /// A read failed, other than by an interruption.
    ReadFailed,
    /// No line is `---`.
    NoSeparator,
    /// The text of the cluster file has a fault.
    Config(ConfigFault),
    /// The register in memory could not be made; or one in a file has come to an end: others stand in its files' place, or a
    /// fault has shut it.
    Unavailable,
    /// There was no memory for the script or for a line's request or answer.
    NoMemory,
    /// An answer could not be written.
    WriteFailed,
}

impl ScriptFault {
    /// The fault's name, which is printed on standard error.
    pub fn word(&self) -> &'static str
        ensures { result.now ≡ script_fault_word self.now }
    {
        match self {
            ScriptFault::TooLong => "TooLong",
            ScriptFault::TooManyReads => "TooManyReads",
            ScriptFault::ReadFailed => "ReadFailed",
            ScriptFault::NoSeparator => "NoSeparator",
            ScriptFault::Config(fault) => fault.word(),
            ScriptFault::Unavailable => "Unavailable",
            ScriptFault::NoMemory => "NoMemory",
            ScriptFault::WriteFailed => "WriteFailed",
        }
    }
}

impl From<ConfigFault> for ScriptFault {
    ghost use Rattle.fr_cli.specs.declared.script_fault.ScriptFault.TheVariants.{Config};

    ghost from_gives = { λ fault script_fault. script_fault ≡ Config fault };

    fn from(fault: ConfigFault) -> Self {
        Self::Config(fault)
    }
}

impl From<NoMemory> for ScriptFault {
    ghost use Rattle.fr_cli.specs.declared.script_fault.ScriptFault.TheVariants.{NoMemory};

    ghost from_gives = { λ _ fault. fault ≡ NoMemory };

    fn from(_refused: NoMemory) -> Self {
        Self::NoMemory
    }
}

impl From<WriteFailed> for ScriptFault {
    ghost use Rattle.fr_cli.specs.declared.script_fault.ScriptFault.TheVariants.{WriteFailed as Failed};

    ghost from_gives = { λ _ fault. fault ≡ Failed };

    fn from(_failed: WriteFailed) -> Self {
        Self::WriteFailed
    }
}

impl fmt::Display for ScriptFault {
    ghost output = { λ fault. Some (script_fault_word fault) };

    fn fmt<W: fmt::Write>(&self, f: &mut fmt::Formatter<W>) -> fmt::Result {
        f.write_str(self.word())
    }
}
