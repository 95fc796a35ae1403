//! Why a job was not done, and the word for it.
ghost use Rattle.std.specs.Prelude.{◌≡◌};
ghost use Rattle.fr_cli.specs.Faults.{fault_word, link_word, store_word};
ghost use Rattle.fr_cli.specs.Performing.{of_script};

use crate::script_fault::ScriptFault;
use fr_base::NoMemory;
use fr_http::LinkFault;
use fr_store::StoreFault;
use fr_text::{ConfigFault, WriteFailed};

/// Why a job was not done, other than by a refusal.
#[derive(Clone, Copy, Debug, PartialEq, Eq)]
pub enum Fault {
    /// What stands on standard input was not read to its end, or not answered: a script, requests or a key.
    Script(ScriptFault),
    /// The text of the cluster file has a fault.
    Config(ConfigFault),
    /// The register could not be made, opened, migrated or closed, or came to an end while it was served.
    Register(StoreFault),
    /// A text file could not be opened, or not be read within its bounds.
    CannotOpen,
    /// The port could not be bound, or a connection not be accepted.
    CannotListen,
    /// There was no memory for the job.
    NoMemory,
    /// Standard output failed.
    WriteFailed,
}

impl Fault {
    /// The fault's name, which is printed on standard error.
    pub fn word(&self) -> &'static str
        ensures { result.now ≡ fault_word self.now }
    {
        match self {
            Fault::Script(fault) => fault.word(),
            Fault::Config(fault) => fault.word(),
            Fault::Register(fault) => store_word(*fault),
            Fault::CannotOpen => "CannotOpen",
            Fault::CannotListen => "CannotListen",
            Fault::NoMemory => "NoMemory",
            Fault::WriteFailed => "WriteFailed",
        }
    }
}

/// How a job ends, by how the run of its requests ended.
pub fn of_script(done: Result<(), ScriptFault>) -> Result<(), Fault>
    ensures { result ≡ of_script done }
{
    match done {
        Ok(()) => Ok(()),
        Err(fault) => Err(Fault::Script(fault)),
    }
}

// The name of a register's fault.
fn store_word(fault: StoreFault) -> &'static str
    ensures { result.now ≡ store_word fault }
{
    match fault {
        StoreFault::NotEmpty => "NotEmpty",
        StoreFault::NotARegister => "NotARegister",
        StoreFault::WrongSchema => "WrongSchema",
        StoreFault::Unavailable => "Unavailable",
    }
}

/// The name of a connection's fault.
pub fn link_word(fault: LinkFault) -> &'static str
    ensures { result.now ≡ link_word fault }
{
    match fault {
        LinkFault::Truncated => "Truncated",
        LinkFault::ReadFailed => "ReadFailed",
        LinkFault::TooManyReads => "TooManyReads",
        LinkFault::WriteFailed { .. } => "WriteFailed",
        LinkFault::NoMemory { .. } => "NoMemory",
    }
}

impl From<ScriptFault> for Fault {
    ghost use Rattle.fr_cli.specs.declared.fault.Fault.TheVariants.{Script};

    ghost from_gives = { λ script fault. fault ≡ Script script };

    fn from(fault: ScriptFault) -> Self {
        Self::Script(fault)
    }
}

impl From<ConfigFault> for Fault {
    ghost use Rattle.fr_cli.specs.declared.fault.Fault.TheVariants.{Config};

    ghost from_gives = { λ config fault. fault ≡ Config config };

    fn from(fault: ConfigFault) -> Self {
        Self::Config(fault)
    }
}

impl From<StoreFault> for Fault {
    ghost use Rattle.fr_cli.specs.declared.fault.Fault.TheVariants.{Register};

    ghost from_gives = { λ store fault. fault ≡ Register store };

    fn from(fault: StoreFault) -> Self {
        Self::Register(fault)
    }
}

impl From<NoMemory> for Fault {
    ghost use Rattle.fr_cli.specs.declared.fault.Fault.TheVariants.{NoMemory};

    ghost from_gives = { λ _ fault. fault ≡ NoMemory };

    fn from(_refused: NoMemory) -> Self {
        Self::NoMemory
    }
}

impl From<WriteFailed> for Fault {
    ghost use Rattle.fr_cli.specs.declared.fault.Fault.TheVariants.{WriteFailed as Failed};

    ghost from_gives = { λ _ fault. fault ≡ Failed };

    fn from(_failed: WriteFailed) -> Self {
        Self::WriteFailed
    }
}
