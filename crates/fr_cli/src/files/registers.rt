//! The files of registers: opened, made and migrated by their paths, and closed.
use crate::files::hindrance::Hindrance;
use crate::files::watch::{Watch, WatchFault};
use fr_base::{Config, Desk, NoMemory};
use fr_desks::FileFault;
use fr_office::Office;
use fr_world::Records;
use sqlite::{Files, Leftover};
use sqlite_disk::Disk;

/// Each register has a file at a path, and its log beside it. A job reaches them by these calls alone. What it is proved to do with a
/// register, it is proved to do with all such files, whatever they hold.
pub trait Registers {
    ghost use Rattle.std.specs.Prelude.{ℕ, List, IfErr, IfOk};
    ghost use Rattle.fr_base.specs.Book.{Book, opening};
    ghost use Rattle.fr_base.specs.Cluster.{Cluster, ClusterFile};
    ghost use Rattle.fr_cli.specs.declared.files.hindrance.Hindrance.{Hindrance};
    ghost use Rattle.fr_desks.specs.FileDesk.{FindsHeld, FindsRegister, IsLeftWith, LeavesBook};
    ghost use Rattle.fr_office.specs.Crashed.{IsKept};
    ghost use Rattle.fr_store.specs.Opened.{IsMigrated};
    ghost use Rattle.fr_store.specs.Opening.{AllowsCreation};
    ghost use Rattle.fr_store.specs.Refused.{IsRefusedBy, IsUnavailable, NeedsNone, makes_closed, migrates, opens};
    ghost use Rattle.sqlite.specs.Files.{IsCleanLeft};
    ghost use Rattle.sqlite_wal.specs.Reads.{AreClean};
    ghost use Rattle.sqlite_wal.specs.Recovery.{Image};

    /// A register's file, or its log.
    type File: Disk;

    /// The rows of a register that is open.
    type Records: Records;

    /// Looks at the files of a register that is open.
    type Watch: Watch;

    /// What the file and the log at a path hold.
    ghost holds: { Self → List ℕ → Image };

    /// What opening the register at a path may make of the files, also where it is refused.
    ghost opened: { Self → List ℕ → Self → Type 0 };

    /// What closing a register may make of them.
    ghost closed: { Self → Self → Type 0 };

    /// What making the register of a cluster file at a path may make of them, also where it is refused.
    ghost made: { Self → List ℕ → ClusterFile → Self → Type 0 };

    /// What migrating the register at a path may make of them, also where it is refused.
    ghost migrated: { Self → List ℕ → Self → Type 0 };

    /// What may be found in the way of using the register at a path.
    ghost hinders: { Self → List ℕ → List Hindrance → Type 0 };

    /// What watches the files at a path.
    ghost watches: { Self → List ℕ → Self.Watch → Type 0 };

    /// Opens the register at the path. It stands for the book that the file holds, or that a crash left in it. Where there is
    /// no file there is no register, and none is made.
    fn open(&mut self, path: &str) -> Result<Office<Self::Records>, FileFault<Self::File>>
        ensures files { opened self.old path.now self.new }
        ensures found { let it = ⟦<Office<Self::Records> as Desk>⟧ in IfOk result (λ office.
            FindsHeld (holds self.old path.now) (it.clean office) (it.stands office)) }
        ensures reads { let it = ⟦<Office<Self::Records> as Desk>⟧ in IfOk result (λ office.
            FindsRegister (holds self.old path.now) (it.clean office) (it.stands office)) }
        ensures refused { IfErr result (λ e.
            IsRefusedBy opens NeedsNone (holds self.old path.now) e.0 e.1) };

    /// Closes the register that has these records, and gives what is left of its files. Where they close they hold its book as long as nobody else writes to
    /// them, and so does what a crash leaves of them. Where they fail to close, their store is left: what is opened after a
    /// crash is then the register as it stood, or after one request more.
    fn close(&mut self, records: Self::Records) -> Leftover<Self::File>
        ensures files { closed self.old self.new }
        ensures clean { IsCleanLeft result → Self.Records.Records.clean records }
        ensures book { (c : Cluster) (b : Book) → Self.Records.Records.stands records c b
            → IsKept (Self.Records.Records.leaves records c) c b → IsLeftWith result c b };

    /// Makes the register of this cluster at the path, where there is none, and closes it: the files that are left hold the book of a new
    /// register. Where they fail to close, their store is left: what is opened after a crash is then the new register.
    fn create(
        &mut self,
        path: &str,
        config: &Config,
    ) -> Result<Files<Self::File>, FileFault<Self::File>>
        ensures files { made self.old path.now config.now self.new }
        ensures book { IfOk result (λ files. LeavesBook ⟦<Self::File as Disk>⟧ files config.now.cluster
            (opening config.now)) }
        ensures bare { IfOk result (λ files. AreClean ⟦<Self::File as Disk>⟧ files.log files.db
            → AllowsCreation (holds self.old path.now)) }
        ensures refused { IfErr result (λ e. IsRefusedBy (makes_closed config.now) IsUnavailable
            (holds self.old path.now) e.0 e.1) };

    /// Migrates the register at the path from schema 1 to schema 2, with all that it holds. Where there is no file there is no register, and
    /// none is made.
    fn migrate(&mut self, path: &str) -> Result<Leftover<Self::File>, FileFault<Self::File>>
        ensures files { migrated self.old path.now self.new }
        ensures moved { IfOk result (λ left. IsCleanLeft left
            → IsMigrated (holds self.old path.now) left) }
        ensures refused { IfErr result (λ e.
            IsRefusedBy migrates NeedsNone (holds self.old path.now) e.0 e.1) };

    /// Watches the files at the path from now on.
    fn watch(&self, path: &str) -> Result<Self::Watch, WatchFault>
        ensures { IfOk result (λ watch. watches self.now path.now watch) };

    /// What stands in the way of using the register at the path, as far as that shows without a change.
    fn hindrances(&self, path: &str) -> Result<Vec<Hindrance>, NoMemory>
        ensures { IfOk result (λ found. hinders self.now path.now found.items) };
}
