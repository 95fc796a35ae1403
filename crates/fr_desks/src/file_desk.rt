//! Registers in files: made, migrated, opened as a desk that the other commands ask, and closed.
ghost use Rattle.std.specs.Prelude.{[], ◌∷◌, List, IfErr, IfOk, IsTrue};
ghost use Rattle.fr_base.specs.Book.{Book, opening};
ghost use Rattle.fr_base.specs.Cluster.{Cluster};
ghost use Rattle.fr_desks.specs.FileDesk.{AreGivenUp, FindsHeld, FindsOneOf, FindsRegister, IsLeftWith, LeavesBook};
ghost use Rattle.fr_office.specs.Crashed.{leaves_of, serves_of};
ghost use Rattle.fr_store.specs.Opened.{IsMigrated};
ghost use Rattle.fr_store.specs.Opening.{AllowsCreation};
ghost use Rattle.fr_store.specs.Refused.{IsRefusedBy, IsUnavailable, NeedsNone, makes_closed, migrates, opens};
ghost use Rattle.sqlite.specs.Files.{IsCleanLeft};
ghost use Rattle.sqlite_store.specs.FileStore.{view};
ghost use Rattle.sqlite_wal.specs.Files.{image_at};
ghost use Rattle.sqlite_wal.specs.Reads.{AreClean};

use fr_base::{Config, Desk};
use fr_office::{MAX_BYTES, Office};
use fr_store::{Store, StoreFault, migrate_at};
use fr_world::Records;
use sqlite::{FileFrom, FileStore, Files, Leftover, Start};
use sqlite_disk::Disk;
use std::fs;

/// The desk of the register in a file. `S` says what the file and its log held as they were opened.
pub type FileDesk<S> = Office<Store<FileStore<FileFrom<S>>>>;

/// What is left of a register's file and its log: nothing where they were not opened, or were given up.
pub type Left<D> = Option<Leftover<D>>;

/// Why there is no register to be had in a file, and what is left of it.
pub type FileFault<D> = (StoreFault, Left<D>);

/// Makes the register of this cluster in the file at a path, which has none, and closes it: the files that are
/// left hold the book of a new register. Where they fail to close, their store is left: what is opened after a crash is
/// then the new register. `start` says what the file held as it was opened. No clause reaches the path.
pub fn create<S: Start>(
    rt: &HostRuntime,
    path: &str,
    config: &Config,
    start: S,
) -> Result<Files<FileFrom<S>>, FileFault<FileFrom<S>>>
    ensures book { IfOk result (λ files.
        LeavesBook ⟦<FileFrom<S> as Disk>⟧ files config.now.cluster (opening config.now)) }
    ensures bare { IfOk result (λ files. AreClean ⟦<FileFrom<S> as Disk>⟧ files.log files.db
        → AllowsCreation (image_at S.Start)) }
    ensures refused { IfErr result (λ e.
        IsRefusedBy (makes_closed config.now) IsUnavailable (image_at S.Start) e.0 e.1) }
{
    let desk = new_desk(rt, path, config, start)?;
    match close_register(desk) {
        Ok(files) => Ok(files),
        Err(store) => Err((StoreFault::Unavailable, Some(Leftover::Store(store)))),
    }
}

// The desk of a new register in the file at a path.
fn new_desk<S: Start>(
    rt: &HostRuntime,
    path: &str,
    config: &Config,
    start: S,
) -> Result<FileDesk<S>, FileFault<FileFrom<S>>>
    ensures stands { let it = ⟦<FileDesk<S> as Desk>⟧ in IfOk result (λ desk. it.clean desk
        → it.stands desk config.now.cluster (opening config.now)) }
    ensures leaves { IfOk result (λ desk. ⟦<FileDesk<S> as Desk>⟧.clean desk
        → leaves_of ⟦<Store<FileStore<FileFrom<S>>> as Records>⟧.leaves desk config.now.cluster
        (opening config.now ∷ [])) }
    ensures bare { let it = ⟦<FileDesk<S> as Desk>⟧ in IfOk result (λ desk. it.clean desk
        → AllowsCreation (image_at S.Start)) }
    ensures refused { IfErr result (λ e.
        IsRefusedBy (makes_closed config.now) IsUnavailable (image_at S.Start) e.0 e.1) }
{
    // Gives the proof that the suppliers are in order.
    let _formed = config.params();
    match Store::create_at(rt, path, config, start) {
        Ok(store) => Ok(Office::new(rt.alloc(), store, MAX_BYTES)),
        Err(refused) => Err(refused),
    }
}

/// Migrates the register in the file at a path from schema 1 to schema 2, with all that it holds. `start` says what the
/// file held as it was opened. No clause reaches the path: where there is no file there is no register, and none is made.
pub fn migrate<S: Start>(
    rt: &HostRuntime,
    path: &str,
    start: S,
) -> Result<Leftover<FileFrom<S>>, FileFault<FileFrom<S>>>
    ensures migrated { IfOk result (λ left. IsCleanLeft left → IsMigrated (image_at S.Start) left) }
    ensures refused { IfErr result (λ e.
        IsRefusedBy migrates NeedsNone (image_at S.Start) e.0 e.1) }
{
    if let Ok(false) = fs::exists(rt, path) {
        return Err((StoreFault::NotARegister, None));
    }
    match migrate_at(rt, path, start) {
        Ok(left) => Ok(left),
        Err(refused) => Err(refused),
    }
}

/// The desk of the register in the file at a path, which stands for the book that the file holds, or that a crash left in
/// it. Beside the page in use it keeps pages on two shelves, each of at most `kept` bytes or one page. `start` says what the
/// file held as it was opened. No clause reaches the path: where there is no file there is no register, and none is made.
pub fn open<S: Start>(
    rt: &HostRuntime,
    path: &str,
    start: S,
    kept: usize,
) -> Result<FileDesk<S>, FileFault<FileFrom<S>>>
    ensures found { let it = ⟦<FileDesk<S> as Desk>⟧ in IfOk result (λ desk.
        FindsHeld (image_at S.Start) (it.clean desk) (it.stands desk)) }
    ensures reads { let it = ⟦<FileDesk<S> as Desk>⟧ in IfOk result (λ desk.
        FindsRegister (image_at S.Start) (it.clean desk) (it.stands desk)) }
    ensures serves { IfOk result (λ desk. ⟦<FileDesk<S> as Desk>⟧.clean desk
        → serves_of ⟦<Store<FileStore<FileFrom<S>>> as Records>⟧.serves desk) }
    ensures refused { IfErr result (λ e. IsRefusedBy opens NeedsNone (image_at S.Start) e.0 e.1) }
{
    if let Ok(false) = fs::exists(rt, path) {
        return Err((StoreFault::NotARegister, None));
    }
    match Store::open_at(rt, path, start) {
        Ok(store) => Ok(Office::new(rt.alloc(), store, kept)),
        Err(refused) => Err(refused),
    }
}

/// Closes the register, and gives what is left of the files. Where they close, they hold its book as long as nobody else
/// writes to them, and so does what a crash leaves of them. Where they fail to close, their store is left: what is opened
/// after a crash is then the register as it stood, or after one request more.
pub fn close<S: Start>(desk: FileDesk<S>) -> Leftover<FileFrom<S>>
    ensures clean { IsCleanLeft result → ⟦<FileDesk<S> as Desk>⟧.clean desk }
    ensures book { (c : Cluster) (b : Book) → ⟦<FileDesk<S> as Desk>⟧.stands desk c b
        → IsLeftWith result c b }
{
    match close_register(desk) {
        Ok(files) => Leftover::Files(files),
        Err(store) => Leftover::Store(store),
    }
}

// Closes the register: its files, or the store that is left of them where they fail to close.
fn close_register<S: Start>(desk: FileDesk<S>) -> Result<Files<FileFrom<S>>, FileStore<FileFrom<S>>>
    ensures clean { IfOk result (λ files. AreClean ⟦<FileFrom<S> as Disk>⟧ files.log files.db
        → ⟦<FileDesk<S> as Desk>⟧.clean desk) }
    ensures still { IfErr result
        (λ it. IsTrue (view it).is_clean → ⟦<FileDesk<S> as Desk>⟧.clean desk) }
    ensures left { IfErr result (λ it. (c : Cluster) (books : List Book)
        → leaves_of ⟦<Store<FileStore<FileFrom<S>>> as Records>⟧.leaves desk c books
        → FindsOneOf it c books) }
    ensures book { IfOk result (λ files. (c : Cluster) (b : Book)
        → ⟦<FileDesk<S> as Desk>⟧.stands desk c b → LeavesBook ⟦<FileFrom<S> as Disk>⟧ files c b) }
{
    let conn = desk.into_records().into_connection();
    // Gives the proof that what is committed is a database.
    let _schema = conn.schema();
    match conn.close_files() {
        Ok(files) => Ok(files),
        Err((_, store)) => Err(store),
    }
}

/// Gives the register's files back as they are, as a stop of the program leaves them, with nothing done to them. What a
/// crash leaves of them is a register that it might have left before.
pub fn give_up<S: Start>(desk: FileDesk<S>) -> Files<FileFrom<S>>
    ensures { AreGivenUp ⟦<FileFrom<S> as Disk>⟧
        (leaves_of ⟦<Store<FileStore<FileFrom<S>>> as Records>⟧.leaves desk) result }
{
    desk.into_records().give_up()
}
