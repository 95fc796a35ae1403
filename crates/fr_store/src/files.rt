//! Makes and opens a register in a database file and its log, and closes both.

ghost use Rattle.std.specs.Prelude.{◌≡◌, IsTrue, IfOk, IfErr, IfSome, Some, false};
ghost use Rattle.sqlite_wal.specs.Files.{outcomes};
ghost use Rattle.sqlite_wal.specs.Reads.{AreClean};
ghost use Rattle.sqlite.specs.State.{HasCleanDisk};
ghost use Rattle.sqlite.specs.Files.{file_state, image_of};
ghost use Rattle.fr_base.specs.Book.{opening};
ghost use Rattle.fr_store.specs.Crashes.{HoldsOne, LeavesOnly};
ghost use Rattle.fr_store.specs.Opened.{HoldCommitted, IsConnected, IsMadeIn, IsOpenedIn};
ghost use Rattle.fr_store.specs.Refused.{IsOther, IsRefusedBy, IsUnavailable, IsUnopened, files_alone, given_back, in_files, makes, opens};
ghost use Rattle.fr_store.specs.Store.{IsRegisterFor, IsRegisterOf};
ghost use Rattle.fr_store.specs.StoreFiles.{HoldsRegister, KeepsBook, SurvivesSince, database_of};

use crate::fault::StoreFault;
use crate::store::Store;
use fr_base::Config;
use sqlite::{Connection, Error, ErrorCode, FileStore, Files, Options};
use sqlite_disk::Disk;
use std::alloc::Global;

/// Closes the connection and gives the files back. The database file has each commit.
pub(crate) fn close_connection<D: Disk + Drop>(conn: Connection<FileStore<D>>) -> Option<Files<D>>
    ensures usable { IfSome result (λ files.
        IsTrue (D.Disk.is_usable files.log) × IsTrue (D.Disk.is_usable files.db)) }
    ensures closed { IfSome result (λ files. AreClean D.Disk files.log files.db
        → HoldCommitted D.Disk files (file_state conn)) }
{
    let _schema = conn.schema();
    match conn.close_files() {
        Ok(files) => Some(files),
        Err((_, store)) => {
            drop(store.close());
            None
        }
    }
}

/// Connects to the database that the files hold, or to an empty one where they hold nothing.
// What a crash leaves of files that are refused here is not proved. What the kit says of a refused
// open lacks three facts. First: pages are taken to have sums only where the first page says so, but
// the converse is not said. So the size of a page that the files held may be another than the one
// that was taken. Second: the store is not said to be numbered, as `opens_again` needs it. Third:
// that an image is nothing, and that it holds a database, are not shown to exclude each other.
pub(crate) fn connect<D: Disk + Drop>(
    alloc: Global,
    files: Files<D>,
    options: Options,
) -> Result<Connection<FileStore<D>>, (StoreFault, Files<D>)>
    requires log { IsTrue (D.Disk.is_usable files.log) }
    requires db { IsTrue (D.Disk.is_usable files.db) }
    ensures connected { IfOk result (λ c. HasCleanDisk (file_state c)
        → IsConnected (image_of D.Disk files) (file_state c)) }
    ensures honest { IfOk result (λ c. HasCleanDisk (file_state c)
        → AreClean D.Disk files.log files.db) }
    ensures refused { IfErr result (λ e.
        IsUnopened IsOther (image_of D.Disk files) e.0 (Some (files_alone D.Disk e.1))) }
{
    match Connection::open_files(alloc, files, options) {
        Ok(conn) => Ok(conn),
        Err((Error::SqliteFailure(ErrorCode::NotADatabase), left)) => {
            Err((StoreFault::NotARegister, left.into_files()))
        }
        Err((_, left)) => Err((StoreFault::Unavailable, left.into_files())),
    }
}

impl<D: Disk + Drop> Store<FileStore<D>> {
    /// Gives the files back. The database file has each commit.
    pub fn close(self) -> Result<Files<D>, StoreFault>
        ensures usable { IfOk result (λ files.
            IsTrue (D.Disk.is_usable files.log) × IsTrue (D.Disk.is_usable files.db)) }
        ensures clean { let last = file_state self.conn in
            IfOk result (λ files. AreClean D.Disk files.log files.db
            → HasCleanDisk last × IsTrue last.is_open) }
        ensures held { let last = file_state self.conn in
            IfOk result (λ files. AreClean D.Disk files.log files.db
            → IsRegisterOf self.config last.committed
            → HoldsRegister self.config (image_of D.Disk files) last.committed.trees) }
        ensures book { let last = file_state self.conn in
            IfOk result (λ files. AreClean D.Disk files.log files.db
            → KeepsBook last.committed (image_of D.Disk files)) }
        ensures survives { let last = file_state self.conn in
            IfOk result (λ files. AreClean D.Disk files.log files.db
            → (image : _) → outcomes D.Disk files.log files.db image
            → KeepsBook last.committed image) }
        ensures told { IfErr result IsUnavailable }
    {
        match close_connection(self.into_connection()) {
            Some(files) => Ok(files),
            None => Err(StoreFault::Unavailable),
        }
    }

    /// Gives the files back as they are. What a crash leaves of them holds a register that it might
    /// have left before.
    pub fn give_up(self) -> Files<D>
        ensures left { AreClean D.Disk result.log result.db
            → (image : _) → outcomes D.Disk result.log result.db image
            → (c : _) (books : _) → LeavesOnly (file_state self.conn) c books
            → ∥ HoldsOne c books image ∥₁ }
    {
        self.into_connection().into_store().close()
    }

    /// Makes a register of this cluster in files that hold no table: all of it, or nothing. The refusal is NotEmpty
    /// only where one of a register's tables is found in them already; then they hold what they held, and so does what
    /// a crash leaves. Else it is Unavailable. It may give the files back, so that the caller can try again. The log's
    /// salts need a seed, which `options` give, since files alone give none.
    pub fn create(
        alloc: Global,
        files: Files<D>,
        config: &Config,
        options: Options,
    ) -> Result<Store<FileStore<D>>, (StoreFault, Option<Files<D>>)>
        requires log { IsTrue (D.Disk.is_usable files.log) }
        requires db { IsTrue (D.Disk.is_usable files.db) }
        ensures made { IfOk result (λ s. HasCleanDisk (file_state s.conn)
            → IsMadeIn (image_of D.Disk files) config.now (file_state s.conn)) }
        ensures config { IfOk result (λ s. s.config ≡ config.now) }
        ensures honest { IfOk result (λ s. HasCleanDisk (file_state s.conn)
            → AreClean D.Disk files.log files.db) }
        ensures outside { IfOk result (λ s. s.conn.in_transaction ≡ false) }
        ensures survives { IfOk result (λ s. SurvivesSince (image_of D.Disk files) s.conn
            (λ db. IsRegisterFor config.now.cluster (opening config.now) (database_of db))) }
        ensures refused { IfErr result (λ e.
            IsRefusedBy (in_files makes) IsUnavailable (image_of D.Disk files) e.0
            (given_back D.Disk e.1)) }
    {
        let conn = match connect(alloc, files, options) {
            Ok(conn) => conn,
            Err((_, left)) => return Err((StoreFault::Unavailable, Some(left))),
        };
        match Store::create_on(alloc, conn, config) {
            Ok(store) => Ok(store),
            Err((fault, conn)) => match close_connection(conn) {
                Some(files) => Err((fault, Some(files))),
                None => Err((StoreFault::Unavailable, None)),
            },
        }
    }

    /// The register that the files hold. The refusal is NotARegister only where they hold no database, or one that does
    /// not say one number of its schema, and WrongSchema only where that is another than this version's; then they hold
    /// what they held, and so does what a crash leaves. Else it is Unavailable. It may give the files back.
    pub fn open(
        alloc: Global,
        files: Files<D>,
        options: Options,
    ) -> Result<Store<FileStore<D>>, (StoreFault, Option<Files<D>>)>
        requires log { IsTrue (D.Disk.is_usable files.log) }
        requires db { IsTrue (D.Disk.is_usable files.db) }
        ensures opened { IfOk result (λ s. HasCleanDisk (file_state s.conn)
            → IsOpenedIn (image_of D.Disk files) s.config (file_state s.conn)) }
        ensures honest { IfOk result (λ s. HasCleanDisk (file_state s.conn)
            → AreClean D.Disk files.log files.db) }
        ensures outside { IfOk result (λ s. s.conn.in_transaction ≡ false) }
        ensures survives { IfOk result (λ s.
            SurvivesSince (image_of D.Disk files) s.conn (λ _. ⊥)) }
        ensures refused { IfErr result (λ e.
            IsRefusedBy (in_files opens) IsUnavailable (image_of D.Disk files) e.0
            (given_back D.Disk e.1)) }
    {
        let conn = match connect(alloc, files, options) {
            Ok(conn) => conn,
            Err((fault, left)) => return Err((fault, Some(left))),
        };
        match Store::open_on(alloc, conn) {
            Ok(store) => Ok(store),
            Err((fault, conn)) => match close_connection(conn) {
                Some(files) => Err((fault, Some(files))),
                None => Err((StoreFault::Unavailable, None)),
            },
        }
    }
}
