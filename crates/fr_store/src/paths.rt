//! Makes and opens a register in the database file at a path.

ghost use Rattle.std.specs.Prelude.{◌≡◌, IfOk, IfErr, false};
ghost use Rattle.sqlite_wal.specs.Files.{image_at};
ghost use Rattle.sqlite.specs.State.{HasCleanDisk};
ghost use Rattle.sqlite.specs.Files.{file_state};
ghost use Rattle.fr_base.specs.Book.{opening};
ghost use Rattle.fr_store.specs.Opened.{IsConnected, IsMadeIn, IsOpenedIn};
ghost use Rattle.fr_store.specs.Refused.{IsRefusedBy, IsSpared, IsUnavailable, IsUnopened, makes, opens};
ghost use Rattle.fr_store.specs.Store.{IsRegisterFor};
ghost use Rattle.fr_store.specs.StoreFiles.{SurvivesSince, database_of};

use crate::fault::StoreFault;
use crate::files::close_connection;
use crate::store::Store;
use fr_base::Config;
use sqlite::{Connection, Error, ErrorCode, FileFrom, FileStore, Leftover, Start};
use std::rt::HostRuntime;

/// Connects to the database in the file at a path, or to an empty one where there is no file.
pub(crate) fn connect_at<S: Start>(
    rt: &HostRuntime,
    path: &str,
    start: S,
) -> Result<Connection<FileStore<FileFrom<S>>>, (StoreFault, Option<Leftover<FileFrom<S>>>)>
    ensures connected { IfOk result (λ c. HasCleanDisk (file_state c)
        → IsConnected (image_at S.Start) (file_state c)) }
    ensures refused { IfErr result (λ e. IsUnopened IsSpared (image_at S.Start) e.0 e.1) }
{
    match Connection::open_from(rt, path, false, start) {
        Ok(conn) => Ok(conn),
        Err((Error::SqliteFailure(ErrorCode::NotADatabase), Some(left))) => {
            Err((StoreFault::NotARegister, Some(left)))
        }
        Err((_, left)) => Err((StoreFault::Unavailable, left)),
    }
}

impl<S: Start> Store<FileStore<FileFrom<S>>> {
    /// Makes a register of this cluster in the file at a path, or in a new one: all of it, or nothing. The refusal is
    /// NotEmpty only where the file holds one of a register's tables already. `start` says what the file held as it was
    /// opened. A refusal may give back what is left of the files. Files that come back closed hold what they held,
    /// whatever the fault; and what an open after a crash may find in a store that comes back is what they held.
    ///
    /// No clause reaches the path. Other paths than those of files, `:memory:` and `file:..`, are Unavailable.
    pub fn create_at(
        rt: &HostRuntime,
        path: &str,
        config: &Config,
        start: S,
    ) -> Result<Store<FileStore<FileFrom<S>>>, (StoreFault, Option<Leftover<FileFrom<S>>>)>
        ensures made { IfOk result (λ s. HasCleanDisk (file_state s.conn)
            → IsMadeIn (image_at S.Start) config.now (file_state s.conn)) }
        ensures config { IfOk result (λ s. s.config ≡ config.now) }
        ensures outside { IfOk result (λ s. s.conn.in_transaction ≡ false) }
        ensures survives { IfOk result (λ s. SurvivesSince (image_at S.Start) s.conn
            (λ db. IsRegisterFor config.now.cluster (opening config.now) (database_of db))) }
        ensures refused { IfErr result (λ e.
            IsRefusedBy makes IsUnavailable (image_at S.Start) e.0 e.1) }
    {
        let conn = match Connection::open_from(rt, path, false, start) {
            Ok(conn) => conn,
            Err((_, left)) => return Err((StoreFault::Unavailable, left)),
        };
        match Store::create_on(rt.alloc(), conn, config) {
            Ok(store) => Ok(store),
            Err((fault, conn)) => match close_connection(conn) {
                Some(files) => Err((fault, Some(Leftover::Files(files)))),
                None => Err((StoreFault::Unavailable, None)),
            },
        }
    }

    /// The register in the file at a path. `start` says what the file held as it was opened. The faults are those of
    /// `open`. A refusal may give back what is left of the files, of which the same is so as of `create_at`.
    ///
    /// No clause reaches the path. Where there is no file the refusal is NotARegister, and a database with no table is
    /// then there. Other paths than those of files are Unavailable.
    pub fn open_at(
        rt: &HostRuntime,
        path: &str,
        start: S,
    ) -> Result<Store<FileStore<FileFrom<S>>>, (StoreFault, Option<Leftover<FileFrom<S>>>)>
        ensures opened { IfOk result (λ s. HasCleanDisk (file_state s.conn)
            → IsOpenedIn (image_at S.Start) s.config (file_state s.conn)) }
        ensures outside { IfOk result (λ s. s.conn.in_transaction ≡ false) }
        ensures survives { IfOk result (λ s. SurvivesSince (image_at S.Start) s.conn (λ _. ⊥)) }
        ensures refused { IfErr result (λ e.
            IsRefusedBy opens IsUnavailable (image_at S.Start) e.0 e.1) }
    {
        let conn = match connect_at(rt, path, start) {
            Ok(conn) => conn,
            Err((fault, left)) => return Err((fault, left)),
        };
        match Store::open_on(rt.alloc(), conn) {
            Ok(store) => Ok(store),
            Err((fault, conn)) => match close_connection(conn) {
                Some(files) => Err((fault, Some(Leftover::Files(files)))),
                None => Err((StoreFault::Unavailable, None)),
            },
        }
    }
}
