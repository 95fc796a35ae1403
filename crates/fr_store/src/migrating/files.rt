//! Migrates a register in files, or in the file at a path.

ghost use Rattle.std.specs.Prelude.{IsTrue, IfOk, IfErr};
ghost use Rattle.sqlite_wal.specs.Files.{image_at};
ghost use Rattle.sqlite_wal.specs.Reads.{AreClean};
ghost use Rattle.sqlite.specs.Files.{image_of, IsCleanLeft};
ghost use Rattle.fr_store.specs.Opened.{IsMigrated};
ghost use Rattle.fr_store.specs.Refused.{IsRefusedBy, IsUnavailable, files_alone, given_back, in_files, migrates};

use crate::fault::StoreFault;
use crate::files::{close_connection, connect};
use crate::migrating::migrate_on;
use crate::paths::connect_at;
use sqlite::{FileFrom, Files, Leftover, Options, Start};
use sqlite_disk::Disk;
use std::alloc::Global;
use std::rt::HostRuntime;

/// Makes the register of the schema before that the files hold one of this schema, as `migrate_on` does. A refusal may
/// give the files back.
pub fn migrate<D: Disk + Drop>(
    alloc: Global,
    files: Files<D>,
    options: Options,
) -> Result<Files<D>, (StoreFault, Option<Files<D>>)>
    requires log { IsTrue (D.Disk.is_usable files.log) }
    requires db { IsTrue (D.Disk.is_usable files.db) }
    ensures usable { IfOk result (λ left.
        IsTrue (D.Disk.is_usable left.log) × IsTrue (D.Disk.is_usable left.db)) }
    ensures migrated { IfOk result (λ left. AreClean D.Disk left.log left.db
        → IsMigrated (image_of D.Disk files) (files_alone D.Disk left)) }
    ensures refused { IfErr result (λ e.
        IsRefusedBy (in_files migrates) IsUnavailable (image_of D.Disk files) e.0
        (given_back D.Disk e.1)) }
{
    let mut conn = match connect(alloc, files, options) {
        Ok(conn) => conn,
        Err((fault, left)) => return Err((fault, Some(left))),
    };
    let told = migrate_on(alloc, &mut conn);
    let Some(files) = close_connection(conn) else {
        return Err((StoreFault::Unavailable, None));
    };
    match told {
        Ok(()) => Ok(files),
        Err(fault) => Err((fault, Some(files))),
    }
}

/// Makes the register of the schema before in the file at a path one of this schema, as `migrate_on` does. `start`
/// says what the file held as it was opened. It gives the files back, and a refusal may give what is left of them.
///
/// No clause reaches the path. Where there is no file the refusal is NotARegister, and a database with no table is then
/// there.
pub fn migrate_at<S: Start>(
    rt: &HostRuntime,
    path: &str,
    start: S,
) -> Result<Leftover<FileFrom<S>>, (StoreFault, Option<Leftover<FileFrom<S>>>)>
    ensures migrated { IfOk result (λ left. IsCleanLeft left → IsMigrated (image_at S.Start) left) }
    ensures refused { IfErr result (λ e.
        IsRefusedBy migrates IsUnavailable (image_at S.Start) e.0 e.1) }
{
    let mut conn = match connect_at(rt, path, start) {
        Ok(conn) => conn,
        Err((fault, left)) => return Err((fault, left)),
    };
    let told = migrate_on(rt.alloc(), &mut conn);
    let Some(files) = close_connection(conn) else {
        return Err((StoreFault::Unavailable, None));
    };
    match told {
        Ok(()) => Ok(Leftover::Files(files)),
        Err(fault) => Err((fault, Some(Leftover::Files(files)))),
    }
}
