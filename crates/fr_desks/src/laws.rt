//! Laws of registers in files: one that was made, or closed, and is opened then has the same book. One that is opened after
//! a crash is the register after all that was answered, or after one request more.
ghost use Rattle.fr_desks.specs.Laws.{CrashIsFound, LeftIsFound, MadeIsFound, StoppedIsFound};
ghost use Rattle.fr_desks.specs.Sessions.{SessionLeads, SessionsAreKept};
ghost use Rattle.fr_office.specs.Crashed.{leaves_of, serves_of};
ghost use Rattle.fr_office.specs.KeptPages.{StandsWarm};
ghost use Rattle.sqlite_wal.specs.Files.{image_at};

use crate::file_desk::FileDesk;
use fr_base::Desk;
use fr_office::Office;
use fr_store::Store;
use fr_world::Records;
use sqlite::{FileStore, Start};
use sqlite_disk::Disk;

/// A register that was closed and is opened again has the same book, after a crash too.
pub fn left_is_found<D: Disk, S: Start>()
    ensures { LeftIsFound D.Disk (image_at S.Start) ⟦<FileDesk<S> as Desk>⟧.clean
        ⟦<FileDesk<S> as Desk>⟧.stands }
{}

/// A register that was made and is opened then has the book of a new register.
pub fn made_is_found<D: Disk, S: Start>()
    ensures { MadeIsFound D.Disk (image_at S.Start) ⟦<FileDesk<S> as Desk>⟧.clean
        ⟦<FileDesk<S> as Desk>⟧.stands }
{}

/// Whatever is asked of a register in files, and wherever a crash falls: what is opened afterwards is the register after
/// all that was answered, or after one request more, which had been answered `Unavailable`; each supplier was answered
/// as if it were alone, and at most one frame is sent in a cell.
pub fn crash_is_found<D: Disk, S: Start>()
    ensures { CrashIsFound D.Disk (StandsWarm ⟦<Store<FileStore<D>> as Records>⟧.stands)
        (serves_of ⟦<Store<FileStore<D>> as Records>⟧.serves)
        (leaves_of ⟦<Store<FileStore<D>> as Records>⟧.leaves) (image_at S.Start)
        ⟦<FileDesk<S> as Desk>⟧.clean ⟦<FileDesk<S> as Desk>⟧.stands }
{}

/// Whatever job was done at a register in files, and wherever a crash falls: what is opened afterwards has the book for
/// which the register stood, with all that was answered, or the one after one request more.
pub fn stopped_is_found<D: Disk, S: Start>()
    ensures { StoppedIsFound D.Disk ⟦<Office<Store<FileStore<D>>> as Desk>⟧.stands
        (leaves_of ⟦<Store<FileStore<D>> as Records>⟧.leaves) (image_at S.Start)
        ⟦<FileDesk<S> as Desk>⟧.clean ⟦<FileDesk<S> as Desk>⟧.stands }
{}

/// A session at a register's files leads from the book that they held to the one that they hold next, whether they are closed or
/// a crash comes: the book after all that was answered, or after one request more, which had been answered `Unavailable`.
pub fn session_leads<D: Disk, S: Start>()
    ensures { SessionLeads D.Disk
        (StandsWarm ⟦<Store<FileStore<D>> as Records>⟧.stands)
        ⟦<Office<Store<FileStore<D>>> as Desk>⟧.stands
        (leaves_of ⟦<Store<FileStore<D>> as Records>⟧.leaves)
        (serves_of ⟦<Store<FileStore<D>> as Records>⟧.serves)
        ⟦<Office<Store<FileStore<D>>> as Desk>⟧.clean (image_at S.Start) }
{}

/// So do sessions, one after another, with crashes in them and between them: what the files hold at last is the book after all
/// that was answered, and at the end of each session at most one request more; to each supplier all was answered as if
/// it were alone, and at most one frame is sent in a cell.
pub fn sessions_are_kept()
    ensures { SessionsAreKept }
{}
