//! The files of registers on this machine.

use crate::files::hindrance::Hindrance;
use crate::files::inspection::find_hindrances;
use crate::files::local_watch::LocalWatch;
use crate::files::registers::Registers;
use crate::files::watch::WatchFault;
use fr_base::{Config, NoMemory};
use fr_desks::{FileDesk, FileFault, file_desk};
use fr_office::Office;
use fr_store::{Store, StoreFault};
use sqlite::{FileFrom, FileStore, Files, Leftover, Start};
use std::alloc::AllocError;
use std::fs::OpenOptions;
use std::io::ErrorKind;
use std::os::unix::fs::OpenOptionsExt;

/// The mode of a file that its owner alone may read and write.
const OWNER_ALONE: u32 = 0o600;

/// The files of the file system. One of them is opened, made or migrated, and that once.
///
/// No contract of the standard library says that a file is the one at the path. So at this type each path holds what was told of the
/// one that is opened, and a clause says of paths no more. That it is the file at the path, and that no other is touched, rests on
/// the system. So does what stands in the way of using a register, and when other files are seen in the place of its own.
#[derive(Drop)]
pub struct LocalRegisters<'a, S> {
    /// What the program may do on its host.
    pub rt: &'a HostRuntime,
    /// Says what the file holds that is opened; none behind that.
    pub start: Option<S>,
    /// The most bytes of pages on each of a register's two shelves.
    pub kept: usize,
}

impl<'a, S: Start> Registers for LocalRegisters<'a, S> {
    ghost use Rattle.std.specs.Prelude.{◌≡◌, ⊤};
    ghost use Rattle.sqlite_wal.specs.Files.{image_at};

    type File = FileFrom<S>;

    type Records = Store<FileStore<FileFrom<S>>>;

    type Watch = LocalWatch<'a>;

    ghost holds = { λ _ _. image_at S.Start };

    ghost opened = { λ _ _ _. ⊤ };

    ghost closed = { λ _ _. ⊤ };

    ghost made = { λ _ _ _ _. ⊤ };

    ghost migrated = { λ _ _ _. ⊤ };

    ghost hinders = { λ _ _ _. ⊤ };

    ghost watches = { λ _ path watch. watch.db.bytes.items ≡ path };

    fn open(&mut self, path: &str) -> Result<FileDesk<S>, FileFault<FileFrom<S>>> {
        match self.start.take() {
            Some(start) => file_desk::open(self.rt, path, start, self.kept),
            None => Err((StoreFault::Unavailable, None)),
        }
    }

    fn close(&mut self, records: Store<FileStore<FileFrom<S>>>) -> Leftover<FileFrom<S>> {
        file_desk::close(Office::new(self.rt.alloc(), records, self.kept))
    }

    // A file that is made for the register is read and written by its owner alone.
    fn create(
        &mut self,
        path: &str,
        config: &Config,
    ) -> Result<Files<FileFrom<S>>, FileFault<FileFrom<S>>> {
        let Some(start) = self.start.take() else {
            return Err((StoreFault::Unavailable, None));
        };
        make_private(self.rt, path);
        file_desk::create(self.rt, path, config, start)
    }

    fn migrate(&mut self, path: &str) -> Result<Leftover<FileFrom<S>>, FileFault<FileFrom<S>>> {
        match self.start.take() {
            Some(start) => file_desk::migrate(self.rt, path, start),
            None => Err((StoreFault::Unavailable, None)),
        }
    }

    fn watch(&self, path: &str) -> Result<LocalWatch<'a>, WatchFault> {
        LocalWatch::new(self.rt, path)
    }

    fn hindrances(&self, path: &str) -> Result<Vec<Hindrance>, NoMemory> {
        match find_hindrances(self.rt, path) {
            Ok(found) => Ok(found),
            Err(error) if error.kind() == ErrorKind::OutOfMemory => Err(AllocError),
            // A file that was there is gone, or cannot be read to its end.
            Err(_) => {
                let mut found = Vec::new(self.rt.alloc());
                found.push(Hindrance::ReadFailed)?;
                Ok(found)
            }
        }
    }
}

// Makes an empty file at the path, if there is none. Nobody but its owner may read or write it: a register's file has all keys.
// The log gets the file's mode. Where the file cannot be made, the register cannot be made either, and that is told.
fn make_private(rt: &HostRuntime, path: &str) {
    let _ = OpenOptions::new()
        .write(true)
        .create_new(true)
        .mode(OWNER_ALONE)
        .open(rt, path);
}
