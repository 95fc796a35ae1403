//! The files of this machine at an open register's path: whether they are still those that were there.
ghost use Rattle.std.specs.Prelude.{◌≡◌, IfOk};

use crate::files::watch::{Watch, WatchFault};
use std::fs;
use std::io::{self, ErrorKind};
use std::os::unix::fs::MetadataExt;
use std::path::PathBuf;

/// The database file and the log at a register's path: which files they are, and what was seen of them as they were written
/// last.
#[derive(Drop)]
pub struct LocalWatch<'a> {
    rt: &'a HostRuntime,
    db: String,
    // Beside the file to which the path led first.
    log: String,
    seen: Sight,
    // Whether what the register wrote last was seen.
    noted: bool,
}

/// What is seen of a register's files.
#[derive(Clone, Copy, PartialEq, Eq)]
struct Sight {
    db: Mark,
    log: Mark,
}

impl Sight {
    // The same files, as long and as old as those that are seen now.
    fn written_as(self, now: Sight) -> Sight
        ensures { result ≡ record {
          db = record now.db { device = self.db.device; inode = self.db.inode };
          log = record now.log { device = self.log.device; inode = self.log.inode };
        } }
    {
        Sight {
            db: self.db.written_as(now.db),
            log: self.log.written_as(now.log),
        }
    }
}

/// Which file stands at a path, its length in bytes, and when it was written last, in seconds and nanoseconds.
#[derive(Clone, Copy, PartialEq, Eq)]
struct Mark {
    device: u64,
    inode: u64,
    bytes: u64,
    seconds: i64,
    nanoseconds: i64,
}

impl Mark {
    // The same file, as long and as old as the one that is seen now.
    fn written_as(self, now: Mark) -> Mark
        ensures { result ≡ record now { device = self.device; inode = self.inode } }
    {
        Mark {
            device: self.device,
            inode: self.inode,
            ..now
        }
    }
}

impl<'a> LocalWatch<'a> {
    /// Watches the files at this path from now on.
    pub fn new(rt: &'a HostRuntime, path: &str) -> Result<LocalWatch<'a>, WatchFault>
        ensures { IfOk result (λ watch. watch.db.bytes.items ≡ path.now) }
    {
        let db = String::from_str(rt.alloc(), path).map_err(|_| WatchFault::NoMemory)?;
        let log = log_of(rt, path)?;
        let seen = look(rt, path, &log)?;
        Ok(LocalWatch {
            rt,
            db,
            log,
            seen,
            noted: true,
        })
    }

    // Takes the lengths and times that are seen now.
    fn note(&mut self, now: Sight)
        ensures db { let seen = self.old.seen.db in let now = self.new.seen.db in
            (now.device ≡ seen.device) × (now.inode ≡ seen.inode) }
        ensures log { let seen = self.old.seen.log in let now = self.new.seen.log in
            (now.device ≡ seen.device) × (now.inode ≡ seen.inode) }
        ensures path { self.new.db ≡ self.old.db }
    {
        self.seen = self.seen.written_as(now);
        self.noted = true;
    }
}

impl Watch for LocalWatch<'_> {
    ghost use Rattle.std.specs.Prelude.{◌≡◌};

    ghost stays = { λ old new. ((new.seen.db.device ≡ old.seen.db.device)
        × (new.seen.db.inode ≡ old.seen.db.inode))
        × ((new.seen.log.device ≡ old.seen.log.device)
        × (new.seen.log.inode ≡ old.seen.log.inode)) × (new.db ≡ old.db) };

    fn holds(&mut self) -> bool {
        match look(self.rt, &self.db, &self.log) {
            Ok(now) => {
                if !self.noted {
                    self.note(now);
                }
                now == self.seen
            }
            Err(fault) => fault.kind() != ErrorKind::NotFound,
        }
    }

    // It takes the files' lengths and times, and keeps which files were seen first. So a file that was put in the place of one of these is
    // still told from it. Where they cannot be looked at, the next look takes them.
    fn note_own_writes(&mut self) -> bool {
        self.noted = false;
        self.holds()
    }
}

// The path of the log, which lies beside the file to which this path leads.
fn log_of(rt: &HostRuntime, path: &str) -> io::Result<String> {
    let db: PathBuf = fs::canonicalize(rt, path)?;
    Ok(format!(in rt.alloc(); "{}-wal", db.as_str())?)
}

// What is seen of the file to which a path leads now, and of this log.
fn look(rt: &HostRuntime, path: &str, log: &str) -> io::Result<Sight> {
    Ok(Sight {
        db: mark_of(&fs::metadata(rt, path)?),
        log: mark_of(&fs::symlink_metadata(rt, log)?),
    })
}

// What is seen of a file.
fn mark_of(found: &fs::Metadata) -> Mark {
    Mark {
        device: found.dev(),
        inode: found.ino(),
        bytes: found.len(),
        seconds: found.mtime(),
        nanoseconds: found.mtime_nsec(),
    }
}
