//! Looks at a register's file and what lies beside it, for what stands in the way of using it. Nothing is changed.
//!
//! No contract of the standard library says what the system tells of a file. So no clause says here which hindrances are found.
use crate::files::hindrance::Hindrance;
use fr_store::{MemoryFile, Store, StoreFault};
use os::RangeLock;
use sqlite::{Files, Options};
use sqlite_disk::Disk;
use std::alloc::Global;
use std::fs::{self, File, Metadata, OpenOptions};
use std::io::{self, ErrorKind, Read};
use std::os::fd::AsRawFd;
use std::os::unix::fs::MetadataExt;
use std::path::Path;

/// How a database of SQLite begins.
const DATABASE: &[u8] = b"SQLite format 3\0";

/// Where SQLite locks a database, and how many bytes.
const LOCKS: (u64, u64) = (1 << 30, 512);

/// What stands in the way of using the register at this path, in the order in which a command meets it.
pub(crate) fn find_hindrances(rt: &HostRuntime, db: &str) -> io::Result<Vec<Hindrance>> {
    let mut found = Vec::new(rt.alloc());
    let Some(seen) = seen_at(rt, db, &mut found)? else {
        return Ok(found);
    };
    if seen.nlink() != 1 {
        found.push(Hindrance::SecondName)?;
    }
    // Beside the file to which the path leads.
    let real = fs::canonicalize(rt, db)?;
    let real = real.as_str();
    look_at_locks(rt, real, &mut found)?;
    look_at_journal(rt, real, &mut found)?;
    look_at_log(rt, real, &mut found)?;
    // What another program has may change as it is read.
    if found.is_empty() {
        look_inside(rt, real, &mut found)?;
    }
    Ok(found)
}

// What is seen of the file at the path, if there is a file.
fn seen_at(
    rt: &HostRuntime,
    path: &str,
    found: &mut Vec<Hindrance>,
) -> io::Result<Option<Metadata>> {
    let hindrance = match fs::metadata(rt, path) {
        Ok(seen) if seen.is_file() => return Ok(Some(seen)),
        Ok(_) => Hindrance::NoFile,
        Err(error) if error.kind() == ErrorKind::NotFound => Hindrance::Missing,
        Err(error) if error.kind() == ErrorKind::OutOfMemory => return Err(error),
        Err(_) => Hindrance::Hidden,
    };
    found.push(hindrance)?;
    Ok(None)
}

// Whether the file may be read and written, and whether a program has it.
fn look_at_locks(rt: &HostRuntime, path: &str, found: &mut Vec<Hindrance>) -> io::Result<()> {
    if File::open(rt, path).is_err() {
        found.push(Hindrance::Unreadable)?;
    }
    match OpenOptions::new().read(true).write(true).open(rt, path) {
        Ok(file) => {
            if is_locked(&file) {
                found.push(Hindrance::InUse)?;
            }
        }
        Err(_) => found.push(Hindrance::Unwritable)?,
    }
    Ok(())
}

// Whether a program has locked the file. The lock with which that is tried ends with the file's reader.
fn is_locked(file: &File) -> bool {
    let (start, length) = LOCKS;
    os::try_lock_range(file.as_raw_fd(), RangeLock::Exclusive, start, length) != 0
}

// Whether a journal lies beside the file that has to be played back.
fn look_at_journal(rt: &HostRuntime, real: &str, found: &mut Vec<Hindrance>) -> io::Result<()> {
    let path = format!(in rt.alloc(); "{real}-journal")?;
    let is_hot = match fs::symlink_metadata(rt, path.as_str()) {
        Ok(seen) => !seen.is_file() || begins(rt, path.as_str()),
        Err(_) => false,
    };
    if is_hot {
        found.push(Hindrance::Journal)?;
    }
    Ok(())
}

// Whether the file has a first byte that is not zero, or cannot be read.
fn begins(rt: &HostRuntime, path: &str) -> bool {
    let Ok(mut file) = File::open(rt, path) else {
        return true;
    };
    let mut first = [0];
    match file.read(&mut first) {
        Ok(count) => count == 1 && first[0] != 0,
        Err(_) => true,
    }
}

// Whether the log is a file that may be read and written; or, where there is none, whether it may be made.
fn look_at_log(rt: &HostRuntime, real: &str, found: &mut Vec<Hindrance>) -> io::Result<()> {
    let path = format!(in rt.alloc(); "{real}-wal")?;
    let Ok(seen) = fs::symlink_metadata(rt, path.as_str()) else {
        if !may_make_beside(real) {
            found.push(Hindrance::ShutFolder)?;
        }
        return Ok(());
    };
    if !seen.is_file() {
        found.push(Hindrance::LogNoFile)?;
        return Ok(());
    }
    if seen.nlink() != 1 {
        found.push(Hindrance::LogSecondName)?;
    }
    match OpenOptions::new()
        .read(true)
        .write(true)
        .open(rt, path.as_str())
    {
        Ok(file) => {
            // Who has the register has its log too.
            if is_locked(&file) && !found.contains(&Hindrance::InUse) {
                found.push(Hindrance::LogInUse)?;
            }
        }
        Err(_) => found.push(Hindrance::ShutLog)?,
    }
    Ok(())
}

// Whether a file may be made in the folder of this one.
fn may_make_beside(real: &str) -> bool {
    let folder = match Path::new(real).parent() {
        Some(folder) => folder.as_str(),
        None => "/",
    };
    let bytes = folder.as_bytes();
    if bytes.len() >= libc::PATH_MAX {
        return false;
    }
    let mut path = [0u8; libc::PATH_MAX];
    path[..bytes.len()].copy_from_slice(bytes);
    path[libc::PATH_MAX - 1] = 0;
    // SAFETY: the text ends within the array.
    unsafe { libc::access(&path, libc::R_OK | libc::W_OK) == 0 }
}

// Whether the file and its log hold a register. It is opened on a copy of them in memory.
fn look_inside(rt: &HostRuntime, real: &str, found: &mut Vec<Hindrance>) -> io::Result<()> {
    let alloc = rt.alloc();
    let bytes = fs::read(rt, real)?;
    if !bytes.starts_with(DATABASE) {
        found.push(Hindrance::NoDatabase)?;
        return Ok(());
    }
    let path = format!(in alloc; "{real}-wal")?;
    let log = match fs::read(rt, path.as_str()) {
        Ok(log) => log,
        Err(error) if error.kind() == ErrorKind::NotFound => Vec::new(alloc),
        Err(error) => return Err(error),
    };
    if let Some(hindrance) = fault_of(alloc, &bytes, &log)? {
        found.push(hindrance)?;
    }
    Ok(())
}

// Why no register is opened on a file and a log with these bytes.
fn fault_of(alloc: Global, db: &[u8], log: &[u8]) -> io::Result<Option<Hindrance>> {
    let files = Files {
        log: copy_of(alloc, log)?,
        db: copy_of(alloc, db)?,
    };
    match Store::open(alloc, files, Options::new(1)) {
        Ok(_) => Ok(None),
        Err((StoreFault::NotARegister, _)) => Ok(Some(Hindrance::NoRegister)),
        Err((StoreFault::WrongSchema, _)) => Ok(Some(Hindrance::OtherSchema)),
        Err(_) => Ok(Some(Hindrance::Damaged)),
    }
}

// A file in memory with these bytes.
fn copy_of(alloc: Global, bytes: &[u8]) -> io::Result<MemoryFile> {
    let mut file = MemoryFile::new(alloc);
    file.write_at(0, bytes)?;
    Ok(file)
}
