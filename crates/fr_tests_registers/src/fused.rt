//! Files that fail from some call on, and connections to them.
use crate::reopened::SALT;
use sqlite::{Connection, FileStore, Files, Options};
use sqlite_disk::{Disk, Fuse, Memory};
use std::alloc::Global;
use std::test::Fail;

/// How long a log grows before it is copied into the database's file, where nothing else is asked for.
pub(crate) const USUAL: usize = 1_000;

/// A file that passes so many calls on; each later one fails and changes nothing.
pub(crate) type Fused = Fuse<Memory>;

/// The bytes of a database's file and of its log.
#[derive(Drop)]
pub(crate) struct Image {
    log: Vec<u8>,
    db: Vec<u8>,
}

impl Image {
    /// Two empty files.
    pub(crate) fn empty(alloc: Global) -> Image {
        Image {
            log: Vec::new(alloc),
            db: Vec::new(alloc),
        }
    }

    /// A database's file of these bytes, and an empty log.
    pub(crate) fn of_bytes(alloc: Global, bytes: &[u8]) -> Result<Image, Fail> {
        let mut image = Image::empty(alloc);
        image.db.extend_from_slice(bytes)?;
        Ok(image)
    }

    /// What the files hold.
    pub(crate) fn of(alloc: Global, files: &Files<Fused>) -> Result<Image, Fail> {
        let mut image = Image::empty(alloc);
        image.log.extend_from_slice(files.log.inner().bytes())?;
        image.db.extend_from_slice(files.db.inner().bytes())?;
        Ok(image)
    }

    /// Whether the files hold it.
    pub(crate) fn is_of(&self, files: &Files<Fused>) -> bool {
        self.log.as_slice() == files.log.inner().bytes()
            && self.db.as_slice() == files.db.inner().bytes()
    }
}

/// How many calls each file passes on.
#[derive(Clone, Copy)]
pub(crate) struct Calls {
    log: u64,
    db: u64,
}

/// Each call.
pub(crate) const EACH: Calls = Calls {
    log: u64::MAX,
    db: u64::MAX,
};

/// One of the two files.
#[derive(Clone, Copy)]
pub(crate) enum Fusible {
    Log,
    Database,
}

impl Fusible {
    /// It passes so many calls on, and the other file each.
    pub(crate) fn after(self, calls: u64) -> Calls {
        match self {
            Fusible::Log => Calls { log: calls, ..EACH },
            Fusible::Database => Calls { db: calls, ..EACH },
        }
    }
}

// A file of these bytes.
fn file_of(alloc: Global, bytes: &[u8], calls: u64) -> Result<Fused, Fail> {
    let mut file = Memory::new(alloc);
    file.write_at(0, bytes)?;
    file.sync()?;
    Ok(Fuse::new(file, calls))
}

/// Files of these bytes.
pub(crate) fn files_of(alloc: Global, image: &Image, calls: Calls) -> Result<Files<Fused>, Fail> {
    Ok(Files {
        log: file_of(alloc, image.log.as_slice(), calls.log)?,
        db: file_of(alloc, image.db.as_slice(), calls.db)?,
    })
}

/// How many pages that were read are kept in memory.
const PAGES: usize = 64;

/// How a connection keeps files, with a log that grows so long before it is copied into the database's file.
pub(crate) fn options(checkpoint: usize) -> Options {
    let mut options = Options::new(SALT);
    options.cache_pages = PAGES;
    options.checkpoint_frames = checkpoint;
    options
}

/// The connection to files of these bytes, or the files where it was stopped.
pub(crate) type Attempt = Result<Connection<FileStore<Fused>>, Files<Fused>>;

/// Connects to files of these bytes.
pub(crate) fn connected(
    alloc: Global,
    image: &Image,
    calls: Calls,
    checkpoint: usize,
) -> Result<Attempt, Fail> {
    let files = files_of(alloc, image, calls)?;
    if !files.may_be_used() {
        return Err(Fail::from("no files"));
    }
    Ok(
        match Connection::open_files(alloc, files, options(checkpoint)) {
            Ok(conn) => Ok(conn),
            Err((_, left)) => Err(left.into_files()),
        },
    )
}

/// The connection to files of these bytes, which nothing stops.
pub(crate) fn opened(alloc: Global, image: &Image) -> Result<Connection<FileStore<Fused>>, Fail> {
    match connected(alloc, image, EACH, USUAL)? {
        Ok(conn) => Ok(conn),
        Err(_) => Err(Fail::from("not opened")),
    }
}

/// The connection's files, with the log as it is.
pub(crate) fn files_left(conn: Connection<FileStore<Fused>>) -> Files<Fused> {
    conn.into_store().close()
}

/// Whether the file passes calls on.
pub(crate) fn passes(file: &mut Fused) -> bool {
    file.may_be_used() && file.len().is_ok()
}
