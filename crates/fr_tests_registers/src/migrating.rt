//! Tests of `fr_store`: a register of the schema before, migrated. The check would let pass a migration that is always
//! `Unavailable`, though nothing fails; and tables of the schema before that are not as they were made.
use crate::asks::{DONE, FIRST, Line, config};
use crate::deeds::{Course, Deed, Left, stops};
use crate::fused::{EACH, Fused, Fusible, Image, USUAL, files_left, files_of, opened, options};
use crate::looking::{BEFORE, answers_of, book_of};
use crate::stores::{after, created, found};
use fr_base::Config;
use fr_store::{Store, StoreFault, migrate, migrate_on};
use sqlite::{Alter, Connection, FileStore, params};
use std::alloc::Global;
use std::test::Fail;

/// An import without rows.
const IMPORT: Line = (
    "supplier01",
    r#"{"do":"import","variant":"v1","label":"a","body":"frame,node,slot,channels,base,repetition\n"}"#,
    r#"{"ok":"imported","rows":0}"#,
);

/// After the first four requests: the frame is placed and has a signal, and a variant is opened from its.
const PARENT: [Line; 5] = [
    (
        "supplier01",
        r#"{"do":"place","variant":"v1","frame":"f1","slot":1,"channels":"A","base":0,"repetition":2}"#,
        DONE,
    ),
    (
        "supplier01",
        r#"{"do":"add_signal","variant":"v1","frame":"f1","signal":"x","start":0,"length":8,"order":"little"}"#,
        DONE,
    ),
    IMPORT,
    ("integrator1", r#"{"do":"release","variant":"v1"}"#, DONE),
    (
        "integrator1",
        r#"{"do":"open_variant","variant":"v2","from":"v1"}"#,
        DONE,
    ),
];

/// There the frame changes, and a third variant is opened.
const CHILD: [Line; 3] = [
    (
        "supplier01",
        r#"{"do":"place","variant":"v2","frame":"f1","slot":1,"channels":"A","base":1,"repetition":2}"#,
        DONE,
    ),
    ("integrator1", r#"{"do":"release","variant":"v2"}"#, DONE),
    (
        "integrator1",
        r#"{"do":"open_variant","variant":"v3","from":"v2"}"#,
        DONE,
    ),
];

/// There it is dropped, added and dropped again.
const GRANDCHILD: [Line; 3] = [
    (
        "supplier01",
        r#"{"do":"drop_frame","variant":"v3","frame":"f1"}"#,
        DONE,
    ),
    (
        "supplier01",
        r#"{"do":"add_frame","variant":"v3","frame":"f1","node":"n1"}"#,
        DONE,
    ),
    (
        "supplier01",
        r#"{"do":"drop_frame","variant":"v3","frame":"f1"}"#,
        DONE,
    ),
];

/// What there is then.
const LOOKS: [Line; 4] = [
    (
        "supplier01",
        r#"{"do":"gaps","variant":"v1"}"#,
        r#"{"lines":["GAP     200 f1"],"ok":"gaps"}"#,
    ),
    (
        "integrator1",
        r#"{"do":"frames","variant":"v2"}"#,
        r#"{"lines":["FRAME f1 n1 s1","AT 0001 A 00 02","AT 0001 A 01 02"],"ok":"frames"}"#,
    ),
    (
        "supplier01",
        r#"{"do":"layout","variant":"v2","frame":"f1"}"#,
        r#"{"lines":["0000 08 little x"],"ok":"layout"}"#,
    ),
    (
        "supplier01",
        r#"{"do":"frames","variant":"v3"}"#,
        r#"{"lines":[],"ok":"frames"}"#,
    ),
];

/// How a variant that was just opened has all of its parent's frames copied.
const COPIES: [&str; 4] = [
    "UPDATE variants SET overlay = 0 WHERE name = ?2 AND parent = ?1",
    "INSERT INTO frames (variant, supplier, name, node) SELECT ?2, supplier, name, node FROM frames WHERE variant = ?1",
    "INSERT INTO placements (variant, supplier, frame, slot, channels, base, repetition) SELECT ?2, supplier, frame, slot, channels, base, repetition FROM placements WHERE variant = ?1",
    "INSERT INTO signals (variant, supplier, frame, name, start, length, big) SELECT ?2, supplier, frame, name, start, length, big FROM signals WHERE variant = ?1",
];

/// How a register goes back to the schema before.
const BACK: [&str; 3] = [
    "INSERT INTO cluster (id, static_slots, slot_macroticks, dynamic_macroticks, symbol_macroticks, idle_macroticks, macroticks_per_cycle, payload_words, channels, integrator) SELECT id, static_slots, slot_macroticks, dynamic_macroticks, symbol_macroticks, idle_macroticks, macroticks_per_cycle, payload_words, channels, integrator FROM cluster2",
    "DROP TABLE cluster2",
    "UPDATE register SET schema = 1",
];

/// How a variant that is opened from another has the frames that it shares with it.
#[derive(Clone, Copy)]
enum Kept {
    Overlaid,
    Copied,
}

impl Kept {
    // The register, where the variant was just opened from its parent.
    fn written<S: Alter + Drop>(
        self,
        alloc: Global,
        store: Store<S>,
        parent: &str,
        variant: &str,
    ) -> Result<Store<S>, Fail> {
        let mut conn = store.into_connection();
        if matches!(self, Kept::Copied) {
            for sql in COPIES {
                conn.execute(sql, params![parent, variant])?;
            }
        }
        found(alloc, conn)
    }

    // A register with three variants, in a database with no table.
    fn register<S: Alter + Drop>(
        self,
        alloc: Global,
        conn: Connection<S>,
    ) -> Result<Store<S>, Fail> {
        let store = after(alloc, created(alloc, conn)?, FIRST.split_at(4).0)?;
        let store = after(alloc, store, &PARENT)?;
        let store = self.written(alloc, store, "v1", "v2")?;
        let store = after(alloc, store, &CHILD)?;
        let store = self.written(alloc, store, "v2", "v3")?;
        after(alloc, store, &GRANDCHILD)
    }

    // Such a register in files of its own.
    fn made(self, alloc: Global) -> Result<Store<FileStore<Fused>>, Fail> {
        self.register(alloc, opened(alloc, &Image::empty(alloc))?)
    }

    // The files of such a register in the schema before. Their log has what brought it there.
    fn before(self, alloc: Global) -> Result<Image, Fail> {
        let now = Image::of(alloc, &self.made(alloc)?.close()?)?;
        let conn = taken_back(found(alloc, opened(alloc, &now)?)?)?;
        Image::of(alloc, &files_left(conn))
    }
}

// The register in the schema before.
fn taken_back<S: Alter + Drop>(store: Store<S>) -> Result<Connection<S>, Fail> {
    let mut conn = store.into_connection();
    for sql in BACK {
        conn.execute(sql, &[])?;
    }
    Ok(conn)
}

/// A register of the schema before is migrated.
#[derive(Drop)]
struct Migrating {
    course: Course,
}

impl Migrating {
    fn new(alloc: Global, kept: Kept) -> Result<Migrating, Fail> {
        let book = book_of(alloc, kept.made(alloc)?)?;
        let mut before = Vec::new(alloc);
        before.extend_from_slice(BEFORE)?;
        before.extend_from_slice(book.as_slice())?;
        let start = kept.before(alloc)?;
        let states = vec![in alloc; before, book]?;
        Ok(Migrating {
            course: Course { start, states },
        })
    }
}

impl Deed for Migrating {
    fn course(&self) -> &Course {
        &self.course
    }

    fn done(&self, alloc: Global, mut conn: Connection<FileStore<Fused>>) -> Result<Left, Fail> {
        let is_stopped = migrate_on(alloc, &mut conn).is_err();
        Ok(Left {
            files: files_left(conn),
            done: if is_stopped { 0 } else { 1 },
            is_stopped,
        })
    }
}

// The files of the register that is migrated in these.
fn migrated(alloc: Global, image: &Image) -> Result<Result<Image, StoreFault>, Fail> {
    let files = files_of(alloc, image, EACH)?;
    if !files.may_be_used() {
        return Err(Fail::from("no files"));
    }
    match migrate(alloc, files, options(USUAL)) {
        Ok(files) => Ok(Ok(Image::of(alloc, &files)?)),
        Err((fault, _)) => Ok(Err(fault)),
    }
}

// Why no register is opened in the files.
fn fault_of(alloc: Global, image: &Image) -> Result<Option<StoreFault>, Fail> {
    match Store::open_on(alloc, opened(alloc, image)?) {
        Ok(_) => Ok(None),
        Err((fault, _)) => Ok(Some(fault)),
    }
}

// Whether the cluster file says this, for the 64 cycles that each cluster had before.
fn is_as_made(alloc: Global, found: &Config) -> Result<bool, Fail> {
    let made = config(alloc)?;
    Ok(
        found.params().cycles() == 64
            && found.params() == made.params()
            && found.integrator() == made.integrator()
            && found.suppliers() == made.suppliers(),
    )
}

// Whether there is a register of the cluster file in the files, which answers as it did, the import too.
fn goes_on(alloc: Global, image: &Image) -> Result<bool, Fail> {
    let store = found(alloc, opened(alloc, image)?)?;
    let is_as_made = is_as_made(alloc, store.config())?;
    let store = after(alloc, store, &LOOKS)?;
    let _ = after(alloc, store, &[IMPORT])?;
    Ok(is_as_made)
}

/// Each query of all that may ask is answered as before, whichever way the variants were written.
#[test]
fn a_register_of_the_schema_before_goes_on(rt: HostRuntime) -> Result<(), Fail> {
    let answers = answers_of(rt.alloc(), Kept::Overlaid.made(rt.alloc())?)?;
    for kept in [Kept::Overlaid, Kept::Copied] {
        let before = kept.before(rt.alloc())?;
        assert!(rt; fault_of(rt.alloc(), &before)? == Some(StoreFault::WrongSchema));
        let now = migrated(rt.alloc(), &before)??;
        assert!(rt; goes_on(rt.alloc(), &now)?);
        let store = found(rt.alloc(), opened(rt.alloc(), &now)?)?;
        assert!(rt; answers_of(rt.alloc(), store)? == answers);
        assert!(rt; migrated(rt.alloc(), &now)?.err() == Some(StoreFault::WrongSchema));
    }
    Ok(())
}

#[test]
fn nothing_is_migrated_in_empty_files(rt: HostRuntime) -> Result<(), Fail> {
    let done = migrated(rt.alloc(), &Image::empty(rt.alloc()))?;
    assert!(rt; done.err() == Some(StoreFault::NotARegister));
    Ok(())
}

/// Here the log is copied before anything is written.
const AT_ONCE: usize = 1;

// Whether calls of both files are stopped within the migration.
fn is_stopped(alloc: Global, kept: Kept) -> Result<bool, Fail> {
    let migrating = Migrating::new(alloc, kept)?;
    let log = stops(alloc, &migrating, Fusible::Log, USUAL)?;
    let db = stops(alloc, &migrating, Fusible::Database, AT_ONCE)?;
    Ok(log.iter().chain(&db).all(|times| 0 < *times))
}

#[test]
fn a_stop_leaves_a_register_that_goes_on_or_can_be_migrated(rt: HostRuntime) -> Result<(), Fail> {
    assert!(rt; is_stopped(rt.alloc(), Kept::Overlaid)?);
    Ok(())
}

#[test]
fn so_does_one_where_all_rows_were_copied(rt: HostRuntime) -> Result<(), Fail> {
    assert!(rt; is_stopped(rt.alloc(), Kept::Copied)?);
    Ok(())
}
