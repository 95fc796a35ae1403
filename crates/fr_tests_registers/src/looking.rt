//! What a register tells, as one text: its rows, or the answers to all that may be asked.
use crate::asks::{name, told};
use crate::stores::found;
use fr_base::{BodyRef, Desk};
use fr_office::{MAX_BYTES, Office};
use fr_store::{Store, StoreFault, migrate_on};
use sqlite::{Alter, Connection};
use std::alloc::Global;
use std::test::Fail;

/// The keys of all that may ask.
const KEYS: [&str; 3] = ["integrator1", "supplier01", "supplier02"];

/// Variants that there may be.
const VARIANTS: [&str; 3] = ["v1", "v2", "v3"];

/// By what a variant's rows are told.
const ROWS: [&str; 3] = [
    r#""do":"grants""#,
    r#""do":"frames""#,
    r#""do":"layout","frame":"f1""#,
];

/// What is worked out of them.
const REPORTS: [&str; 2] = [r#""do":"schedule""#, r#""do":"gaps""#];

/// What is seen of a database that is no register.
pub(crate) const NOTHING: &[u8] = b"no register";

/// With what the text of a register begins that has to be migrated.
pub(crate) const BEFORE: &[u8] = b"of the schema before\n";

fn push_line(text: &mut Vec<u8>, line: &[u8]) -> Result<(), Fail> {
    text.extend_from_slice(line)?;
    Ok(text.push(b'\n')?)
}

fn push_variants<S: Alter>(
    alloc: Global,
    text: &mut Vec<u8>,
    store: &mut Store<S>,
) -> Result<(), Fail> {
    for row in store.variants(alloc)?.as_slice() {
        let parent = match &row.parent {
            Some(parent) => parent.as_str(),
            None => "-",
        };
        let released = if row.released { "released" } else { "open" };
        let line = format!(in alloc;
            "{} {parent} {} {released}",
            row.variant.as_str(),
            row.depth
        )?;
        push_line(text, line.as_bytes())?;
    }
    Ok(())
}

fn push_nodes<S: Alter>(
    alloc: Global,
    text: &mut Vec<u8>,
    store: &mut Store<S>,
    supplier: &str,
) -> Result<(), Fail> {
    for node in store.nodes(alloc, &name(supplier)?)?.as_slice() {
        push_line(text, node.as_str().as_bytes())?;
    }
    Ok(())
}

// The import of `s1` under the label `a`.
fn push_import<S: Alter>(
    alloc: Global,
    text: &mut Vec<u8>,
    store: &mut Store<S>,
) -> Result<(), Fail> {
    if let Some(kept) = store.import(alloc, &name("s1")?, &name("a")?)? {
        let line = format!(in alloc; "{} {}", kept.variant.as_str(), kept.rows)?;
        push_line(text, line.as_bytes())?;
        push_line(text, BodyRef::of(&kept.body).as_slice())?;
    }
    Ok(())
}

// The answers to these queries of each variant.
fn push_answers<D: Desk>(
    alloc: Global,
    text: &mut Vec<u8>,
    desk: &mut D,
    key: &str,
    queries: &[&str],
) -> Result<(), Fail> {
    for variant in VARIANTS {
        for query in queries {
            let asked = format!(in alloc; r#"{{{query},"variant":"{variant}"}}"#)?;
            push_line(text, told(alloc, desk, key, &asked)?.as_slice())?;
        }
    }
    Ok(())
}

/// The register's variants, nodes and import, and the rows of all suppliers.
pub(crate) fn book_of<S: Alter + Drop>(
    alloc: Global,
    mut store: Store<S>,
) -> Result<Vec<u8>, Fail> {
    let mut text = Vec::new(alloc);
    push_variants(alloc, &mut text, &mut store)?;
    push_nodes(alloc, &mut text, &mut store, "s1")?;
    push_nodes(alloc, &mut text, &mut store, "s2")?;
    push_import(alloc, &mut text, &mut store)?;
    let mut office = Office::new(alloc, store, MAX_BYTES);
    push_answers(alloc, &mut text, &mut office, "integrator1", &ROWS)?;
    Ok(text)
}

/// The answers to each query of all that may ask.
pub(crate) fn answers_of<S: Alter + Drop>(alloc: Global, store: Store<S>) -> Result<Vec<u8>, Fail> {
    let mut text = Vec::new(alloc);
    let mut office = Office::new(alloc, store, MAX_BYTES);
    for key in KEYS {
        push_answers(alloc, &mut text, &mut office, key, &ROWS)?;
        push_answers(alloc, &mut text, &mut office, key, &REPORTS)?;
    }
    Ok(text)
}

// The rows of the register once it is migrated.
fn migrated<S: Alter + Drop>(alloc: Global, mut conn: Connection<S>) -> Result<Vec<u8>, Fail> {
    migrate_on(alloc, &mut conn)?;
    let mut text = Vec::new(alloc);
    text.extend_from_slice(BEFORE)?;
    let book = book_of(alloc, found(alloc, conn)?)?;
    text.extend_from_slice(book.as_slice())?;
    Ok(text)
}

/// The rows of the register that the database is, those of the one that it is once it is migrated, or that it is none.
pub(crate) fn seen<S: Alter + Drop>(alloc: Global, conn: Connection<S>) -> Result<Vec<u8>, Fail> {
    match Store::open_on(alloc, conn) {
        Ok(store) => book_of(alloc, store),
        Err((StoreFault::WrongSchema, conn)) => migrated(alloc, conn),
        Err((StoreFault::NotARegister, _)) => {
            let mut text = Vec::new(alloc);
            text.extend_from_slice(NOTHING)?;
            Ok(text)
        }
        Err((fault, _)) => Err(Fail::from(fault)),
    }
}
