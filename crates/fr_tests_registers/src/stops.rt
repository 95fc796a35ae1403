//! Tests of `fr_office`: a stop at each call of a register's files, as it is made and as it is asked. The check would
//! let pass an office whose requests were answered and are gone after a stop, or there in part; and files that a stop
//! left, of which none is a register.
use crate::asks::{DONE, FIRST, Line, carry_out, config, told};
use crate::deeds::{Course, Deed, Left, stops};
use crate::fused::{Fused, Fusible, Image, USUAL, files_left, opened};
use crate::looking::{NOTHING, book_of};
use crate::stores::{after, created};
use fr_base::{Config, Desk};
use fr_office::{MAX_BYTES, Office};
use fr_store::Store;
use sqlite::{Alter, Connection, FileStore};
use std::alloc::Global;
use std::test::Fail;

/// After the first five requests: an import of a signal, a release, a variant opened from it, its frame dropped there, and
/// a variant opened flat.
const MORE: [Line; 5] = [
    (
        "supplier01",
        r#"{"do":"import","variant":"v1","label":"a","body":"\ufeffframe,signal,start,length,order\r\n\"f1\",\"x\",0,8,little\r\n"}"#,
        r#"{"ok":"imported","rows":1}"#,
    ),
    ("integrator1", r#"{"do":"release","variant":"v1"}"#, DONE),
    (
        "integrator1",
        r#"{"do":"open_variant","variant":"v2","from":"v1"}"#,
        DONE,
    ),
    (
        "supplier01",
        r#"{"do":"drop_frame","variant":"v2","frame":"f1"}"#,
        DONE,
    ),
    (
        "integrator1",
        r#"{"do":"open_variant","variant":"w","from":"v1","flat":true}"#,
        DONE,
    ),
];

const UNAVAILABLE: &str = r#"{"no":28,"refused":"Unavailable"}"#;

/// After a stop too, this is refused for who asks.
const NOT_YOURS: [Line; 1] = [(
    "supplier01",
    r#"{"do":"release","variant":"v1"}"#,
    r#"{"no":3,"refused":"NotYours"}"#,
)];

/// A register is made, and requests are asked of it.
#[derive(Drop)]
struct Asking {
    config: Config,
    lines: Vec<Line>,
    course: Course,
}

impl Asking {
    fn new(alloc: Global) -> Result<Asking, Fail> {
        let mut lines = Vec::new(alloc);
        lines.extend_from_slice(FIRST.split_at(5).0)?;
        lines.extend_from_slice(&MORE)?;
        let mut nothing = Vec::new(alloc);
        nothing.extend_from_slice(NOTHING)?;
        let mut states = vec![in alloc; nothing]?;
        for count in 0..=lines.len() {
            states.push(book_after(alloc, lines.split_at(count).0)?)?;
        }
        let start = Image::empty(alloc);
        Ok(Asking {
            config: config(alloc)?,
            lines,
            course: Course { start, states },
        })
    }
}

// What is told of a new register once the requests were asked of it.
fn book_after(alloc: Global, lines: &[Line]) -> Result<Vec<u8>, Fail> {
    let store = created(alloc, opened(alloc, &Image::empty(alloc))?)?;
    book_of(alloc, after(alloc, store, lines)?)
}

impl Deed for Asking {
    fn course(&self) -> &Course {
        &self.course
    }

    fn done(&self, alloc: Global, conn: Connection<FileStore<Fused>>) -> Result<Left, Fail> {
        match Store::create_on(alloc, conn, &self.config) {
            Ok(store) => asked(alloc, store, self.lines.as_slice()),
            Err((_, conn)) => Ok(Left {
                files: files_left(conn),
                done: 0,
                is_stopped: true,
            }),
        }
    }
}

// What is left of a new register of which the requests are asked.
fn asked(alloc: Global, store: Store<FileStore<Fused>>, lines: &[Line]) -> Result<Left, Fail> {
    let (count, store) = counted(alloc, store, lines)?;
    Ok(Left {
        files: store.give_up(),
        done: count.saturating_add(1),
        is_stopped: count < lines.len(),
    })
}

// How many of the requests were done before the first that was not, and the register after all.
fn counted<S: Alter + Drop>(
    alloc: Global,
    store: Store<S>,
    lines: &[Line],
) -> Result<(usize, Store<S>), Fail> {
    let mut office = Office::new(alloc, store, MAX_BYTES);
    let count = count_done(alloc, &mut office, lines)?;
    carry_out(alloc, &mut office, &NOT_YOURS)?;
    Ok((count, office.into_records()))
}

// How many requests were done before the first that was not. After that none is.
fn count_done<D: Desk>(alloc: Global, desk: &mut D, lines: &[Line]) -> Result<usize, Fail> {
    let mut count = 0;
    for (at, (key, text, wanted)) in lines.iter().enumerate() {
        let answer = told(alloc, desk, key, text)?;
        let is_done = answer.as_slice() == wanted.as_bytes();
        if is_done && count == at {
            count = at + 1;
        } else if is_done || !is_refused(answer.as_slice(), count == at) {
            return Err(Fail::from(*text));
        }
    }
    Ok(count)
}

// Whether the answer is that of a request that was stopped, or of one after it.
fn is_refused(answer: &[u8], is_first: bool) -> bool {
    answer == UNAVAILABLE.as_bytes() || !is_first && !answer.starts_with(b"{\"ok\":")
}

/// How long a log grows where it is copied into the database's file. Where it is not, that file meets no call.
const SHORT: usize = 8;

#[test]
fn a_stop_leaves_what_was_done(rt: HostRuntime) -> Result<(), Fail> {
    let asking = Asking::new(rt.alloc())?;
    let stopped = stops(rt.alloc(), &asking, Fusible::Log, USUAL)?;
    assert!(rt; stopped.iter().all(|times| 0 < *times));
    Ok(())
}

#[test]
fn so_does_one_where_the_log_is_copied(rt: HostRuntime) -> Result<(), Fail> {
    let asking = Asking::new(rt.alloc())?;
    let stopped = stops(rt.alloc(), &asking, Fusible::Log, SHORT)?;
    assert!(rt; stopped.iter().all(|times| 0 < *times));
    Ok(())
}

#[test]
fn so_does_one_of_the_file_to_which_it_is_copied(rt: HostRuntime) -> Result<(), Fail> {
    let asking = Asking::new(rt.alloc())?;
    let stopped = stops(rt.alloc(), &asking, Fusible::Database, SHORT)?;
    assert!(rt; stopped.iter().any(|times| 0 < *times));
    Ok(())
}
