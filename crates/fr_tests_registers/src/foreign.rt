//! Tests of `fr_store`: what is told of databases that are no register, and of registers whose cluster is gone. The check would
//! let pass an open that is `Unavailable` for each of them.
use crate::fused::{EACH, Image, USUAL, files_of, opened, options};
use crate::stores::created;
use fr_store::{Store, StoreFault};
use sqlite::{Alter, Connection};
use std::alloc::Global;
use std::test::Fail;

// Why no register is opened where a database with no table was changed so.
fn fault_after<S: Alter + Drop>(
    alloc: Global,
    mut conn: Connection<S>,
    change: &str,
) -> Result<Option<StoreFault>, Fail> {
    conn.execute(change, &[])?;
    match Store::open_on(alloc, conn) {
        Ok(_) => Ok(None),
        Err((fault, _)) => Ok(Some(fault)),
    }
}

// Why none is opened where a new register was changed so.
fn fault_of<S: Alter + Drop>(
    alloc: Global,
    conn: Connection<S>,
    change: &str,
) -> Result<Option<StoreFault>, Fail> {
    fault_after(alloc, created(alloc, conn)?.into_connection(), change)
}

// Why none is opened in a file of these bytes.
fn fault_in(alloc: Global, bytes: &[u8]) -> Result<Option<StoreFault>, Fail> {
    let files = files_of(alloc, &Image::of_bytes(alloc, bytes)?, EACH)?;
    if !files.may_be_used() {
        return Err(Fail::from("no files"));
    }
    match Store::open(alloc, files, options(USUAL)) {
        Ok(_) => Ok(None),
        Err((fault, _)) => Ok(Some(fault)),
    }
}

#[test]
fn bytes_that_are_no_database(rt: HostRuntime) -> Result<(), Fail> {
    let fault = fault_in(rt.alloc(), &[b'x'; 100])?;
    assert!(rt; fault == Some(StoreFault::NotARegister));
    Ok(())
}

#[test]
fn a_database_with_one_other_table(rt: HostRuntime) -> Result<(), Fail> {
    let conn = opened(rt.alloc(), &Image::empty(rt.alloc()))?;
    let fault = fault_after(rt.alloc(), conn, "CREATE TABLE t (x INTEGER)")?;
    assert!(rt; fault == Some(StoreFault::NotARegister));
    Ok(())
}

#[test]
fn a_register_that_is_changed(rt: HostRuntime) -> Result<(), Fail> {
    for (change, wanted) in [
        ("UPDATE register SET schema = 7", StoreFault::WrongSchema),
        ("DELETE FROM cluster2", StoreFault::Unavailable),
    ] {
        let conn = opened(rt.alloc(), &Image::empty(rt.alloc()))?;
        assert!(rt; fault_of(rt.alloc(), conn, change)? == Some(wanted));
    }
    Ok(())
}
