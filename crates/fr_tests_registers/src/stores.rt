//! Registers on connections.
use crate::asks::{Line, carry_out, config};
use fr_office::{MAX_BYTES, Office};
use fr_store::Store;
use sqlite::{Alter, Connection};
use std::alloc::Global;
use std::test::Fail;

/// A new register of the cluster, in a database with no table.
pub(crate) fn created<S: Alter + Drop>(
    alloc: Global,
    conn: Connection<S>,
) -> Result<Store<S>, Fail> {
    let config = config(alloc)?;
    match Store::create_on(alloc, conn, &config) {
        Ok(store) => Ok(store),
        Err((fault, _)) => Err(Fail::from(fault)),
    }
}

/// The register that the database is.
pub(crate) fn found<S: Alter + Drop>(alloc: Global, conn: Connection<S>) -> Result<Store<S>, Fail> {
    match Store::open_on(alloc, conn) {
        Ok(store) => Ok(store),
        Err((fault, _)) => Err(Fail::from(fault)),
    }
}

/// The register once the lines were asked of it, and answered as they say.
pub(crate) fn after<S: Alter + Drop>(
    alloc: Global,
    store: Store<S>,
    lines: &[Line],
) -> Result<Store<S>, Fail> {
    let mut office = Office::new(alloc, store, MAX_BYTES);
    carry_out(alloc, &mut office, lines)?;
    Ok(office.into_records())
}
