//! Makes a register of the schema before one of this schema, in one transaction.

ghost use Rattle.std.specs.Prelude.{◌≡◌, false};
ghost use Rattle.sqlite.specs.Held.{state};
ghost use Rattle.fr_tables.specs.SchemaNumbers.{Looks};
ghost use Rattle.fr_store.specs.Applying.{Tries, Edits, Within};
ghost use Rattle.fr_store.specs.Before.{MovesCluster, Migrates, MakesOpenable, KeepsBefore, KeepsNumber, ExpectsOpenable, LeavesTables};
ghost use Rattle.fr_store.specs.Migrating.{CommitsMigration, MigratesOn};
ghost use Rattle.fr_store.specs.Ready.{ExpectsOpen};

mod files;

use crate::fault::StoreFault;
use crate::opening::config_of;
use crate::schemas::{expect_number, is_before};
pub use files::{migrate, migrate_at};
use fr_tables::cluster::read_before;
use fr_tables::{making, tables};
use sqlite::{Alter, Connection, Transaction};
use std::alloc::Global;

/// Moves the cluster's row into its new table, with the count of cycles that each cluster had before.
fn move_cluster<S: Alter>(tx: &mut Transaction<'_, S>) -> Result<(), StoreFault>
    ensures moved { Edits S.Store MovesCluster tx.old tx.new result }
    ensures number { Within S.Store KeepsNumber tx.old tx.new result }
{
    let rows = tables::cluster::row_inside(tx)?;
    let Some((params, integrator)) = read_before(rows.as_slice()) else {
        return Err(StoreFault::Unavailable);
    };
    tables::cluster2::insert(tx, &params, &integrator)?;
    tables::cluster::delete(tx)?;
    Ok(())
}

/// Makes sure that the tables are such as an open wants. It leaves them as they are.
fn expect_config<S: Alter>(alloc: Global, tx: &mut Transaction<'_, S>) -> Result<(), StoreFault>
    ensures opens { Tries S.Store ExpectsOpenable tx.old tx.new result }
    ensures same { Within S.Store LeavesTables tx.old tx.new result }
{
    let cluster = tables::cluster2::row_inside(tx)?;
    let suppliers = tables::suppliers::by_name_inside(tx)?;
    let variants = tables::variants::by_name_inside(tx)?;
    let found = config_of(
        alloc,
        cluster.as_slice(),
        suppliers.as_slice(),
        variants.as_slice(),
    );
    match found {
        Some(_) => Ok(()),
        None => Err(StoreFault::Unavailable),
    }
}

const NUMBER: u32 = 2;

/// Makes the cluster's new table, moves its row, and then gives the register its new number. It
/// fails where no open would take the tables then.
fn change_schema<S: Alter>(alloc: Global, tx: &mut Transaction<'_, S>) -> Result<(), StoreFault>
    ensures migrated { Tries S.Store Migrates tx.old tx.new result }
    ensures opens { Within S.Store MakesOpenable tx.old tx.new result }
    ensures stays { Within S.Store KeepsBefore tx.old tx.new result }
{
    making::cluster2(tx)?;
    move_cluster(tx)?;
    tables::register::update(tx, NUMBER)?;
    expect_config(alloc, tx)?;
    Ok(())
}

/// Changes the schema in one transaction: all of it, or nothing.
fn in_one_transaction<S: Alter>(alloc: Global, conn: &mut Connection<S>) -> Result<(), StoreFault>
    requires { conn.old.in_transaction ≡ false }
    ensures { CommitsMigration (state S.Store conn.old) (state S.Store conn.new) result }
{
    // Gives the proof that all changes so far are committed.
    let _committed = conn.is_autocommit();
    let mut tx = conn.transaction();
    change_schema(alloc, &mut tx)?;
    tx.commit()?;
    Ok(())
}

/// Makes sure that the connection is open. It leaves the tables as they are.
pub(crate) fn require_open<S: Alter>(conn: &mut Connection<S>) -> Result<(), StoreFault>
    requires { conn.old.in_transaction ≡ false }
    ensures { Looks S.Store ExpectsOpen conn.old conn.new result }
{
    // Gives the proof that all changes so far are committed.
    let _committed = conn.is_autocommit();
    match conn.prepare("SELECT schema FROM register") {
        Ok(_) => Ok(()),
        Err(_) => Err(StoreFault::Unavailable),
    }
}

const NUMBER_BEFORE: i64 = 1;

/// Makes a register of the schema before one of this schema: all of it, or nothing. Its clusters had 64 cycles, and so
/// has this one then; all else stays, and its tables are such as an open wants. The refusal is NotARegister only where
/// the tables say no number, WrongSchema only where they say another one, this schema's too, and else Unavailable, also
/// where no register has such rows; then the tables are as they were, while the connection is open.
pub fn migrate_on<S: Alter>(alloc: Global, conn: &mut Connection<S>) -> Result<(), StoreFault>
    ensures { MigratesOn (state S.Store conn.old) (state S.Store conn.new) result }
{
    if !conn.is_autocommit() {
        return Err(StoreFault::Unavailable);
    }
    let is_known = is_before(alloc, conn.schema());
    expect_number(conn, NUMBER_BEFORE)?;
    if !is_known {
        return Err(StoreFault::Unavailable);
    }
    require_open(conn)?;
    in_one_transaction(alloc, conn)
}
