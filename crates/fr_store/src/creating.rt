//! Makes a register, over any connection.

ghost use Rattle.std.specs.Prelude.{◌≡◌, IsTrue, IfOk, IfErr, false};
ghost use Rattle.std.specs.List.{list_any};
ghost use Rattle.sqlite_schema.specs.Names.{same_name};
ghost use Rattle.sqlite.specs.Held.{state};
ghost use Rattle.fr_tables.specs.Changes.{Runs};
ghost use Rattle.fr_tables.specs.Schema.{schema_of};
ghost use Rattle.fr_store.specs.Creating.{Creates, IsMadeOn, IsNotMadeOn};
ghost use Rattle.fr_store.specs.Store.{MakesNew, is_ours, has_table};
ghost use Rattle.fr_store.specs.declared.fault.StoreFault.TheVariants as fault;

use crate::fault::StoreFault;
use crate::store::Store;
use fr_base::Config;
use fr_tables::{cluster, filling, making};
use sqlite::{Alter, Connection, Error, Transaction};
use sqlite_schema::names::same_name;
use sqlite_schema::schema::Schema;
use std::alloc::Global;

/// Makes the tables and the rows of a new register.
fn make_and_fill<S: Alter>(tx: &mut Transaction<'_, S>, config: &Config) -> Result<(), Error>
    ensures { Runs S.Store (MakesNew config.now) tx.old tx.new result }
{
    making::every_table(tx)?;
    filling::config(tx, config)
}

/// Makes a register of this cluster, in a database with no table: all of it, or nothing.
fn create<S: Alter>(conn: &mut Connection<S>, config: &Config) -> Result<(), Error>
    requires { conn.old.in_transaction ≡ false }
    ensures { Creates config.now (state S.Store conn.old) (state S.Store conn.new) result }
{
    // Gives the proof that all changes so far are committed.
    let _committed = conn.is_autocommit();
    let mut tx = conn.transaction();
    make_and_fill(&mut tx, config)?;
    tx.commit()
}

const NAMES: [&str; 12] = [
    "register",
    "cluster",
    "suppliers",
    "nodes",
    "variants",
    "grants",
    "frames",
    "placements",
    "signals",
    "imports",
    "dropped",
    "cluster2",
];

fn is_among(names: &[&str], name: &[u8]) -> bool
    ensures { result ≡ list_any (λ ours. same_name ours.now name.now) names.now }
{
    names.iter().any(|ours| same_name(ours.as_bytes(), name))
}

/// Whether one of a register's tables has this name.
fn is_ours(name: &[u8]) -> bool
    ensures { result ≡ is_ours name.now }
{
    is_among(&NAMES, name)
}

/// Whether one of a register's tables is there.
fn has_table(schema: &Schema) -> bool
    ensures { result ≡ has_table schema.now }
{
    let mut tables = schema.tables.as_slice().iter();
    tables.any(|table| is_ours(table.name.as_slice()))
}

/// Whether nothing is there.
fn is_bare(schema: &Schema) -> bool
    ensures { IsTrue result → schema.now ≡ schema_of 0 0 }
{
    schema.tables.is_empty() && schema.indexes.is_empty() && schema.views.is_empty()
}

impl<S: Alter + Drop> Store<S> {
    /// Makes a register of this cluster, where no table is. What a crash then leaves is this register. The refusal is
    /// NotEmpty where one of a register's tables is there already, whatever the case of its name and whatever its
    /// columns. Else it is Unavailable, as where another table, index or view is there, or within a transaction. A
    /// refusal hands the connection back, its tables as they were while it is open.
    pub fn create_on(
        alloc: Global,
        mut conn: Connection<S>,
        config: &Config,
    ) -> Result<Store<S>, (StoreFault, Connection<S>)>
        ensures made { IfOk result
            (λ s. IsMadeOn config.now (state S.Store conn) (state S.Store s.conn)) }
        ensures config { IfOk result (λ s. s.config ≡ config.now) }
        ensures refused { IfErr result
            (λ e. IsNotMadeOn config.now (state S.Store conn) (state S.Store e.1) e.0) }
        ensures untouched { IfErr result (λ e. e.0 ≡ fault.NotEmpty → e.1 ≡ conn) }
    {
        if has_table(conn.schema()) {
            return Err((StoreFault::NotEmpty, conn));
        }
        if !conn.is_autocommit() || !is_bare(conn.schema()) {
            return Err((StoreFault::Unavailable, conn));
        }
        // Gives the proof that the suppliers are in order.
        let _formed = config.params();
        let Ok(config) = cluster::copy_config(alloc, config) else {
            return Err((StoreFault::Unavailable, conn));
        };
        match create(&mut conn, &config) {
            Ok(()) => Ok(Store { conn, config }),
            Err(_) => Err((StoreFault::Unavailable, conn)),
        }
    }
}
