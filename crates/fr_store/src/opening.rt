//! Opens a register that was made before, over any connection.

ghost use Rattle.std.specs.Prelude.{◌≡◌, IfOk, IfErr, IfSome, map, [], ◌∷◌, false};
ghost use Rattle.sqlite.specs.Held.{state};
ghost use Rattle.fr_base.specs.Cluster.{IsWellFormed};
ghost use Rattle.fr_tables.specs.ClusterRows.{shown_supplier};
ghost use Rattle.fr_tables.specs.SchemaNumbers.{Looks};
ghost use Rattle.fr_tables.specs.Statements.{cluster2_row, shows_cluster2};
ghost use Rattle.fr_store.specs.Opening.{FindsConfig, FindsVariants, IsNotOpenedOn, IsOpenedOn, ReadsConfig};
ghost use Rattle.fr_store.specs.Reading.{AreOpened, variant_shown};

use crate::fault::StoreFault;
use crate::migrating::require_open;
use crate::reading::opened_variants;
use crate::schemas::{expect_number, is_ours};
use crate::store::Store;
use fr_base::Config;
use fr_tables::cluster;
use fr_tables::schema_number::ask_and_undo;
use sqlite::{Alter, Connection, Row};
use std::alloc::Global;

/// Whether a register can have the variants that the tables tell: each has no parent, or
/// another of them. Want of memory counts as no.
fn has_opened_variants<S: Alter>(alloc: Global, conn: &mut Connection<S>) -> bool
    requires { conn.old.in_transaction ≡ false }
    ensures { Looks S.Store FindsVariants conn.old conn.new result }
{
    match ask_and_undo(
        conn,
        "SELECT name, parent, depth, released, overlay FROM variants ORDER BY name",
    ) {
        Ok(rows) => opened_variants(alloc, rows.as_slice()).is_some(),
        Err(_) => false,
    }
}

/// The config that the tables tell. None, if their rows tell none, if no register has their
/// variants, or for want of memory.
fn config<S: Alter>(alloc: Global, conn: &mut Connection<S>) -> Option<Config>
    requires { conn.old.in_transaction ≡ false }
    ensures { Looks S.Store FindsConfig conn.old conn.new result }
{
    let Ok(cluster) = ask_and_undo(
        conn,
        "SELECT static_slots, slot_macroticks, dynamic_macroticks, symbol_macroticks, idle_macroticks, macroticks_per_cycle, payload_words, channels, integrator, cycles FROM cluster2",
    ) else {
        return None;
    };
    let Ok(suppliers) = ask_and_undo(conn, "SELECT name, key FROM suppliers ORDER BY name") else {
        return None;
    };
    if !has_opened_variants(alloc, conn) {
        return None;
    }
    cluster::read(alloc, cluster.as_slice(), suppliers.as_slice())
}

/// The config that these rows tell. None, if they tell none, if no register has their variants, or
/// for want of memory.
pub(crate) fn config_of(
    alloc: Global,
    cluster: &[Row],
    suppliers: &[Row],
    variants: &[Row],
) -> Option<Config>
    ensures cluster { IfSome result
        (λ c. cluster.now ≡ shows_cluster2 (cluster2_row c.cluster.params c.cluster.integrator)
        ∷ []) }
    ensures suppliers { IfSome result (λ c. suppliers.now ≡ map shown_supplier c.suppliers) }
    ensures variants { IfSome result (λ _. AreOpened (map variant_shown variants.now)) }
    ensures formed { IfSome result IsWellFormed }
{
    let _opened = opened_variants(alloc, variants)?;
    cluster::read(alloc, cluster, suppliers)
}

const NUMBER: i64 = 2;

/// The config of the register that has these tables, or why no register is opened on them.
fn read_config<S: Alter>(alloc: Global, conn: &mut Connection<S>) -> Result<Config, StoreFault>
    requires { conn.old.in_transaction ≡ false }
    ensures { Looks S.Store ReadsConfig conn.old conn.new result }
{
    expect_number(conn, NUMBER)?;
    let Some(config) = config(alloc, conn) else {
        return Err(StoreFault::Unavailable);
    };
    require_open(conn)?;
    if is_ours(alloc, conn.schema()) {
        Ok(config)
    } else {
        Err(StoreFault::Unavailable)
    }
}

impl<S: Alter + Drop> Store<S> {
    /// The register that has the connection's tables. The connection is open then. A refusal hands
    /// the connection back, with its tables as they were.
    pub fn open_on(
        alloc: Global,
        mut conn: Connection<S>,
    ) -> Result<Store<S>, (StoreFault, Connection<S>)>
        ensures opened { IfOk result (λ s.
            IsOpenedOn (state S.Store conn) (state S.Store s.conn) s.config) }
        ensures refused { IfErr result (λ e.
            IsNotOpenedOn (state S.Store conn) (state S.Store e.1) e.0) }
    {
        if !conn.is_autocommit() {
            return Err((StoreFault::Unavailable, conn));
        }
        match read_config(alloc, &mut conn) {
            Ok(config) => Ok(Store { conn, config }),
            Err(fault) => Err((fault, conn)),
        }
    }
}
