//! The one row that says what the cluster is.

ghost use Rattle.fr_tables.specs.Changes.{Makes, Finds, Runs};
ghost use Rattle.fr_tables.specs.Statements.{with_cluster2, cluster2_row, shows_cluster2, every, any_order};

use fr_base::{Key, Params};
use sqlite::{Alter, Error, Row, Transaction, params};

/// Adds the row, to a register that has none. It gets the number 1.
pub fn insert<S: Alter>(
    tx: &mut Transaction<'_, S>,
    of: &Params,
    integrator: &Key,
) -> Result<usize, Error>
    ensures { Runs S.Store (Makes (with_cluster2 (cluster2_row of.now integrator.now)))
        tx.old tx.new result }
{
    tx.execute(
        "INSERT INTO cluster2 (static_slots, slot_macroticks, dynamic_macroticks, symbol_macroticks, idle_macroticks, macroticks_per_cycle, payload_words, channels, integrator, cycles) VALUES (?1, ?2, ?3, ?4, ?5, ?6, ?7, ?8, ?9, ?10)",
        params![
            of.static_slots(),
            of.slot_macroticks(),
            of.dynamic_macroticks(),
            of.symbol_macroticks(),
            of.idle_macroticks(),
            of.macroticks_per_cycle(),
            of.payload_words(),
            of.channels().as_str(),
            integrator.as_str(),
            of.cycles()
        ],
    )
}

/// The row, read inside a transaction.
pub fn row_inside<S: Alter>(tx: &mut Transaction<'_, S>) -> Result<Vec<Row>, Error>
    ensures { Runs S.Store (Finds shows_cluster2 every any_order (λ t. t.cluster2))
        tx.old tx.new result }
{
    tx.query_all(
        "SELECT static_slots, slot_macroticks, dynamic_macroticks, symbol_macroticks, idle_macroticks, macroticks_per_cycle, payload_words, channels, integrator, cycles FROM cluster2",
        &[],
    )
}
