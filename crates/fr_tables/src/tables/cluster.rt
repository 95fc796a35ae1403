//! The one row that says what the cluster is, in a register of the schema before.

ghost use Rattle.fr_tables.specs.Changes.{Makes, Finds, Runs};
ghost use Rattle.fr_tables.specs.Statements.{without_cluster, shows_cluster, every, any_order};

use sqlite::{Alter, Error, Row, Transaction};

/// Deletes the row.
pub fn delete<S: Alter>(tx: &mut Transaction<'_, S>) -> Result<usize, Error>
    ensures { Runs S.Store (Makes without_cluster) tx.old tx.new result }
{
    tx.execute("DELETE FROM cluster", &[])
}

/// The row, read inside a transaction.
pub fn row_inside<S: Alter>(tx: &mut Transaction<'_, S>) -> Result<Vec<Row>, Error>
    ensures { Runs S.Store (Finds shows_cluster every any_order (λ t. t.cluster))
        tx.old tx.new result }
{
    tx.query_all(
        "SELECT static_slots, slot_macroticks, dynamic_macroticks, symbol_macroticks, idle_macroticks, macroticks_per_cycle, payload_words, channels, integrator FROM cluster",
        &[],
    )
}
