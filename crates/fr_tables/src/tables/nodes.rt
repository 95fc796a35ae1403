//! The nodes of each supplier.

ghost use Rattle.fr_tables.specs.Changes.{Makes, Finds, Asks, Runs};
ghost use Rattle.fr_tables.specs.Statements.{with_node, is_node_of, shows_node, nodes_cmp};

use fr_base::Name;
use sqlite::{Alter, Connection, Error, Row, Transaction, params};

/// Adds a node.
pub fn insert<S: Alter>(
    tx: &mut Transaction<'_, S>,
    supplier: &Name,
    name: &Name,
) -> Result<usize, Error>
    ensures { Runs S.Store (Makes (with_node (record { supplier = supplier.now; name = name.now })))
        tx.old tx.new result }
{
    tx.execute(
        "INSERT INTO nodes (supplier, name) VALUES (?1, ?2)",
        params![supplier.as_str(), name.as_str()],
    )
}

/// The supplier's nodes, by name.
pub fn of_supplier<S: Alter>(conn: &mut Connection<S>, supplier: &Name) -> Result<Vec<Row>, Error>
    ensures { Asks S.Store (Finds shows_node (is_node_of supplier.now) nodes_cmp (λ t. t.nodes))
        conn.old conn.new result }
{
    conn.query_all(
        "SELECT name FROM nodes WHERE supplier = ?1 ORDER BY name",
        params![supplier.as_str()],
    )
}
