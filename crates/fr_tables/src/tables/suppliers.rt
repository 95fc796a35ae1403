//! The suppliers and their keys.

ghost use Rattle.fr_tables.specs.Changes.{Makes, Finds, Runs};
ghost use Rattle.fr_tables.specs.Statements.{with_supplier, with_key, shows_supplier, suppliers_cmp, every};

use fr_base::{Key, Name};
use sqlite::{Alter, Error, Row, Transaction, params};

/// Adds a supplier.
pub fn insert<S: Alter>(tx: &mut Transaction<'_, S>, name: &Name, key: &Key) -> Result<usize, Error>
    ensures { Runs S.Store (Makes (with_supplier (record { name = name.now; key = key.now })))
        tx.old tx.new result }
{
    tx.execute(
        "INSERT INTO suppliers (name, key) VALUES (?1, ?2)",
        params![name.as_str(), key.as_str()],
    )
}

/// Gives the supplier another key.
pub fn set_key<S: Alter>(
    tx: &mut Transaction<'_, S>,
    name: &Name,
    key: &Key,
) -> Result<usize, Error>
    ensures { Runs S.Store (Makes (with_key name.now key.now)) tx.old tx.new result }
{
    tx.execute(
        "UPDATE suppliers SET key = ?2 WHERE name = ?1",
        params![name.as_str(), key.as_str()],
    )
}

/// All suppliers, by name, asked inside a transaction.
pub fn by_name_inside<S: Alter>(tx: &mut Transaction<'_, S>) -> Result<Vec<Row>, Error>
    ensures { Runs S.Store (Finds shows_supplier every suppliers_cmp (λ t. t.suppliers))
        tx.old tx.new result }
{
    tx.query_all("SELECT name, key FROM suppliers ORDER BY name", &[])
}
