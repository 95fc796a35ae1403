//! The frames of a variant's parent that the variant does not have.

ghost use Rattle.fr_tables.specs.Changes.{Makes, Finds, Asks, Runs};
ghost use Rattle.fr_tables.specs.Statements.{with_dropped, is_dropped_by, shows_dropped, dropped_cmp};

use crate::frame_key::FrameKey;
use fr_base::Name;
use sqlite::{Alter, Connection, Error, Row, Transaction, params};

// Asks for the names of the supplier's frames that the variant has not, in byte order.
const OF_SUPPLIER: &str =
    "SELECT frame FROM dropped WHERE variant = ?1 AND supplier = ?2 ORDER BY frame";

/// Notes that the variant has not its parent's frame of this name. Nothing changes where that is
/// noted already.
pub fn insert<S: Alter>(tx: &mut Transaction<'_, S>, key: &FrameKey) -> Result<usize, Error>
    ensures { Runs S.Store (Makes (with_dropped key.now)) tx.old tx.new result }
{
    tx.execute(
        "INSERT INTO dropped (variant, supplier, frame) VALUES (?1, ?2, ?3) ON CONFLICT (variant, supplier, frame) DO NOTHING",
        params![
            key.variant.as_str(),
            key.supplier.as_str(),
            key.frame.as_str()
        ],
    )
}

/// The names of the supplier's frames that the variant has not, in byte order.
pub fn of_supplier<S: Alter>(
    conn: &mut Connection<S>,
    variant: &Name,
    supplier: &Name,
) -> Result<Vec<Row>, Error>
    ensures { Asks S.Store (Finds shows_dropped (is_dropped_by variant.now supplier.now) dropped_cmp
        (λ t. t.dropped)) conn.old conn.new result }
{
    conn.query_all(OF_SUPPLIER, params![variant.as_str(), supplier.as_str()])
}

/// The names of the supplier's frames that the variant has not, in byte order, read inside a
/// transaction.
pub fn of_supplier_inside<S: Alter>(
    tx: &mut Transaction<'_, S>,
    variant: &Name,
    supplier: &Name,
) -> Result<Vec<Row>, Error>
    ensures { Runs S.Store (Finds shows_dropped (is_dropped_by variant.now supplier.now) dropped_cmp
        (λ t. t.dropped)) tx.old tx.new result }
{
    tx.query_all(OF_SUPPLIER, params![variant.as_str(), supplier.as_str()])
}
