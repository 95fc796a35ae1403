//! The imports that are kept.

ghost use Rattle.std.specs.Prelude.{pos};
ghost use Rattle.fr_tables.specs.Changes.{Makes, Finds, Asks, Runs};
ghost use Rattle.fr_tables.specs.Statements.{with_import, is_import, is_import_of, shows_import, shows_label, labels_cmp, any_order};

use fr_base::{Body, Name};
use sqlite::{Alter, Connection, Error, Row, Transaction, params};

/// Keeps an import.
pub fn insert<S: Alter>(
    tx: &mut Transaction<'_, S>,
    supplier: &Name,
    label: &Name,
    variant: &Name,
    body: &Body,
    rows: u32,
) -> Result<usize, Error>
    ensures { Runs S.Store (Makes (with_import
        (record {
          supplier = supplier.now;
          label = label.now;
          variant = variant.now;
          body = body.now;
          rows = pos rows;
        }))) tx.old tx.new result }
{
    tx.execute(
        "INSERT INTO imports (supplier, label, variant, body, rows) VALUES (?1, ?2, ?3, ?4, ?5)",
        params![
            supplier.as_str(),
            label.as_str(),
            variant.as_str(),
            body.as_slice(),
            rows
        ],
    )
}

/// The import that the supplier keeps under the label: variant, body and rows.
pub fn one<S: Alter>(
    conn: &mut Connection<S>,
    supplier: &Name,
    label: &Name,
) -> Result<Vec<Row>, Error>
    ensures { Asks S.Store (Finds shows_import (is_import supplier.now label.now) any_order
        (λ t. t.imports)) conn.old conn.new result }
{
    conn.query_all(
        "SELECT variant, body, rows FROM imports WHERE supplier = ?1 AND label = ?2",
        params![supplier.as_str(), label.as_str()],
    )
}

/// The supplier's labels, in byte order.
pub fn labels<S: Alter>(conn: &mut Connection<S>, supplier: &Name) -> Result<Vec<Row>, Error>
    ensures { Asks S.Store (Finds shows_label (is_import_of supplier.now) labels_cmp
        (λ t. t.imports)) conn.old conn.new result }
{
    conn.query_all(
        "SELECT label FROM imports WHERE supplier = ?1 ORDER BY label",
        params![supplier.as_str()],
    )
}
