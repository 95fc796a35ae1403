//! The frames of each supplier in each variant.

ghost use Rattle.fr_tables.specs.Changes.{Makes, MakesCopies, Finds, Asks, Runs};
ghost use Rattle.fr_tables.specs.Statements.{with_frame, row_of_frame, without_frame, with_frames, frame_copies, is_frame, is_frame_of, shows_frame, frames_cmp, any_order};

use crate::frame_key::FrameKey;
use fr_base::Name;
use sqlite::{Alter, Connection, Error, Row, Transaction, params};

// Asks for the supplier's frames in the variant: name and node, by name.
const OF_SUPPLIER: &str =
    "SELECT name, node FROM frames WHERE variant = ?1 AND supplier = ?2 ORDER BY name";

/// Adds a frame.
pub fn insert<S: Alter>(
    tx: &mut Transaction<'_, S>,
    key: &FrameKey,
    node: &Name,
) -> Result<usize, Error>
    ensures { Runs S.Store (Makes (with_frame (row_of_frame key.now node.now)))
        tx.old tx.new result }
{
    tx.execute(
        "INSERT INTO frames (variant, supplier, name, node) VALUES (?1, ?2, ?3, ?4)",
        params![
            key.variant.as_str(),
            key.supplier.as_str(),
            key.frame.as_str(),
            node.as_str()
        ],
    )
}

/// Drops the frame with its placements and signals.
pub fn delete<S: Alter>(tx: &mut Transaction<'_, S>, key: &FrameKey) -> Result<usize, Error>
    ensures { Runs S.Store (Makes (without_frame key.now)) tx.old tx.new result }
{
    tx.execute(
        "DELETE FROM frames WHERE variant = ?1 AND supplier = ?2 AND name = ?3",
        params![
            key.variant.as_str(),
            key.supplier.as_str(),
            key.frame.as_str()
        ],
    )
}

/// Copies the frame of another variant into this one.
pub fn copy_one<S: Alter>(
    tx: &mut Transaction<'_, S>,
    from: &Name,
    to: &FrameKey,
) -> Result<usize, Error>
    ensures { Runs S.Store (MakesCopies (frame_copies from.now to.now) with_frames)
        tx.old tx.new result }
{
    tx.execute(
        "INSERT INTO frames (variant, supplier, name, node) SELECT ?2, supplier, name, node FROM frames WHERE variant = ?1 AND supplier = ?3 AND name = ?4",
        params![
            from.as_str(),
            to.variant.as_str(),
            to.supplier.as_str(),
            to.frame.as_str()
        ],
    )
}

/// The supplier's frames in the variant: name and node, by name.
pub fn of_supplier<S: Alter>(
    conn: &mut Connection<S>,
    variant: &Name,
    supplier: &Name,
) -> Result<Vec<Row>, Error>
    ensures { Asks S.Store (Finds shows_frame (is_frame_of variant.now supplier.now) frames_cmp
        (λ t. t.frames)) conn.old conn.new result }
{
    conn.query_all(OF_SUPPLIER, params![variant.as_str(), supplier.as_str()])
}

/// The frame, read inside a transaction: name and node.
pub fn one_inside<S: Alter>(tx: &mut Transaction<'_, S>, key: &FrameKey) -> Result<Vec<Row>, Error>
    ensures { Runs S.Store (Finds shows_frame (is_frame key.now) any_order (λ t. t.frames))
        tx.old tx.new result }
{
    tx.query_all(
        "SELECT name, node FROM frames WHERE variant = ?1 AND supplier = ?2 AND name = ?3",
        params![
            key.variant.as_str(),
            key.supplier.as_str(),
            key.frame.as_str()
        ],
    )
}

/// The supplier's frames in the variant, read inside a transaction: name and node, by name.
pub fn of_supplier_inside<S: Alter>(
    tx: &mut Transaction<'_, S>,
    variant: &Name,
    supplier: &Name,
) -> Result<Vec<Row>, Error>
    ensures { Runs S.Store (Finds shows_frame (is_frame_of variant.now supplier.now) frames_cmp
        (λ t. t.frames)) tx.old tx.new result }
{
    tx.query_all(OF_SUPPLIER, params![variant.as_str(), supplier.as_str()])
}
