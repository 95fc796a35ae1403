//! The placements of each frame.

ghost use Rattle.fr_tables.specs.Changes.{Makes, MakesCopies, Finds, Asks, Runs};
ghost use Rattle.fr_tables.specs.Statements.{with_placement, without_placement, with_placements, placement_copies, placement_row, is_placed_by, shows_placement, placements_cmp};

use crate::frame_key::FrameKey;
use fr_base::{Name, Placement};
use sqlite::{Alter, Connection, Error, Row, Transaction, params};

/// Adds a placement.
pub fn insert<S: Alter>(
    tx: &mut Transaction<'_, S>,
    key: &FrameKey,
    placement: &Placement,
) -> Result<usize, Error>
    ensures { Runs S.Store (Makes (with_placement (placement_row key.now placement.now)))
        tx.old tx.new result }
{
    tx.execute(
        "INSERT INTO placements (variant, supplier, frame, slot, channels, base, repetition) VALUES (?1, ?2, ?3, ?4, ?5, ?6, ?7)",
        params![
            key.variant.as_str(),
            key.supplier.as_str(),
            key.frame.as_str(),
            placement.slot.get(),
            placement.channels.as_str(),
            u32::from(placement.cycles.base()),
            u32::from(placement.cycles.repetition())
        ],
    )
}

/// Ends a placement.
pub fn delete<S: Alter>(
    tx: &mut Transaction<'_, S>,
    key: &FrameKey,
    placement: &Placement,
) -> Result<usize, Error>
    ensures { Runs S.Store (Makes (without_placement (placement_row key.now placement.now)))
        tx.old tx.new result }
{
    tx.execute(
        "DELETE FROM placements WHERE variant = ?1 AND supplier = ?2 AND frame = ?3 AND slot = ?4 AND channels = ?5 AND base = ?6 AND repetition = ?7",
        params![
            key.variant.as_str(),
            key.supplier.as_str(),
            key.frame.as_str(),
            placement.slot.get(),
            placement.channels.as_str(),
            u32::from(placement.cycles.base()),
            u32::from(placement.cycles.repetition())
        ],
    )
}

/// Copies the placements of the frame in another variant into this one.
pub fn copy_one<S: Alter>(
    tx: &mut Transaction<'_, S>,
    from: &Name,
    to: &FrameKey,
) -> Result<usize, Error>
    ensures { Runs S.Store (MakesCopies (placement_copies from.now to.now) with_placements)
        tx.old tx.new result }
{
    tx.execute(
        "INSERT INTO placements (variant, supplier, frame, slot, channels, base, repetition) SELECT ?2, supplier, frame, slot, channels, base, repetition FROM placements WHERE variant = ?1 AND supplier = ?3 AND frame = ?4",
        params![
            from.as_str(),
            to.variant.as_str(),
            to.supplier.as_str(),
            to.frame.as_str()
        ],
    )
}

/// The placements of the supplier's frames in the variant, by frame and then in their order.
pub fn of_supplier<S: Alter>(
    conn: &mut Connection<S>,
    variant: &Name,
    supplier: &Name,
) -> Result<Vec<Row>, Error>
    ensures { Asks S.Store (Finds shows_placement (is_placed_by variant.now supplier.now)
        placements_cmp (λ t. t.placements)) conn.old conn.new result }
{
    conn.query_all(
        "SELECT frame, slot, channels, base, repetition FROM placements WHERE variant = ?1 AND supplier = ?2 ORDER BY frame, slot, channels, base, repetition",
        params![variant.as_str(), supplier.as_str()],
    )
}
