//! The signals of each frame.

ghost use Rattle.std.specs.Prelude.{◌≡◌, pos};
ghost use Rattle.fr_tables.specs.Changes.{Makes, MakesCopies, Finds, Asks, Runs};
ghost use Rattle.fr_tables.specs.Statements.{with_signal, without_signal, with_signals, signal_copies, signal_row, big_number, is_signalled_by, shows_signal, signals_cmp};

use crate::frame_key::FrameKey;
use fr_base::{Name, Order, Signal};
use sqlite::{Alter, Connection, Error, Row, Transaction, params};

/// The number of the order in the column `big`.
fn big(order: Order) -> u32
    ensures { pos result ≡ big_number order }
{
    match order {
        Order::Little => 0,
        Order::Big => 1,
    }
}

/// Adds a signal.
pub fn insert<'names, S: Alter>(
    tx: &mut Transaction<'_, S>,
    key: &'names FrameKey,
    signal: &Signal,
) -> Result<usize, Error>
    ensures { Runs S.Store (Makes (with_signal (signal_row key.now signal.now)))
        tx.old tx.new result }
{
    tx.execute(
        "INSERT INTO signals (variant, supplier, frame, name, start, length, big) VALUES (?1, ?2, ?3, ?4, ?5, ?6, ?7)",
        params![
            key.variant.as_str(),
            key.supplier.as_str(),
            key.frame.as_str(),
            signal.name().as_str(),
            signal.start(),
            signal.length(),
            big(signal.order())
        ],
    )
}

/// Drops the signal.
pub fn delete<S: Alter>(
    tx: &mut Transaction<'_, S>,
    key: &FrameKey,
    name: &Name,
) -> Result<usize, Error>
    ensures { Runs S.Store (Makes (without_signal key.now name.now)) tx.old tx.new result }
{
    tx.execute(
        "DELETE FROM signals WHERE variant = ?1 AND supplier = ?2 AND frame = ?3 AND name = ?4",
        params![
            key.variant.as_str(),
            key.supplier.as_str(),
            key.frame.as_str(),
            name.as_str()
        ],
    )
}

/// Copies the signals of the frame in another variant into this one.
pub fn copy_one<S: Alter>(
    tx: &mut Transaction<'_, S>,
    from: &Name,
    to: &FrameKey,
) -> Result<usize, Error>
    ensures { Runs S.Store (MakesCopies (signal_copies from.now to.now) with_signals)
        tx.old tx.new result }
{
    tx.execute(
        "INSERT INTO signals (variant, supplier, frame, name, start, length, big) SELECT ?2, supplier, frame, name, start, length, big FROM signals WHERE variant = ?1 AND supplier = ?3 AND frame = ?4",
        params![
            from.as_str(),
            to.variant.as_str(),
            to.supplier.as_str(),
            to.frame.as_str()
        ],
    )
}

/// The signals of the supplier's frames in the variant, by frame and name.
pub fn of_supplier<S: Alter>(
    conn: &mut Connection<S>,
    variant: &Name,
    supplier: &Name,
) -> Result<Vec<Row>, Error>
    ensures { Asks S.Store (Finds shows_signal (is_signalled_by variant.now supplier.now)
        signals_cmp (λ t. t.signals)) conn.old conn.new result }
{
    conn.query_all(
        "SELECT frame, name, start, length, big FROM signals WHERE variant = ?1 AND supplier = ?2 ORDER BY frame, name",
        params![variant.as_str(), supplier.as_str()],
    )
}
