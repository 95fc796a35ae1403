//! Who holds which slot on which channel, in each variant.

ghost use Rattle.std.specs.Prelude.{pos};
ghost use Rattle.fr_base.specs.Channels.{text_of_channel};
ghost use Rattle.fr_tables.specs.Changes.{Makes, MakesCopies, Finds, Asks, Runs};
ghost use Rattle.fr_tables.specs.Statements.{with_grant, without_grant, with_grants, grants_for, is_grant_of, is_grant_at, shows_grant, shows_holder, any_order};

use fr_base::{Channel, Name, Slot};
use sqlite::{Alter, Connection, Error, Row, Transaction, params};

/// Adds a grant.
pub fn insert<S: Alter>(
    tx: &mut Transaction<'_, S>,
    variant: &Name,
    slot: Slot,
    channel: Channel,
    supplier: &Name,
    node: &Name,
) -> Result<usize, Error>
    ensures { Runs S.Store (Makes (with_grant
        (record {
          variant = variant.now;
          slot = pos slot;
          channel = text_of_channel channel;
          supplier = supplier.now;
          node = node.now;
        }))) tx.old tx.new result }
{
    tx.execute(
        "INSERT INTO grants (variant, slot, channel, supplier, node) VALUES (?1, ?2, ?3, ?4, ?5)",
        params![
            variant.as_str(),
            slot.get(),
            channel.as_str(),
            supplier.as_str(),
            node.as_str()
        ],
    )
}

/// Ends the grant of a slot on a channel.
pub fn delete<S: Alter>(
    tx: &mut Transaction<'_, S>,
    variant: &Name,
    slot: Slot,
    channel: Channel,
) -> Result<usize, Error>
    ensures { Runs S.Store (Makes (without_grant variant.now (pos slot) (text_of_channel channel)))
        tx.old tx.new result }
{
    tx.execute(
        "DELETE FROM grants WHERE variant = ?1 AND slot = ?2 AND channel = ?3",
        params![variant.as_str(), slot.get(), channel.as_str()],
    )
}

/// Copies each grant of one variant into another.
pub fn copy<S: Alter>(
    tx: &mut Transaction<'_, S>,
    parent: &Name,
    child: &Name,
) -> Result<usize, Error>
    ensures { Runs S.Store (MakesCopies (grants_for parent.now child.now) with_grants)
        tx.old tx.new result }
{
    tx.execute(
        "INSERT INTO grants (variant, slot, channel, supplier, node) SELECT ?2, slot, channel, supplier, node FROM grants WHERE variant = ?1",
        params![parent.as_str(), child.as_str()],
    )
}

/// What the supplier holds in the variant: slot, channel and node, in no order.
pub fn of_supplier<S: Alter>(
    conn: &mut Connection<S>,
    variant: &Name,
    supplier: &Name,
) -> Result<Vec<Row>, Error>
    ensures { Asks S.Store (Finds shows_grant (is_grant_of variant.now supplier.now) any_order
        (λ t. t.grants)) conn.old conn.new result }
{
    conn.query_all(
        "SELECT slot, channel, node FROM grants WHERE variant = ?1 AND supplier = ?2",
        params![variant.as_str(), supplier.as_str()],
    )
}

/// Who holds the slot on the channel: supplier and node.
pub fn holder<S: Alter>(
    conn: &mut Connection<S>,
    variant: &Name,
    slot: Slot,
    channel: Channel,
) -> Result<Vec<Row>, Error>
    ensures { Asks S.Store (Finds shows_holder
        (is_grant_at variant.now (pos slot) (text_of_channel channel)) any_order (λ t. t.grants))
        conn.old conn.new result }
{
    conn.query_all(
        "SELECT supplier, node FROM grants WHERE variant = ?1 AND slot = ?2 AND channel = ?3",
        params![variant.as_str(), slot.get(), channel.as_str()],
    )
}
