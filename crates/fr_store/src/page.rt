//! Reads a supplier's rows in a variant from the tables. Its page is made of them.

ghost use Rattle.std.specs.Prelude.{◌≡◌, map, option_map, reverse, IfOk, IfSome};
ghost use Rattle.fr_base.specs.Keys.{owned, channel_slots};
ghost use Rattle.fr_world.specs.Maps.{set_of, table_of};
ghost use Rattle.fr_world.specs.Pages.{holder_of, rows_data};
ghost use Rattle.fr_store.specs.Paging.{OnlyReads, TellsNodes, TellsGrants, TellsRows, grant_shown};
ghost use Rattle.fr_store.specs.Reading.{name_shown};

mod frames;
mod view;

use crate::fault::StoreFault;
use fr_base::{MAX_DEPTH, Name, Params};
use fr_tables::tables;
use fr_tables::values::{channel_at, name_at, slot_at};
use fr_world::{ChannelSlot, PageRows};
use sqlite::{Alter, Connection, Row};
use std::alloc::Global;
use std::collections::{BTreeMap, BTreeSet};
use view::{View, view_of};

/// The supplier's rows in the variant, if it is there. The only refusal is `Unavailable`.
pub(crate) fn rows<S: Alter>(
    alloc: Global,
    conn: &mut Connection<S>,
    params: &Params,
    supplier: &Name,
    variant: &Name,
) -> Result<Option<PageRows>, StoreFault>
    ensures reads { OnlyReads S.Store (λ t found.
        TellsRows params.now supplier.now variant.now t (option_map rows_data found))
        conn.old conn.new result }
    ensures params { IfOk result (λ found. IfSome found (λ rows. rows.params ≡ params.now)) }
{
    let Some(View { released, frames }) = view_of(
        alloc, conn, params, variant, supplier, MAX_DEPTH,
    )?
    else {
        return Ok(None);
    };
    Ok(Some(PageRows {
        params: *params,
        supplier: *supplier,
        variant: *variant,
        released,
        nodes: own_nodes(alloc, conn, supplier)?,
        grants: own_grants(alloc, conn, variant, supplier)?,
        frames,
    }))
}

// The supplier's nodes.
fn own_nodes<S: Alter>(
    alloc: Global,
    conn: &mut Connection<S>,
    supplier: &Name,
) -> Result<BTreeSet<Name>, StoreFault>
    ensures { OnlyReads S.Store (λ t nodes. TellsNodes supplier.now t nodes.keys)
        conn.old conn.new result }
{
    let rows = tables::nodes::of_supplier(conn, supplier)?;
    nodes_of(alloc, rows.as_slice()).ok_or(StoreFault::Unavailable)
}

// The names in the rows' first columns. None where one is not a name, or memory is refused.
fn nodes_of(alloc: Global, rows: &[Row]) -> Option<BTreeSet<Name>>
    ensures { IfSome result (λ nodes. (s : _)
        → set_of owned (λ n. (s, n)) nodes.keys
        ≡ set_of owned (λ n. (s, n)) (map name_shown (reverse rows.now))) }
{
    let mut nodes = BTreeSet::new(alloc);
    for row in rows {
        let Ok(_) = nodes.insert(name_at(row, 0)?) else {
            return None;
        };
    }
    Some(nodes)
}

// Which of the supplier's nodes holds which slot and channel in the variant.
fn own_grants<S: Alter>(
    alloc: Global,
    conn: &mut Connection<S>,
    variant: &Name,
    supplier: &Name,
) -> Result<BTreeMap<ChannelSlot, Name>, StoreFault>
    ensures { OnlyReads S.Store (λ t grants. TellsGrants variant.now supplier.now t grants.entries)
        conn.old conn.new result }
{
    let rows = tables::grants::of_supplier(conn, variant, supplier)?;
    grants_of(alloc, rows.as_slice()).ok_or(StoreFault::Unavailable)
}

// The grants in the rows. None where a row has not the form, or memory is refused.
fn grants_of(alloc: Global, rows: &[Row]) -> Option<BTreeMap<ChannelSlot, Name>>
    ensures { IfSome result (λ grants. (s : _)
        → table_of channel_slots (λ k. (k.slot, k.channel)) (holder_of s) grants.entries
        ≡ table_of channel_slots (λ k. (k.slot, k.channel)) (holder_of s)
        (map grant_shown (reverse rows.now))) }
{
    let mut grants = BTreeMap::new(alloc);
    for row in rows {
        let at = ChannelSlot {
            slot: slot_at(row, 0)?,
            channel: channel_at(row, 1)?,
        };
        let Ok(_) = grants.insert(at, name_at(row, 2)?) else {
            return None;
        };
    }
    Some(grants)
}
