//! The nodes that a query shows.
#![tactic(auto, using(fr_world::proofs::ReadLaws::reads_none, fr_world::proofs::ReadLaws::reads_then))]

ghost use Rattle.std.specs.Prelude.{◌≡◌, ◌++◌, map, OnOk};
ghost use Rattle.std.specs.List.{flat_map};
ghost use Rattle.fr_base.specs.Book.{own};
ghost use Rattle.fr_base.specs.Queries.{nodes_of};
ghost use Rattle.fr_base.specs.Seen.{seen_nodes};
ghost use Rattle.fr_office.specs.Carried.{OnlyReads};
ghost use Rattle.fr_office.specs.Shown.{node_of, Sees};
ghost use Rattle.fr_world.specs.Held.{Tells};

use crate::queries::suppliers::seen_suppliers;
use fr_base::{Actor, Name, NoMemory, NodeRow, Refusal, Rows};
use fr_world::Records;
use std::alloc::Global;

/// The nodes that the actor sees, by supplier and name: a supplier its own, the integrator those of all.
pub(crate) fn node_rows<R: Records>(
    alloc: Global,
    records: &mut R,
    actor: &Actor,
) -> Result<Rows<NodeRow>, Refusal>
    ensures { OnlyReads R.Records
        (Sees (λ c b rows. rows ≡ nodes_of (seen_nodes actor.now b.nodes)))
        records.old records.new result }
{
    let suppliers = seen_suppliers(alloc, records, actor)?;
    gather_nodes(alloc, records, &suppliers)
}

// The nodes of these suppliers, supplier after supplier.
fn gather_nodes<R: Records>(
    alloc: Global,
    records: &mut R,
    suppliers: &[Name],
) -> Result<Rows<NodeRow>, Refusal>
    ensures { OnlyReads R.Records
        (λ old new r. Tells old new r (λ c b rows. rows
        ≡ flat_map (λ s. nodes_of (own s b.nodes)) suppliers.now))
        records.old records.new result }
{
    let mut rows = Rows::new(alloc);
    for supplier in suppliers {
        let nodes = records.nodes(alloc, *supplier)?;
        push_nodes(*supplier, &nodes, &mut rows)?;
    }
    Ok(rows)
}

// Appends the supplier's nodes of these names. Where memory is refused, some of them may have been appended.
fn push_nodes(supplier: Name, nodes: &[Name], rows: &mut Rows<NodeRow>) -> Result<(), NoMemory>
    ensures { OnOk result (rows.new ≡ rows.old ++ map (node_of supplier) nodes.now) }
{
    for node in nodes {
        rows.push(NodeRow {
            node: *node,
            supplier,
        })?;
    }
    Ok(())
}
