//! The integrator's command that gives a supplier a node.
ghost use Rattle.fr_base.specs.Step.{add_node};
ghost use Rattle.fr_office.specs.Carried.{CarriesStep};

use fr_base::{Name, Refusal};
use fr_world::{Records, decide_node};
use std::alloc::Global;

/// Gives the supplier one more node, in all variants.
pub(crate) fn add_node<R: Records>(
    alloc: Global,
    records: &mut R,
    supplier: Name,
    node: Name,
) -> Result<(), Refusal>
    ensures { CarriesStep R.Records (λ c b. add_node b supplier node)
        records.old records.new result }
{
    if !records.config().has_supplier(supplier) {
        return Err(Refusal::NoSupplier);
    }
    let nodes = records.nodes(alloc, supplier)?;
    let edit = decide_node(supplier, &nodes, node)?;
    records.apply(alloc, &[edit])
}
