//! The names of the suppliers whose rows a query shows.
ghost use Rattle.std.specs.Prelude.{◌≡◌, IfOk, map};
ghost use Rattle.fr_base.specs.Book.{Book};
ghost use Rattle.fr_base.specs.Cluster.{Cluster};
ghost use Rattle.fr_office.specs.Shown.{seen_names};

use fr_base::{Actor, Config, Name, NoMemory};
use fr_world::Records;
use std::alloc::Global;

/// The names of the suppliers whose rows the actor sees, in byte order: a supplier its own, the integrator those of all.
#[tactic(auto, unfolding(crate::specs::Shown::seen_names))]
pub(crate) fn seen_suppliers<R: Records>(
    alloc: Global,
    records: &R,
    actor: &Actor,
) -> Result<Vec<Name>, NoMemory>
    ensures { IfOk result (λ names. (c : Cluster) (b : Book)
        → R.stands records.now c b → names.items ≡ seen_names actor.now b) }
{
    match actor {
        Actor::Supplier(supplier) => Ok(Vec::from_array(alloc, [*supplier])?),
        Actor::Integrator => {
            let names = supplier_names(alloc, records.config())?;
            Ok(names)
        }
    }
}

// The names of the suppliers, in byte order.
fn supplier_names(alloc: Global, config: &Config) -> Result<Vec<Name>, NoMemory>
    ensures { IfOk result (λ names. names.items ≡ map (λ s. s.name) config.now.suppliers) }
{
    config
        .suppliers()
        .iter()
        .map(|supplier| supplier.name)
        .collect(alloc)
}
