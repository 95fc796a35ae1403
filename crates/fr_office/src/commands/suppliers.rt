//! The integrator's commands on suppliers: one joins, or has another key.
ghost use Rattle.fr_base.specs.Step.{add_supplier, set_key};
ghost use Rattle.fr_office.specs.Carried.{CarriesStep};

use fr_base::{Key, Name, Refusal};
use fr_world::{Records, decide_key, decide_supplier};
use std::alloc::Global;

/// Adds the supplier, with this key and without nodes. Refusals: `Exists`, `KeyTaken`, `Limit`, the
/// first that applies.
pub(crate) fn add_supplier<R: Records>(
    alloc: Global,
    records: &mut R,
    supplier: Name,
    key: Key,
) -> Result<(), Refusal>
    ensures { CarriesStep R.Records (λ c b. add_supplier c b supplier key)
        records.old records.new result }
{
    let edit = decide_supplier(records.config(), supplier, key)?;
    records.apply(alloc, &[edit])
}

/// Gives the supplier this key. Its old key is nobody's. Refusals: `NoSupplier`, `KeyTaken`, the
/// first that applies.
pub(crate) fn set_key<R: Records>(
    alloc: Global,
    records: &mut R,
    supplier: Name,
    key: Key,
) -> Result<(), Refusal>
    ensures { CarriesStep R.Records (λ c b. set_key c b supplier key)
        records.old records.new result }
{
    let edit = decide_key(records.config(), supplier, key)?;
    records.apply(alloc, &[edit])
}
