//! The integrator's commands on all suppliers.
ghost use Rattle.fr_base.specs.Step.{common};
ghost use Rattle.fr_office.specs.Carried.{CarriesStep};

use fr_base::{CommonCommand, Refusal};
use fr_world::{Records, decide_common};
use std::alloc::Global;

/// Opens or releases a variant.
pub(crate) fn change_common<R: Records>(
    alloc: Global,
    records: &mut R,
    command: &CommonCommand,
) -> Result<(), Refusal>
    ensures { CarriesStep R.Records (λ c b. common b command.now) records.old records.new result }
{
    let variants = records.variants(alloc)?;
    let edit = decide_common(&variants, command)?;
    records.apply(alloc, &[edit])
}
