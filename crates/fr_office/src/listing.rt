//! The variants of the register, listed for a sender.
ghost use Rattle.fr_office.specs.Carried.{OnlyReads};
ghost use Rattle.fr_office.specs.Listing.{Lists};

use crate::dispatch::is_known;
use fr_base::{Actor, Refusal, VariantRow};
use fr_world::Records;
use std::alloc::Global;

/// The variants, by name. They are common to all suppliers, so each of them is told of all. `UnknownKey` where who
/// asks is not there; `Unavailable` comes only where who asks is there.
pub fn list_variants<R: Records>(
    alloc: Global,
    records: &mut R,
    actor: &Actor,
) -> Result<Vec<VariantRow>, Refusal>
    ensures { OnlyReads R.Records (λ old new r. Lists old new actor.now r)
        records.old records.new result }
{
    if !is_known(records.config(), actor) {
        return Err(Refusal::UnknownKey);
    }
    records.variants(alloc)
}
