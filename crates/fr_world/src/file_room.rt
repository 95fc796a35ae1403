//! Whether there is room for a delivered file.
ghost use Rattle.std.specs.Prelude.{◌≡◌};
ghost use Rattle.fr_world.specs.ImportLimits.{file_room};

use fr_base::{Delivery, MAX_IMPORT_BYTES, MAX_IMPORTS, Purpose, Refusal};

/// `Limit`, where the file has more than 65,536 bytes, or where it is an import and its supplier keeps
/// 1000 imports already; `kept` is how many it keeps. A caller asks it of an import whose label is
/// new, and of all files once the variant is there and open. It takes no memory.
#[tactic(auto, unfolding(crate::proofs::CommonLaws::common_open))]
pub fn admit_file(delivery: &Delivery<'_>, kept: usize) -> Result<(), Refusal>
    ensures { result ≡ file_room delivery.now delivery.now.how kept }
{
    if delivery.body.as_slice().len() > MAX_IMPORT_BYTES {
        return Err(Refusal::Limit);
    }
    match delivery.how {
        Purpose::Import { .. } if kept >= MAX_IMPORTS => Err(Refusal::Limit),
        _ => Ok(()),
    }
}
