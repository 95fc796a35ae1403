//! What an import's label decides, before its variant is looked at.
ghost use Rattle.std.specs.Prelude.{◌≡◌, option_map};
ghost use Rattle.fr_world.specs.ImportLabels.{kept_of, label_decision};

use crate::kept_import::KeptImport;
use fr_base::{Delivery, Refusal};

/// How many rows the import has, where it is the one that is kept under its label, with the same
/// bytes and the same variant: then it is answered again and changes nothing. None where the
/// supplier keeps no import under the label: then the import is new. `LabelUsed` where the supplier
/// keeps another import under it. It takes no memory.
#[tactic(auto, unfolding(crate::proofs::CommonLaws::common_open))]
pub fn decide_label(
    kept: Option<&KeptImport>,
    delivery: &Delivery<'_>,
) -> Result<Option<u32>, Refusal>
    ensures { result ≡ label_decision (option_map (λ k. kept_of k.now) kept.entry) delivery.now }
{
    let Some(kept) = kept else {
        return Ok(None);
    };
    if kept.variant != delivery.variant || kept.body.as_slice() != delivery.body.as_slice() {
        return Err(Refusal::LabelUsed);
    }
    Ok(Some(kept.rows))
}
