//! How the integrator's commands on suppliers are decided by the config: one joins a supplier, the
//! other gives it another key.
ghost use Rattle.std.specs.Prelude.{◌≡◌};
ghost use Rattle.fr_world.specs.Suppliers.{new_key, new_supplier};

use crate::edit::Edit;
use fr_base::{Config, Key, Name, Refusal};

/// The edit by which the supplier joins the config's suppliers, or the first refusal: `Exists`,
/// `KeyTaken`, `Limit`. It takes no memory.
#[tactic(auto, unfolding(crate::proofs::CommonLaws::common_open))]
pub fn decide_supplier(config: &Config, supplier: Name, key: Key) -> Result<Edit, Refusal>
    ensures { result ≡ new_supplier config.now supplier key }
{
    config.admits(supplier, key)?;
    Ok(Edit::NewSupplier { supplier, key })
}

/// The edit by which the supplier has another key, or the first refusal: `NoSupplier`, `KeyTaken`. It takes no
/// memory.
#[tactic(auto, unfolding(crate::proofs::CommonLaws::common_open))]
pub fn decide_key(config: &Config, supplier: Name, key: Key) -> Result<Edit, Refusal>
    ensures { result ≡ new_key config.now supplier key }
{
    config.admits_key(supplier, key)?;
    Ok(Edit::SetKey { supplier, key })
}
