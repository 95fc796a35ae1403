//! A supplier joins, or has another key: in the tables, and in the config.

ghost use Rattle.std.specs.Prelude.{◌≡◌, IfOk, unwrap_or};
ghost use Rattle.fr_base.specs.Joining.{joined};
ghost use Rattle.fr_base.specs.KeyChanges.{with_key};
ghost use Rattle.fr_world.specs.declared.edit.Edit.TheVariants.{NewSupplier, SetKey};
ghost use Rattle.fr_store.specs.Applying.{CarriesOut, Edits, Within};
ghost use Rattle.fr_store.specs.Sparing.{SparesFrames};

use crate::fault::StoreFault;
use fr_base::{Config, Key, Name, Supplier};
use fr_tables::tables::suppliers;
use sqlite::{Alter, Transaction};
use std::alloc::Global;

/// Adds the supplier, and gives the config that lists it too. `Unavailable` also where the config
/// does not admit it.
pub fn add_supplier<S: Alter>(
    tx: &mut Transaction<'_, S>,
    alloc: Global,
    config: &Config,
    name: &Name,
    key: &Key,
) -> Result<Option<Config>, StoreFault>
    ensures carried { Edits S.Store (CarriesOut (NewSupplier name.now key.now)) tx.old tx.new
        result }
    ensures spared { Within S.Store SparesFrames tx.old tx.new result }
    ensures after { IfOk result (λ after.
        unwrap_or after config.now ≡ joined config.now name.now key.now) }
{
    suppliers::insert(tx, name, key)?;
    let supplier = Supplier {
        name: *name,
        key: *key,
    };
    let after = config
        .joined(alloc, supplier)
        .map_err(|_| StoreFault::Unavailable)?;
    Ok(Some(after))
}

/// Gives the supplier another key, and the config that lists it with that. `Unavailable` also where
/// the config does not admit the key.
pub fn set_key<S: Alter>(
    tx: &mut Transaction<'_, S>,
    alloc: Global,
    config: &Config,
    name: &Name,
    key: &Key,
) -> Result<Option<Config>, StoreFault>
    ensures carried { Edits S.Store (CarriesOut (SetKey name.now key.now)) tx.old tx.new result }
    ensures spared { Within S.Store SparesFrames tx.old tx.new result }
    ensures after { IfOk result (λ after.
        unwrap_or after config.now ≡ with_key config.now name.now key.now) }
{
    suppliers::set_key(tx, name, key)?;
    let after = config
        .with_key(alloc, *name, *key)
        .map_err(|_| StoreFault::Unavailable)?;
    Ok(Some(after))
}
