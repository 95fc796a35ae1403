//! The rows that a new register has: the schema's number, the cluster and its suppliers.

ghost use Rattle.fr_tables.specs.Changes.{Runs};
ghost use Rattle.fr_tables.specs.Filling.{MakesAllOf, with_suppliers, with_config};

use crate::tables;
use fr_base::{Config, Supplier};
use sqlite::{Alter, Error, Transaction};

/// Adds the suppliers.
fn suppliers<S: Alter>(tx: &mut Transaction<'_, S>, list: &[Supplier]) -> Result<(), Error>
    ensures { Runs S.Store (MakesAllOf (with_suppliers list.now)) tx.old tx.new result }
{
    for supplier in list {
        tables::suppliers::insert(tx, &supplier.name, &supplier.key)?;
    }
    Ok(())
}

/// Adds the rows of a new register.
pub fn config<S: Alter>(tx: &mut Transaction<'_, S>, config: &Config) -> Result<(), Error>
    ensures { Runs S.Store (MakesAllOf (with_config config.now)) tx.old tx.new result }
{
    tables::register::insert(tx, 2)?;
    tables::cluster2::insert(tx, &config.params(), &config.integrator())?;
    suppliers(tx, config.suppliers())
}
