//! The names of the frames that a supplier has in a variant: the variant's own frames, and where it is
//! laid over its parent also the parent's. They are read in a transaction.

ghost use Rattle.std.specs.Prelude.{◌≡◌, ◌||◌, ◌&&◌, not, IfSome};
ghost use Rattle.fr_store.specs.Applying.{Tries};
ghost use Rattle.fr_store.specs.Flat.{LaysNames, TellsNames, any_named, has_name};
ghost use Rattle.fr_store.specs.Paging.{Reads};
ghost use Rattle.fr_store.specs.declared.fault.StoreFault.TheVariants.{Unavailable};

use crate::applying::origin::read_origin;
use crate::fault::StoreFault;
use fr_base::Name;
use fr_tables::tables;
use fr_tables::values::name_at;
use sqlite::{Alter, Row, Transaction};
use std::alloc::Global;
use std::collections::BTreeSet;

/// The names of the frames that the supplier has in the variant. `Unavailable` where more than
/// `levels` variants are laid one over another.
pub fn shown_names<S: Alter>(
    tx: &mut Transaction<'_, S>,
    alloc: Global,
    variant: &Name,
    supplier: &Name,
    levels: u32,
) -> Result<BTreeSet<Name>, StoreFault>
    ensures { Tries S.Store (Reads (λ t names. TellsNames variant.now supplier.now t names.keys))
        tx.old tx.new result }
{
    let origin = read_origin(tx, variant)?;
    let above = levels.checked_sub(1).ok_or(StoreFault::Unavailable)?;
    match origin.laid_over() {
        Some(parent) => {
            let inherited = shown_names(tx, alloc, &parent, supplier, above)?;
            lay_over(tx, inherited, variant, supplier)
        }
        None => lay_over(tx, BTreeSet::new(alloc), variant, supplier),
    }
}

// The names that the supplier has in the variant, where it has these in the parent over which that is
// laid.
fn lay_over<S: Alter>(
    tx: &mut Transaction<'_, S>,
    inherited: BTreeSet<Name>,
    variant: &Name,
    supplier: &Name,
) -> Result<BTreeSet<Name>, StoreFault>
    ensures { Tries S.Store (Reads (λ t names.
        LaysNames variant.now supplier.now inherited.keys t names.keys))
        tx.old tx.new result }
{
    let dropped = tables::dropped::of_supplier_inside(tx, variant, supplier)?;
    let own = tables::frames::of_supplier_inside(tx, variant, supplier)?;
    join(inherited, dropped.as_slice(), own.as_slice()).ok_or(StoreFault::Unavailable)
}

// The names without those in the one list of rows, and with those in the other. None where a row has
// not the form, or memory is refused.
fn join(names: BTreeSet<Name>, dropped: &[Row], own: &[Row]) -> Option<BTreeSet<Name>>
    ensures { IfSome result (λ all. (n : _) → has_name n all.keys
        ≡ (any_named n own.now
        || (not (any_named n dropped.now) && has_name n names.keys))) }
{
    with(without(names, dropped)?, own)
}

// The names without those in the rows.
fn without(mut names: BTreeSet<Name>, rows: &[Row]) -> Option<BTreeSet<Name>>
    ensures { IfSome result (λ kept. (n : _) → has_name n kept.keys
        ≡ (not (any_named n rows.now) && has_name n names.keys)) }
{
    for row in rows {
        names.remove(&name_at(row, 0)?);
    }
    Some(names)
}

// The names, and those in the rows.
fn with(mut names: BTreeSet<Name>, rows: &[Row]) -> Option<BTreeSet<Name>>
    ensures { IfSome result (λ all. (n : _) → has_name n all.keys
        ≡ (any_named n rows.now || has_name n names.keys)) }
{
    for row in rows {
        let Ok(_) = names.insert(name_at(row, 0)?) else {
            return None;
        };
    }
    Some(names)
}
