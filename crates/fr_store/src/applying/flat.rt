//! Opens a variant flat: without a parent, and with copies of all rows of another one. A supplier's
//! frames are copied one after another, so that no more than the names of one supplier's frames are in
//! memory.

ghost use Rattle.std.specs.Prelude.{◌≡◌, All, IsTrue};
ghost use Rattle.fr_base.specs.Tables.{contains};
ghost use Rattle.fr_world.specs.declared.edit.Edit.TheVariants.{NewFlat};
ghost use Rattle.fr_store.specs.Applying.{CarriesOut, Edits, Tries};
ghost use Rattle.fr_store.specs.Flat.{AnyFrames, Copies, OpensFlat, Reaches, TellsSuppliers, has_name};
ghost use Rattle.fr_store.specs.Paging.{Reads};

use crate::applying::done;
use crate::applying::owning::{copy_frame, is_own, owner};
use crate::applying::shown::shown_names;
use crate::fault::StoreFault;
use crate::reading::names_of;
use fr_base::{MAX_DEPTH, Name};
use fr_tables::frame_key::FrameKey;
use fr_tables::tables;
use fr_tables::tables::{grants, variants};
use sqlite::{Alter, Transaction};
use std::alloc::Global;
use std::collections::BTreeSet;

/// Opens the variant without a parent, and with copies of all rows of another one.
pub fn open_flat<S: Alter>(
    tx: &mut Transaction<'_, S>,
    alloc: Global,
    variant: &Name,
    from: &Name,
) -> Result<(), StoreFault>
    ensures { Edits S.Store (CarriesOut (NewFlat variant.now from.now)) tx.old tx.new result }
{
    begin(tx, variant, from)?;
    let suppliers = suppliers(tx, alloc)?;
    copy_all(tx, alloc, variant, from, suppliers.as_slice())
}

// Opens the variant with the other's grants, and no frames yet.
fn begin<S: Alter>(
    tx: &mut Transaction<'_, S>,
    variant: &Name,
    from: &Name,
) -> Result<(), StoreFault>
    ensures { Edits S.Store (OpensFlat variant.now from.now) tx.old tx.new result }
{
    variants::insert(tx, variant, None, 1, false)?;
    done(grants::copy(tx, from, variant))
}

// The names of all suppliers.
fn suppliers<S: Alter>(tx: &mut Transaction<'_, S>, alloc: Global) -> Result<Vec<Name>, StoreFault>
    ensures { Tries S.Store (Reads (λ t names. TellsSuppliers t names.items)) tx.old tx.new result }
{
    let rows = tables::suppliers::by_name_inside(tx)?;
    names_of(alloc, rows.as_slice()).ok_or(StoreFault::Unavailable)
}

// Copies the frames of these suppliers.
fn copy_all<S: Alter>(
    tx: &mut Transaction<'_, S>,
    alloc: Global,
    variant: &Name,
    from: &Name,
    suppliers: &[Name],
) -> Result<(), StoreFault>
    ensures { Edits S.Store (Copies variant.now from.now AnyFrames (λ whole part. (s n : _)
        → IsTrue (has_name s suppliers.now) → Reaches whole part (s, n))) tx.old tx.new result }
{
    for supplier in suppliers {
        copy_supplier(tx, alloc, variant, from, supplier)?;
    }
    Ok(())
}

// Copies the frames of this supplier.
fn copy_supplier<S: Alter>(
    tx: &mut Transaction<'_, S>,
    alloc: Global,
    variant: &Name,
    from: &Name,
    supplier: &Name,
) -> Result<(), StoreFault>
    ensures { Edits S.Store (Copies variant.now from.now AnyFrames
        (λ whole part. (n : _) → Reaches whole part (supplier.now, n))) tx.old tx.new result }
{
    let names = shown_names(tx, alloc, from, supplier, MAX_DEPTH)?;
    copy_frames(tx, variant, from, supplier, &names)
}

// Copies the supplier's frames of these names, which the other variant shows.
fn copy_frames<S: Alter>(
    tx: &mut Transaction<'_, S>,
    variant: &Name,
    from: &Name,
    supplier: &Name,
    names: &BTreeSet<Name>,
) -> Result<(), StoreFault>
    ensures { Edits S.Store (Copies variant.now from.now
        (λ whole. All (λ n. IsTrue (contains whole (supplier.now, n))) names.now.keys)
        (λ whole part. All (λ n. Reaches whole part (supplier.now, n)) names.now.keys))
        tx.old tx.new result }
{
    for name in names.iter() {
        copy_shown(tx, variant, from, supplier, name)?;
    }
    Ok(())
}

// Copies the supplier's frame of this name, which the other variant shows, if it was not copied yet.
fn copy_shown<S: Alter>(
    tx: &mut Transaction<'_, S>,
    variant: &Name,
    from: &Name,
    supplier: &Name,
    name: &Name,
) -> Result<(), StoreFault>
    ensures { Edits S.Store (Copies variant.now from.now
        (λ whole. IsTrue (contains whole (supplier.now, name.now)))
        (λ whole part. Reaches whole part (supplier.now, name.now))) tx.old tx.new result }
{
    let copy = FrameKey::new(*variant, *supplier, *name);
    if is_own(tx, &copy)? {
        return Ok(());
    }
    let shown = FrameKey::new(*from, *supplier, *name);
    let owner = owner(tx, &shown)?;
    done(copy_frame(tx, &owner, &copy))
}
