//! What rows say of the register: the holder of a slot, the variants, a supplier's nodes, and its
//! imports.

ghost use Rattle.std.specs.Prelude.{◌≡◌, map, All, IfErr, IfOk, IfSome, IsTrue, option_map, slice_get};
ghost use Rattle.fr_world.specs.ImportLabels.{kept_of};
ghost use Rattle.fr_store.specs.Reading.{AreOpened, WasOpened, holder_shown, import_shown, name_shown, variant_shown};
ghost use Rattle.fr_store.specs.declared.fault.StoreFault.TheVariants.{Unavailable};

use crate::fault::StoreFault;
use crate::slot_holder::Holder;
use fr_base::{MAX_DEPTH, MAX_VARIANTS, Name, VariantRow};
use fr_tables::values::{body_at, flag_at, maybe_name_at, name_at, number_at};
use fr_world::{KeptImport, find_variant};
use sqlite::Row;
use std::alloc::Global;

/// The names in the rows' first columns. None where one is not a name, or memory is refused.
pub(crate) fn names_of(alloc: Global, rows: &[Row]) -> Option<Vec<Name>>
    ensures { IfSome result (λ names. names.items ≡ map name_shown rows.now) }
{
    let mut names = Vec::new(alloc);
    for row in rows {
        names.push(name_at(row, 0)?).ok()?;
    }
    Some(names)
}

/// The variants in the rows. None where a row has not the form, where a register cannot have opened
/// a variant so, or where memory is refused.
pub(crate) fn opened_variants(alloc: Global, rows: &[Row]) -> Option<Vec<VariantRow>>
    ensures shown { IfSome result (λ found. found.items ≡ map variant_shown rows.now) }
    ensures opened { IfSome result (λ found. AreOpened found.items) }
{
    let found = variants_of(alloc, rows)?;
    if found.len() <= MAX_VARIANTS && each_was_opened(found.as_slice()) {
        Some(found)
    } else {
        None
    }
}

// Whether each of the variants has no parent, or one of them.
fn each_was_opened(variants: &[VariantRow]) -> bool
    ensures { IsTrue result → All (WasOpened variants.now) variants.now }
{
    for row in variants {
        if !was_opened(variants, row) {
            return false;
        }
    }
    true
}

// Whether the variant has depth 1 and no parent, or its parent is there and released, and its depth
// is one more than its parent's.
#[tactic(auto, unfolding(crate::proofs::ReadingLemmas::opened_open))]
fn was_opened(variants: &[VariantRow], row: &VariantRow) -> bool
    ensures { IsTrue result → WasOpened variants.now row.now }
{
    let Some(name) = row.parent else {
        return row.depth == 1;
    };
    match find_variant(variants, name) {
        Some(parent) => {
            parent.released && parent.depth < MAX_DEPTH && row.depth == parent.depth + 1
        }
        None => false,
    }
}

// The variants in the rows. None where a row has not the form, or memory is refused.
fn variants_of(alloc: Global, rows: &[Row]) -> Option<Vec<VariantRow>>
    ensures { IfSome result (λ found. found.items ≡ map variant_shown rows.now) }
{
    let mut found = Vec::new(alloc);
    for row in rows {
        found
            .push(VariantRow {
                variant: name_at(row, 0)?,
                parent: maybe_name_at(row, 1)?,
                depth: number_at(row, 2)?,
                released: flag_at(row, 3)?,
            })
            .ok()?;
    }
    Some(found)
}

/// The holder in the first row, if there is one. `Unavailable` where the row has not the form.
pub(crate) fn first_holder(rows: &[Row]) -> Result<Option<Holder>, StoreFault>
    ensures holder { IfOk result (λ found. found ≡ option_map holder_shown (slice_get rows.now 0)) }
    ensures refused { IfErr result (λ fault. fault ≡ Unavailable) }
{
    let Some(row) = rows.first() else {
        return Ok(None);
    };
    let holder = holder_of(row).ok_or(StoreFault::Unavailable)?;
    Ok(Some(holder))
}

fn holder_of(row: &Row) -> Option<Holder>
    ensures { IfSome result (λ found. found ≡ holder_shown row.now) }
{
    Some(Holder {
        supplier: name_at(row, 0)?,
        node: name_at(row, 1)?,
    })
}

/// The import in the first row, if there is one. `Unavailable` where the row has not the form, or
/// memory is refused.
pub(crate) fn first_import(alloc: Global, rows: &[Row]) -> Result<Option<KeptImport>, StoreFault>
    ensures import { IfOk result
        (λ found. option_map kept_of found ≡ option_map import_shown (slice_get rows.now 0)) }
    ensures refused { IfErr result (λ fault. fault ≡ Unavailable) }
{
    let Some(row) = rows.first() else {
        return Ok(None);
    };
    let import = import_of(alloc, row).ok_or(StoreFault::Unavailable)?;
    Ok(Some(import))
}

fn import_of(alloc: Global, row: &Row) -> Option<KeptImport>
    ensures { IfSome result (λ found. kept_of found ≡ import_shown row.now) }
{
    Some(KeptImport {
        variant: name_at(row, 0)?,
        body: body_at(alloc, row, 1)?,
        rows: number_at(row, 2)?,
    })
}
