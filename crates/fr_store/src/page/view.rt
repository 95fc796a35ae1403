//! The frames that a variant shows: its own, and where it is laid over its parent also the
//! parent's.

ghost use Rattle.std.specs.Prelude.{◌≡◌, bytes_eq, option_map, slice_get, None, IfErr, IfOk, IfSome, if◌then◌else◌};
ghost use Rattle.std.specs.List.{list_any};
ghost use Rattle.std.specs.Option.{option_or};
ghost use Rattle.fr_world.specs.Amends.{frame_at};
ghost use Rattle.fr_world.specs.Pages.{frames_data};
ghost use Rattle.fr_store.specs.Paging.{OnlyReads, TellsLevel, TellsOver, TellsView, level_shown};
ghost use Rattle.fr_store.specs.Reading.{name_shown};
ghost use Rattle.fr_store.specs.declared.fault.StoreFault.TheVariants.{Unavailable};

use crate::fault::StoreFault;
use crate::page::frames::own_frames;
use fr_base::{Name, Params};
use fr_tables::tables;
use fr_tables::values::{flag_at, maybe_name_at, name_at};
use fr_world::PageFrame;
use sqlite::{Alter, Connection, Row};
use std::alloc::Global;
use std::collections::BTreeMap;

/// A supplier's view of a variant.
#[derive(Drop)]
pub(super) struct View {
    /// Whether the variant is released.
    pub(super) released: bool,
    /// The supplier's frames in it, by their names.
    pub(super) frames: BTreeMap<Name, PageFrame>,
}

/// The supplier's view of the variant, if the variant is there. `Unavailable` where more than
/// `levels` variants are laid one over another, so also where a variant is laid over itself by way
/// of others. The depths that their rows say are not looked at.
pub(super) fn view_of<S: Alter>(
    alloc: Global,
    conn: &mut Connection<S>,
    params: &Params,
    variant: &Name,
    supplier: &Name,
    levels: u32,
) -> Result<Option<View>, StoreFault>
    ensures { OnlyReads S.Store (TellsView params.now.cycles variant.now supplier.now)
        conn.old conn.new result }
{
    let Some(Level { released, parent }) = level_of(conn, variant)? else {
        return Ok(None);
    };
    let above = levels.checked_sub(1).ok_or(StoreFault::Unavailable)?;
    let Some(parent) = parent else {
        let frames = own_frames(alloc, conn, params, variant, supplier)?;
        return Ok(Some(View { released, frames }));
    };
    let Some(inherited) = view_of(alloc, conn, params, &parent, supplier, above)? else {
        return Err(StoreFault::Unavailable);
    };
    let frames = lay_over(alloc, conn, params, variant, supplier, inherited.frames)?;
    Ok(Some(View { released, frames }))
}

// What a variant's row says: whether the variant is released, and the parent over which it is
// laid, if it is laid over one.
#[derive(Drop)]
struct Level {
    released: bool,
    parent: Option<Name>,
}

// What the variant's row says, if the variant is there.
fn level_of<S: Alter>(conn: &mut Connection<S>, variant: &Name) -> Result<Option<Level>, StoreFault>
    ensures { OnlyReads S.Store (TellsLevel variant.now) conn.old conn.new result }
{
    let rows = tables::variants::one(conn, variant)?;
    first_level(rows.as_slice())
}

// What the first row says, if there is one. `Unavailable` where it has not the form.
fn first_level(rows: &[Row]) -> Result<Option<Level>, StoreFault>
    ensures level { IfOk result (λ found. found ≡ option_map level_shown (slice_get rows.now 0)) }
    ensures refused { IfErr result (λ fault. fault ≡ Unavailable) }
{
    let Some(row) = rows.first() else {
        return Ok(None);
    };
    let level = level_in(row).ok_or(StoreFault::Unavailable)?;
    Ok(Some(level))
}

fn level_in(row: &Row) -> Option<Level>
    ensures { IfSome result (λ level. level ≡ level_shown row.now) }
{
    let released = flag_at(row, 3)?;
    let parent = maybe_name_at(row, 1)?;
    let parent = if flag_at(row, 4)? { parent } else { None };
    Some(Level { released, parent })
}

// The variant's own frames, with those that its parent shows and the variant neither has nor
// dropped.
fn lay_over<S: Alter>(
    alloc: Global,
    conn: &mut Connection<S>,
    params: &Params,
    variant: &Name,
    supplier: &Name,
    inherited: BTreeMap<Name, PageFrame>,
) -> Result<BTreeMap<Name, PageFrame>, StoreFault>
    ensures { OnlyReads S.Store (λ t frames. (parent : _)
        → TellsOver params.now.cycles variant.now supplier.now parent
        (frames_data inherited.entries) t (frames_data frames.entries)) conn.old conn.new result }
{
    let dropped = tables::dropped::of_supplier(conn, variant, supplier)?;
    let own = own_frames(alloc, conn, params, variant, supplier)?;
    let Some(kept) = without(inherited, dropped.as_slice()) else {
        return Err(StoreFault::Unavailable);
    };
    join(own, kept).ok_or(StoreFault::Unavailable)
}

// The frames without those that a row names. None where a row has not the form.
fn without(mut frames: BTreeMap<Name, PageFrame>, rows: &[Row]) -> Option<BTreeMap<Name, PageFrame>>
    ensures { IfSome result (λ kept. (n : _)
        → frame_at n kept.entries
        ≡ if list_any (λ r. bytes_eq (name_shown r) n) rows.now then None else frame_at n
        frames.entries) }
{
    for row in rows {
        frames.remove(&name_at(row, 0)?);
    }
    Some(frames)
}

// The variant's own frames, and those of the others whose names no own frame has. None where memory
// is refused.
fn join(
    mut own: BTreeMap<Name, PageFrame>,
    mut others: BTreeMap<Name, PageFrame>,
) -> Option<BTreeMap<Name, PageFrame>>
    ensures { IfSome result (λ all. (n : _)
        → frame_at n all.entries ≡ option_or (frame_at n own.entries) (frame_at n others.entries)) }
{
    let Ok(()) = others.append(&mut own) else {
        return None;
    };
    Some(others)
}
