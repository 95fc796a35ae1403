//! An edit, carried out in the tables, and the config after it.

ghost use Rattle.std.specs.Prelude.{◌≡◌, false, IfOk, unwrap_or};
ghost use Rattle.fr_world.specs.declared.edit.Edit.TheVariants.{NewVariant};
ghost use Rattle.fr_store.specs.Applying.{CarriesOut, Edits, LeavesConfig, Within};
ghost use Rattle.fr_store.specs.Joined.{after_edit};
ghost use Rattle.fr_store.specs.Sparing.{SparesFrames, changes_frame};

use crate::applying::done;
use crate::applying::flat::open_flat;
use crate::applying::frames::{add_signal, drop_frame, drop_signal, place, unplace};
use crate::applying::joining::{add_supplier, set_key};
use crate::fault::StoreFault;
use fr_base::{Change, Config, FrameChange, Name};
use fr_tables::frame_key::FrameKey;
use fr_tables::tables::{frames, grants, imports, nodes, variants};
use fr_world::Edit;
use sqlite::{Alter, Transaction};
use std::alloc::Global;

/// Carries the edit out. Gives the config after it, or None where that stays as it was.
pub fn carry_out<S: Alter>(
    tx: &mut Transaction<'_, S>,
    alloc: Global,
    config: &Config,
    edit: &Edit,
) -> Result<Option<Config>, StoreFault>
    ensures carried { Edits S.Store (CarriesOut edit.now) tx.old tx.new result }
    ensures spared { changes_frame edit.now ≡ false
        → Within S.Store SparesFrames tx.old tx.new result }
    ensures after { IfOk result (λ after.
        unwrap_or after config.now ≡ after_edit config.now edit.now) }
{
    match edit {
        Edit::NewVariant {
            variant,
            parent,
            depth,
        } => stays(open_variant(tx, variant, *parent, *depth)),
        Edit::NewFlat { variant, from } => stays(open_flat(tx, alloc, variant, from)),
        Edit::SetReleased { variant } => stays(done(variants::release(tx, variant))),
        Edit::NewSupplier { supplier, key } => add_supplier(tx, alloc, config, supplier, key),
        Edit::SetKey { supplier, key } => set_key(tx, alloc, config, supplier, key),
        Edit::NewNode { supplier, node } => stays(done(nodes::insert(tx, supplier, node))),
        Edit::Rows(rows) => stays(match &rows.change {
            Change::Grant {
                slot,
                channel,
                node,
            } => done(grants::insert(tx, &rows.variant, *slot, *channel, &rows.supplier, node)),
            Change::Revoke { slot, channel } => {
                done(grants::delete(tx, &rows.variant, *slot, *channel))
            }
            Change::Frame { frame, change } => {
                let key = FrameKey::new(rows.variant, rows.supplier, *frame);
                match change {
                    FrameChange::Add { node } => done(frames::insert(tx, &key, node)),
                    FrameChange::Drop => drop_frame(tx, &key),
                    FrameChange::Place(placement) => place(tx, &key, placement),
                    FrameChange::Unplace(placement) => unplace(tx, &key, placement),
                    FrameChange::AddSignal(signal) => add_signal(tx, &key, signal),
                    FrameChange::DropSignal(signal) => drop_signal(tx, &key, signal),
                }
            }
        }),
        Edit::KeepImport {
            supplier,
            label,
            variant,
            body,
            rows,
        } => stays(done(imports::insert(tx, supplier, label, variant, body, *rows))),
    }
}

// An edit that leaves the config as it was.
fn stays(ran: Result<(), StoreFault>) -> Result<Option<Config>, StoreFault>
    ensures { LeavesConfig ran result }
{
    ran?;
    Ok(None)
}

// Opens the variant: empty, or laid over its parent, with the parent's grants and no frames of its
// own.
fn open_variant<S: Alter>(
    tx: &mut Transaction<'_, S>,
    variant: &Name,
    parent: Option<Name>,
    depth: u32,
) -> Result<(), StoreFault>
    ensures carried { Edits S.Store (CarriesOut (NewVariant variant.now parent depth))
        tx.old tx.new result }
    ensures spared { Within S.Store SparesFrames tx.old tx.new result }
{
    match parent {
        None => done(variants::insert(tx, variant, None, depth, false)),
        Some(parent) => {
            variants::insert(tx, variant, Some(&parent), depth, true)?;
            done(grants::copy(tx, &parent, variant))
        }
    }
}
