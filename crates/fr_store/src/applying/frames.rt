//! Changes of a supplier's frame in a variant, carried out in the tables. A frame that the variant
//! only shows is copied before its placements or signals change.

ghost use Rattle.fr_base.specs.declared.request.FrameChange.TheVariants.{AddSignal, Drop, DropSignal, Place, Unplace};
ghost use Rattle.fr_store.specs.Applying.{Edits};
ghost use Rattle.fr_store.specs.FrameEdits.{EditsFrame};

use crate::applying::done;
use crate::applying::origin::read_origin;
use crate::applying::owning::make_own;
use crate::fault::StoreFault;
use fr_base::{Name, Placement, Signal};
use fr_tables::frame_key::FrameKey;
use fr_tables::tables::{dropped, frames, placements, signals};
use sqlite::{Alter, Transaction};

/// Drops the frame with its placements and signals. A variant that is laid over its parent does not
/// show the parent's frame any more.
pub fn drop_frame<S: Alter>(tx: &mut Transaction<'_, S>, key: &FrameKey) -> Result<(), StoreFault>
    ensures { Edits S.Store (EditsFrame key.now Drop) tx.old tx.new result }
{
    let origin = read_origin(tx, &key.variant)?;
    frames::delete(tx, key)?;
    if !origin.overlay {
        return Ok(());
    }
    done(dropped::insert(tx, key))
}

/// Places the frame.
pub fn place<S: Alter>(
    tx: &mut Transaction<'_, S>,
    key: &FrameKey,
    placement: &Placement,
) -> Result<(), StoreFault>
    ensures { Edits S.Store (EditsFrame key.now (Place placement.now)) tx.old tx.new result }
{
    make_own(tx, key)?;
    done(placements::insert(tx, key, placement))
}

/// Takes the placement back.
pub fn unplace<S: Alter>(
    tx: &mut Transaction<'_, S>,
    key: &FrameKey,
    placement: &Placement,
) -> Result<(), StoreFault>
    ensures { Edits S.Store (EditsFrame key.now (Unplace placement.now)) tx.old tx.new result }
{
    make_own(tx, key)?;
    done(placements::delete(tx, key, placement))
}

/// Adds the signal to the frame.
pub fn add_signal<S: Alter>(
    tx: &mut Transaction<'_, S>,
    key: &FrameKey,
    signal: &Signal,
) -> Result<(), StoreFault>
    ensures { Edits S.Store (EditsFrame key.now (AddSignal signal.now)) tx.old tx.new result }
{
    make_own(tx, key)?;
    done(signals::insert(tx, key, signal))
}

/// Drops the signal of this name from the frame.
pub fn drop_signal<S: Alter>(
    tx: &mut Transaction<'_, S>,
    key: &FrameKey,
    signal: &Name,
) -> Result<(), StoreFault>
    ensures { Edits S.Store (EditsFrame key.now (DropSignal signal.now)) tx.old tx.new result }
{
    make_own(tx, key)?;
    done(signals::delete(tx, key, signal))
}
