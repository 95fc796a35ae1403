//! Makes a parent's frame the variant's own, with a copy of its rows.

ghost use Rattle.std.specs.Prelude.{◌≡◌};
ghost use Rattle.fr_store.specs.Applying.{Tries, Edits};
ghost use Rattle.fr_store.specs.Owning.{FindsOwner, MakesFrameCopies, MakesOwn, is_own};
ghost use Rattle.fr_store.specs.Paging.{Reads};
ghost use Rattle.fr_tables.specs.Changes.{Runs};
ghost use Rattle.fr_store.specs.declared.fault.StoreFault.TheVariants.{Unavailable};

use crate::applying::done;
use crate::applying::origin::read_origin;
use crate::fault::StoreFault;
use fr_base::{MAX_DEPTH, Name};
use fr_tables::frame_key::FrameKey;
use fr_tables::tables;
use sqlite::{Alter, Error, Transaction};

/// Whether the frame is the variant's own.
pub fn is_own<S: Alter>(tx: &mut Transaction<'_, S>, key: &FrameKey) -> Result<bool, StoreFault>
    ensures { Tries S.Store (Reads (λ t is. is ≡ is_own key.now t)) tx.old tx.new result }
{
    let rows = tables::frames::one_inside(tx, key)?;
    Ok(!rows.is_empty())
}

/// The first variant that has the frame as its own, from this one on, parent after parent.
/// `Unavailable` where none has it within the depth that a variant may have.
pub fn owner<S: Alter>(tx: &mut Transaction<'_, S>, key: &FrameKey) -> Result<Name, StoreFault>
    ensures { Tries S.Store (FindsOwner key.now) tx.old tx.new result }
{
    let mut above = key.variant;
    for _ in 0..MAX_DEPTH {
        let here = FrameKey {
            variant: above,
            ..*key
        };
        if is_own(tx, &here)? {
            return Ok(above);
        }
        above = read_origin(tx, &above)?
            .parent
            .ok_or(StoreFault::Unavailable)?;
    }
    Err(StoreFault::Unavailable)
}

/// Copies all rows of the frame in another variant into this one.
pub fn copy_frame<S: Alter>(
    tx: &mut Transaction<'_, S>,
    from: &Name,
    to: &FrameKey,
) -> Result<usize, Error>
    ensures { Runs S.Store (MakesFrameCopies from.now to.now) tx.old tx.new result }
{
    tables::frames::copy_one(tx, from, to)?;
    tables::placements::copy_one(tx, from, to)?;
    tables::signals::copy_one(tx, from, to)
}

/// Makes the frame the variant's own. Where the variant only shows its parent's frame, that is
/// copied whole.
pub fn make_own<S: Alter>(tx: &mut Transaction<'_, S>, key: &FrameKey) -> Result<(), StoreFault>
    ensures { Edits S.Store (MakesOwn key.now) tx.old tx.new result }
{
    let owner = owner(tx, key)?;
    if owner == key.variant {
        return Ok(());
    }
    done(copy_frame(tx, &owner, key))
}
