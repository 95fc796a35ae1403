//! Where a variant comes from: its parent, and whether it is laid over that. Read in a transaction.

ghost use Rattle.std.specs.Prelude.{◌≡◌, None, IfSome, if◌then◌else◌};
ghost use Rattle.sqlite.specs.Order.{column};
ghost use Rattle.sqlite.specs.declared.types.Value.TheVariants.{Int};
ghost use Rattle.fr_store.specs.Owning.{TellsOrigin};
ghost use Rattle.fr_store.specs.Paging.{Reads};
ghost use Rattle.fr_tables.specs.Rows.{of_maybe, flag};
ghost use Rattle.fr_store.specs.Applying.{Tries};
ghost use Rattle.fr_store.specs.declared.fault.StoreFault.TheVariants.{Unavailable};

use crate::fault::StoreFault;
use fr_base::Name;
use fr_tables::tables;
use fr_tables::values::{flag_at, maybe_name_at};
use sqlite::{Alter, Row, Transaction};

/// A variant's parent, and whether the variant is laid over that parent.
#[derive(Clone, Copy)]
pub struct Origin {
    pub parent: Option<Name>,
    pub overlay: bool,
}

impl Origin {
    /// The parent over which the variant is laid, if it is laid over one.
    pub fn laid_over(&self) -> Option<Name>
        ensures { result ≡ if self.now.overlay then self.now.parent else None }
    {
        if self.overlay { self.parent } else { None }
    }
}

// What the row says. None where it has not the form.
fn origin_of(row: &Row) -> Option<Origin>
    ensures parent { IfSome result (λ origin. column row.now 1 ≡ of_maybe origin.parent) }
    ensures overlay { IfSome result (λ origin. column row.now 4 ≡ Int (flag origin.overlay)) }
{
    Some(Origin {
        parent: maybe_name_at(row, 1)?,
        overlay: flag_at(row, 4)?,
    })
}

/// The variant's origin. `Unavailable` where the variant is not there.
pub fn read_origin<S: Alter>(
    tx: &mut Transaction<'_, S>,
    variant: &Name,
) -> Result<Origin, StoreFault>
    ensures { Tries S.Store (Reads (TellsOrigin variant.now)) tx.old tx.new result }
{
    let rows = tables::variants::one_inside(tx, variant)?;
    let Some(row) = rows.as_slice().first() else {
        return Err(StoreFault::Unavailable);
    };
    origin_of(row).ok_or(StoreFault::Unavailable)
}
