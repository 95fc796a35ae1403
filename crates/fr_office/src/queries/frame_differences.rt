//! The rows in which frames of two variants differ.
ghost use Rattle.std.specs.Prelude.{◌≡◌, ◌++◌, OnOk};
ghost use Rattle.fr_base.specs.Merging.{merge};
ghost use Rattle.fr_office.specs.Compared.{rows_told};
ghost use Rattle.fr_office.specs.Kinds.{with_more};

use crate::queries::compared::ComparedRows;
use crate::queries::kind_rows::KindRows;
use fr_base::{DifferenceRow, NoMemory, Rows};
use fr_world::{KeyedRow, push_differences};
use std::alloc::Global;

/// Appends the rows in which the frames of a supplier differ, of each kind by key. Where memory is refused, some of them may
/// have been appended.
pub(crate) fn push_frame_differences(
    alloc: Global,
    old: &ComparedRows,
    new: &ComparedRows,
    told: &mut KindRows<DifferenceRow>,
) -> Result<(), NoMemory>
    ensures { OnOk result (told.new ≡ with_more told.old (rows_told old.now new.now)) }
{
    push_kind(
        alloc,
        old.frames.as_slice(),
        new.frames.as_slice(),
        &mut told.frames,
    )?;
    push_kind(
        alloc,
        old.placements.as_slice(),
        new.placements.as_slice(),
        &mut told.placements,
    )?;
    push_kind(
        alloc,
        old.signals.as_slice(),
        new.signals.as_slice(),
        &mut told.signals,
    )?;
    push_kind(
        alloc,
        old.gaps.as_slice(),
        new.gaps.as_slice(),
        &mut told.gaps,
    )
}

// Appends the rows in which the lists of a kind differ, by key. Where memory is refused, none of them are appended.
fn push_kind<T: KeyedRow>(
    alloc: Global,
    old: &[T],
    new: &[T],
    told: &mut Vec<DifferenceRow>,
) -> Result<(), NoMemory>
    ensures { OnOk result (told.new.items ≡ told.old.items
        ++ merge T.compare T.same T.told old.now new.now) }
{
    let mut more = Rows::new(alloc);
    push_differences(old, new, &mut more)?;
    told.extend_from_slice(more.as_slice())
}
