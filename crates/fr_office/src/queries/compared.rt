//! The rows of frames that a difference compares, and a report tells: for each kind of row a list, by frame.
ghost use Rattle.std.specs.Prelude.{◌≡◌, [], ◌++◌, IfOk, OnOk};
ghost use Rattle.std.specs.List.{flat_map};
ghost use Rattle.fr_office.specs.Compared.{compared_rows};
ghost use Rattle.fr_world.specs.Pages.{own_rows_of};

use crate::queries::gaps::push_gaps;
use fr_base::{FrameRecord, GapRow, NoMemory, PlacementRecord, Rows, SignalRecord};
use fr_world::{FileRecord, KeyedRow, Page};
use std::alloc::Global;

/// A kind of rows, of which each frame has some.
pub(crate) trait ComparedRow: KeyedRow {
    ghost use Rattle.std.specs.List.{flat_map};
    ghost use Rattle.std.specs.Prelude.{◌≡◌, ◌++◌, List, OnOk};
    ghost use Rattle.fr_base.specs.Book.{Frame};
    ghost use Rattle.fr_base.specs.declared.name.Name.{Name as NameText};
    ghost use Rattle.fr_base.specs.declared.params.Params.{Params as Given};
    ghost use Rattle.fr_world.specs.Pages.{own_rows_of};

    /// The rows of a frame under its supplier and name.
    ghost compared: { Given → (NameText × NameText) × Frame → List Self };

    /// Appends the rows of the page's frames, in order. Where memory is refused, some of them may have been appended.
    fn push_page(page: &Page, rows: &mut Rows<Self>) -> Result<(), NoMemory>
        ensures { OnOk result (rows.new ≡ rows.old
            ++ flat_map (compared page.now.params) (own_rows_of page.now).frames.rows) };
}

impl ComparedRow for FrameRecord {
    ghost use Rattle.fr_base.specs.Exports.{frame_records};

    ghost compared = { λ p e. frame_records e };

    fn push_page(page: &Page, rows: &mut Rows<FrameRecord>) -> Result<(), NoMemory> {
        push_records(page, rows)
    }
}

impl ComparedRow for PlacementRecord {
    ghost use Rattle.fr_base.specs.Exports.{placement_records};

    ghost compared = { λ p e. placement_records e };

    fn push_page(page: &Page, rows: &mut Rows<PlacementRecord>) -> Result<(), NoMemory> {
        push_records(page, rows)
    }
}

impl ComparedRow for SignalRecord {
    ghost use Rattle.fr_base.specs.Exports.{signal_records};

    ghost compared = { λ p e. signal_records e };

    fn push_page(page: &Page, rows: &mut Rows<SignalRecord>) -> Result<(), NoMemory> {
        push_records(page, rows)
    }
}

impl ComparedRow for GapRow {
    ghost use Rattle.std.specs.Prelude.{[], ◌∷◌};
    ghost use Rattle.fr_base.specs.Queries.{gap_row};

    ghost compared = { λ p e. gap_row p e ∷ [] };

    fn push_page(page: &Page, rows: &mut Rows<GapRow>) -> Result<(), NoMemory> {
        push_gaps(page, rows)
    }
}

// Appends the records of the page's frames, in order. Where memory is refused, some of them may have been appended.
fn push_records<T: FileRecord + Drop>(page: &Page, rows: &mut Rows<T>) -> Result<(), NoMemory>
    ensures { OnOk result (rows.new ≡ rows.old
        ++ flat_map T.records (own_rows_of page.now).frames.rows) }
{
    let supplier = page.supplier();
    for (name, frame) in page.frames().iter() {
        T::push(supplier, *name, frame, rows)?;
    }
    Ok(())
}

/// The rows of frames: of each kind a list, in order.
#[derive(Drop)]
pub(crate) struct ComparedRows {
    /// The frames.
    pub(crate) frames: Rows<FrameRecord>,
    /// Their placements.
    pub(crate) placements: Rows<PlacementRecord>,
    /// Their signals.
    pub(crate) signals: Rows<SignalRecord>,
    /// Their greatest gaps.
    pub(crate) gaps: Rows<GapRow>,
}

impl ComparedRows {
    /// No row.
    pub(crate) fn new(alloc: Global) -> ComparedRows
        ensures { result ≡ record { frames = []; placements = []; signals = []; gaps = [] } }
    {
        ComparedRows {
            frames: Rows::new(alloc),
            placements: Rows::new(alloc),
            signals: Rows::new(alloc),
            gaps: Rows::new(alloc),
        }
    }

    /// The rows of this page.
    pub(crate) fn of_page(alloc: Global, page: &Page) -> Result<ComparedRows, NoMemory>
        ensures { IfOk result (λ rows.
            rows ≡ compared_rows page.now.params (own_rows_of page.now).frames) }
    {
        let mut rows = ComparedRows::new(alloc);
        FrameRecord::push_page(page, &mut rows.frames)?;
        PlacementRecord::push_page(page, &mut rows.placements)?;
        SignalRecord::push_page(page, &mut rows.signals)?;
        GapRow::push_page(page, &mut rows.gaps)?;
        Ok(rows)
    }
}
