//! The cells that a supplier's frames fill, if none lies in two placements.
ghost use Rattle.std.specs.Prelude.{◌≡◌, ◌++◌, true, false, List, IfNone, IfOk, IfSome};
ghost use Rattle.fr_base.specs.declared.name.Name.{Name as NameText};
ghost use Rattle.fr_base.specs.declared.placement.Placement.{Placement as Cells};
ghost use Rattle.fr_world.specs.Decisions.{filled_by};
ghost use Rattle.fr_world.specs.PageCells.{ShareNone, pairs_in};
ghost use Rattle.fr_world.specs.Pages.{frame_data, frame_of, frames_data};

use crate::mask_occupancy::MaskOccupancy;
use crate::occupancy::Occupancy;
use crate::page::{PageFrame, PageRows};
use fr_base::{Name, NoMemory};
use std::alloc::Global;

/// The cells that the frames fill, if no cell lies in two placements.
pub(super) fn cells_of(alloc: Global, rows: &PageRows) -> Result<Option<MaskOccupancy>, NoMemory>
    ensures some { IfOk result (λ built.
        IfSome built (λ cells. (cells ≡ pairs_in (frames_data rows.now.frames.entries))
        × ShareNone cells)) }
    ensures none { IfOk result (λ built.
        IfNone built (¬ ShareNone (pairs_in (frames_data rows.now.frames.entries)))) }
{
    let mut cells = MaskOccupancy::new(alloc);
    for (name, frame) in &rows.frames {
        if !fill(&mut cells, *name, frame)? {
            return Ok(None);
        }
    }
    Ok(Some(cells))
}

// Fills the cells of the frame's placements, one placement after another, and stops at the first
// whose cells are not free. Gives whether all were free.
fn fill(cells: &mut MaskOccupancy, name: Name, frame: &PageFrame) -> Result<bool, NoMemory>
    requires { ShareNone cells.old }
    ensures free { IfOk result (λ free. free ≡ true
        → (cells.new ≡ cells.old ++ filled_by name (frame_of (frame_data frame.now)))
        × ShareNone cells.new) }
    ensures taken { IfOk result (λ free. free ≡ false → (later : List (NameText × Cells))
        → ¬ ShareNone ((cells.old ++ filled_by name (frame_of (frame_data frame.now))) ++ later)) }
{
    for placement in &frame.placements {
        if !cells.free(placement) {
            return Ok(false);
        }
        cells.add(name, placement)?;
    }
    Ok(true)
}
