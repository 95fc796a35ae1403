//! Which rows a page may have.
ghost use Rattle.std.specs.Prelude.{◌≡◌, IfNone, IfOk, IfSome};
ghost use Rattle.fr_world.specs.PageCells.{ArePlaced};
ghost use Rattle.fr_world.specs.Pages.{IsKept, frames_data, rows_data};

mod cells;
mod frames;

use crate::mask_occupancy::MaskOccupancy;
use crate::page::{Page, PageRows};
use cells::cells_of;
use fr_base::{MAX_FRAMES, MAX_NODES, NoMemory};
use frames::are_frames;
use std::alloc::Global;

impl Page {
    /// The page of these rows. `None` where a page cannot have them: there are more than 64 nodes
    /// or 256 frames; a frame has more than 8 placements, or a layout of another payload than the
    /// cluster's; a placement lies past the static slots, on a channel that the cluster does not
    /// have, outside grants to the frame's node, or has another count of cycles than the cluster;
    /// or a cell lies in two placements. Then the rows are given up.
    pub fn build(alloc: Global, rows: PageRows) -> Result<Option<Page>, NoMemory>
        ensures page { IfOk result (λ built. IfSome built (λ page. page ≡ rows_data rows)) }
        ensures kept { IfOk result (λ built. IfSome built (λ page. IsKept (rows_data rows))) }
        ensures none { IfOk result (λ built. IfNone built (¬ IsKept (rows_data rows))) }
    {
        let Some(cells) = kept_cells(alloc, &rows)? else {
            return Ok(None);
        };
        Ok(Some(Page { rows, cells }))
    }
}

// The cells that the rows' frames fill, if a page may have the rows.
fn kept_cells(alloc: Global, rows: &PageRows) -> Result<Option<MaskOccupancy>, NoMemory>
    ensures some { IfOk result (λ kept.
        IfSome kept (λ cells. IsKept (rows_data rows.now)
        × ArePlaced cells (frames_data rows.now.frames.entries))) }
    ensures none { IfOk result (λ kept. IfNone kept (¬ IsKept (rows_data rows.now))) }
{
    let nodes = rows.nodes.len();
    let frames = rows.frames.len();
    // Gives the proof that the grants are in order.
    let _grants = rows.grants.len();
    if nodes > MAX_NODES || frames > MAX_FRAMES || !are_frames(rows) {
        return Ok(None);
    }
    cells_of(alloc, rows)
}
