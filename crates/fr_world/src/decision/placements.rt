//! Whether a placement of a frame, or the end of one, is refused.
ghost use Rattle.std.specs.Prelude.{◌≡◌};
ghost use Rattle.fr_world.specs.Decisions.{admits_alone, has_room};
ghost use Rattle.fr_world.specs.Occupancies.{cell_refused, first_taken_cell};
ghost use Rattle.fr_world.specs.Pages.{own_rows_of};

use super::rows::frame_named;
use crate::grants::is_granted;
use crate::occupancy::Occupancy;
use crate::page::Page;
use fr_base::{Change, FrameChange, MAX_PLACEMENTS, Name, Placement, Refusal};

/// Refuses to place the frame there by the first of `NoFrame`, `NotGranted`, `Limit` and
/// `CellTaken` that applies. It takes no memory.
pub(super) fn admit_placement(
    page: &Page,
    frame: Name,
    placement: &Placement,
) -> Result<(), Refusal>
    ensures { result ≡ admits_alone (own_rows_of page.now)
        (Change.Frame frame (FrameChange.Place placement.now)) }
{
    has_room(page, frame, placement)?;
    is_free(page.cells(), placement)
}

// Refuses to place the frame there by the first of `NoFrame`, `NotGranted` and `Limit` that
// applies, whatever cells are filled.
fn has_room(page: &Page, frame: Name, placement: &Placement) -> Result<(), Refusal>
    ensures { result ≡ has_room (own_rows_of page.now) frame placement.now }
{
    let row = frame_named(page, frame).ok_or(Refusal::NoFrame)?;
    if !is_granted(page.grants(), row.node, placement) {
        return Err(Refusal::NotGranted);
    }
    if row.placements.len() >= MAX_PLACEMENTS {
        return Err(Refusal::Limit);
    }
    Ok(())
}

// Refuses the placement by `CellTaken`, where a frame fills one of its cells.
fn is_free<O: Occupancy>(occupancy: &O, placement: &Placement) -> Result<(), Refusal>
    ensures { result ≡ cell_refused (first_taken_cell (O.pairs occupancy.now) placement.now) }
{
    match occupancy.first_taken(placement) {
        Some(taken) => Err(Refusal::CellTaken {
            cycle: taken.cycle,
            channel: taken.channel,
            frame: taken.frame,
        }),
        None => Ok(()),
    }
}

/// Refuses the end of the frame's placement by the first of `NoFrame` and `NoPlacement` that
/// applies.
#[tactic(auto, unfolding(crate::proofs::DecideRows::decide_open))]
pub(super) fn admit_end(page: &Page, frame: Name, placement: &Placement) -> Result<(), Refusal>
    ensures { result ≡ admits_alone (own_rows_of page.now)
        (Change.Frame frame (FrameChange.Unplace placement.now)) }
{
    let row = frame_named(page, frame).ok_or(Refusal::NoFrame)?;
    if !row.placements.contains(placement) {
        return Err(Refusal::NoPlacement);
    }
    Ok(())
}
