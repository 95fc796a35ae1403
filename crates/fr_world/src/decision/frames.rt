//! Whether a new frame, or the end of one, is refused.
ghost use Rattle.std.specs.Prelude.{◌≡◌};
ghost use Rattle.fr_world.specs.Decisions.{admits_alone};
ghost use Rattle.fr_world.specs.Pages.{own_rows_of};

use super::rows::{frame_named, has_node};
use crate::page::Page;
use fr_base::{Change, FrameChange, MAX_FRAMES, Name, Refusal};

/// Refuses a new frame of the node by the first of `NoNode`, `Exists` and `Limit` that applies.
#[tactic(auto, unfolding(crate::proofs::DecideRows::decide_open))]
pub(super) fn admit_frame(page: &Page, frame: Name, node: Name) -> Result<(), Refusal>
    ensures { result ≡ admits_alone (own_rows_of page.now)
        (Change.Frame frame (FrameChange.Add node)) }
{
    if !has_node(page, node) {
        return Err(Refusal::NoNode);
    }
    if frame_named(page, frame).is_some() {
        return Err(Refusal::Exists);
    }
    if page.frames().len() >= MAX_FRAMES {
        return Err(Refusal::Limit);
    }
    Ok(())
}

/// Refuses the end of a frame that is not there, by `NoFrame`.
#[tactic(auto, unfolding(crate::proofs::DecideRows::decide_open))]
pub(super) fn admit_drop(page: &Page, frame: Name) -> Result<(), Refusal>
    ensures { result ≡ admits_alone (own_rows_of page.now) (Change.Frame frame FrameChange.Drop) }
{
    if frame_named(page, frame).is_none() {
        return Err(Refusal::NoFrame);
    }
    Ok(())
}
