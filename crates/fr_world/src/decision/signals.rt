//! Whether a signal of a frame, or the end of one, is refused.
ghost use Rattle.std.specs.Prelude.{◌≡◌};
ghost use Rattle.fr_world.specs.Decisions.{admits_alone};
ghost use Rattle.fr_world.specs.Pages.{own_rows_of};

use super::rows::frame_named;
use crate::page::Page;
use fr_base::{Change, FrameChange, Name, Refusal, Signal};

/// Refuses to add the signal to the frame by the first of `NoFrame`, `Exists`, `Limit`,
/// `OutOfPayload` and `BitTaken` that applies.
#[tactic(auto, unfolding(crate::proofs::DecideRows::decide_open))]
pub(super) fn admit_signal(page: &Page, frame: Name, signal: &Signal) -> Result<(), Refusal>
    ensures { result ≡ admits_alone (own_rows_of page.now)
        (Change.Frame frame (FrameChange.AddSignal signal.now)) }
{
    let row = frame_named(page, frame).ok_or(Refusal::NoFrame)?;
    row.layout.admits(signal)
}

/// Refuses the end of the frame's signal of this name by the first of `NoFrame` and `NoSignal` that
/// applies.
#[tactic(auto, unfolding(crate::proofs::DecideRows::decide_open))]
pub(super) fn admit_end(page: &Page, frame: Name, signal: Name) -> Result<(), Refusal>
    ensures { result ≡ admits_alone (own_rows_of page.now)
        (Change.Frame frame (FrameChange.DropSignal signal)) }
{
    let row = frame_named(page, frame).ok_or(Refusal::NoFrame)?;
    if !row.layout.has_signal(signal) {
        return Err(Refusal::NoSignal);
    }
    Ok(())
}
