//! How a change of a supplier's rows is decided on the supplier's page.
ghost use Rattle.std.specs.Prelude.{◌≡◌, ◌⊎◌, Ok, Err, IfOk, IfErr};
ghost use Rattle.fr_base.specs.declared.refusal.Refusal.TheVariants.{Unavailable};
ghost use Rattle.fr_world.specs.Decisions.{IsChecked, admits_alone, decision};
ghost use Rattle.fr_world.specs.Edits.{Leads, rows_after};
ghost use Rattle.fr_world.specs.Pages.{own_rows_of};

mod clearing;
mod draft;
mod file;
mod frames;
mod freeing;
mod grants;
mod import_rows;
mod page_edits;
mod placements;
mod replacement;
pub(crate) mod rows;
mod signals;
mod trial;

use crate::edit::Edit;
use crate::page::Page;
pub use draft::Draft;
pub use file::{FileDecision, decide_file};
use fr_base::{Change, FrameChange, Refusal, RowsChange};
pub use import_rows::RowFault;
use std::alloc::Global;

/// The edits that a change of the page's rows makes, or the first refusal that applies. `Released`
/// comes before all others. Then come
///
/// - for a grant: `NoNode`, `Exists`, `NodeDiffers`; whether another supplier holds slot and
/// channel is not asked here;
/// - for the end of a grant: `NotGranted`, `InUse`;
/// - for a new frame: `NoNode`, `Exists`, `Limit`;
/// - for the end of a frame: `NoFrame`;
/// - for a placement: `NoFrame`, `NotGranted`, `Limit`, `CellTaken`;
/// - for the end of a placement: `NoFrame`, `NoPlacement`;
/// - for a new signal: `NoFrame`, `Exists`, `Limit`, `OutOfPayload`, `BitTaken`;
/// - for the end of a signal: `NoFrame`, `NoSignal`.
///
/// `Unavailable` where memory is refused.
#[tactic(auto, using(crate::proofs::DecideAll::decision_released))]
pub fn decide(alloc: Global, page: &Page, change: &Change) -> Result<Vec<Edit>, Refusal>
    requires checked { IsChecked page.now.params change.now }
    ensures edits { IfOk result (λ edits. decision page.now change.now ≡ Ok edits.items) }
    ensures leads { IfOk result (λ edits.
        Leads page.now.variant (own_rows_of page.now) edits.items
        (rows_after change.now (own_rows_of page.now))) }
    ensures refusal { IfErr result
        (λ e. (e ≡ Unavailable) ⊎ (decision page.now change.now ≡ Err e)) }
{
    if page.released() {
        return Err(Refusal::Released);
    }
    // They give the proof that the parameters make a cluster, and that the page's rows are kept.
    let (_raw, _frames) = (page.params().raw(), page.frames());
    admit(page, change)?;
    let edit = Edit::Rows(RowsChange {
        supplier: page.supplier(),
        variant: page.variant(),
        change: *change,
    });
    Ok(vec![in alloc; edit]?)
}

// The first refusal of the change in a variant that is open, if there is one.
fn admit(page: &Page, change: &Change) -> Result<(), Refusal>
    ensures { result ≡ admits_alone (own_rows_of page.now) change.now }
{
    match change {
        Change::Grant {
            slot,
            channel,
            node,
        } => grants::admit_grant(page, *slot, *channel, *node),
        Change::Revoke { slot, channel } => grants::admit_end(page, *slot, *channel),
        Change::Frame {
            frame,
            change: FrameChange::Add { node },
        } => frames::admit_frame(page, *frame, *node),
        Change::Frame {
            frame,
            change: FrameChange::Drop,
        } => frames::admit_drop(page, *frame),
        Change::Frame {
            frame,
            change: FrameChange::Place(placement),
        } => placements::admit_placement(page, *frame, placement),
        Change::Frame {
            frame,
            change: FrameChange::Unplace(placement),
        } => placements::admit_end(page, *frame, placement),
        Change::Frame {
            frame,
            change: FrameChange::AddSignal(signal),
        } => signals::admit_signal(page, *frame, signal),
        Change::Frame {
            frame,
            change: FrameChange::DropSignal(signal),
        } => signals::admit_end(page, *frame, *signal),
    }
}
