//! The edits that lead from one page to another.
ghost use Rattle.std.specs.Prelude.{◌≡◌, ◌++◌, map, filter, not, IfOk, OnOk};
ghost use Rattle.std.specs.List.{list_any};
ghost use Rattle.fr_base.specs.Differences.{same_signal};
ghost use Rattle.fr_base.specs.Queries.{placements_in};
ghost use Rattle.fr_world.specs.Drafts.{IsOfSame};
ghost use Rattle.fr_world.specs.PageEdits.{carries, coming, edits_between, ending, frame_edits, gains, going, has_place, lent_frame, losses, of_node, rows_beside};
ghost use Rattle.fr_world.specs.Pages.{frame_data, frame_of, own_rows_of};

use super::rows::frame_named;
use crate::edit::Edit;
use crate::keyed_rows::is_same_signal;
use crate::page::{Page, PageFrame};
use fr_base::{Change, FrameChange, Name, NoMemory, Placement, RowsChange, Signal};
use std::alloc::Global;

/// The edits that lead from the page before to the one after, where the two differ in frames alone.
/// What is gone goes first, and then what is new comes. No edit names a row that both have, so the
/// same page has no edits.
pub(super) fn edits_between(
    alloc: Global,
    before: &Page,
    after: &Page,
) -> Result<Vec<Edit>, NoMemory>
    requires same { IsOfSame before.now after.now }
    ensures { IfOk result (λ edits. edits.items
        ≡ edits_between before.now.variant (own_rows_of before.now) (own_rows_of after.now)) }
{
    let mut edits = Vec::new(alloc);
    push_going(alloc, &mut edits, before, after)?;
    edits.reverse();
    push_coming(alloc, &mut edits, after, before)?;
    Ok(edits)
}

// Appends the edits that end what the page's frames have and the other's have not.
fn push_going(
    alloc: Global,
    edits: &mut Vec<Edit>,
    page: &Page,
    other: &Page,
) -> Result<(), NoMemory>
    requires same { other.now.supplier ≡ page.now.supplier }
    ensures { OnOk result (edits.new.items ≡ edits.old.items
        ++ going page.now.supplier page.now.variant (own_rows_of other.now).frames
        (own_rows_of page.now).frames.rows) }
{
    for (name, frame) in page.frames().iter() {
        let changes = losses(alloc, frame, of_node(frame.node, frame_named(other, *name)))?;
        push_edits(edits, page, *name, changes.as_slice())?;
    }
    Ok(())
}

// Appends the edits that add what the page's frames have and the other's have not.
fn push_coming(
    alloc: Global,
    edits: &mut Vec<Edit>,
    page: &Page,
    other: &Page,
) -> Result<(), NoMemory>
    requires same { other.now.supplier ≡ page.now.supplier }
    ensures { OnOk result (edits.new.items ≡ edits.old.items
        ++ coming page.now.supplier page.now.variant (own_rows_of other.now).frames
        (own_rows_of page.now).frames.rows) }
{
    for (name, frame) in page.frames().iter() {
        let changes = gains(alloc, frame, of_node(frame.node, frame_named(other, *name)))?;
        push_edits(edits, page, *name, changes.as_slice())?;
    }
    Ok(())
}

// The frame, if the node sends it.
fn of_node(node: Name, frame: Option<&PageFrame>) -> Option<&PageFrame>
    ensures { lent_frame result
        ≡ of_node node (lent_frame frame.entry) }
{
    match frame {
        Some(row) if row.node == node => Some(row),
        Some(_) | None => None,
    }
}

// Appends the changes of the page's frame, as edits.
fn push_edits(
    edits: &mut Vec<Edit>,
    page: &Page,
    frame: Name,
    changes: &[FrameChange],
) -> Result<(), NoMemory>
    ensures { OnOk result (edits.new.items ≡ edits.old.items
        ++ frame_edits page.now.supplier page.now.variant frame changes.now) }
{
    for change in changes {
        edits.push(Edit::Rows(RowsChange {
            supplier: page.supplier(),
            variant: page.variant(),
            change: Change::Frame {
                frame,
                change: *change,
            },
        }))?;
    }
    Ok(())
}

// The changes that end what the frame has and the other has not. The frame is dropped where there
// is no other.
fn losses(
    alloc: Global,
    frame: &PageFrame,
    other: Option<&PageFrame>,
) -> Result<Vec<FrameChange>, NoMemory>
    ensures { IfOk result (λ changes. changes.items ≡ losses (frame_of (frame_data frame.now))
        (lent_frame other.entry)) }
{
    match other {
        None => Ok(vec![in alloc; FrameChange::Drop]?),
        Some(_) => {
            let mut rows = Vec::new(alloc);
            push_rows(&mut rows, frame, other)?;
            endings(alloc, rows.as_slice())
        }
    }
}

// The changes that add what the frame has and the other has not: all of it where there is no other.
fn gains(
    alloc: Global,
    frame: &PageFrame,
    other: Option<&PageFrame>,
) -> Result<Vec<FrameChange>, NoMemory>
    ensures { IfOk result (λ changes. changes.items ≡ gains (frame_of (frame_data frame.now))
        (lent_frame other.entry)) }
{
    let mut changes = Vec::new(alloc);
    if other.is_none() {
        changes.push(FrameChange::Add { node: frame.node })?;
    }
    push_rows(&mut changes, frame, other)?;
    Ok(changes)
}

// The changes that end what these add.
fn endings(alloc: Global, changes: &[FrameChange]) -> Result<Vec<FrameChange>, NoMemory>
    ensures { IfOk result (λ ends. ends.items ≡ map ending changes.now) }
{
    let mut ends = Vec::new(alloc);
    for change in changes {
        ends.push(ending(*change))?;
    }
    Ok(ends)
}

// The change that ends what a change adds.
fn ending(change: FrameChange) -> FrameChange
    ensures { result ≡ ending change }
{
    match change {
        FrameChange::Add { node: _ } => FrameChange::Drop,
        FrameChange::Place(placement) => FrameChange::Unplace(placement),
        FrameChange::AddSignal(signal) => FrameChange::DropSignal(signal.name()),
        FrameChange::Drop | FrameChange::Unplace(_) | FrameChange::DropSignal(_) => change,
    }
}

// Appends the changes that add the placements and the signals that the frame has and the other has
// not.
fn push_rows(
    changes: &mut Vec<FrameChange>,
    frame: &PageFrame,
    other: Option<&PageFrame>,
) -> Result<(), NoMemory>
    ensures { OnOk result (changes.new.items ≡ changes.old.items
        ++ rows_beside (frame_of (frame_data frame.now))
        (lent_frame other.entry)) }
{
    push_placements(changes, frame, other)?;
    push_signals(changes, frame, other)
}

// Appends the changes that add the placements that the frame has and the other has not.
fn push_placements(
    changes: &mut Vec<FrameChange>,
    frame: &PageFrame,
    other: Option<&PageFrame>,
) -> Result<(), NoMemory>
    ensures { OnOk result (changes.new.items ≡ changes.old.items
        ++ map FrameChange.Place
        (filter (λ q. not (has_place (lent_frame other.entry) q))
        (placements_in (frame_of (frame_data frame.now))))) }
{
    for placement in frame.placements.iter() {
        if !has_place(other, placement) {
            changes.push(FrameChange::Place(*placement))?;
        }
    }
    Ok(())
}

// Whether the frame has the placement, if there is a frame.
fn has_place(frame: Option<&PageFrame>, placement: &Placement) -> bool
    ensures { result ≡ has_place (lent_frame frame.entry)
        placement.now }
{
    match frame {
        Some(row) => row.placements.contains(placement),
        None => false,
    }
}

// Appends the changes that add the signals that the frame has and the other has not.
fn push_signals(
    changes: &mut Vec<FrameChange>,
    frame: &PageFrame,
    other: Option<&PageFrame>,
) -> Result<(), NoMemory>
    ensures { OnOk result (changes.new.items ≡ changes.old.items
        ++ map FrameChange.AddSignal
        (filter (λ s. not (carries (lent_frame other.entry) s))
        frame.now.layout.signals)) }
{
    for signal in frame.layout.signals() {
        if !carries(other, signal) {
            changes.push(FrameChange::AddSignal(*signal))?;
        }
    }
    Ok(())
}

// Whether the frame has the very signal, if there is a frame.
fn carries(frame: Option<&PageFrame>, signal: &Signal) -> bool
    ensures { result ≡ carries (lent_frame frame.entry) signal.now }
{
    match frame {
        Some(row) => has_signal(row.layout.signals(), signal),
        None => false,
    }
}

// Whether the signal is one of these.
fn has_signal(signals: &[Signal], signal: &Signal) -> bool
    ensures { result ≡ list_any (same_signal signal.now) signals.now }
{
    signals.iter().any(|mine| is_same_signal(signal, mine))
}
