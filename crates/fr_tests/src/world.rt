//! Tests of `fr_world`. The check would let pass a call that lacks memory though there is enough, or from some size on;
//! and cells that a table from outside the register says are taken.
ghost use Rattle.std.specs.Prelude.{◌≡◌, IfOk, Ok};
ghost use Rattle.fr_world.specs.Decisions.{IsChecked};

use crate::page_rows::{fits, frame, grant, name, no_rows, placement, signal, slot};
use fr_base::{
    Change, Channel, Channels, FrameChange, Header, MAX_NODES, Name, Placement, Purpose, Refusal,
    Row, RowRead, Rows, Signal,
};
use fr_world::{
    Edit, FileDecision, MaskOccupancy, Occupancy, Page, PageFrame, PageRows, RowFault,
    RowOccupancy, TakenCell, Triggerings, decide, decide_file, frame_row, push_signal_rows, sent,
};
use std::alloc::Global;
use std::test::Fail;

// Decides the change on the page, and makes its edit.
fn run(page: &mut Page, alloc: Global, change: &Change) -> Result<(), Fail>
    requires checked { IsChecked page.old.params change.now }
{
    let edits = decide(alloc, page, change)?;
    let edit = edits.first().ok_or("edit")?;
    Ok(page.amend(alloc, edit)?)
}

fn change_frame(
    page: &mut Page,
    alloc: Global,
    frame: Name,
    change: FrameChange,
) -> Result<(), Fail>
    requires checked { IsChecked page.old.params (Change.Frame frame change) }
{
    run(page, alloc, &Change::Frame { frame, change })
}

fn place(page: &mut Page, alloc: Global, frame: Name, placement: Placement) -> Result<(), Fail> {
    if !fits(&page.params(), &placement) {
        return Err(Fail::from("no placement of the cluster"));
    }
    change_frame(page, alloc, frame, FrameChange::Place(placement))
}

fn add_signal(page: &mut Page, alloc: Global, frame: Name, signal: Signal) -> Result<(), Fail> {
    // Gives the proof that the length is a signal's.
    let _length = signal.length();
    change_frame(page, alloc, frame, FrameChange::AddSignal(signal))
}

// Gives the page the node.
fn add_node(page: &mut Page, alloc: Global, node: Name) -> Result<(), Fail> {
    // Gives the proof that the rows are a page's.
    let _frames = page.frames();
    if page.nodes().len() >= MAX_NODES {
        return Err(Fail::from("too many nodes"));
    }
    let supplier = page.supplier();
    Ok(page.amend(alloc, &Edit::NewNode { supplier, node })?)
}

fn release(page: &mut Page, alloc: Global) -> Result<(), Fail> {
    // Gives the proof that the rows are a page's.
    let _frames = page.frames();
    let variant = page.variant();
    Ok(page.amend(alloc, &Edit::SetReleased { variant })?)
}

// Each change of a frame of `n1`, which holds slot 1 on A.
fn a_frame_comes_and_goes(page: &mut Page, alloc: Global) -> Result<(), Fail> {
    let node = name("n1")?;
    let f1 = name("f1")?;
    let at = placement(1, Channels::A, 0, 64)?;
    change_frame(page, alloc, f1, FrameChange::Add { node })?;
    place(page, alloc, f1, at)?;
    add_signal(page, alloc, f1, signal("x", 0)?)?;
    change_frame(page, alloc, f1, FrameChange::DropSignal(name("x")?))?;
    change_frame(page, alloc, f1, FrameChange::Unplace(at))?;
    change_frame(page, alloc, f1, FrameChange::Drop)
}

// With ample memory each call succeeds.
#[test]
fn world_calls_succeed(rt: HostRuntime) -> Result<(), Fail> {
    let alloc = rt.alloc();
    let mut page = Page::build(alloc, no_rows(alloc)?)?.ok_or("page")?;
    let node = name("n1")?;
    add_node(&mut page, alloc, node)?;
    let (slot, channel) = (slot(1)?, Channel::A);
    let grant = Change::Grant {
        slot,
        channel,
        node,
    };
    run(&mut page, alloc, &grant)?;
    a_frame_comes_and_goes(&mut page, alloc)?;
    run(&mut page, alloc, &Change::Revoke { slot, channel })?;
    assert!(rt; page.grants().is_empty() && page.frames().is_empty());
    release(&mut page, alloc)?;
    assert!(rt; page.released());
    Ok(())
}

// As many nodes and grants as there may be.
fn push_nodes(rows: &mut PageRows, alloc: Global) -> Result<(), Fail> {
    for index in 1..=64 {
        let node = format!(in alloc; "n{index}")?;
        rows.nodes.insert(name(&node)?)?;
    }
    for number in 1..=1023 {
        grant(rows, number, Channel::A)?;
        grant(rows, number, Channel::B)?;
    }
    Ok(())
}

// A frame with so many placements in the slot.
fn placed(alloc: Global, number: u32, count: u32) -> Result<PageFrame, Fail> {
    let mut row = frame(alloc)?;
    for base in 0..count {
        row.placements
            .insert(placement(number, Channels::AB, base, 64)?)?;
    }
    Ok(row)
}

// 256 frames, each in a slot of its own, of which all but the last have 8 placements.
fn push_frames(rows: &mut PageRows, alloc: Global) -> Result<(), Fail> {
    for number in 1..=256 {
        let text = format!(in alloc; "f{number}")?;
        let count = if number < 256 { 8 } else { 7 };
        rows.frames
            .insert(name(&text)?, placed(alloc, number, count)?)?;
    }
    Ok(())
}

// As many signals as there may be.
fn push_signals(frame: &mut PageFrame, alloc: Global) -> Result<(), Fail> {
    for index in 0..64 {
        let text = format!(in alloc; "x{index}")?;
        frame.layout.add(signal(&text, index * 4)?)?;
    }
    Ok(())
}

// All that a page may have, but for one placement.
fn full_page(alloc: Global) -> Result<Page, Fail> {
    let mut rows = no_rows(alloc)?;
    push_nodes(&mut rows, alloc)?;
    push_frames(&mut rows, alloc)?;
    let first = rows.frames.get_mut(&name("f1")?).ok_or("f1")?;
    push_signals(first, alloc)?;
    Ok(Page::build(alloc, rows)?.ok_or("page")?)
}

// How many signals the first frame has, and how many placements, in the rows that are made of it.
fn first_frame(alloc: Global, page: &Page) -> Result<(usize, usize), Fail> {
    let (supplier, f1) = (page.supplier(), name("f1")?);
    let row = page.frames().get(&f1).ok_or("f1")?.clone()?;
    let mut signals = Rows::new(alloc);
    push_signal_rows(supplier, &row, &mut signals)?;
    let placements = frame_row(alloc, supplier, f1, &row)?.placements.len();
    Ok((signals.len(), placements))
}

// How many lines the schedule of the page's frames has.
fn line_count(alloc: Global, page: &Page) -> Result<usize, Fail> {
    let mut triggerings = Triggerings::new(alloc);
    triggerings.push_page(page)?;
    Ok(triggerings.schedule(alloc, &page.params())?.len())
}

// So it does at the limits.
#[test]
fn a_full_page(rt: HostRuntime) -> Result<(), Fail> {
    let mut page = full_page(rt.alloc())?;
    let last = placement(256, Channels::AB, 7, 64)?;
    place(&mut page, rt.alloc(), name("f256")?, last)?;
    assert_eq!(rt; sent(rt.alloc(), &page, 7)?.len(), 512);
    assert_eq!(rt; first_frame(rt.alloc(), &page)?, (64, 8));
    assert_eq!(rt; line_count(rt.alloc(), &page)?, 4096);
    Ok(())
}

// Fills the cells, which have to be free.
fn fill<O: Occupancy>(cells: &mut O, text: &str, placement: &Placement) -> Result<(), Fail> {
    if !cells.free(placement) {
        return Err(Fail::from("a cell is filled"));
    }
    Ok(cells.fill(name(text)?, placement)?)
}

// A cell of slot 1.
fn taken(cycle: u8, channel: Channel, text: &str) -> Result<Option<TakenCell>, Fail> {
    Ok(Some(TakenCell {
        cycle,
        channel,
        frame: name(text)?,
    }))
}

// The first taken cell has to be this one.
fn first_is<O: Occupancy>(
    cells: &O,
    placement: &Placement,
    first: Option<TakenCell>,
) -> Result<(), Fail> {
    if cells.first_taken(placement) != first {
        return Err(Fail::from("another cell"));
    }
    Ok(())
}

// Three frames come to slot 1, and one of them goes.
fn share_a_slot<O: Occupancy>(cells: &mut O) -> Result<(), Fail> {
    let f = placement(1, Channels::AB, 0, 2)?;
    let on_b = placement(1, Channels::B, 0, 1)?;
    let left = placement(1, Channels::A, 3, 4)?;
    fill(cells, "f", &f)?;
    fill(cells, "g", &placement(1, Channels::A, 1, 4)?)?;
    first_is(cells, &on_b, taken(0, Channel::B, "f")?)?;
    first_is(
        cells,
        &placement(1, Channels::A, 1, 2)?,
        taken(1, Channel::A, "g")?,
    )?;
    first_is(cells, &left, None)?;
    fill(cells, "h", &placement(1, Channels::A, 63, 64)?)?;
    first_is(cells, &left, taken(63, Channel::A, "h")?)?;
    cells.clear(name("f")?, &f);
    first_is(
        cells,
        &placement(1, Channels::AB, 0, 1)?,
        taken(1, Channel::A, "g")?,
    )?;
    first_is(cells, &on_b, None)
}

#[test]
fn a_slot_shared_by_rows(rt: HostRuntime) -> Result<(), Fail> {
    share_a_slot(&mut RowOccupancy::new(rt.alloc()))
}

#[test]
fn a_slot_shared_by_masks(rt: HostRuntime) -> Result<(), Fail> {
    share_a_slot(&mut MaskOccupancy::new(rt.alloc()))
}

// The row at the line: the frame of `n1` with this placement.
fn read(line: u32, frame: &str, placement: Placement) -> Result<RowRead, Fail>
    ensures { IfOk result (λ read. (f n : Name) × (read.row ≡ Ok (Row.Place f n placement))) }
{
    let (frame, node) = (name(frame)?, name("n1")?);
    let row = Ok(Row::Place {
        frame,
        node,
        placement,
    });
    Ok(RowRead { line, row })
}

// How many edits three frames with these placements come to, where `n1` holds slot 1 on A.
fn three_rows(
    alloc: Global,
    first: Placement,
    second: Placement,
    third: Placement,
) -> Result<Result<usize, RowFault>, Fail> {
    let mut rows = no_rows(alloc)?;
    rows.nodes.insert(name("n1")?)?;
    grant(&mut rows, 1, Channel::A)?;
    let page = Page::build(alloc, rows)?.ok_or("page")?;
    let params = page.params();
    if page.released()
        || !fits(&params, &first)
        || !fits(&params, &second)
        || !fits(&params, &third)
    {
        return Err(Fail::from("no rows of the page"));
    }
    let reads = [
        read(2, "f1", first)?,
        read(3, "f2", second)?,
        read(4, "f3", third)?,
    ];
    let how = Purpose::Import { label: name("l1")? };
    match decide_file(alloc, &page, Some(Header::Placements), &reads, &how) {
        Ok(FileDecision::Acts(draft)) => Ok(Ok(draft.edits.len())),
        Ok(FileDecision::Told(_fates)) => Err(Fail::from("no trial")),
        Err(RowFault::Unavailable) => Err(Fail::from("no memory")),
        Err(fault) => Ok(Err(fault)),
    }
}

#[test]
fn rows_of_an_import(rt: HostRuntime) -> Result<(), Fail> {
    let (alloc, first, second) = (
        rt.alloc(),
        placement(1, Channels::A, 0, 2)?,
        placement(1, Channels::A, 1, 4)?,
    );
    let refused = three_rows(alloc, first, second, placement(2, Channels::A, 0, 1)?)?;
    let fault = RowFault::Row {
        line: 4,
        refusal: Refusal::NotGranted,
    };
    assert!(rt; refused == Err(fault));
    let accepted = three_rows(alloc, first, second, placement(1, Channels::A, 3, 4)?)?;
    assert!(rt; accepted == Ok(6));
    Ok(())
}
