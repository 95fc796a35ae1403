//! The supplier's frames that are a variant's own, from their rows in the tables.

ghost use Rattle.fr_base.specs.Layouts.{IsLayout};
ghost use Rattle.std.specs.Prelude.{IsPermutation, IsSorted, IsTrue, ◌≤◌, ◌≡◌, bytes_eq, filter, map, reverse, IfSome};
ghost use Rattle.std.specs.Ordering.{is_le, is_lt, on};
ghost use Rattle.fr_base.specs.Cycles.{is_cycle_count};
ghost use Rattle.fr_base.specs.Keys.{placement_order};
ghost use Rattle.fr_world.specs.Maps.{set_of};
ghost use Rattle.fr_world.specs.Pages.{frame_data, frames_data};
ghost use Rattle.fr_store.specs.Paging.{OnlyReads, AreFrameRows, TellsFrame, TellsFrames, node_shown, placement_shown, signal_shown};
ghost use Rattle.fr_store.specs.Reading.{name_shown};
ghost use Rattle.fr_tables.specs.Statements.{text_cmp};
ghost use Rattle.fr_tables.specs.Tables.{Tables};

use crate::fault::StoreFault;
use fr_base::{CycleSet, Name, Order, Params, Placement, Signal};
use fr_layout::Layout;
use fr_tables::tables;
use fr_tables::values::{channels_at, flag_at, name_at, number_at, slot_at};
use fr_world::PageFrame;
use sqlite::{Alter, Connection, Row};
use sqlite_value::value::ValueRef;
use std::alloc::Global;
use std::cmp::Ordering;
use std::collections::{BTreeMap, BTreeSet};

/// The supplier's frames that are the variant's own, by their names.
pub(super) fn own_frames<S: Alter>(
    alloc: Global,
    conn: &mut Connection<S>,
    params: &Params,
    variant: &Name,
    supplier: &Name,
) -> Result<BTreeMap<Name, PageFrame>, StoreFault>
    ensures { OnlyReads S.Store (λ t frames.
        TellsFrames params.now.cycles variant.now supplier.now t (frames_data frames.entries))
        conn.old conn.new result }
{
    let rows = frame_rows(conn, variant, supplier)?;
    frames_of(alloc, params, &rows).ok_or(StoreFault::Unavailable)
}

// The rows of a supplier's frames that are a variant's own: those of the frames, of their
// placements and of their signals. Each list is in the order of the frames' names, which stand in
// the first column.
#[derive(Drop)]
struct FrameRows {
    frames: Vec<Row>,
    placements: Vec<Row>,
    signals: Vec<Row>,
}

// Reads the rows, with one query for each list.
fn frame_rows<S: Alter>(
    conn: &mut Connection<S>,
    variant: &Name,
    supplier: &Name,
) -> Result<FrameRows, StoreFault>
    ensures { OnlyReads S.Store (λ t rows. AreFrameRows variant.now supplier.now t rows)
        conn.old conn.new result }
{
    let frames = tables::frames::of_supplier(conn, variant, supplier)?;
    let placements = tables::placements::of_supplier(conn, variant, supplier)?;
    let signals = tables::signals::of_supplier(conn, variant, supplier)?;
    Ok(FrameRows {
        frames,
        placements,
        signals,
    })
}

// The frames in the rows. None where a row has not the form, where the signals of a frame make no
// layout, or where memory is refused.
fn frames_of(alloc: Global, params: &Params, rows: &FrameRows) -> Option<BTreeMap<Name, PageFrame>>
    ensures { IfSome result (λ frames. (v s : Name) (t : Tables) → AreFrameRows v s t rows.now
        → TellsFrames params.now.cycles v s t (frames_data frames.entries)) }
{
    let mut frames = BTreeMap::new(alloc);
    for row in rows.frames.as_slice() {
        let (name, node) = names_in(row)?;
        let frame = frame_of(alloc, params, rows, &name, node)?;
        let Ok(_) = frames.insert(name, frame) else {
            return None;
        };
    }
    Some(frames)
}

// The frame's name and its node's.
fn names_in(row: &Row) -> Option<(Name, Name)>
    ensures frame { IfSome result (λ names. names.0 ≡ name_shown row.now) }
    ensures node { IfSome result (λ names. names.1 ≡ node_shown row.now) }
{
    Some((name_at(row, 0)?, name_at(row, 1)?))
}

// The placements in the rows, each with this count of cycles. None where a row has not the form, or
// memory is refused.
fn placements_of(alloc: Global, count: u32, rows: &[Row]) -> Option<BTreeSet<Placement>>
    requires { IsTrue (is_cycle_count count) }
    ensures { IfSome result (λ placements.
        set_of placement_order (λ q. q) placements.keys
        ≡ set_of placement_order (λ q. q) (map (placement_shown count) (reverse rows.now))) }
{
    let mut placements = BTreeSet::new(alloc);
    for row in rows {
        let Ok(_) = placements.insert(placement_of(count, row)?) else {
            return None;
        };
    }
    Some(placements)
}

fn placement_of(count: u32, row: &Row) -> Option<Placement>
    requires { IsTrue (is_cycle_count count) }
    ensures { IfSome result (λ placement. placement ≡ placement_shown count row.now) }
{
    Some(Placement {
        slot: slot_at(row, 1)?,
        channels: channels_at(row, 2)?,
        cycles: CycleSet::new(count, number_at(row, 3)?, number_at(row, 4)?).ok()?,
    })
}

// The layout of the signals in the rows. None where a row has not the form, where the signals make
// no layout of such a payload, or where memory is refused.
fn layout_of(alloc: Global, payload_words: u32, rows: &[Row]) -> Option<Layout>
    requires { payload_words ≤ 127 }
    ensures words { IfSome result (λ layout. layout.words ≡ payload_words) }
    ensures signals { IfSome result
        (λ layout. IsPermutation (map signal_shown rows.now) layout.signals) }
    ensures sound { IfSome result IsLayout }
{
    let mut layout = Layout::new(alloc, payload_words);
    for row in rows {
        let Ok(()) = layout.add(signal_of(row)?) else {
            return None;
        };
    }
    // Gives the proof that it is a layout.
    let _signals = layout.signals();
    Some(layout)
}

fn signal_of(row: &Row) -> Option<Signal>
    ensures { IfSome result (λ signal. signal ≡ signal_shown row.now) }
{
    let order = if flag_at(row, 4)? {
        Order::Big
    } else {
        Order::Little
    };
    Signal::new(
        name_at(row, 1)?,
        number_at(row, 2)?,
        number_at(row, 3)?,
        order,
    )
    .ok()
}

// The frame of this name and node, with its placements and signals among the rows.
fn frame_of(
    alloc: Global,
    params: &Params,
    rows: &FrameRows,
    frame: &Name,
    node: Name,
) -> Option<PageFrame>
    ensures { IfSome result (λ found. (v s : Name) (t : Tables) → AreFrameRows v s t rows.now
        → TellsFrame params.now v s frame.now node t (frame_data found)) }
{
    let placements = rows_of(rows.placements.as_slice(), frame);
    let signals = rows_of(rows.signals.as_slice(), frame);
    Some(PageFrame {
        node,
        placements: placements_of(alloc, params.cycles(), placements)?,
        layout: layout_of(alloc, params.payload_words(), signals)?,
    })
}

// The rows of this frame. The rows stand in the order of their frames' names.
fn rows_of<'rows>(rows: &'rows [Row], frame: &Name) -> &'rows [Row]
    ensures { IsSorted (on name_shown text_cmp) rows.now
        → result.now ≡ filter (λ r. bytes_eq (name_shown r) frame.now) rows.now }
{
    let from = rows.partition_point(
        |row: &Row| -> bool
            ensures { result ≡ is_lt (text_cmp (name_shown row.now) frame.entry.now) }
        { compare(row, frame).is_lt() },
    );
    let others = &rows[from..];
    let to = others.partition_point(
        |row: &Row| -> bool
            ensures { result ≡ is_le (text_cmp (name_shown row.now) frame.entry.now) }
        { compare(row, frame).is_le() },
    );
    &others[..to]
}

// How the name in the row's first column compares with this one.
fn compare(row: &Row, name: &Name) -> Ordering
    ensures { result ≡ text_cmp (name_shown row.now) name.now }
{
    let text: &[u8] = match row.get_ref(0) {
        Ok(ValueRef::Text(bytes)) => bytes,
        _ => &[],
    };
    text.cmp(name.as_str().as_bytes())
}
