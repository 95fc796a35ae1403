//! The table of changes, and what a page says of them above its drawing.
ghost use Rattle.std.specs.Prelude.{◌≡◌, OnOk};
ghost use Rattle.fr_picture.specs.ChangeTables.{change_names, change_style, changes_table, gap_text, lane_text, marks_text, node_text, place_text, row_text, rows_text, since_text, table_head};
ghost use Rattle.fr_base.specs.declared.answer.SeenRow.TheVariants.{Grant, Frame, Placement as Placed, Signal};
ghost use Rattle.fr_picture.specs.Texts.{Appends};

use crate::change_shapes::sign_of;
use crate::changes::Changes;
use crate::signals::push_signal;
use crate::texts::{Fixed, push, push_fixed};
use fr_base::{
    DifferenceRow, FrameRecord, GrantRow, Name, NoMemory, Placement, SeenRow, SignalRecord,
};

/// Appends the table of the variant's changes, where a page shows some.
#[tactic(auto, unfolding(crate::specs::ChangeTables::changes_table))]
pub(crate) fn push_changes_table(
    variant: Name,
    changes: &Option<Changes>,
    out: &mut String,
) -> Result<(), NoMemory>
    ensures { OnOk result (Appends out.old out.new (changes_table variant changes.now)) }
{
    let Some(changes) = changes else {
        return Ok(());
    };
    push_head(variant, changes.from, out)?;
    push_rows(changes.rows.as_slice(), out)?;
    push_fixed(Fixed::SlotTableEnd, out)
}

// Appends the heading, and the head of the table.
#[tactic(auto, unfolding(crate::specs::ChangeTables::table_head))]
fn push_head(variant: Name, from: Name, out: &mut String) -> Result<(), NoMemory>
    ensures { OnOk result (Appends out.old out.new (table_head variant from)) }
{
    write!(
        out,
        "<h2 id=since>New and gone since {from}</h2>\n<p>What has a + is in {variant} and not in {from}, what has a &minus; the other way round. Where a row has changed, it stands here as it was and as it is.</p>\n<table>\n<thead><tr><th colspan=5>Variant {variant}: new and gone since {from}<tr><th><th>what<th>frame or node<th>supplier<th>where, or how much<tbody>\n"
    )
}

#[tactic(auto, unfolding(crate::specs::ChangeTables::rows_text))]
fn push_rows(rows: &[DifferenceRow], out: &mut String) -> Result<(), NoMemory>
    ensures { OnOk result (Appends out.old out.new (rows_text rows.now)) }
{
    for change in rows {
        push_row(sign_of(change.is_new), &change.row, out)?;
    }
    Ok(())
}

#[tactic(auto, unfolding(crate::specs::ChangeTables::row_text))]
fn push_row(sign: &str, row: &SeenRow, out: &mut String) -> Result<(), NoMemory>
    ensures { OnOk result (Appends out.old out.new (row_text sign.now row.now)) }
{
    match row {
        SeenRow::Grant(grant) => push_grant(sign, grant, out),
        SeenRow::Frame(frame) => push_frame(sign, frame, out),
        SeenRow::Placement {
            frame,
            placement,
            supplier,
        } => push_placement(sign, *frame, placement, *supplier, out),
        SeenRow::Signal(signal) => push_signal_row(sign, signal, out),
        SeenRow::Gap(gap) => {
            push_names(sign, "greatest gap", gap.frame, gap.supplier, out)?;
            push_gap(gap.gap, out)
        }
    }
}

#[tactic(auto, unfolding(crate::specs::ChangeTables::row_text))]
fn push_grant(sign: &str, grant: &GrantRow, out: &mut String) -> Result<(), NoMemory>
    ensures { OnOk result (Appends out.old out.new (row_text sign.now (Grant grant.now))) }
{
    push_names(sign, "grant", grant.node, grant.supplier, out)?;
    push_lane(grant.slot.get(), grant.channel.as_str(), out)
}

#[tactic(auto, unfolding(crate::specs::ChangeTables::row_text))]
fn push_frame(sign: &str, frame: &FrameRecord, out: &mut String) -> Result<(), NoMemory>
    ensures { OnOk result (Appends out.old out.new (row_text sign.now (Frame frame.now))) }
{
    push_names(sign, "frame", frame.frame, frame.supplier, out)?;
    push_node(frame.node, out)
}

#[tactic(auto, unfolding(crate::specs::ChangeTables::row_text))]
fn push_placement(
    sign: &str,
    frame: Name,
    placement: &Placement,
    supplier: Name,
    out: &mut String,
) -> Result<(), NoMemory>
    ensures { OnOk result (Appends out.old out.new
        (row_text sign.now (Placed frame placement.now supplier))) }
{
    push_names(sign, "placement", frame, supplier, out)?;
    push_place(
        placement.slot.get(),
        placement.channels.as_str(),
        placement.cycles.base(),
        placement.cycles.repetition(),
        out,
    )
}

#[tactic(auto, unfolding(crate::specs::ChangeTables::row_text))]
fn push_signal_row(sign: &str, row: &SignalRecord, out: &mut String) -> Result<(), NoMemory>
    ensures { OnOk result (Appends out.old out.new (row_text sign.now (Signal row.now))) }
{
    let signal = row.signal;
    push_names(sign, "signal", row.frame, row.supplier, out)?;
    push_signal(
        signal.name(),
        signal.start(),
        signal.length(),
        signal.order(),
        out,
    )?;
    push("\n", out)
}

// Appends the sign, the kind, the frame or node, and the supplier.
#[tactic(auto, unfolding(crate::specs::ChangeTables::change_names))]
fn push_names(
    sign: &str,
    kind: &str,
    name: Name,
    supplier: Name,
    out: &mut String,
) -> Result<(), NoMemory>
    ensures { OnOk result (Appends out.old out.new
        (change_names sign.now kind.now name supplier)) }
{
    write!(out, "<tr><td>{sign}<td>{kind}<td>{name}<td>{supplier}<td>")
}

#[tactic(auto, unfolding(crate::specs::ChangeTables::lane_text))]
fn push_lane(slot: u32, channel: &str, out: &mut String) -> Result<(), NoMemory>
    ensures { OnOk result (Appends out.old out.new (lane_text slot channel.now)) }
{
    write!(out, "{slot} {channel}\n")
}

#[tactic(auto, unfolding(crate::specs::ChangeTables::node_text))]
fn push_node(node: Name, out: &mut String) -> Result<(), NoMemory>
    ensures { OnOk result (Appends out.old out.new (node_text node)) }
{
    write!(out, "sent by {node}\n")
}

#[tactic(auto, unfolding(crate::specs::ChangeTables::place_text))]
fn push_place(
    slot: u32,
    channels: &str,
    base: u8,
    repetition: u8,
    out: &mut String,
) -> Result<(), NoMemory>
    ensures { OnOk result (Appends out.old out.new
        (place_text slot channels.now base repetition)) }
{
    write!(out, "{slot} {channels} {base}/{repetition}\n")
}

#[tactic(auto, unfolding(crate::specs::ChangeTables::gap_text))]
fn push_gap(gap: Option<u32>, out: &mut String) -> Result<(), NoMemory>
    ensures { OnOk result (Appends out.old out.new (gap_text gap)) }
{
    match gap {
        None => write!(out, "never sent\n"),
        Some(gap) => write!(out, "{gap} macroticks\n"),
    }
}

/// Appends what the marks in the drawing mean, where a page shows changes.
#[tactic(auto, unfolding(crate::specs::ChangeTables::since_text))]
pub(crate) fn push_since(changes: &Option<Changes>, out: &mut String) -> Result<(), NoMemory>
    ensures { OnOk result (Appends out.old out.new (since_text changes.now)) }
{
    match changes {
        Some(changes) => push_marks(changes.from, out),
        None => Ok(()),
    }
}

#[tactic(auto, unfolding(crate::specs::ChangeTables::marks_text))]
fn push_marks(from: Name, out: &mut String) -> Result<(), NoMemory>
    ensures { OnOk result (Appends out.old out.new (marks_text from)) }
{
    write!(
        out,
        "<p>This page shows what is new since {from}, with a thick line and a +, and what is gone, with a dashed line and a &minus;. A + above a lane is a new grant, a &minus; below it one that is gone. <a href=#since>A table</a> lists all of it.</p>\n"
    )
}

/// Appends the style of changes, where a page shows some.
#[tactic(auto, unfolding(crate::specs::ChangeTables::change_style))]
pub(crate) fn push_change_style(changes: &Option<Changes>, out: &mut String) -> Result<(), NoMemory>
    ensures { OnOk result (Appends out.old out.new (change_style changes.now)) }
{
    match changes {
        Some(_) => push_fixed(Fixed::ChangeStyle, out),
        None => Ok(()),
    }
}
