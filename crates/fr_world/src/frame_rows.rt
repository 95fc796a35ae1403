//! The rows of one frame that queries show.
ghost use Rattle.std.specs.Prelude.{◌≡◌, ◌≤◌, ◌++◌, All, IfOk, OnErr, OnOk};
ghost use Rattle.fr_base.specs.declared.limits.TheConstants.{MAX_PLACEMENTS};
ghost use Rattle.fr_base.specs.Moments.{greatest_gap};
ghost use Rattle.fr_base.specs.Queries.{frame_row, gap_row, placements_in, signal_rows};
ghost use Rattle.fr_base.specs.Sound.{FitsCluster};
ghost use Rattle.fr_base.specs.Tables.{len};
ghost use Rattle.fr_base.specs.declared.name.Name.{Name as NameText};
ghost use Rattle.fr_world.specs.Pages.{frame_data, frame_of};
ghost use Rattle.fr_world.specs.Sendings.{Extends};

use crate::gap::greatest_gap;
use crate::page::PageFrame;
use fr_base::{FrameRow, GapRow, MAX_PLACEMENTS, Name, NoMemory, Params, Rows, SignalRow};
use std::alloc::Global;

/// The row of the supplier's frame of this name: its node and its placements, in order.
pub fn frame_row(
    alloc: Global,
    supplier: Name,
    name: Name,
    frame: &PageFrame,
) -> Result<FrameRow, NoMemory>
    ensures { IfOk result (λ row.
        row ≡ frame_row ((supplier, name), frame_of (frame_data frame.now))) }
{
    let mut placements = Rows::new(alloc);
    for placement in frame.placements.iter() {
        placements.push(*placement)?;
    }
    Ok(FrameRow {
        frame: name,
        node: frame.node,
        supplier,
        placements,
    })
}

/// The greatest gap of a supplier's frame of this name, in macroticks; none where nothing is placed. The
/// frame has at most 8 placements, which fit the parameters. It takes no memory.
pub fn gap_row(params: &Params, supplier: Name, name: Name, frame: &PageFrame) -> GapRow
    requires few { len (frame_of (frame_data frame.now)).placements ≤ MAX_PLACEMENTS }
    requires fits { All (FitsCluster params.now) (placements_in (frame_of (frame_data frame.now))) }
    ensures { result ≡ gap_row params.now ((supplier, name), frame_of (frame_data frame.now)) }
{
    GapRow {
        frame: name,
        supplier,
        gap: gap_of(params, frame),
    }
}

/// Appends the signals of a supplier's frame, by their starts. Where memory is refused, some of them may
/// have been appended.
pub fn push_signal_rows(
    supplier: Name,
    frame: &PageFrame,
    rows: &mut Rows<SignalRow>,
) -> Result<(), NoMemory>
    // a signal's row does not name its frame, so any name will do
    ensures ok { (name : NameText)
        → OnOk result (rows.new ≡ rows.old
        ++ signal_rows ((supplier, name), frame_of (frame_data frame.now))) }
    ensures err { OnErr result (Extends rows.old rows.new) }
{
    for signal in frame.layout.signals() {
        rows.push(SignalRow {
            supplier,
            signal: *signal,
        })?;
    }
    Ok(())
}

// The greatest gap of the frame's placements.
fn gap_of(params: &Params, frame: &PageFrame) -> Option<u32>
    requires few { len (frame_of (frame_data frame.now)).placements ≤ MAX_PLACEMENTS }
    requires fits { All (FitsCluster params.now) (placements_in (frame_of (frame_data frame.now))) }
    ensures { result ≡ greatest_gap params.now (placements_in (frame_of (frame_data frame.now))) }
{
    let mut room = [*frame.placements.first()?; MAX_PLACEMENTS];
    let mut count = 0;
    for placement in frame.placements.iter() {
        room[count] = *placement;
        count += 1;
    }
    greatest_gap(params, &room[..count])
}
