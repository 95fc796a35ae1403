//! What is drawn of one slot and channel.
ghost use Rattle.std.specs.Prelude.{◌≡◌, List, ◌<◌, ◌≤◌, ◌++◌, ◌∷◌, [], OnOk, IfOk, ◌+◌, length};
ghost use Rattle.std.specs.List.{All};
ghost use Rattle.std.specs.Vec.{vec_len};
ghost use Rattle.fr_picture.specs.Lanes.{IsApart, IsFilled, drawn_cells, drawn_grants, lane_cells};
ghost use Rattle.fr_picture.specs.Places.{AreAt, AreHome, lane_of, shown_on};
ghost use Rattle.fr_picture.specs.Rectangles.{AreApart, AreFilled, cells_in};

use crate::drawing::columns::Place;
use crate::drawing::marks::Shows;
use crate::drawing::rectangle::Rectangle;
use fr_base::{Channel, Channels, GrantRow, NoMemory, Sending, Slot};
use std::alloc::Global;

/// What is drawn of one slot and channel: who holds it, and what is sent there.
#[derive(Drop)]
pub struct Lane {
    /// The place of the lane.
    pub place: Place,
    /// The grants of the lane: one, if somebody holds it.
    pub grants: Vec<GrantRow>,
    /// What is sent there, by cycle.
    pub rectangles: Vec<Rectangle>,
}

/// The number of the lane of this slot and channel.
pub(crate) fn lane_number(slot: Slot, channel: Channel) -> usize
    ensures value { result ≡ lane_of slot channel }
    ensures small { result < 2046 }
{
    let first = 2 * (slot.get() as usize - 1);
    match channel {
        Channel::A => first,
        Channel::B => first + 1,
    }
}

impl Lane {
    /// A lane in which nothing is drawn.
    pub(crate) fn new(alloc: Global, place: Place) -> Lane
        ensures place { result.place ≡ place }
        ensures grants { result.grants.items ≡ [] }
        ensures rectangles { result.rectangles.items ≡ [] }
    {
        Lane {
            place,
            grants: Vec::new(alloc),
            rectangles: Vec::new(alloc),
        }
    }

    /// Draws the cell in this lane: it makes the last rectangle longer, or begins a new one.
    pub(crate) fn add(&mut self, cell: &Sending) -> Result<(), NoMemory>
        ensures cells { OnOk result (lane_cells self.new ≡ lane_cells self.old ++ cell.now ∷ []) }
        ensures grants { self.new.grants ≡ self.old.grants }
        ensures place { self.new.place ≡ self.old.place }
        ensures apart { OnOk result (IsApart self.old → IsApart self.new) }
        ensures filled { OnOk result (IsFilled self.old → IsFilled self.new) }
    {
        add_cell(&mut self.rectangles, cell)
    }

    /// Draws the grant in this lane.
    pub(crate) fn hold(&mut self, grant: &GrantRow) -> Result<(), NoMemory>
        ensures grants { OnOk result
            (self.new.grants.items ≡ self.old.grants.items ++ grant.now ∷ []) }
        ensures rectangles { self.new.rectangles ≡ self.old.rectangles }
        ensures place { self.new.place ≡ self.old.place }
    {
        self.grants.push(*grant)?;
        Ok(())
    }
}

// Adds the cell to the last rectangle, or as a rectangle of its own.
fn add_cell(rectangles: &mut Vec<Rectangle>, cell: &Sending) -> Result<(), NoMemory>
    ensures cells { OnOk result (cells_in rectangles.new.items ≡ cells_in rectangles.old.items
        ++ cell.now ∷ []) }
    ensures apart { OnOk result (AreApart rectangles.old.items → AreApart rectangles.new.items) }
    ensures filled { OnOk result (AreFilled rectangles.old.items → AreFilled rectangles.new.items) }
{
    let Some(last) = rectangles.pop() else {
        rectangles.push(Rectangle::of(*cell))?;
        return Ok(());
    };
    if last.meets(cell) {
        rectangles.push(last.longer())?;
        return Ok(());
    }
    rectangles.push(last)?;
    rectangles.push(Rectangle::of(*cell))?;
    Ok(())
}

// What is shown in the lane of a channel, where the cluster has it.
fn shown_on(channels: Channels, channel: Channel, shows: Shows) -> Shows
    ensures { result ≡ shown_on channels channel shows }
{
    if channels.has(channel) {
        shows
    } else {
        Shows::Nothing
    }
}

/// The lanes of these columns, A before B, with nothing drawn in them. Those of B stand further
/// right by `shift`.
#[tactic(auto, using(crate::proofs::LaneLemmas::empty_lanes))]
pub(crate) fn empty_lanes(
    alloc: Global,
    channels: Channels,
    shift: u32,
    columns: &[Place],
) -> Result<Vec<Lane>, NoMemory>
    requires shift { shift ≤ 68 }
    requires columns { All (λ p. p.x + p.width ≤ 136) columns.now }
    ensures len { IfOk result (λ lanes. vec_len lanes ≡ length columns.now + length columns.now) }
    ensures grants { IfOk result (λ lanes. drawn_grants lanes.items ≡ []) }
    ensures cells { IfOk result (λ lanes. drawn_cells lanes.items ≡ []) }
    ensures apart { IfOk result (λ lanes. All IsApart lanes.items) }
    ensures filled { IfOk result (λ lanes. All IsFilled lanes.items) }
    ensures home { IfOk result (λ lanes. AreHome 0 lanes.items) }
    ensures at { IfOk result (λ lanes. AreAt channels shift columns.now lanes.items) }
{
    let mut lanes = Vec::new(alloc);
    for column in columns {
        push_column(alloc, channels, shift, column, &mut lanes)?;
    }
    Ok(lanes)
}

// Appends the two lanes of a column, with nothing drawn in them.
fn push_column(
    alloc: Global,
    channels: Channels,
    shift: u32,
    column: &Place,
    lanes: &mut Vec<Lane>,
) -> Result<(), NoMemory>
    requires shift { shift ≤ 68 }
    requires column { column.now.x + column.now.width ≤ 136 }
    ensures len { OnOk result (vec_len lanes.new ≡ vec_len lanes.old + 2) }
    ensures grants { OnOk result (drawn_grants lanes.new.items ≡ drawn_grants lanes.old.items) }
    ensures cells { OnOk result (drawn_cells lanes.new.items ≡ drawn_cells lanes.old.items) }
    ensures apart { OnOk result (All IsApart lanes.old.items → All IsApart lanes.new.items) }
    ensures filled { OnOk result (All IsFilled lanes.old.items → All IsFilled lanes.new.items) }
    ensures home { OnOk result (AreHome 0 lanes.old.items → AreHome 0 lanes.new.items) }
    ensures at { OnOk result ((columns : List Place) → AreAt channels shift columns lanes.old.items
        → AreAt channels shift (columns ++ column.now ∷ []) lanes.new.items) }
{
    let a = Place {
        shows: shown_on(channels, Channel::A, column.shows),
        ..*column
    };
    let b = Place {
        opens: None,
        x: column.x + shift,
        shows: shown_on(channels, Channel::B, column.shows),
        width: column.width,
    };
    lanes.push(Lane::new(alloc, a))?;
    lanes.push(Lane::new(alloc, b))?;
    Ok(())
}
