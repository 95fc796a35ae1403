//! Filled cells, kept as a list of placements. They are compared one by one.
ghost use Rattle.std.specs.Prelude.{◌≡◌, ◌++◌, ◌∷◌, [], map, not, OnOk, OnErr};
ghost use Rattle.fr_base.specs.Schedule.{fill};
ghost use Rattle.fr_base.specs.declared.channel.Channel.{Channel as OneChannel};
ghost use Rattle.fr_world.specs.Masks.{AreFilled, word_on};
ghost use Rattle.fr_world.specs.Occupancies.{is_pair};
ghost use Rattle.fr_world.specs.CycleChannels.{earlier};

use crate::cycle_channel::{CycleChannel, first_shared, has_cell};
use crate::filled_cycles::{FilledCycles, NONE_FILLED};
use crate::occupancy::{Occupancy, TakenCell};
use fr_base::{Channel, Name, NoMemory, Placement, Refusal, Slot};
use std::alloc::Global;

// A frame's placement.
#[derive(Clone, Copy)]
struct Row {
    frame: Name,
    placement: Placement,
}

// A filled cell's cycle and channel, and the frame that is sent there.
#[derive(Clone, Copy)]
pub(crate) struct Taken {
    pub(crate) at: CycleChannel,
    pub(crate) frame: Name,
}

/// The frames' placements, in a list.
#[derive(Drop)]
pub struct RowOccupancy {
    rows: Vec<Row>,
}

impl Clone for RowOccupancy {
    ghost use Rattle.std.specs.Prelude.{◌≡◌};

    ghost is_clone = { λ o n. ⟦<RowOccupancy as Occupancy>⟧.pairs n ≡ ⟦<RowOccupancy as Occupancy>⟧.pairs o };

    fn clone(&self) -> Result<RowOccupancy, NoMemory> {
        Ok(RowOccupancy {
            rows: self.rows.clone()?,
        })
    }
}

impl RowOccupancy {
    /// No cell is filled. It takes no memory.
    pub fn new(alloc: Global) -> RowOccupancy
        ensures { ⟦<RowOccupancy as Occupancy>⟧.pairs result ≡ [] }
    {
        RowOccupancy {
            rows: Vec::new(alloc),
        }
    }

    /// Lets the frame fill the placement's cells too, whether they are filled or not. Where memory
    /// is refused, nothing changes.
    pub(crate) fn push(&mut self, frame: Name, placement: &Placement) -> Result<(), NoMemory>
        ensures ok { OnOk result (⟦<RowOccupancy as Occupancy>⟧.pairs self.new
            ≡ ⟦<RowOccupancy as Occupancy>⟧.pairs self.old ++ (frame, placement.now) ∷ []) }
        ensures err { OnErr result (⟦<RowOccupancy as Occupancy>⟧.pairs self.new
            ≡ ⟦<RowOccupancy as Occupancy>⟧.pairs self.old) }
    {
        self.rows.push(Row {
            frame,
            placement: *placement,
        })?;
        Ok(())
    }

    /// The frame that is sent in the cell, if one is.
    pub(crate) fn frame_in(&self, cycle: u8, slot: Slot, channel: Channel) -> Option<Name>
        ensures { result ≡ fill (⟦<RowOccupancy as Occupancy>⟧.pairs self.now)
            (record { cycle = cycle; slot = slot; channel = channel }) }
    {
        for row in &self.rows {
            if has_cell(&row.placement, cycle, slot, channel) {
                return Some(row.frame);
            }
        }
        None
    }

    /// The cycles in which the slot is filled.
    pub(crate) fn filled_in(&self, slot: Slot) -> FilledCycles
        ensures { (x : OneChannel)
            → AreFilled (⟦<RowOccupancy as Occupancy>⟧.pairs self.now) slot x (word_on x result) }
    {
        let mut filled = NONE_FILLED;
        for row in &self.rows {
            if row.placement.slot == slot {
                filled.mark(&row.placement);
            }
        }
        filled
    }
}

impl Occupancy for RowOccupancy {
    ghost use Rattle.std.specs.Prelude.{map};

    ghost pairs = { λ o. map (λ r. (r.frame, r.placement)) o.rows.items };

    fn free(&self, placement: &Placement) -> bool {
        match self.first_taken(placement) {
            Some(_) => false,
            None => true,
        }
    }

    fn first_taken(&self, placement: &Placement) -> Option<TakenCell> {
        let mut found = None;
        for row in &self.rows {
            let here = first_shared(placement, &row.placement).map(|at| Taken {
                at,
                frame: row.frame,
            });
            found = first_of(found, here);
        }
        let taken = found?;
        Some(TakenCell {
            cycle: taken.at.cycle,
            channel: taken.at.channel,
            frame: taken.frame,
        })
    }

    fn fill(&mut self, frame: Name, placement: &Placement) -> Result<(), Refusal> {
        self.push(frame, placement)?;
        Ok(())
    }

    fn clear(&mut self, frame: Name, placement: &Placement) {
        self.rows.retain(
            |row|
                ensures { result ≡ not (is_pair frame placement.entry.now
                    (row.now.frame, row.now.placement)) }
            { !is_row(row, frame, placement) },
        );
    }
}

// Whether the row has this frame and placement. Most rows are in another slot.
#[tactic(auto, using(crate::proofs::KeyLaws::placements_alike))]
fn is_row(row: &Row, frame: Name, placement: &Placement) -> bool
    ensures { result ≡ is_pair frame placement.now (row.now.frame, row.now.placement) }
{
    if row.placement.slot != placement.slot {
        return false;
    }
    row.frame == frame && row.placement.cmp(placement).is_eq()
}

// Of two filled cells the earlier one; the first argument where they are the same.
pub(crate) fn first_of(former: Option<Taken>, latter: Option<Taken>) -> Option<Taken>
    ensures { result ≡ earlier former latter }
{
    match (former, latter) {
        (Some(x), Some(y)) => Some(if y.at < x.at { y } else { x }),
        (x, y) => x.or(y),
    }
}
