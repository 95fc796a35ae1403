//! Filled cells, kept as words of filled cycles. A list of placements beside them names the frames.
ghost use Rattle.std.specs.Prelude.{◌≡◌, ◌≤◌, ◌++◌, ◌∷◌, [], OnOk, OnErr, option_map};
ghost use Rattle.std.specs.List.{count_by, find};
ghost use Rattle.fr_base.specs.Cells.{cells_in};
ghost use Rattle.fr_base.specs.Cycles.{all_cycles, cycles_of, is_bit_set};
ghost use Rattle.fr_base.specs.Load.{used_cycles};
ghost use Rattle.fr_base.specs.Schedule.{fill, first_taken};
ghost use Rattle.fr_world.specs.CycleChannels.{taken_of};
ghost use Rattle.fr_world.specs.Loads.{lane_of};
ghost use Rattle.fr_base.specs.declared.channel.Channel.{Channel as OneChannel};
ghost use Rattle.fr_world.specs.Masks.{AreFilled, first_cycle, is_free_on, word_on};

use crate::cycle_channel::CycleChannel;
use crate::filled_cycles::FilledCycles;
use crate::masks::Masks;
use crate::occupancy::{Occupancy, TakenCell};
use crate::page::ChannelSlot;
use crate::row_occupancy::{RowOccupancy, Taken, first_of};
use fr_base::{Channel, Channels, CycleSet, Name, NoMemory, Params, Placement, Refusal, Slot};
use std::alloc::Global;
use std::marker::Model;

/// The frames' placements, and the filled cycles of each slot that was ever used, as a word for
/// each channel. One or two words tell whether a placement is free, however many placements there
/// are.
#[derive(Drop)]
pub struct MaskOccupancy {
    rows: RowOccupancy,
    masks: Masks,
}

impl Model for MaskOccupancy {
    ghost use Rattle.std.specs.Prelude.{List};
    ghost use Rattle.fr_base.specs.declared.name.Name.{Name as NameText};
    ghost use Rattle.fr_base.specs.declared.placement.Placement.{Placement as Cells};
    ghost use Rattle.fr_world.specs.Masks.{ShowFilled};

    ghost Value = { List (NameText × Cells) };

    ghost view = { λ o. ⟦<RowOccupancy as Occupancy>⟧.pairs o.rows };

    ghost invariant = { λ o. ShowFilled (⟦<RowOccupancy as Occupancy>⟧.pairs o.rows) o.masks.slots.entries };
}

impl Clone for MaskOccupancy {
    ghost use Rattle.std.specs.Prelude.{◌≡◌};

    ghost is_clone = { λ o n. n ≡ o };

    fn clone(&self) -> Result<MaskOccupancy, NoMemory> {
        Ok(MaskOccupancy {
            rows: self.rows.clone()?,
            masks: self.masks.clone()?,
        })
    }
}

impl MaskOccupancy {
    /// No cell is filled. It takes no memory.
    pub fn new(alloc: Global) -> MaskOccupancy
        ensures { ⟦<MaskOccupancy as Occupancy>⟧.pairs result ≡ [] }
    {
        MaskOccupancy {
            rows: RowOccupancy::new(alloc),
            masks: Masks::new(alloc),
        }
    }

    /// Lets the frame fill the placement's cells too, whether they are filled or not. Where memory
    /// is refused, nothing changes.
    pub(crate) fn add(&mut self, frame: Name, placement: &Placement) -> Result<(), NoMemory>
        ensures ok { OnOk result (self.new ≡ self.old ++ (frame, placement.now) ∷ []) }
        ensures err { OnErr result (self.new ≡ self.old) }
    {
        let mut filled = self.masks.of(placement.slot);
        self.masks.make_room(placement.slot)?;
        self.rows.push(frame, placement)?;
        filled.mark(placement);
        self.masks.put(placement.slot, filled);
        Ok(())
    }

    /// The cycles in which the slot is filled.
    pub(crate) fn filled_in(&self, slot: Slot) -> FilledCycles
        ensures { (x : OneChannel) → AreFilled self.now slot x (word_on x result) }
    {
        self.masks.of(slot)
    }

    /// In how many of the cluster's cycles the lane is filled.
    pub(crate) fn used(&self, params: &Params, lane: ChannelSlot) -> u32
        ensures { result ≡ used_cycles params.now (fill self.now) (lane_of lane) }
    {
        let word = self.masks.of(lane.slot).on(lane.channel);
        marked_cycles(word, params.cycles())
    }

    // The first of the placement's cycles in which its slot is filled on the channel.
    #[tactic(auto, unfolding(crate::specs::Masks::first_cycle))]
    fn first_cycle(&self, placement: &Placement, channel: Channel) -> Option<u8>
        ensures { result ≡ first_cycle self.now placement.now channel }
    {
        let word = self.masks.of(placement.slot).on(channel);
        first_marked(word, &placement.cycles)
    }

    // Whether the slot is filled on the channel in none of the placement's cycles.
    fn is_free_on(&self, placement: &Placement, channel: Channel) -> bool
        ensures { result ≡ is_free_on self.now placement.now channel }
    {
        self.first_cycle(placement, channel).is_none()
    }

    // The first of the placement's cycles in which its slot is filled on the channel, with the
    // channel and the frame that is sent there.
    fn first_on(&self, placement: &Placement, channel: Channel) -> Option<Taken>
        ensures { result ≡ option_map taken_of
            (first_taken (fill self.now)
            (cells_in (cycles_of placement.now.cycles) (placement.now.slot ∷ []) (channel ∷ []))) }
    {
        let cycle = self.first_cycle(placement, channel)?;
        let frame = self.rows.frame_in(cycle, placement.slot, channel)?;
        Some(Taken {
            at: CycleChannel { cycle, channel },
            frame,
        })
    }
}

impl Occupancy for MaskOccupancy {
    ghost pairs = { λ o. o };

    fn free(&self, placement: &Placement) -> bool {
        placement
            .channels
            .as_slice()
            .iter()
            .all(|channel| self.is_free_on(placement, *channel))
    }

    fn first_taken(&self, placement: &Placement) -> Option<TakenCell> {
        let first = match placement.channels {
            Channels::A => self.first_on(placement, Channel::A),
            Channels::AB => first_of(
                self.first_on(placement, Channel::A),
                self.first_on(placement, Channel::B),
            ),
            Channels::B => self.first_on(placement, Channel::B),
        };
        let taken = first?;
        Some(TakenCell {
            cycle: taken.at.cycle,
            channel: taken.at.channel,
            frame: taken.frame,
        })
    }

    fn fill(&mut self, frame: Name, placement: &Placement) -> Result<(), Refusal> {
        self.add(frame, placement)?;
        Ok(())
    }

    fn clear(&mut self, frame: Name, placement: &Placement) {
        self.rows.clear(frame, placement);
        let filled = self.rows.filled_in(placement.slot);
        self.masks.put(placement.slot, filled);
    }
}

// How many of so many cycles have their bit set in the word.
fn marked_cycles(word: u64, cycles: u32) -> u32
    requires { (1 ≤ cycles) × (cycles ≤ 64) }
    ensures { result ≡ count_by (is_bit_set word) (all_cycles cycles) }
{
    (word & (u64::MAX >> (64 - cycles))).count_ones()
}

// The first of the cycles whose bit is set in the word.
fn first_marked(word: u64, cycles: &CycleSet) -> Option<u8>
    ensures { result ≡ find (is_bit_set word) (cycles_of cycles.now) }
{
    let marked = word & cycles.mask();
    if marked == 0 {
        return None;
    }
    Some(marked.trailing_zeros() as u8)
}
