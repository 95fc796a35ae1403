//! The rows that a difference tells, by their keys: a grant by slot and channel, any other row by
//! supplier and frame. The key of a placement also has the placement, that of a signal its start.
ghost use Rattle.std.specs.Prelude.{◌≡◌};
ghost use Rattle.fr_base.specs.Differences.{same_gap, same_signal};
ghost use Rattle.fr_base.specs.Keys.{owned};
ghost use Rattle.fr_base.specs.Names.{same_text};
ghost use Rattle.fr_base.specs.Signals.{text_of_order};

use crate::differences::KeyedRow;
use crate::page::ChannelSlot;
use fr_base::{
    FrameRecord, GapRow, GrantRow, Name, Order, PlacementRecord, SeenRow, Signal, SignalRecord,
};
use std::cmp::Ordering;

impl KeyedRow for GrantRow {
    ghost use Rattle.fr_base.specs.Differences.{grant_seen, same_holder};
    ghost use Rattle.fr_base.specs.Keys.{channel_slots};
    ghost use Rattle.fr_world.specs.KeyedRows.{by_key, grant_entry, same_at};

    ghost compare = { by_key channel_slots grant_entry };

    ghost same = { same_at same_holder grant_entry };

    ghost told = { λ r. grant_seen (grant_entry r) };

    fn compare(&self, other: &GrantRow) -> Ordering {
        let here = ChannelSlot {
            slot: self.slot,
            channel: self.channel,
        };
        let there = ChannelSlot {
            slot: other.slot,
            channel: other.channel,
        };
        here.cmp(&there)
    }

    fn is_same(&self, other: &GrantRow) -> bool {
        self.supplier == other.supplier && self.node == other.node
    }

    fn seen(&self) -> SeenRow {
        SeenRow::Grant(*self)
    }
}

impl KeyedRow for FrameRecord {
    ghost use Rattle.fr_base.specs.Differences.{frame_seen};
    ghost use Rattle.fr_base.specs.Keys.{owned};
    ghost use Rattle.fr_base.specs.Names.{same_text};
    ghost use Rattle.fr_world.specs.KeyedRows.{by_key, frame_entry, same_at};

    ghost compare = { by_key owned frame_entry };

    ghost same = { same_at same_text frame_entry };

    ghost told = { λ r. frame_seen (frame_entry r) };

    fn compare(&self, other: &FrameRecord) -> Ordering {
        by_frame(self.supplier, self.frame, other.supplier, other.frame)
    }

    fn is_same(&self, other: &FrameRecord) -> bool {
        self.node == other.node
    }

    fn seen(&self) -> SeenRow {
        SeenRow::Frame(*self)
    }
}

impl KeyedRow for PlacementRecord {
    ghost use Rattle.std.specs.Prelude.{true};
    ghost use Rattle.fr_base.specs.Differences.{placed_frames, placement_seen};
    ghost use Rattle.fr_world.specs.KeyedRows.{by_key, placement_entry, same_at};

    ghost compare = { by_key placed_frames placement_entry };

    ghost same = { same_at (λ _ _. true) placement_entry };

    ghost told = { λ r. placement_seen (placement_entry r) };

    #[tactic(auto, using(crate::proofs::KeyLaws::placements_alike), unfolding(fr_base::specs::Differences::placed_frames))]
    fn compare(&self, other: &PlacementRecord) -> Ordering {
        by_frame(self.supplier, self.frame, other.supplier, other.frame).then(
            self.placement.cmp(&other.placement),
        )
    }

    fn is_same(&self, _other: &PlacementRecord) -> bool {
        true
    }

    fn seen(&self) -> SeenRow {
        SeenRow::Placement {
            frame: self.frame,
            placement: self.placement,
            supplier: self.supplier,
        }
    }
}

impl KeyedRow for SignalRecord {
    ghost use Rattle.fr_base.specs.Differences.{same_signal, signal_seen, starts};
    ghost use Rattle.fr_world.specs.KeyedRows.{by_key, same_at, signal_entry};

    ghost compare = { by_key starts signal_entry };

    ghost same = { same_at same_signal signal_entry };

    ghost told = { λ r. signal_seen (signal_entry r) };

    #[tactic(auto, unfolding(fr_base::specs::Differences::starts, fr_base::specs::Keys::numbers))]
    fn compare(&self, other: &SignalRecord) -> Ordering {
        by_frame(self.supplier, self.frame, other.supplier, other.frame).then(
            self.signal.start().cmp(&other.signal.start()),
        )
    }

    fn is_same(&self, other: &SignalRecord) -> bool {
        is_same_signal(&self.signal, &other.signal)
    }

    fn seen(&self) -> SeenRow {
        SeenRow::Signal(*self)
    }
}

impl KeyedRow for GapRow {
    ghost use Rattle.fr_base.specs.Differences.{gap_seen, same_gap};
    ghost use Rattle.fr_base.specs.Keys.{owned};
    ghost use Rattle.fr_world.specs.KeyedRows.{by_key, gap_entry, same_at};

    ghost compare = { by_key owned gap_entry };

    ghost same = { same_at same_gap gap_entry };

    ghost told = { λ r. gap_seen (gap_entry r) };

    fn compare(&self, other: &GapRow) -> Ordering {
        by_frame(self.supplier, self.frame, other.supplier, other.frame)
    }

    fn is_same(&self, other: &GapRow) -> bool {
        is_same_gap(self.gap, other.gap)
    }

    fn seen(&self) -> SeenRow {
        SeenRow::Gap(*self)
    }
}

// The order of two frames: by supplier, then name.
#[tactic(auto, unfolding(fr_base::specs::Keys::owned, fr_base::specs::Keys::names))]
fn by_frame(supplier: Name, frame: Name, other_supplier: Name, other_frame: Name) -> Ordering
    ensures { result ≡ owned.compare (supplier, frame) (other_supplier, other_frame) }
{
    supplier.cmp(&other_supplier).then(frame.cmp(&other_frame))
}

pub(crate) fn is_same_signal(signal: &Signal, other: &Signal) -> bool
    ensures { result ≡ same_signal signal.now other.now }
{
    signal.name() == other.name()
        && signal.start() == other.start()
        && signal.length() == other.length()
        && is_same_order(signal.order(), other.order())
}

fn is_same_order(order: Order, other: Order) -> bool
    ensures { result ≡ same_text (text_of_order order) (text_of_order other) }
{
    match (order, other) {
        (Order::Little, Order::Little) | (Order::Big, Order::Big) => true,
        (Order::Little, Order::Big) | (Order::Big, Order::Little) => false,
    }
}

fn is_same_gap(gap: Option<u32>, other: Option<u32>) -> bool
    ensures { result ≡ same_gap gap other }
{
    match (gap, other) {
        (None, None) => true,
        (Some(gap), Some(other)) => gap == other,
        (None, Some(_)) | (Some(_), None) => false,
    }
}
