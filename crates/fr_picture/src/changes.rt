//! What is new in a variant since another one, and what is gone, and in which slots and lanes it is
//! drawn.
ghost use Rattle.std.specs.Prelude.{◌≡◌, ◌++◌, ◌∷◌, [], OnOk, IfOk};
ghost use Rattle.std.specs.List.{All};
ghost use Rattle.std.specs.Vec.{vec_len};
ghost use Rattle.fr_picture.specs.Changes.{AddsAt, AddsRows, AreBySlot, changes_at, is_in_lane, is_placed_in, is_sent_in, lane_changes, rows_of, slot_of};

use crate::drawing::lane_number;
use fr_base::{Channel, DifferenceRow, Name, NoMemory, Placement, Rows, SeenRow, Slot};
use std::alloc::Global;

/// What is new in a variant since another one, and what is gone.
#[derive(Drop)]
pub struct Changes {
    /// The other variant.
    pub from: Name,
    /// The rows in which the two differ.
    pub rows: Rows<DifferenceRow>,
}

/// The changes that are drawn in a slot.
#[derive(Drop)]
pub struct SlotChanges {
    /// Their rows, in order.
    pub rows: Vec<DifferenceRow>,
}

impl SlotChanges {
    // Adds the row.
    fn add(&mut self, is_new: bool, row: SeenRow) -> Result<(), NoMemory>
        ensures { OnOk result (self.new.rows.items ≡ self.old.rows.items
            ++ record { is_new = is_new; row = row } ∷ []) }
    {
        self.rows.push(DifferenceRow { is_new, row })?;
        Ok(())
    }
}

/// The rows of the changes; none where a page shows none.
pub(crate) fn rows_of(changes: &Option<Changes>) -> &[DifferenceRow]
    ensures { result.now ≡ rows_of changes.now }
{
    match changes {
        Some(changes) => changes.rows.as_slice(),
        None => &[],
    }
}

/// The slot of a row that is drawn: of a grant or of a placement.
#[tactic(auto, unfolding(crate::specs::Changes::slot_of))]
pub(crate) fn slot_of(row: &SeenRow) -> Option<Slot>
    ensures { result ≡ slot_of row.now }
{
    match row {
        SeenRow::Grant(grant) => Some(grant.slot),
        SeenRow::Placement { placement, .. } => Some(placement.slot),
        SeenRow::Frame(_) | SeenRow::Signal(_) | SeenRow::Gap(_) => None,
    }
}

/// The rows that are drawn in each slot, at its place.
pub(crate) fn by_slot(alloc: Global, rows: &[DifferenceRow]) -> Result<Vec<SlotChanges>, NoMemory>
    ensures { IfOk result (λ slots. AreBySlot rows.now slots.items) }
{
    let mut slots = no_rows(alloc)?;
    for row in rows {
        add(&mut slots, row)?;
    }
    Ok(slots)
}

// A place for each slot, without rows.
fn no_rows(alloc: Global) -> Result<Vec<SlotChanges>, NoMemory>
    ensures len { IfOk result (λ slots. vec_len slots ≡ 1024) }
    ensures none { IfOk result (λ slots. All (λ s. s.rows.items ≡ []) slots.items) }
{
    let mut slots = Vec::new(alloc);
    for _ in 0..1024u32 {
        slots.push(SlotChanges {
            rows: Vec::new(alloc),
        })?;
    }
    Ok(slots)
}

// Adds the row to those of its slot, if it is drawn.
#[tactic(auto, using(crate::proofs::ChangeLemmas::adding))]
fn add(slots: &mut Vec<SlotChanges>, row: &DifferenceRow) -> Result<(), NoMemory>
    requires { vec_len slots.old ≡ 1024 }
    ensures len { vec_len slots.new ≡ 1024 }
    ensures more { OnOk result (AddsRows slots.old.items (row.now ∷ []) slots.new.items) }
{
    match slot_of(&row.row) {
        Some(slot) => add_at(slots, slot, row.is_new, row.row),
        None => Ok(()),
    }
}

// Adds the row to those of the slot.
#[tactic(auto, using(crate::proofs::ChangeLemmas::adding))]
fn add_at(
    slots: &mut Vec<SlotChanges>,
    slot: Slot,
    is_new: bool,
    row: SeenRow,
) -> Result<(), NoMemory>
    requires { vec_len slots.old ≡ 1024 }
    ensures len { vec_len slots.new ≡ 1024 }
    ensures more { OnOk result (AddsAt slots.old.items slot
        (record { is_new = is_new; row = row }) slots.new.items) }
{
    slots[slot.get() as usize].add(is_new, row)
}

/// The rows that are drawn in the lane of this number, of those at its slot's place.
#[tactic(auto, unfolding(crate::specs::Changes::lane_changes))]
pub(crate) fn lane_changes(
    alloc: Global,
    slots: &[SlotChanges],
    number: usize,
) -> Result<Vec<DifferenceRow>, NoMemory>
    ensures { IfOk result (λ rows. rows.items ≡ lane_changes slots.now number) }
{
    let rows = changes_at(slots, number / 2 + 1);
    let mut drawn = Vec::new(alloc);
    for row in rows {
        if is_in_lane(number, &row.row) {
            drawn.push(*row)?;
        }
    }
    Ok(drawn)
}

// The rows at the slot's place.
#[tactic(auto, unfolding(crate::specs::Changes::changes_at))]
fn changes_at(slots: &[SlotChanges], slot: usize) -> &[DifferenceRow]
    ensures { result.now ≡ changes_at slots.now slot }
{
    match slots.get(slot) {
        Some(changes) => changes.rows.as_slice(),
        None => &[],
    }
}

// Whether the row is drawn in the lane of this number.
#[tactic(auto, unfolding(crate::specs::Changes::is_in_lane))]
fn is_in_lane(number: usize, row: &SeenRow) -> bool
    ensures { result ≡ is_in_lane number row.now }
{
    match row {
        SeenRow::Grant(grant) => lane_number(grant.slot, grant.channel) == number,
        SeenRow::Placement { placement, .. } => is_placed_in(number, placement),
        SeenRow::Frame(_) | SeenRow::Signal(_) | SeenRow::Gap(_) => false,
    }
}

// Whether a frame with this placement is sent in the lane.
#[tactic(auto, unfolding(crate::specs::Changes::is_placed_in))]
fn is_placed_in(number: usize, placement: &Placement) -> bool
    ensures { result ≡ is_placed_in number placement.now }
{
    is_sent_in(number, placement, Channel::A) || is_sent_in(number, placement, Channel::B)
}

// Whether a frame with this placement is sent on the channel, whose lane this is.
fn is_sent_in(number: usize, placement: &Placement, channel: Channel) -> bool
    ensures { result ≡ is_sent_in number placement.now channel }
{
    placement.channels.has(channel) && lane_number(placement.slot, channel) == number
}
