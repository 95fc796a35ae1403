//! A page after an edit: only the rows that the edit names change.
ghost use Rattle.std.specs.Prelude.{◌≡◌, ℕ, ◌≤◌, ◌||◌, ◌&&◌, ◌++◌, ◌∷◌, [], not, filter, option_map, Err, IfSome, OnOk, OnErr};
ghost use Rattle.std.specs.BTreeMap.{is_at};
ghost use Rattle.std.specs.Cmp.Lexicographic.{slice_cmp};
ghost use Rattle.std.specs.List.{list_any};
ghost use Rattle.std.specs.Ordering.{nat_cmp};
ghost use Rattle.fr_base.specs.Keys.{names, placement_order};
ghost use Rattle.fr_base.specs.Layouts.{IsLayout, with_signal, without_signal};
ghost use Rattle.fr_base.specs.Tables.{contains, insert, remove};
ghost use Rattle.fr_base.specs.declared.name.Name.{Name as NameText};
ghost use Rattle.fr_base.specs.declared.placement.Placement.{Placement as Cells};
ghost use Rattle.fr_base.specs.declared.refusal.Refusal.TheVariants.{Unavailable};
ghost use Rattle.fr_base.specs.declared.request.FrameChange.TheVariants.{Add, AddSignal, Drop, DropSignal, Place, Unplace};
ghost use Rattle.std.specs.List.Sorted.{IsStrictlySortedBy};
ghost use Rattle.std.specs.Map.{keys_of};
ghost use Rattle.fr_world.specs.Amends.{AreChanged, LeavesLayout, as_frame, frame_at, grants_of, nodes_of};
ghost use Rattle.fr_world.specs.Edits.{Takes, edited, releases};
ghost use Rattle.fr_world.specs.Maps.{set_of};
ghost use Rattle.fr_world.specs.Occupancies.{is_pair};
ghost use Rattle.fr_world.specs.PageCells.{ArePlaced, has_placement};
ghost use Rattle.fr_world.specs.Pages.{compare_slots, frames_data, holder_of, own_rows_of};

use crate::edit::Edit;
use crate::mask_occupancy::MaskOccupancy;
use crate::occupancy::Occupancy;
use crate::page::{ChannelSlot, Page, PageFrame};
use fr_base::{Change, Channel, FrameChange, Name, Placement, Refusal, Signal, Slot};
use fr_layout::Layout;
use std::alloc::Global;
use std::collections::{BTreeMap, BTreeSet};

impl Page {
    /// Changes the page's rows as the edit says. The new rows have to be such as a page may have. A
    /// row that is put takes the place of the row with its key. An edit that ends a row which is
    /// not there changes nothing. `Unavailable` where memory is refused, which changes nothing.
    pub fn amend(&mut self, alloc: Global, edit: &Edit) -> Result<(), Refusal>
        requires takes { Takes self.old.variant (own_rows_of self.old) edit.now }
        ensures page { OnOk result (own_rows_of self.new ≡ edited (own_rows_of self.old) edit.now) }
        ensures rest { OnOk result ((self.new.supplier ≡ self.old.supplier)
            × (self.new.variant ≡ self.old.variant)
            × (self.new.released ≡ (releases edit.now || self.old.released))) }
        ensures err { OnErr result ((self.new ≡ self.old) × (result ≡ Err Unavailable)) }
    {
        let words = self.rows.params.payload_words();
        let (frames, cells) = (&mut self.rows.frames, &mut self.cells);
        match edit {
            Edit::SetReleased { .. } => {
                self.rows.released = true;
                Ok(())
            }
            Edit::NewNode { node, .. } => put_node(&mut self.rows.nodes, *node),
            Edit::Rows(rows) => match &rows.change {
                Change::Grant {
                    slot,
                    channel,
                    node,
                } => put_grant(&mut self.rows.grants, *slot, *channel, *node),
                Change::Revoke { slot, channel } => {
                    end_grant(&mut self.rows.grants, *slot, *channel);
                    Ok(())
                }
                Change::Frame { frame, change } => match change {
                    FrameChange::Add { node } => {
                        add_frame(frames, cells, alloc, words, *frame, *node)
                    }
                    FrameChange::Drop => {
                        drop_frame(frames, cells, *frame);
                        Ok(())
                    }
                    FrameChange::Place(placement) => place(frames, cells, *frame, *placement),
                    FrameChange::Unplace(placement) => {
                        unplace(frames, cells, *frame, placement);
                        Ok(())
                    }
                    FrameChange::AddSignal(signal) => add_signal(frames, *frame, *signal),
                    FrameChange::DropSignal(signal) => {
                        drop_signal(frames, *frame, *signal);
                        Ok(())
                    }
                },
            },
            Edit::NewVariant { .. }
            | Edit::NewFlat { .. }
            | Edit::NewSupplier { .. }
            | Edit::SetKey { .. }
            | Edit::KeepImport { .. } => Ok(()),
        }
    }
}

// Puts the node among these nodes.
#[tactic(auto, using(crate::proofs::AmendLaws::insert_node, crate::proofs::KeyLaws::names_rise))]
fn put_node(nodes: &mut BTreeSet<Name>, node: Name) -> Result<(), Refusal>
    ensures table { OnOk result ((s : NameText)
        → nodes_of s nodes.new.keys ≡ insert (nodes_of s nodes.old.keys) (s, node) tt) }
    ensures order { IsStrictlySortedBy names.compare nodes.new.keys }
    ensures err { OnErr result ((nodes.new.keys ≡ nodes.old.keys) × (result ≡ Err Unavailable)) }
{
    nodes.insert(node)?;
    Ok(())
}

// Lets the node hold slot and channel.
#[tactic(auto, using(crate::proofs::AmendLaws::insert_grant, crate::proofs::KeyLaws::slots_rise))]
fn put_grant(
    grants: &mut BTreeMap<ChannelSlot, Name>,
    slot: Slot,
    channel: Channel,
    node: Name,
) -> Result<(), Refusal>
    ensures table { OnOk result ((s : NameText)
        → grants_of s grants.new.entries
        ≡ insert (grants_of s grants.old.entries) (slot, channel) (holder_of s node)) }
    ensures order { IsStrictlySortedBy compare_slots (keys_of grants.new.entries) }
    ensures err { OnErr result ((grants.new.entries ≡ grants.old.entries)
        × (result ≡ Err Unavailable)) }
{
    grants.insert(ChannelSlot { slot, channel }, node)?;
    Ok(())
}

// Lets no node hold slot and channel.
#[tactic(auto, using(crate::proofs::AmendLaws::remove_grant, crate::proofs::KeyLaws::slots_rise))]
fn end_grant(grants: &mut BTreeMap<ChannelSlot, Name>, slot: Slot, channel: Channel)
    ensures table { (s : NameText)
        → grants_of s grants.new.entries
        ≡ remove (grants_of s grants.old.entries) (slot, channel) }
    ensures order { IsStrictlySortedBy compare_slots (keys_of grants.new.entries) }
{
    // Gives the proof that the keys are in order.
    let _len = grants.len();
    grants.remove(&ChannelSlot { slot, channel });
}

// Adds the frame, with no placements and no signals in a payload of so many words. A former
// frame of its name is gone then.
fn add_frame(
    frames: &mut BTreeMap<Name, PageFrame>,
    cells: &mut MaskOccupancy,
    alloc: Global,
    words: u32,
    name: Name,
    node: Name,
) -> Result<(), Refusal>
    requires words { words ≤ 127 }
    requires placed { ArePlaced cells.old (frames_data frames.old.entries) }
    ensures ok { OnOk result (AreChanged words name (Add node) frames.old.entries
        frames.new.entries) }
    ensures placed { ArePlaced cells.new (frames_data frames.new.entries) }
    ensures err { OnErr result ((frames_data frames.new.entries ≡ frames_data frames.old.entries)
        × (result ≡ Err Unavailable)) }
{
    // Gives the proof that the keys are in order.
    let _len = frames.len();
    let frame = PageFrame {
        node,
        placements: BTreeSet::new(alloc),
        layout: Layout::new(alloc, words),
    };
    let former = frames.insert(name, frame)?;
    end_cells(cells, name, former);
    Ok(())
}

// Drops the frame of this name.
fn drop_frame(frames: &mut BTreeMap<Name, PageFrame>, cells: &mut MaskOccupancy, name: Name)
    requires placed { ArePlaced cells.old (frames_data frames.old.entries) }
    ensures changed { (words : ℕ) → AreChanged words name Drop frames.old.entries
        frames.new.entries }
    ensures placed { ArePlaced cells.new (frames_data frames.new.entries) }
{
    // Gives the proof that the keys are in order.
    let _len = frames.len();
    let former = frames.remove(&name);
    end_cells(cells, name, former);
}

// Gives the frame of this name the placement, and lets it fill the cells.
fn place(
    frames: &mut BTreeMap<Name, PageFrame>,
    cells: &mut MaskOccupancy,
    name: Name,
    placement: Placement,
) -> Result<(), Refusal>
    requires placed { ArePlaced cells.old (frames_data frames.old.entries) }
    ensures ok { OnOk result ((words : ℕ) → AreChanged words name (Place placement)
        frames.old.entries frames.new.entries) }
    ensures placed { ArePlaced cells.new (frames_data frames.new.entries) }
    ensures err { OnErr result ((frames_data frames.new.entries ≡ frames_data frames.old.entries)
        × (result ≡ Err Unavailable)) }
{
    // Gives the proof that the keys are in order.
    let _len = frames.len();
    match frames.get_mut(&name) {
        Some(frame) => put_placement(&mut frame.placements, cells, name, placement),
        None => Ok(()),
    }
}

// Takes the placement back from the frame of this name, and clears its cells.
fn unplace(
    frames: &mut BTreeMap<Name, PageFrame>,
    cells: &mut MaskOccupancy,
    name: Name,
    placement: &Placement,
)
    requires placed { ArePlaced cells.old (frames_data frames.old.entries) }
    ensures changed { (words : ℕ) → AreChanged words name (Unplace placement.now)
        frames.old.entries frames.new.entries }
    ensures placed { ArePlaced cells.new (frames_data frames.new.entries) }
{
    // Gives the proof that the keys are in order.
    let _len = frames.len();
    match frames.get_mut(&name) {
        Some(frame) => {
            end_placement(&mut frame.placements, placement);
            cells.clear(name, placement);
        }
        None => {}
    }
}

// Adds the signal to the payload of the frame of this name.
fn add_signal(
    frames: &mut BTreeMap<Name, PageFrame>,
    name: Name,
    signal: Signal,
) -> Result<(), Refusal>
    requires leaves { IfSome (frame_at name frames.old.entries) (LeavesLayout (AddSignal signal)) }
    ensures ok { OnOk result ((words : ℕ) → AreChanged words name (AddSignal signal)
        frames.old.entries frames.new.entries) }
    ensures placed { (pairs : _) → ArePlaced pairs (frames_data frames.old.entries)
        → ArePlaced pairs (frames_data frames.new.entries) }
    ensures err { OnErr result ((frames_data frames.new.entries ≡ frames_data frames.old.entries)
        × (result ≡ Err Unavailable)) }
{
    // Gives the proof that the keys are in order.
    let _len = frames.len();
    match frames.get_mut(&name) {
        Some(frame) => put_signal(&mut frame.layout, signal),
        None => Ok(()),
    }
}

// Drops the signal from the payload of the frame of this name.
fn drop_signal(frames: &mut BTreeMap<Name, PageFrame>, name: Name, signal: Name)
    ensures changed { (words : ℕ) → AreChanged words name (DropSignal signal)
        frames.old.entries frames.new.entries }
    ensures placed { (pairs : _) → ArePlaced pairs (frames_data frames.old.entries)
        → ArePlaced pairs (frames_data frames.new.entries) }
{
    // Gives the proof that the keys are in order.
    let _len = frames.len();
    match frames.get_mut(&name) {
        Some(frame) => end_signal(&mut frame.layout, signal),
        None => {}
    }
}

// Clears the cells of the frame that was there.
fn end_cells(cells: &mut MaskOccupancy, name: Name, former: Option<PageFrame>)
    ensures { (f : NameText) (q : Cells)
        → list_any (is_pair f q) cells.new
        ≡ (list_any (is_pair f q) cells.old
        && not (is_at (slice_cmp nat_cmp f) name && has_placement q (option_map as_frame former))) }
{
    if let Some(frame) = former {
        end_each(cells, name, &frame);
    }
}

// Clears the cells of this frame's placements, where the frame of this name fills them.
fn end_each(cells: &mut MaskOccupancy, name: Name, frame: &PageFrame)
    ensures { (f : NameText) (q : Cells)
        → list_any (is_pair f q) cells.new
        ≡ (list_any (is_pair f q) cells.old
        && not (is_at (slice_cmp nat_cmp f) name && contains (as_frame frame.now).placements q)) }
{
    for placement in &frame.placements {
        cells.clear(name, placement);
    }
}

// Puts the placement among these, and lets the frame of this name fill its cells.
#[tactic(auto, using(crate::proofs::AmendLaws::insert_placement, crate::proofs::KeyLaws::placements_rise))]
fn put_placement(
    placements: &mut BTreeSet<Placement>,
    cells: &mut MaskOccupancy,
    name: Name,
    placement: Placement,
) -> Result<(), Refusal>
    requires { list_any (is_pair name placement) cells.old
        ≡ contains (set_of placement_order (λ q. q) placements.old.keys) placement }
    ensures table { OnOk result (set_of placement_order (λ q. q) placements.new.keys
        ≡ insert (set_of placement_order (λ q. q) placements.old.keys) placement tt) }
    ensures order { IsStrictlySortedBy placement_order.compare placements.new.keys }
    ensures err { OnErr result ((placements.new.keys ≡ placements.old.keys)
        × (result ≡ Err Unavailable)) }
    ensures placed { OnOk result (cells.new ≡ cells.old ++ (name, placement) ∷ []) }
    ensures kept { OnErr result ((f : NameText) (q : Cells)
        → list_any (is_pair f q) cells.new ≡ list_any (is_pair f q) cells.old) }
{
    // Gives the proof that the placements are in order.
    let _len = placements.len();
    cells.add(name, &placement)?;
    match placements.insert(placement) {
        Ok(_) => Ok(()),
        Err(_) => {
            cells.clear(name, &placement);
            Err(Refusal::Unavailable)
        }
    }
}

// Takes the placement out of these.
#[tactic(auto, using(crate::proofs::AmendLaws::remove_placement, crate::proofs::KeyLaws::placements_rise))]
fn end_placement(placements: &mut BTreeSet<Placement>, placement: &Placement)
    ensures table { set_of placement_order (λ q. q) placements.new.keys
        ≡ remove (set_of placement_order (λ q. q) placements.old.keys) placement.now }
    ensures order { IsStrictlySortedBy placement_order.compare placements.new.keys }
{
    // Gives the proof that the keys are in order.
    let _len = placements.len();
    placements.remove(placement);
}

// Puts the signal into the layout.
#[tactic(auto, using(crate::proofs::AmendSignals::add_takes))]
fn put_signal(layout: &mut Layout, signal: Signal) -> Result<(), Refusal>
    requires { IsLayout (record layout.old { signals = with_signal signal layout.old.signals }) }
    ensures ok { OnOk result (layout.new
        ≡ record layout.old { signals = with_signal signal layout.old.signals }) }
    ensures err { OnErr result ((layout.new ≡ layout.old) × (result ≡ Err Unavailable)) }
{
    layout.add(signal)
}

// Takes the signal of this name out of the layout.
#[tactic(auto, using(crate::proofs::AmendSignals::remove_takes, crate::proofs::AmendSignals::remove_keeps))]
fn end_signal(layout: &mut Layout, name: Name)
    ensures { layout.new ≡ record layout.old { signals = without_signal name layout.old.signals } }
{
    let _ = layout.remove(name);
}
