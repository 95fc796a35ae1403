//! Placements, each with the frame that is sent in its cells.
ghost use Rattle.std.specs.Prelude.{◌≡◌, ◌≤◌, ◌+◌, ◌++◌, [], length, map, IfOk, OnErr, OnOk};
ghost use Rattle.std.specs.Vec.{vec_capacity, vec_len};
ghost use Rattle.fr_base.specs.Book.{placements_of};
ghost use Rattle.fr_base.specs.Cells.{cluster_cells};
ghost use Rattle.fr_base.specs.Queries.{placements_in};
ghost use Rattle.fr_world.specs.Pages.{frame_data, frame_of, own_rows_of};
ghost use Rattle.fr_world.specs.Loads.{filled_load, grants_in_lanes};
ghost use Rattle.fr_world.specs.Sendings.{Extends, HaveSenders, cycle_cells, filled, filled_by, sent_by, sent_in};

use crate::loads::filled_load;
use crate::mask_occupancy::MaskOccupancy;
use crate::page::{ChannelSlot, Page, PageFrame};
use crate::sendings::{push_sendings, schedule};
use fr_base::{LaneHolder, LoadRow, Name, NoMemory, Params, Placement, Rows, Sending};
use std::alloc::Global;
use std::collections::BTreeMap;
use std::marker::Model;

/// A frame, and who sends it.
#[derive(Clone, Copy)]
pub(crate) struct FrameSender {
    /// The supplier whose frame it is.
    pub supplier: Name,
    /// The frame's name.
    pub frame: Name,
    /// The node that sends it.
    pub node: Name,
}

/// A placement, and who sends in its cells.
#[derive(Clone, Copy)]
pub(crate) struct FrameTriggering {
    /// The cells.
    pub placement: Placement,
    /// The sender's place in the list of senders.
    pub sender: usize,
}

/// The senders of frames, and the placements that they send.
#[derive(Clone, Copy)]
pub(crate) struct FrameSendings<'a> {
    /// The senders.
    pub senders: &'a [FrameSender],
    /// The placements. The sender of each stands among the senders.
    pub triggerings: &'a [FrameTriggering],
}

/// Placements, each with its sender, which is kept once for all placements of a frame.
#[derive(Drop)]
pub struct Triggerings {
    senders: Vec<FrameSender>,
    triggerings: Vec<FrameTriggering>,
}

impl Model for Triggerings {
    ghost use Rattle.std.specs.Prelude.{List};
    ghost use Rattle.fr_base.specs.Book.{Sender};
    ghost use Rattle.fr_base.specs.declared.placement.Placement.{Placement as Cells};
    ghost use Rattle.fr_world.specs.Sendings.{HaveSenders, filled};

    ghost Value = { List (Sender × Cells) };

    ghost view = { λ t. filled t.senders.items t.triggerings.items };

    ghost invariant = { λ t. HaveSenders t.senders.items t.triggerings.items };
}

impl Triggerings {
    /// No placement. It takes no memory.
    pub fn new(alloc: Global) -> Triggerings
        ensures { result ≡ [] }
    {
        Triggerings {
            senders: Vec::new(alloc),
            triggerings: Vec::new(alloc),
        }
    }

    /// Appends the placements of the page's frames: frame by frame in the order of their names, and each
    /// frame's by slot, channels, base and repetition. Where memory is refused, some of them may have been
    /// appended.
    pub fn push_page(&mut self, page: &Page) -> Result<(), NoMemory>
        ensures ok { OnOk result (self.new ≡ self.old
            ++ placements_of (own_rows_of page.now).frames) }
        ensures err { OnErr result (Extends self.old self.new) }
    {
        let supplier = page.supplier();
        for (name, frame) in page.frames().iter() {
            self.push_frame(supplier, *name, frame)?;
        }
        Ok(())
    }

    // Appends the placements of a supplier's frame of this name, all or none.
    fn push_frame(&mut self, supplier: Name, name: Name, frame: &PageFrame) -> Result<(), NoMemory>
        ensures ok { OnOk result (self.new ≡ self.old
            ++ filled_by (supplier, name) (frame_of (frame_data frame.now))) }
        ensures err { OnErr result (self.new ≡ self.old) }
    {
        self.triggerings.reserve(frame.placements.len())?;
        let sender = self.senders.len();
        self.senders.push(FrameSender {
            supplier,
            frame: name,
            node: frame.node,
        })?;
        push_placements(frame, sender, &mut self.triggerings);
        Ok(())
    }

    // The senders and the placements.
    fn sendings(&self) -> FrameSendings<'_>
        ensures value { filled result.senders.now result.triggerings.now ≡ self.now }
        ensures have { HaveSenders result.senders.now result.triggerings.now }
    {
        FrameSendings {
            senders: &self.senders,
            triggerings: &self.triggerings,
        }
    }

    /// Which frame is sent in which cell, in the order of cycles, then slots, then channels. Where
    /// several placements have a cell, the first one is sent.
    pub fn schedule(&self, alloc: Global, params: &Params) -> Result<Rows<Sending>, NoMemory>
        ensures { IfOk result (λ rows. rows ≡ sent_in self.now (cluster_cells params.now)) }
    {
        schedule(alloc, params, &self.sendings())
    }

    /// How full these placements make each lane of the cluster, by slot, then channel. `holders`
    /// says who holds lanes.
    pub fn load(
        &self,
        alloc: Global,
        params: &Params,
        holders: &BTreeMap<ChannelSlot, LaneHolder>,
    ) -> Result<Rows<LoadRow>, NoMemory>
        ensures { IfOk result (λ rows.
            rows ≡ filled_load params.now (grants_in_lanes holders.now.entries) self.now) }
    {
        let cells = filled_cells(alloc, &self.senders, &self.triggerings)?;
        filled_load(alloc, params, holders, &cells)
    }

    /// Appends what is sent in the cycle, 0 to 63: by slot and channel. Where several placements
    /// have a cell, the first one is sent. Where memory is refused, some of it may have been
    /// appended.
    pub(crate) fn push_sendings(
        &self,
        alloc: Global,
        params: &Params,
        cycle: u8,
        rows: &mut Rows<Sending>,
    ) -> Result<(), NoMemory>
        ensures { OnOk result (rows.new ≡ rows.old
            ++ sent_in self.now (cycle_cells params.now cycle)) }
    {
        push_sendings(alloc, params, &self.sendings(), cycle, rows)
    }
}

// Appends the placements of the frame. The sender at this place sends them, and there is room for
// them.
fn push_placements(frame: &PageFrame, sender: usize, triggerings: &mut Vec<FrameTriggering>)
    requires { vec_len triggerings.old + length frame.now.placements.keys
        ≤ vec_capacity triggerings.old }
    ensures { triggerings.new.items ≡ triggerings.old.items
        ++ map (sent_by sender) (placements_in (frame_of (frame_data frame.now))) }
{
    for placement in frame.placements.iter() {
        triggerings.push_reserved(FrameTriggering {
            placement: *placement,
            sender,
        });
    }
}

// The cells of the placements, with the names of the frames that are sent there.
fn filled_cells(
    alloc: Global,
    senders: &[FrameSender],
    triggerings: &[FrameTriggering],
) -> Result<MaskOccupancy, NoMemory>
    requires { HaveSenders senders.now triggerings.now }
    ensures { IfOk result (λ cells.
        cells ≡ map (λ e. (e.0.frame, e.1)) (filled senders.now triggerings.now)) }
{
    let mut cells = MaskOccupancy::new(alloc);
    for one in triggerings {
        cells.add(senders[one.sender].frame, &one.placement)?;
    }
    Ok(cells)
}
