//! A supplier's rows in a variant, with the cells that they fill.
use crate::mask_occupancy::MaskOccupancy;
use fr_base::{Channel, Name, NoMemory, Params, Placement, Slot};
use fr_layout::Layout;
use std::collections::{BTreeMap, BTreeSet};
use std::marker::Model;

/// A static slot on a channel. Slots come first in the order, then A before B.
#[derive(Clone, Copy, PartialEq, Eq, PartialOrd, Ord)]
pub struct ChannelSlot {
    /// The slot, 1 to 1023.
    pub slot: Slot,
    /// The channel, A or B.
    pub channel: Channel,
}

/// A supplier's frame in a variant: the node that sends it, where it is placed, and the signals in its
/// payload.
#[derive(Drop)]
pub struct PageFrame {
    /// The node that sends it.
    pub node: Name,
    /// Its slots, channels and cycles.
    pub placements: BTreeSet<Placement>,
    /// Which signals lie on which bits of its payload.
    pub layout: Layout,
}

impl Clone for PageFrame {
    ghost use Rattle.std.specs.Prelude.{◌≡◌};
    ghost use Rattle.fr_world.specs.Pages.{frame_data};

    ghost is_clone = { λ f g. frame_data g ≡ frame_data f };

    fn clone(&self) -> Result<PageFrame, NoMemory> {
        Ok(PageFrame {
            node: self.node,
            placements: self.placements.clone()?,
            layout: self.layout.clone()?,
        })
    }
}

/// One supplier's rows in one variant, which `Page::build` checks.
#[derive(Drop)]
pub struct PageRows {
    /// The cluster's parameters.
    pub params: Params,
    /// The supplier whose rows they are.
    pub supplier: Name,
    /// The variant.
    pub variant: Name,
    /// Whether the variant is released.
    pub released: bool,
    /// The supplier's nodes.
    pub nodes: BTreeSet<Name>,
    /// Which of the nodes holds which slot and channel.
    pub grants: BTreeMap<ChannelSlot, Name>,
    /// The supplier's frames, by their names.
    pub frames: BTreeMap<Name, PageFrame>,
}

impl Clone for PageRows {
    ghost use Rattle.std.specs.Prelude.{◌≡◌};
    ghost use Rattle.fr_world.specs.Pages.{rows_data};

    ghost is_clone = { λ r n. rows_data n ≡ rows_data r };

    fn clone(&self) -> Result<PageRows, NoMemory> {
        Ok(PageRows {
            params: self.params,
            supplier: self.supplier,
            variant: self.variant,
            released: self.released,
            nodes: self.nodes.clone()?,
            grants: self.grants.clone()?,
            frames: self.frames.clone()?,
        })
    }
}

/// A supplier's rows in a variant, in the order of their keys: at most 64 nodes and 256 frames.
/// Each frame has at most 8 placements, which fit the cluster and lie in grants to its node, and
/// its signals make a layout of the cluster's payload. No cell lies in two placements. Whether the
/// nodes of grants and frames are among the supplier's nodes is not checked. Beside the rows the
/// page keeps which cells the frames fill.
#[derive(Drop)]
pub struct Page {
    pub(crate) rows: PageRows,
    pub(crate) cells: MaskOccupancy,
}

impl Model for Page {
    ghost use Rattle.fr_world.specs.PageCells.{ArePlaced};
    ghost use Rattle.fr_world.specs.Pages.{IsKept, PageData, frames_data, rows_data};

    ghost Value = { PageData };

    ghost view = { λ p. rows_data p.rows };

    ghost invariant = { λ p. IsKept (rows_data p.rows) × ArePlaced p.cells (frames_data p.rows.frames.entries) };
}

impl Clone for Page {
    ghost use Rattle.std.specs.Prelude.{◌≡◌};

    ghost is_clone = { λ p n. n ≡ p };

    fn clone(&self) -> Result<Page, NoMemory> {
        Ok(Page {
            rows: self.rows.clone()?,
            cells: self.cells.clone()?,
        })
    }
}

impl Page {
    ghost use Rattle.std.specs.Prelude.{◌≡◌};
    ghost use Rattle.fr_world.specs.Occupancies.{ShowCells};
    ghost use Rattle.fr_world.specs.Pages.{IsKept, frames_data, own_rows_of};

    /// The cluster's parameters.
    pub fn params(&self) -> Params
        ensures { result ≡ self.now.params }
    {
        self.rows.params
    }

    /// The supplier whose rows they are.
    pub fn supplier(&self) -> Name
        ensures { result ≡ self.now.supplier }
    {
        self.rows.supplier
    }

    /// The variant.
    pub fn variant(&self) -> Name
        ensures { result ≡ self.now.variant }
    {
        self.rows.variant
    }

    /// Whether the variant is released.
    pub fn released(&self) -> bool
        ensures { result ≡ self.now.released }
    {
        self.rows.released
    }

    /// The supplier's nodes.
    pub fn nodes(&self) -> &BTreeSet<Name>
        ensures { result.now.keys ≡ self.now.nodes }
    {
        &self.rows.nodes
    }

    /// Which of the nodes holds which slot and channel.
    pub fn grants(&self) -> &BTreeMap<ChannelSlot, Name>
        ensures { result.now.entries ≡ self.now.grants }
    {
        &self.rows.grants
    }

    /// The supplier's frames.
    pub fn frames(&self) -> &BTreeMap<Name, PageFrame>
        ensures value { frames_data result.now.entries ≡ self.now.frames }
        ensures kept { IsKept self.now }
    {
        &self.rows.frames
    }

    /// Which cells its frames fill.
    pub(crate) fn cells(&self) -> &MaskOccupancy
        ensures { ShowCells result.now (own_rows_of self.now).frames }
    {
        // Gives the proof that the frames are in order.
        let _len = self.rows.frames.len();
        &self.cells
    }
}
