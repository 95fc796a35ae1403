//! What a page shows.
use crate::changes::Changes;
use crate::frame_table::DrawnFrame;
use fr_base::{GrantRow, Name, Params, Rows, Sending};

/// What a page shows: a variant's plan, as its reader sees it.
#[derive(Drop)]
pub struct Plan {
    /// The cluster's parameters. Its count of cycles is the height of the drawing.
    pub params: Params,
    /// The variant.
    pub variant: Name,
    /// The variant from which it was opened, if any.
    pub parent: Option<Name>,
    /// Whether it is released.
    pub released: bool,
    /// The supplier whose rows alone are shown; none where those of all are.
    pub supplier: Option<Name>,
    /// The suppliers that may have rows, by name. By its place here each has its mark, and the number to which the style
    /// gives a colour.
    pub suppliers: Vec<Name>,
    /// Who holds which slot and channel.
    pub grants: Rows<GrantRow>,
    /// What is sent in which cell, by cycle, slot and channel.
    pub cells: Rows<Sending>,
    /// The frames, in the order in which the page lists them.
    pub frames: Vec<DrawnFrame>,
    /// What is new since another variant and what is gone, where the reader asked for it.
    pub changes: Option<Changes>,
}
