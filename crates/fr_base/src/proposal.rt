//! What is proposed for a file of wishes.
use crate::channel::Channels;
use crate::name::Name;
use crate::placement::Placement;
use crate::refusal::Refusal;
use crate::rows::Rows;
use crate::wish::Asked;

/// A proposal for a file of wishes: accepted as it stands, if it is sent as a file of placements.
#[derive(Drop)]
pub struct Proposal {
    /// What is proposed for each wish, by its line.
    pub rows: Rows<ProposalRow>,
    /// The slots that are lacking for wishes without room, by node and channels.
    pub lacks: Rows<LackRow>,
}

/// What is proposed for a wish.
#[derive(Clone, Copy, PartialEq, Eq)]
pub struct ProposalRow {
    /// The wish's place among the file's records, of which the header is the first.
    pub line: u32,
    /// The placement, or what refuses the wish: `NoRoom` where there is none left.
    pub proposed: Result<ProposedPlacement, Refusal>,
}

/// A placement that is proposed for a frame.
#[derive(Clone, Copy, PartialEq, Eq)]
pub struct ProposedPlacement {
    pub frame: Name,
    /// The node that sends the frame.
    pub node: Name,
    pub placement: Placement,
}

/// How many slots a node lacks on these channels: with so many more, empty in all cycles, its wishes
/// without room have a placement each.
#[derive(Clone, Copy, PartialEq, Eq)]
pub struct LackRow {
    pub node: Name,
    pub channels: Channels,
    pub slots: u32,
}

/// The placement that a wish is given, if it is given one.
#[derive(Clone, Copy, PartialEq, Eq)]
pub struct Given {
    pub asked: Asked,
    pub place: Option<Placement>,
}
