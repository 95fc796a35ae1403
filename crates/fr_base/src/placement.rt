//! Where a frame is sent: a slot, channels and cycles.
use crate::channel::Channels;
use crate::cycles::CycleSet;
use crate::slot::Slot;

/// Where and when a frame is sent: in one static slot, on one or both channels, in the cycles of a
/// base and a repetition. A frame ID is used at most once on a channel in one cycle (FlexRay Protocol
/// Specification 2.1 Rev. A, chapter 5, media access control). Placements are ordered by slot,
/// channels, base and repetition.
#[derive(Clone, Copy, PartialEq, Eq, PartialOrd, Ord)]
pub struct Placement {
    /// The slot, which is the frame ID.
    pub slot: Slot,
    /// The channels.
    pub channels: Channels,
    /// The cycles.
    pub cycles: CycleSet,
}
