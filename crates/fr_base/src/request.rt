//! Who asks what: requests as they were sent, and the same with checked values.
use crate::actor::Actor;
use crate::beginning::Beginning;
use crate::body::Body;
use crate::channel::Channel;
use crate::delivery::{Delivery, Purpose};
use crate::key::Key;
use crate::name::Name;
use crate::placement::Placement;
use crate::query::Query;
use crate::signal::Signal;
use crate::slot::Slot;
use crate::text::Text;

/// What is asked, with its texts and numbers as they were sent.
pub enum Request {
    /// The integrator opens a variant: empty, or with all rows of a released one.
    OpenVariant {
        variant: Text,
        beginning: Beginning<Text>,
    },
    /// The integrator freezes a variant.
    Release {
        variant: Text,
    },
    /// The integrator adds a supplier, with the key by which it is known.
    AddSupplier {
        supplier: Text,
        key: Text,
    },
    /// The integrator gives a supplier another key.
    SetKey {
        supplier: Text,
        key: Text,
    },
    /// The integrator gives a supplier a node, in all variants.
    AddNode {
        supplier: Text,
        node: Text,
    },
    /// The integrator grants a static slot on a channel, in all cycles, to a supplier's node.
    Grant {
        variant: Text,
        slot: u32,
        channel: Text,
        supplier: Text,
        node: Text,
    },
    /// The integrator takes the grant of a static slot on a channel back from a supplier.
    Revoke {
        variant: Text,
        slot: u32,
        channel: Text,
        supplier: Text,
    },
    /// A supplier adds a frame that one of its nodes sends.
    AddFrame {
        variant: Text,
        frame: Text,
        node: Text,
    },
    /// A supplier drops a frame, with its placements and signals.
    DropFrame {
        variant: Text,
        frame: Text,
    },
    /// A supplier has a frame sent in a slot, on channels, in the cycles of a base and a repetition.
    Place {
        variant: Text,
        frame: Text,
        slot: u32,
        channels: Text,
        base: u32,
        repetition: u32,
    },
    /// A supplier takes a placement back.
    Unplace {
        variant: Text,
        frame: Text,
        slot: u32,
        channels: Text,
        base: u32,
        repetition: u32,
    },
    /// A supplier adds a signal to a frame's payload: `start` is a payload bit, `length` counts bits,
    /// and `order` is `little` or `big`.
    AddSignal {
        variant: Text,
        frame: Text,
        signal: Text,
        start: u32,
        length: u32,
        order: Text,
    },
    /// A supplier drops a signal.
    DropSignal {
        variant: Text,
        frame: Text,
        signal: Text,
    },
    /// A supplier delivers a file of rows: as an import, as a replacement, or to be tried.
    Deliver {
        variant: Text,
        how: Purpose<Text>,
        body: Body,
    },
    /// The integrator or a supplier asks what the register holds, and nothing is changed.
    Query(Query<Text>),
}

// It is written out, so that a caller does not prove again how each kind of request is dropped.
impl Drop for Request {
    fn drop(self) {
        match self {
            Request::OpenVariant {
                variant: _,
                beginning: _,
            } => {}
            Request::Release { variant: _ } => {}
            Request::AddSupplier {
                supplier: _,
                key: _,
            } => {}
            Request::SetKey {
                supplier: _,
                key: _,
            } => {}
            Request::AddNode {
                supplier: _,
                node: _,
            } => {}
            Request::Grant {
                variant: _,
                slot: _,
                channel: _,
                supplier: _,
                node: _,
            } => {}
            Request::Revoke {
                variant: _,
                slot: _,
                channel: _,
                supplier: _,
            } => {}
            Request::AddFrame {
                variant: _,
                frame: _,
                node: _,
            } => {}
            Request::DropFrame {
                variant: _,
                frame: _,
            } => {}
            Request::Place {
                variant: _,
                frame: _,
                slot: _,
                channels: _,
                base: _,
                repetition: _,
            }
            | Request::Unplace {
                variant: _,
                frame: _,
                slot: _,
                channels: _,
                base: _,
                repetition: _,
            } => {}
            Request::AddSignal {
                variant: _,
                frame: _,
                signal: _,
                start: _,
                length: _,
                order: _,
            } => {}
            Request::DropSignal {
                variant: _,
                frame: _,
                signal: _,
            } => {}
            Request::Deliver {
                variant: _,
                how: _,
                body: _,
            } => {}
            Request::Query(_) => {}
        }
    }
}

/// A request and who asks it.
#[derive(Drop)]
pub struct Ask {
    pub actor: Actor,
    pub request: Request,
}

/// A request that changes the register, with checked values, by what it changes: a variant for all
/// suppliers, the list of suppliers, a supplier's key, its nodes, or its rows in a variant.
#[derive(Clone, Copy, PartialEq, Eq)]
pub enum Command {
    /// The integrator opens or releases a variant, for all suppliers.
    Common(CommonCommand),
    /// The integrator adds a supplier, with the key by which it is known.
    AddSupplier { supplier: Name, key: Key },
    /// The integrator gives a supplier another key, by which it is known from then on.
    SetKey { supplier: Name, key: Key },
    /// The integrator gives a supplier a node, in all variants.
    AddNode { supplier: Name, node: Name },
    /// A change of one supplier's rows in a variant.
    Rows(RowsChange),
}

/// What the integrator does with a variant, for all suppliers.
#[derive(Clone, Copy, PartialEq, Eq)]
pub enum CommonCommand {
    /// The variant is opened: empty, or with all rows of a released one.
    OpenVariant {
        variant: Name,
        beginning: Beginning<Name>,
    },
    /// The variant is frozen.
    Release {
        variant: Name,
    },
}

/// A change of one supplier's rows in a variant.
#[derive(Clone, Copy, PartialEq, Eq)]
pub struct RowsChange {
    pub supplier: Name,
    pub variant: Name,
    pub change: Change,
}

/// What changes of one supplier's rows in a variant.
#[derive(Clone, Copy, PartialEq, Eq)]
pub enum Change {
    /// The integrator grants a static slot on a channel, in all cycles, to the supplier's node.
    Grant {
        slot: Slot,
        channel: Channel,
        node: Name,
    },
    /// The integrator takes the grant of a static slot on a channel back.
    Revoke {
        slot: Slot,
        channel: Channel,
    },
    /// The supplier changes one of its frames.
    Frame {
        frame: Name,
        change: FrameChange,
    },
}

/// What a supplier changes of one of its frames.
#[derive(Clone, Copy, PartialEq, Eq)]
pub enum FrameChange {
    /// The frame is added; the node sends it.
    Add { node: Name },
    /// The frame is dropped, with its placements and signals.
    Drop,
    /// The frame is sent in the placement's cells too.
    Place(Placement),
    /// The placement is taken back.
    Unplace(Placement),
    /// The signal is added to the frame's payload.
    AddSignal(Signal),
    /// The signal of this name is dropped.
    DropSignal(Name),
}

/// A request whose own texts and numbers are in order.
#[derive(Drop)]
pub enum Checked<'a> {
    Command(Command),
    Deliver(Delivery<'a>),
    Query(Query<Name>),
}
