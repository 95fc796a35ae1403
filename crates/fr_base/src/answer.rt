//! What a request is answered, and the rows of each report.
ghost use Rattle.std.specs.Prelude.{◌≡◌};
ghost use Rattle.fr_base.specs.Queries.{key_of_figure, name_of_rows, rows_in};

use crate::channel::{Channel, Channels};
use crate::forms;
use crate::name::Name;
use crate::placement::Placement;
use crate::proposal::Proposal;
use crate::refusal::Refusal;
use crate::rows::Rows;
use crate::signal::Signal;
use crate::slot::Slot;

/// What a request is answered.
pub enum Answer {
    /// The command was carried out.
    Done,
    /// All rows of the import's file were carried out, and the import is kept. `rows` counts them.
    Imported { rows: u32 },
    /// All rows of a replacement's file were carried out. They stand in place of what the frames
    /// that the file names had before. `rows` counts them.
    Replaced { rows: u32 },
    /// What a query asked for. `all` is true where the integrator asked, who sees the rows of all suppliers.
    Report { all: bool, rows: ReportRows },
    /// Nothing was changed.
    Refused(Refusal),
    /// Nothing was changed: the file of an import or a replacement has a refused row, the first one at this line. The
    /// line counts the file's records, of which the header is the first.
    RefusedRow { line: u32, refusal: Refusal },
}

/// The rows of a report.
#[derive(Drop)]
pub enum ReportRows {
    /// The figures of the cluster, in the order of a cluster file, and then the suppliers, by name.
    Cluster(Rows<ClusterRow>),
    /// The variants, by name.
    Variants(Rows<VariantRow>),
    /// The nodes, by supplier and name.
    Nodes(Rows<NodeRow>),
    /// Who holds which slot and channel, by slot and channel.
    Grants(Rows<GrantRow>),
    /// The frames, by supplier and name.
    Frames(Rows<FrameRow>),
    /// The frames that are sent, by cycle, slot and channel.
    Schedule(Rows<Sending>),
    /// The frames' greatest gaps, by supplier and name.
    Gaps(Rows<GapRow>),
    /// A frame's signals, by supplier and start.
    Layout(Rows<SignalRow>),
    /// How full each slot and channel is, by slot and channel.
    Load(Rows<LoadRow>),
    /// A variant's grants, frames, placements, signals and greatest gaps: by what they are, then by their keys.
    Seen(Rows<SeenRow>),
    /// Where a frame may still be placed, by slot, channels and base.
    Room(Rows<Placement>),
    /// A part of the frames as records of a file, by supplier and frame.
    FrameRecords(Rows<FrameRecord>),
    /// A part of their placements, by supplier, frame and placement.
    PlacementRecords(Rows<PlacementRecord>),
    /// A part of their signals, by supplier, frame and start.
    SignalRecords(Rows<SignalRecord>),
    /// What differs between two variants, by what the rows are and their keys; what is gone comes before what is new.
    Difference(Rows<DifferenceRow>),
    /// What would become of each row of a file, by its line.
    Fates(Rows<FateRow>),
    /// What is proposed for a file of wishes, and whether it is to replace what the frames have that they name.
    Proposal { replaces: bool, proposal: Proposal },
}

// It is written out, so that a caller does not prove again how each kind of answer is dropped.
impl Drop for Answer {
    fn drop(self) {
        match self {
            Answer::Done => {}
            Answer::Imported { rows: _ } => {}
            Answer::Replaced { rows: _ } => {}
            Answer::Report { all: _, rows: _ } => {}
            Answer::Refused(_) => {}
            Answer::RefusedRow {
                line: _,
                refusal: _,
            } => {}
        }
    }
}

impl Answer {
    /// The rows of a report, or the refusal. Any other answer has no rows and gives `Unavailable`.
    pub fn into_rows(self) -> Result<ReportRows, Refusal>
        ensures { result ≡ rows_in self }
    {
        match self {
            Answer::Report { all: _, rows } => Ok(rows),
            Answer::Refused(refusal) => Err(refusal),
            Answer::Done | Answer::Imported { rows: _ } | Answer::Replaced { rows: _ } => {
                Err(Refusal::Unavailable)
            }
            Answer::RefusedRow {
                line: _,
                refusal: _,
            } => Err(Refusal::Unavailable),
        }
    }
}

impl ReportRows {
    /// The report's name, by which it is asked for.
    pub fn name(&self) -> &'static str
        ensures { result.now ≡ name_of_rows self.now }
    {
        match self {
            ReportRows::Cluster(_) => forms::CLUSTER,
            ReportRows::Variants(_) => forms::VARIANTS,
            ReportRows::Nodes(_) => forms::NODES,
            ReportRows::Grants(_) => forms::GRANTS,
            ReportRows::Frames(_) => forms::FRAMES,
            ReportRows::Schedule(_) => forms::SCHEDULE,
            ReportRows::Gaps(_) => forms::GAPS,
            ReportRows::Layout(_) => forms::LAYOUT,
            ReportRows::Load(_) => forms::LOAD,
            ReportRows::Seen(_) => forms::ROWS,
            ReportRows::Room(_) => forms::ROOM,
            ReportRows::FrameRecords(_) => forms::EXPORT_FRAMES,
            ReportRows::PlacementRecords(_) => forms::EXPORT_PLACEMENTS,
            ReportRows::SignalRecords(_) => forms::EXPORT_SIGNALS,
            ReportRows::Difference(_) => forms::DIFF,
            ReportRows::Fates(_) => forms::TRY,
            ReportRows::Proposal { .. } => forms::PROPOSE,
        }
    }
}

/// A row of the report of the cluster.
#[derive(Clone, Copy, PartialEq, Eq)]
pub enum ClusterRow {
    /// The channels that the cluster has.
    Channels(Channels),
    /// A number of the cluster file, and what it is.
    Number { figure: Figure, value: u32 },
    /// One of the suppliers.
    Supplier(Name),
}

/// What a number of the cluster file is.
#[derive(Clone, Copy, PartialEq, Eq)]
pub enum Figure {
    /// How many static slots a cycle has.
    StaticSlots,
    /// The length of a static slot, in macroticks.
    SlotMacroticks,
    /// All between the static segment and the symbol window, in macroticks.
    DynamicMacroticks,
    /// The length of the symbol window, in macroticks.
    SymbolMacroticks,
    /// The length of the network idle time, in macroticks.
    IdleMacroticks,
    /// The length of a cycle, in macroticks.
    MacroticksPerCycle,
    /// The payload length of each static frame, in words of two bytes.
    PayloadWords,
    /// How many cycles there are before the cycle counter starts again.
    Cycles,
}

impl Figure {
    /// The figure's key in a cluster file.
    pub fn key(self) -> &'static str
        ensures { result.now ≡ key_of_figure self }
    {
        match self {
            Figure::StaticSlots => "static_slots",
            Figure::SlotMacroticks => "slot_macroticks",
            Figure::DynamicMacroticks => "dynamic_macroticks",
            Figure::SymbolMacroticks => "symbol_macroticks",
            Figure::IdleMacroticks => "idle_macroticks",
            Figure::MacroticksPerCycle => "macroticks_per_cycle",
            Figure::PayloadWords => "payload_words",
            Figure::Cycles => "cycles",
        }
    }
}

/// A variant of the register, without the rows in it.
#[derive(Clone, Copy, PartialEq, Eq)]
pub struct VariantRow {
    /// Its name.
    pub variant: Name,
    /// Its parent; none where it was opened empty or flat.
    pub parent: Option<Name>,
    /// 1 to 16: 1 without a parent, or one more than the parent's.
    pub depth: u32,
    /// Whether it is released.
    pub released: bool,
}

/// A node of a supplier.
#[derive(Clone, Copy, PartialEq, Eq)]
pub struct NodeRow {
    pub node: Name,
    pub supplier: Name,
}

/// A node holds this slot and channel, in all cycles.
#[derive(Clone, Copy, PartialEq, Eq)]
pub struct GrantRow {
    pub slot: Slot,
    pub channel: Channel,
    pub node: Name,
    pub supplier: Name,
}

/// How full a lane is: a slot on a channel.
#[derive(Clone, Copy, PartialEq, Eq)]
pub struct LoadRow {
    pub slot: Slot,
    pub channel: Channel,
    /// In how many cycles a frame is sent there, 0 to 64.
    pub used: u32,
    /// How many cycles there are, 8 to 64.
    pub cycles: u32,
    /// Who holds the lane; none where it is not granted.
    pub holder: Option<LaneHolder>,
}

/// Who holds a slot on a channel: a node of a supplier.
#[derive(Clone, Copy, PartialEq, Eq)]
pub struct LaneHolder {
    pub node: Name,
    pub supplier: Name,
}

/// A frame, the node that sends it, and its placements by slot, channels, base and repetition.
#[derive(Drop)]
pub struct FrameRow {
    pub frame: Name,
    pub node: Name,
    pub supplier: Name,
    pub placements: Rows<Placement>,
}

/// One cell of the schedule: a frame is sent in this cycle, slot and channel.
#[derive(Clone, Copy, PartialEq, Eq)]
pub struct Sending {
    /// The communication cycle, 0 to 63.
    pub cycle: u8,
    pub slot: Slot,
    pub channel: Channel,
    pub frame: Name,
    /// The node that sends it.
    pub node: Name,
    pub supplier: Name,
}

/// A frame's greatest gap: the most macroticks from the start of one of its slots to the next, round
/// the ring of all cycles. A frame without a placement has none.
#[derive(Clone, Copy, PartialEq, Eq)]
pub struct GapRow {
    pub frame: Name,
    pub supplier: Name,
    pub gap: Option<u32>,
}

/// A signal of a supplier's frame.
#[derive(Clone, Copy, PartialEq, Eq)]
pub struct SignalRow {
    pub supplier: Name,
    pub signal: Signal,
}

/// A frame as a record of a file.
#[derive(Clone, Copy, PartialEq, Eq)]
pub struct FrameRecord {
    pub frame: Name,
    /// The node that sends it.
    pub node: Name,
    pub supplier: Name,
}

/// A placement as a record of a file.
#[derive(Clone, Copy, PartialEq, Eq)]
pub struct PlacementRecord {
    pub frame: Name,
    /// The node that sends the frame.
    pub node: Name,
    pub placement: Placement,
    pub supplier: Name,
}

/// A signal as a record of a file.
#[derive(Clone, Copy, PartialEq, Eq)]
pub struct SignalRecord {
    pub frame: Name,
    pub signal: Signal,
    pub supplier: Name,
}

/// A row in which two variants differ.
#[derive(Clone, Copy, PartialEq, Eq)]
pub struct DifferenceRow {
    /// True where only the newer variant has the row, false where only the older one has it.
    pub is_new: bool,
    pub row: SeenRow,
}

/// A row of a variant.
#[derive(Clone, Copy, PartialEq, Eq)]
pub enum SeenRow {
    /// A node holds a slot and channel.
    Grant(GrantRow),
    /// A frame, with the node that sends it.
    Frame(FrameRecord),
    /// A placement of a frame.
    Placement {
        frame: Name,
        placement: Placement,
        supplier: Name,
    },
    /// A signal of a frame.
    Signal(SignalRecord),
    /// The greatest gap of a frame.
    Gap(GapRow),
}

/// What would become of a row of a file.
#[derive(Clone, Copy, PartialEq, Eq)]
pub struct FateRow {
    /// The row's place among the file's records, of which the header is the first.
    pub line: u32,
    /// What refuses it; none where it would be done.
    pub refusal: Option<Refusal>,
}
