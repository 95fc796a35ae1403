//! The headers and rows of an import's file, checked by themselves.
ghost use Rattle.std.specs.Prelude.{◌≡◌};
ghost use Rattle.fr_base.specs.ImportRows.{frame_row, placement_row, signal_row};

use crate::checks::{self, read_name};
use crate::name::Name;
use crate::params::Params;
use crate::placement::Placement;
use crate::refusal::Refusal;
use crate::signal::Signal;

/// What the rows of an import's file are, as its first record says.
#[derive(Clone, Copy, Debug, Drop, PartialEq, Eq)]
pub enum Header {
    /// Frames, which need not be sent anywhere: `frame,node`.
    Frames,
    /// Frames with placements: `frame,node,slot,channels,base,repetition`.
    Placements,
    /// Signals: `frame,signal,start,length,order`.
    Signals,
}

/// A row of an import's file, with checked values.
#[derive(Clone, Copy, PartialEq, Eq)]
pub enum Row {
    /// The node's frame is added.
    AddFrame {
        frame: Name,
        node: Name,
    },
    /// The node's frame, added where it is not there yet, is sent in the placement's cells too.
    Place {
        frame: Name,
        node: Name,
        placement: Placement,
    },
    /// The signal is added to the frame's payload.
    AddSignal {
        frame: Name,
        signal: Signal,
    },
}

/// A record as a row, or why its own text refuses it.
#[derive(Clone, Copy, PartialEq, Eq)]
pub struct RowRead {
    /// The row's place among the file's records, of which the header is the first.
    pub line: u32,
    /// The row, or its first refusal.
    pub row: Result<Row, Refusal>,
}

impl Row {
    /// The row of frames with these fields, or `BadName`. What a name is read from need not be a text.
    #[tactic(auto, unfolding(crate::proofs::ImportLemmas::rows_open))]
    pub fn frame(frame: &[u8], node: &[u8]) -> Result<Row, Refusal>
        ensures { result ≡ frame_row frame.now node.now }
    {
        let (frame, node) = (read_name(frame)?, read_name(node)?);
        Ok(Row::AddFrame { frame, node })
    }

    /// The row of placements with these fields, or the first refusal that it meets by itself: `BadName`,
    /// `BadCycles`, `BadSlot`, `BadChannel`, in this order. What a name is read from need not be a text.
    #[tactic(auto, unfolding(crate::proofs::ImportLemmas::rows_open))]
    pub fn placement(
        params: &Params,
        frame: &[u8],
        node: &[u8],
        slot: u32,
        channels: &str,
        base: u32,
        repetition: u32,
    ) -> Result<Row, Refusal>
        ensures { result ≡ placement_row params.now frame.now node.now slot channels.now base
            repetition }
    {
        let (frame, node) = (read_name(frame)?, read_name(node)?);
        let placement = checks::placement(params, slot, channels.as_bytes(), base, repetition)?;
        Ok(Row::Place {
            frame,
            node,
            placement,
        })
    }

    /// The row of signals with these fields, or the first refusal that it meets by itself: `BadName`,
    /// `BadSignal`, in this order. What a name is read from need not be a text.
    #[tactic(auto, unfolding(crate::proofs::ImportLemmas::rows_open))]
    pub fn signal(
        frame: &[u8],
        signal: &[u8],
        start: u32,
        length: u32,
        order: &str,
    ) -> Result<Row, Refusal>
        ensures { result ≡ signal_row frame.now signal.now start length order.now }
    {
        let (frame, name) = (read_name(frame)?, read_name(signal)?);
        let signal = checks::signal(name, start, length, order.as_bytes())?;
        Ok(Row::AddSignal { frame, signal })
    }
}
