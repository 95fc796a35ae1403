//! Wishes of a supplier's file, checked by themselves.
ghost use Rattle.std.specs.Prelude.{◌≡◌};
ghost use Rattle.fr_base.specs.Wishes.{wish};

use crate::channel::Channels;
use crate::checks::{self, read_name};
use crate::name::Name;
use crate::params::Params;
use crate::refusal::Refusal;

/// A wish: the frame, which the node sends, is to have one more placement with these channels and this
/// repetition.
#[derive(Clone, Copy, PartialEq, Eq)]
pub struct Wish {
    pub frame: Name,
    pub node: Name,
    pub channels: Channels,
    /// It divides the count of cycles.
    pub repetition: u8,
}

/// A record of a file of wishes as a wish, or why its own text refuses it.
#[derive(Clone, Copy, PartialEq, Eq)]
pub struct WishRead {
    /// The wish's place among the file's records, of which the header is the first.
    pub line: u32,
    /// The wish, or its first refusal.
    pub wish: Result<Wish, Refusal>,
}

/// A wish that is not refused, and its line.
#[derive(Clone, Copy, PartialEq, Eq)]
pub struct Asked {
    pub line: u32,
    pub wish: Wish,
}

impl Wish {
    /// The wish with these fields, or the first refusal that it meets by itself: `BadName`, `BadCycles`,
    /// `BadChannel`, in this order. What a name is read from need not be a text.
    #[tactic(auto, unfolding(crate::proofs::ImportLemmas::rows_open))]
    pub fn read(
        params: &Params,
        frame: &[u8],
        node: &[u8],
        channels: &str,
        repetition: u32,
    ) -> Result<Wish, Refusal>
        ensures { result ≡ wish params.now frame.now node.now channels.now repetition }
    {
        let (frame, node) = (read_name(frame)?, read_name(node)?);
        if !checks::is_repetition(params.cycles(), repetition) {
            return Err(Refusal::BadCycles);
        }
        let channels = checks::channels(params, channels.as_bytes())?;
        Ok(Wish {
            frame,
            node,
            channels,
            // It divides the count of cycles, which is at most 64.
            repetition: repetition as u8,
        })
    }
}
