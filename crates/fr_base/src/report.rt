//! The reports of a variant, and how the names and numbers in them are read.
ghost use Rattle.fr_base.specs.QueryNames.{IsReportRead};

use crate::import::Header;
use crate::query::QueryReader;

/// What a query asks of a variant, where frames are named by an `F` and numbers are told by an `M`.
#[derive(Clone, Copy, Debug, Drop, PartialEq, Eq)]
pub enum Report<F, M = u32> {
    /// Which node holds which slot and channel.
    Grants,
    /// The frames, with their nodes and placements.
    Frames,
    /// Which frame is sent in which cycle, slot and channel.
    Schedule,
    /// The greatest gap of each frame.
    Gaps,
    /// The signals of a frame.
    Layout { frame: F },
    /// How full each slot and channel is.
    Load,
    /// Its grants, frames, placements, signals and greatest gaps.
    Rows,
    /// Where a supplier's frame may still be placed with this cycle repetition.
    Room { frame: F, repetition: M },
    /// A part of the records below this header, as the file of an import has them. The first part is part 0.
    Export { header: Header, part: M },
}

impl<N, M> Report<N, M> {
    /// The same report, with the names and numbers that the reader makes of its own.
    #[tactic(auto, unfolding(crate::specs::QueryNames::IsReportRead))]
    pub(crate) fn read<A: Drop, E: Drop, R: QueryReader<N, M, A, E>>(
        &self,
        reader: &R,
    ) -> Result<Report<A>, E>
        ensures { IsReportRead (R.reads reader.now) (R.counts reader.now) self.now result }
    {
        match self {
            Report::Grants => Ok(Report::Grants),
            Report::Frames => Ok(Report::Frames),
            Report::Schedule => Ok(Report::Schedule),
            Report::Gaps => Ok(Report::Gaps),
            Report::Layout { frame } => {
                let frame = reader.read_name(frame)?;
                Ok(Report::Layout { frame })
            }
            Report::Load => Ok(Report::Load),
            Report::Rows => Ok(Report::Rows),
            Report::Room { frame, repetition } => {
                let frame = reader.read_name(frame)?;
                let repetition = reader.read_number(repetition)?;
                Ok(Report::Room { frame, repetition })
            }
            Report::Export { header, part } => {
                let part = reader.read_number(part)?;
                Ok(Report::Export {
                    header: *header,
                    part,
                })
            }
        }
    }
}
