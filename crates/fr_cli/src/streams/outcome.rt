//! What an answer says of what was asked: that it is done, that rows of a file would be refused, that wishes are left without a
//! placement, or that it is refused.
ghost use Rattle.std.specs.Prelude.{◌≡◌};
ghost use Rattle.fr_cli.specs.Outcomes.{are_placed, has_refused_row, is_complete, outcome_of};

use fr_base::{Answer, FateRow, Proposal, ProposalRow, ReportRows};

/// How a job ends by its answer.
#[derive(Clone, Copy, PartialEq, Eq)]
pub enum Outcome {
    /// It is done.
    Done,
    /// It has told of the rows of a file, and some of them would be refused.
    RefusedRows,
    /// It has proposed placements for wishes, and some are left without one.
    UnplacedWishes,
    /// It is refused.
    Refused,
}

/// How a job ends that is answered so.
pub fn outcome_of(answer: &Answer) -> Outcome
    ensures { result ≡ outcome_of answer.now }
{
    match answer {
        Answer::Refused(_) | Answer::RefusedRow { .. } => Outcome::Refused,
        Answer::Report {
            rows: ReportRows::Fates(rows),
            ..
        } if has_refused_row(rows.as_slice()) => Outcome::RefusedRows,
        Answer::Report {
            rows: ReportRows::Proposal { proposal, .. },
            ..
        } if !is_complete(proposal) => Outcome::UnplacedWishes,
        _ => Outcome::Done,
    }
}

// Whether one of these rows would be refused.
fn has_refused_row(rows: &[FateRow]) -> bool
    ensures { result ≡ has_refused_row rows.now }
{
    rows.iter().any(|row| row.refusal.is_some())
}

/// Whether each wish has a placement, and so no node lacks a slot.
pub fn is_complete(proposal: &Proposal) -> bool
    ensures { result ≡ is_complete proposal.now }
{
    proposal.lacks.is_empty() && are_placed(proposal.rows.as_slice())
}

// Whether each of these wishes has a placement.
fn are_placed(rows: &[ProposalRow]) -> bool
    ensures { result ≡ are_placed rows.now }
{
    rows.iter().all(|row| row.proposed.is_ok())
}
