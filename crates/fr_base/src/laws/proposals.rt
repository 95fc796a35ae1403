//! What holds of the placements that are proposed for wishes.
ghost use Rattle.fr_base.specs.ProposalLaws.{AllAreGivenWhereAllFit, NoRoomIsCertain, NothingMovesThatNeedNot, ProposalIsImported, ProposalIsTold, RowsAreTheirWishes};

/// Without `replace`, of a node whose wishes have repetitions of which one divides the other: a wish has no room exactly where
/// it does not fit together with those before it in turn on its channels that have a placement, beside what is there and
/// what those on other channels took.
pub fn no_room_is_certain()
    ensures { NoRoomIsCertain }
{}

/// Without `replace`, of a node whose wishes are all for the same channels and have repetitions of which one divides the
/// other: each has a placement exactly where they all fit beside what is there. So where nothing is proposed for a wish,
/// no planner finds a way for all of them that leaves what is there where it is.
pub fn all_are_given_where_all_fit()
    ensures { AllAreGivenWhereAllFit }
{}

/// The rows of a proposal without `replace` are in the order of the wishes, and each record has its wish's frame, node, channels and repetition.
pub fn rows_are_their_wishes()
    ensures { RowsAreTheirWishes }
{}

/// In a sound book the records of a proposal without `replace`, sent as a file under a label that is free, are imported, all
/// of them.
pub fn proposal_is_imported()
    ensures { ProposalIsImported }
{}

/// Under `replace`, of a node of which the wishes that keep nothing are for the same channels and have repetitions of which
/// one divides the other: where these fit beside all that is kept, each wish that keeps a placement has it in the proposal.
pub fn nothing_moves_that_need_not()
    ensures { NothingMovesThatNeedNot }
{}

/// A proposal for a supplier that is known, of a variant's name, is refused where the variant is not there or is released, or
/// the file is too long; else it is told by the supplier's own rows. The book stays.
pub fn proposal_is_told()
    ensures { ProposalIsTold }
{}
