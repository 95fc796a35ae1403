//! How a trial is answered, and what it tells of each row of a file.
ghost use Rattle.fr_base.specs.FateLaws.{EachFateIsItsRows, LinesAreInTurn, OneTooManyIsLimit, RefusedRowsLeaveNothing, TrialIsTold};

/// A trial by a supplier that is known, of a variant's name, is refused where the variant is not there or is released, or
/// the file is too long; else it tells the fates of all rows.
pub fn trial_is_told()
    ensures { TrialIsTold }
{}

/// The lines of a file are told in turn, each once, to its end or to the first behind 512 rows.
pub fn lines_are_in_turn()
    ensures { LinesAreInTurn }
{}

/// What comes after 512 rows is refused as `Limit`, whatever it holds.
pub fn one_too_many_is_limit()
    ensures { OneTooManyIsLimit }
{}

/// A row's fate is what the row does on the book that the done rows before it have left.
pub fn each_fate_is_its_rows()
    ensures { EachFateIsItsRows }
{}

/// A refused row leaves nothing. Without the refused rows the others are done, and the book after
/// them is the same.
pub fn refused_rows_leave_nothing()
    ensures { RefusedRowsLeaveNothing }
{}
