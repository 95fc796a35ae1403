//! A query changes nothing, and is answered as the book has its variants.
ghost use Rattle.fr_base.specs.QueryLaws.{DifferenceIsOfRows, DifferenceIsTold, InventoryIsTold, LoadIsTold, QueryChangesNothing, RowsAreTold};

/// A query changes nothing, whoever asks it.
pub fn query_changes_nothing()
    ensures { QueryChangesNothing }
{}

/// Who is known, and asks what the register holds, is told it, as it sees it.
pub fn inventory_is_told()
    ensures { InventoryIsTold }
{}

/// Who is known, and asks in what two variants differ, is told their difference, or that one of them is not there.
pub fn difference_is_told()
    ensures { DifferenceIsTold }
{}

/// Who is known, and asks for the load of a variant, is told the load of the grants and the frames that it sees there, or
/// that it is not there.
pub fn load_is_told()
    ensures { LoadIsTold }
{}

/// Who is known, and asks for the rows of a variant, is told those that it sees there, or that it is not there.
pub fn rows_are_told()
    ensures { RowsAreTold }
{}

/// Who is told the rows of two variants is told in what they differ: gone are just the rows that only the older one has,
/// and new just those that only the newer one has.
pub fn difference_is_of_rows()
    ensures { DifferenceIsOfRows }
{}
