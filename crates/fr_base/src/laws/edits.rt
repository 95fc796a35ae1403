//! A difference is an edit of the rows that are seen, in their order.
ghost use Rattle.fr_base.specs.EditLaws.{DifferencesAreInOrder, NewIsOldEdited, SeenRowsAreInOrder};

/// The rows that an actor sees of the newer variant are those of the older one, without the gone
/// rows and with the new rows.
pub fn new_is_old_edited()
    ensures { NewIsOldEdited }
{}

/// The rows that an actor sees of a variant come by kind, then key. No two rows of a kind have one
/// key.
pub fn seen_rows_are_in_order()
    ensures { SeenRowsAreInOrder }
{}

/// The rows of a difference come by kind, then key. At one key what is gone comes before what is
/// new.
pub fn differences_are_in_order()
    ensures { DifferencesAreInOrder }
{}
