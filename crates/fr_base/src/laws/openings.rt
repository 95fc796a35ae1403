//! What a variant is that was just opened from another one.
ghost use Rattle.fr_base.specs.OpenedLaws.{FlatIsFirst, OpenedIsAlike};

/// A variant that was just opened from another one, flat or not, has its grants and frames. So all
/// that is told of these is alike, and nothing differs.
pub fn opened_is_alike()
    ensures { OpenedIsAlike }
{}

/// A variant that was just opened flat has no parent, and depth 1.
pub fn flat_is_first()
    ensures { FlatIsFirst }
{}
