//! What a new variant begins with.

/// What a new variant begins with, where a variant is named by an `N`.
#[derive(Clone, Copy, Debug, Drop, PartialEq, Eq)]
pub enum Beginning<N> {
    /// No rows, and no parent.
    Empty,
    /// All rows of a released variant, which is its parent.
    From(N),
    /// All rows of a released variant, and no parent: it is opened flat.
    Flat(N),
}
