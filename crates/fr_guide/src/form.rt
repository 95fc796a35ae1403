//! The forms of a request's texts.

/// The form that a text must have.
#[derive(Clone, Copy, PartialEq, Eq)]
pub enum Form {
    /// The form of a name.
    Name,
    /// The form of a key.
    Key,
}
