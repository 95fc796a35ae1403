//! An import that was carried out, as it is kept.
use fr_base::{Body, Name};

/// An import that was carried out.
#[derive(Drop)]
pub struct KeptImport {
    /// The variant that it changed.
    pub variant: Name,
    /// The bytes of its file.
    pub body: Body,
    /// How many rows they are, 0 to 512.
    pub rows: u32,
}
