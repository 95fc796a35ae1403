//! The most that a register holds.

/// Suppliers of a cluster.
pub const MAX_SUPPLIERS: usize = 64;

/// Nodes of a supplier.
pub const MAX_NODES: usize = 64;

/// Variants of a register.
pub const MAX_VARIANTS: usize = 64;

/// The depth of a variant: 1 where it has no parent, else one more than its parent has.
pub const MAX_DEPTH: u32 = 16;

/// Frames of a supplier in a variant.
pub const MAX_FRAMES: usize = 256;

/// Placements of a frame.
pub const MAX_PLACEMENTS: usize = 8;

/// Signals of a frame.
pub const MAX_SIGNALS: usize = 64;

/// Words of two bytes in a payload.
pub const MAX_PAYLOAD_WORDS: u32 = 127;

/// Imports kept of a supplier.
pub const MAX_IMPORTS: usize = 1000;

/// Bytes of an import's file.
pub const MAX_IMPORT_BYTES: usize = 65_536;

/// Rows of an import's file.
pub const MAX_ROWS: u32 = 512;
