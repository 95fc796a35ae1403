//! Which frame is meant.

ghost use Rattle.std.specs.Prelude.{◌≡◌};
ghost use Rattle.fr_tables.specs.Rows.{key_of};

use fr_base::Name;

/// A frame of a supplier in a variant.
#[derive(Clone, Copy)]
pub struct FrameKey {
    pub variant: Name,
    pub supplier: Name,
    pub frame: Name,
}

impl FrameKey {
    /// The supplier's frame of this name in the variant.
    pub fn new(variant: Name, supplier: Name, frame: Name) -> FrameKey
        ensures { result ≡ key_of variant supplier frame }
    {
        FrameKey {
            variant,
            supplier,
            frame,
        }
    }
}
