//! Who holds a slot.
use fr_base::Name;

/// Who holds a slot on a channel: a supplier, with one of its nodes.
#[derive(Clone, Copy, PartialEq, Eq)]
pub struct Holder {
    /// The supplier.
    pub supplier: Name,
    /// Its node.
    pub node: Name,
}
