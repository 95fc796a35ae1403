//! The changes of which the register's rows are made.
use fr_base::{Body, Key, Name, RowsChange};

/// A change of the register's rows, with their keys and, where it adds a row, all of it.
#[derive(Drop, PartialEq, Eq)]
pub enum Edit {
    /// A variant, empty or with all rows of its parent. Without a parent it has depth 1, else one
    /// more than its parent.
    NewVariant {
        variant: Name,
        parent: Option<Name>,
        depth: u32,
    },
    /// A variant with all rows of another one, without a parent, of depth 1.
    NewFlat {
        variant: Name,
        from: Name,
    },
    /// The variant is released.
    SetReleased {
        variant: Name,
    },
    /// A supplier, with the key by which it is known.
    NewSupplier {
        supplier: Name,
        key: Key,
    },
    /// Another key of the supplier, by which it is known from then on.
    SetKey {
        supplier: Name,
        key: Key,
    },
    /// A node of the supplier.
    NewNode {
        supplier: Name,
        node: Name,
    },
    /// What changes of the supplier's rows in the variant.
    Rows(RowsChange),
    /// A supplier's import, with the number of its rows.
    KeepImport {
        supplier: Name,
        label: Name,
        variant: Name,
        body: Body,
        rows: u32,
    },
}
