//! Commands carried out, by what they change.
pub(crate) mod common;
pub(crate) mod nodes;
pub(crate) mod rows;
pub(crate) mod suppliers;
