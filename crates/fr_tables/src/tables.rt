//! The statements on each table. Each is one fixed text with parameters, and its contract says what
//! it makes of the tables' rows.

pub mod cluster;
pub mod cluster2;
pub mod dropped;
pub mod frames;
pub mod grants;
pub mod imports;
pub mod nodes;
pub mod placements;
pub mod register;
pub mod signals;
pub mod suppliers;
pub mod variants;
