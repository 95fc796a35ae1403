//! The tables of a register: their rows, and the statements on them, over any connection.
#![tactic(auto)]

pub mod cluster;
pub mod filling;
pub mod frame_key;
pub mod making;
pub mod schema;
pub mod schema_number;
pub mod tables;
pub mod values;
