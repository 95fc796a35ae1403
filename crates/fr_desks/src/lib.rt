//! Desks at which a register is asked: of a register in memory, and of one in a file. Those who hold one need not know how
//! its rows are kept.
#![tactic(auto)]

pub mod file_desk;
mod laws;
mod memory_desk;

pub use file_desk::{FileDesk, FileFault, Left};
pub use laws::{
    crash_is_found, left_is_found, made_is_found, session_leads, sessions_are_kept,
    stopped_is_found,
};
pub use memory_desk::MemoryDesk;
