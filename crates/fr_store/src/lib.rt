//! A register whose rows are kept by SQL, in memory or in a file.
#![tactic(auto)]

mod apply;
pub mod applying;
pub mod creating;
mod fault;
mod files;
mod memory;
pub mod migrating;
pub mod opening;
mod page;
mod paths;
mod queries;
mod reading;
mod schemas;
mod slot_holder;
mod store;
mod store_records;

pub use fault::StoreFault;
pub use memory::MemoryFile;
pub use migrating::{migrate, migrate_at, migrate_on};
pub use slot_holder::Holder;
pub use store::Store;
