//! The office of a register: it answers requests one after another, each of the integrator or of a supplier, from the
//! records of the register. Each supplier is answered as if it were alone.
#![tactic(auto)]

mod commands;
mod deliveries;
mod dispatch;
mod import_counts;
mod kept;
mod laws;
mod lender;
mod listing;
mod office;
mod page_bytes;
mod pages;
mod queries;
mod running;
mod shelf;
mod warm;

pub use dispatch::{answer, decline};
pub use laws::answers_are_kept;
pub use lender::Lender;
pub use listing::list_variants;
pub use office::Office;
pub use page_bytes::MAX_BYTES;
pub use running::{Stopped, run};
pub use warm::Warm;
