//! The signals of a frame in its payload: which may stand together, and their values packed into the
//! payload's bytes and unpacked from them.
#![tactic(auto)]

mod bits;
mod laws;
mod layout;
mod pack_fault;
mod payload;
mod signals;

pub use laws::unpack_undoes_pack;
pub use layout::Layout;
pub use pack_fault::PackFault;
