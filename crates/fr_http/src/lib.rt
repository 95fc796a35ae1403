//! One connection of a register: the head and the body of an HTTP request are read, the register is
//! asked, and its answer is written as the reply.
#![tactic(auto)]

mod body;
mod conditions;
mod engine;
mod exchange;
mod exchange_reply;
mod fault;
mod head;
mod input;
mod laws;
mod method;
mod need;
mod page_reply;
mod page_tags;
mod path_name;
mod plan;
mod receive;
mod reply;
mod routes;
mod serve;
mod source;

pub use engine::Engine;
pub use fault::{LinkFault, Rejection};
pub use head::{MAX_FIELDS, MAX_HEAD};
pub use input::MAX_READS;
pub use laws::{
    exchange_is_one, exchanges_are_alone, exchanges_are_sound_throughout, outcome_is_one,
    unasked_is_alike,
};
pub use method::{Allowed, Method};
pub use need::Need;
pub use plan::MAX_BODY;
pub use serve::{Served, serve_one};
pub use source::Source;
