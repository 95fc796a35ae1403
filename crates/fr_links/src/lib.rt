//! Many connections side by side: what comes in on each is gathered until its request is complete, and what goes out is sent
//! as its client takes it. So a client that is silent, or slow, holds no other up.
#![tactic(auto)]

mod ends;
mod heard;
mod held;
mod inbox;
mod judge;
mod link;
mod links;
mod outbox;
mod port;
mod stage;
mod table;
mod wire;

pub use ends::{Given, Reply};
pub use heard::{Heard, Sent};
pub use held::Held;
pub use inbox::{Inbox, MAX_HEAD, MAX_READS};
pub use judge::{Judge, Judgement, MAX_REQUEST};
pub use link::Link;
pub use links::Links;
pub use outbox::{INTERIM, Outbox};
pub use port::Port;
pub use stage::{Ending, Stage};
pub use table::{MAX_KEPT, MAX_LINKS, Table};
pub use wire::Wire;
