//! The jobs, a file each, and what jobs alone use.
pub(crate) mod answers;
pub(crate) mod ask;
pub(crate) mod check;
pub(crate) mod close_status;
pub(crate) mod create;
pub(crate) mod deliver;
pub(crate) mod explain;
pub(crate) mod guarded;
pub(crate) mod live_desk;
pub(crate) mod picture;
pub(crate) mod print_task;
pub(crate) mod register_task;
pub(crate) mod request_stream;
pub(crate) mod script;
pub(crate) mod serve;
pub(crate) mod single_request;
