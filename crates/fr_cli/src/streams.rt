//! What is read and written: standard input and output, and the connections of a server.
pub(crate) mod answer_line;
pub(crate) mod input;
pub(crate) mod listener;
pub(crate) mod local_listener;
pub(crate) mod numbered_lines;
pub(crate) mod outcome;
pub(crate) mod printing;
