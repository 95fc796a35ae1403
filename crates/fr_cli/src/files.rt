//! The files at the paths that the command line names: what is read of them, and what stands in the way.
pub(crate) mod file_contents;
pub(crate) mod hindrance;
pub(crate) mod inspection;
pub(crate) mod local_files;
pub(crate) mod local_registers;
pub(crate) mod local_watch;
pub(crate) mod registers;
pub(crate) mod text_files;
pub(crate) mod watch;
