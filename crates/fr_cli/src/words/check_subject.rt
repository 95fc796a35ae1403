//! What is checked.

/// A file by its path, and what its text is to be; or a text that is no file, or a file that is no text.
#[derive(Clone, Copy, PartialEq, Eq)]
pub enum CheckSubject<'a> {
    /// A cluster file.
    Config { path: &'a str },
    /// Requests, a line each.
    Requests { path: &'a str },
    /// The rows of an import.
    Rows { path: &'a str },
    /// The path of a request over HTTP, which is no file.
    Target { path: &'a str },
    /// A register's file, which is no text: what stands in the way of using it.
    Register { path: &'a str },
}
