//! The files of the command line that are texts: cluster files, requests, and rows.
use std::io::{self, Read};

/// Each file stands at a path, and a reader gives its bytes.
/// What a job is proved to do with a text, it is proved to do with all such files, whatever they hold.
pub trait TextFiles {
    ghost use Rattle.std.specs.Prelude.{◌≡◌, ℕ, List, IfOk, OnErr};

    /// Gives the bytes of a file.
    type Reader: Read + Drop;

    /// What opening the file at a path may come to: its reader, and the files after it.
    ghost opens: { Self → List ℕ → Self.Reader → Self → Type 0 };

    /// Opens the file at the path.
    fn open(&mut self, path: &str) -> io::Result<Self::Reader>
        ensures ok { IfOk result (λ reader. opens self.old path.now reader self.new) }
        ensures err { OnErr result (self.new ≡ self.old) };
}
