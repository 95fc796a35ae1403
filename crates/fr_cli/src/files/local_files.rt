//! The text files of this machine.
use crate::files::text_files::TextFiles;
use std::fs::{self, File};
use std::io::{self, ErrorKind};

/// The files of the file system. A folder or a pipe is not one of them: the end of a pipe may never come.
///
/// No contract of the standard library says what a file gives, or that it is the one at the path.
/// So at this type a clause says of a text only that a file was opened. That its bytes are those of
/// the file at the path rests on the system.
#[derive(Drop)]
pub struct LocalFiles<'a> {
    /// What the program may do on its host.
    pub rt: &'a HostRuntime,
}

impl<'a> TextFiles for LocalFiles<'a> {
    ghost use Rattle.std.specs.Prelude.{⊤};

    type Reader = File;

    ghost opens = { λ _ _ _ _. ⊤ };

    fn open(&mut self, path: &str) -> io::Result<File> {
        if !fs::metadata(self.rt, path)?.is_file() {
            return Err(io::Error::from(ErrorKind::InvalidInput));
        }
        File::open(self.rt, path)
    }
}
