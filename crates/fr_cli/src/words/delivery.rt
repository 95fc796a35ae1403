//! What a supplier delivers to a register: a file of rows, as an import, in place of earlier rows, or to be tried; or of wishes.
ghost use Rattle.std.specs.Prelude.{◌≡◌, IfOk};
ghost use Rattle.fr_cli.specs.Deliveries.{request_with};

use crate::words::inquiry::Copies;
use fr_base::{Body, NoMemory, Purpose, Request, Text};
use std::alloc::Global;

/// A file that a supplier delivers, as the command line gives it.
#[derive(Clone, Copy, PartialEq, Eq)]
pub struct Delivery<'a> {
    /// The key of who delivers it, or `-`, where it is the first line of standard input.
    pub key: &'a str,
    /// The variant into which the file's rows go, or in which the wishes are to have room.
    pub variant: &'a str,
    /// What it is delivered for.
    pub how: Purpose<&'a str>,
    /// The file.
    pub file: &'a str,
}

impl Delivery<'_> {
    /// The request that delivers a file with these bytes.
    pub fn request(self, alloc: Global, body: &[u8]) -> Result<Request, NoMemory>
        ensures { IfOk result (λ request. request ≡ request_with self.entry body.now) }
    {
        Ok(Request::Deliver {
            variant: Text::copy(alloc, self.variant)?,
            how: self.how.read(&Copies { alloc })?,
            body: Body::copy(alloc, body)?,
        })
    }
}
