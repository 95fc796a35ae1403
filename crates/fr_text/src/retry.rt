//! Calls of a reader or a writer that fail, and are made again.
ghost use Rattle.std.specs.Prelude.{◌≡◌, ◌↔◌, IfErr, IsOk};
ghost use Rattle.std.specs.IoError.{error_kind};

use std::io::{Error, ErrorKind};

/// Whether a call that failed with this error is to be made again: `Ok` where it was interrupted, else
/// this fault.
pub fn try_again<F: Copy>(error: &Error, fault: F) -> Result<(), F>
    ensures again { IsOk result ↔ (error_kind error.now ≡ ErrorKind.Interrupted) }
    ensures fault { IfErr result (λ e. e ≡ fault) }
{
    match error.kind() {
        ErrorKind::Interrupted => Ok(()),
        _ => Err(fault),
    }
}
