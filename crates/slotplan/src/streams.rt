//! What stands in the place of standard streams that were closed when the program was started.

use std::fs::{File, OpenOptions};
use std::os::fd::AsRawFd;

/// Standard input's descriptor, and the last one of a standard stream, which is standard error's.
const INPUT: i32 = 0;

const LAST: i32 = 2;

/// Files that hold the descriptors of the standard streams that are closed. Else the next file or connection that is opened
/// would get one of them, and what is meant for standard error would go there. A stream that was closed stays so to the
/// program: what stands in for it cannot be read, or not be written.
#[derive(Drop)]
pub struct StandIns {
    input: Option<File>,
    outputs: [Option<File>; 2],
}

impl StandIns {
    /// Those that are needed now. A file gets the least descriptor that is free, so standard input's comes first.
    pub fn new(rt: &HostRuntime) -> StandIns {
        StandIns {
            input: up_to(rt, INPUT, OpenOptions::new().write(true)),
            outputs: [
                up_to(rt, LAST, OpenOptions::new().read(true)),
                up_to(rt, LAST, OpenOptions::new().read(true)),
            ],
        }
    }
}

// The null device, if its descriptor is this one or a lesser one.
fn up_to(rt: &HostRuntime, last: i32, options: &OpenOptions) -> Option<File> {
    let null = options.open(rt, "/dev/null").ok()?;
    if null.as_raw_fd() <= last {
        Some(null)
    } else {
        None
    }
}
