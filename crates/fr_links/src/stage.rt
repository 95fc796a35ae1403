//! Where a connection stands.

/// What stands behind the bytes of a request.
#[derive(Clone, Copy, Debug, PartialEq, Eq)]
pub enum Ending {
    /// Nothing that is read: the request is complete. A read fails.
    Complete,
    /// The input's end.
    Closed,
    /// A read that fails.
    Failed,
    /// A read that is interrupted, however often it is tried.
    Interrupted,
}

/// Where a connection stands.
#[derive(Clone, Copy, Debug, PartialEq, Eq)]
pub enum Stage {
    /// Its request comes in.
    Asking,
    /// Its request is complete, or no more of it comes: its input ended, or a read failed, or its time is over.
    Ready { ending: Ending },
    /// Its reply goes out. `asked` says whether its request was read to its end.
    Replying { asked: bool },
    /// Its reply went out. What still comes is read and let go, `room` bytes at most.
    Resting { asked: bool, room: usize },
}
