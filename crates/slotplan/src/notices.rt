//! What a server tells on standard error, which never holds the server up.
ghost use Rattle.std.specs.Prelude.{◌<◌, IsTrue, vec_len};

use fr_text::Output;
use libc::net::{self, POLLOUT};
use libc::types::pollfd;
use std::alloc::Global;
use std::io::{self, Stderr, Write};
use std::mem;
use std::time::{Duration, Instant};

/// Standard error's descriptor.
const ERROR: i32 = 2;

/// For how many seconds a line that comes again is only counted.
const PAUSE: u64 = 1;

/// How many different lines are counted at once.
const MOST: usize = 16;

/// A line that was told.
#[derive(Drop)]
struct Told {
    line: Vec<u8>,
    at: Instant,
    // How often it came again since.
    again: u64,
}

/// The lines of a server. One that comes again is counted, and how often it came is told a second later, before the next line. One
/// for which standard error would have to be waited for is dropped, and how many these were is told before the next line that is
/// not.
#[derive(Drop)]
pub struct Notices<'a> {
    rt: &'a HostRuntime,
    alloc: Global,
    err: Stderr,
    // What was written of a line that has not ended.
    begun: Vec<u8>,
    told: Vec<Told>,
    dropped: u64,
}

impl<'a> Notices<'a> {
    /// Nothing was told yet.
    pub fn new(rt: &'a HostRuntime) -> Notices<'a> {
        Notices {
            rt,
            alloc: rt.alloc(),
            err: rt.stderr(),
            begun: Vec::new(rt.alloc()),
            told: Vec::new(rt.alloc()),
            dropped: 0,
        }
    }

    /// Tells how often each line came again.
    pub fn end(&mut self) {
        for _ in 0..MOST {
            match self.told.pop() {
                Some(told) => self.tell_again(&told),
                None => return,
            }
        }
    }

    // Takes in a whole line: tells it, or counts it.
    fn take(&mut self, line: Vec<u8>) {
        let Ok(now) = Instant::now(self.rt) else {
            self.put(&line);
            return;
        };
        self.tell_counts(now);
        for told in self.told.iter_mut() {
            if told.line == line {
                told.again = told.again.saturating_add(1);
                return;
            }
        }
        self.put(&line);
        if self.told.len() < MOST {
            let _ = self.told.push(Told {
                line,
                at: now,
                again: 0,
            });
        }
    }

    // Tells how often those lines came again that were told a second ago or earlier.
    fn tell_counts(&mut self, now: Instant) {
        for at in (0..self.told.len()).rev() {
            if self.is_over(at, now) {
                let told = self.told.swap_remove(at);
                self.tell_again(&told);
            }
        }
    }

    // Whether there is a line at this place that was told a second ago or earlier.
    fn is_over(&self, at: usize, now: Instant) -> bool
        ensures { IsTrue result → at < vec_len self.now.told }
    {
        match self.told.get(at) {
            Some(told) => now.saturating_duration_since(told.at) >= Duration::from_secs(PAUSE),
            None => false,
        }
    }

    // Tells how often the line came again, if it did.
    fn tell_again(&mut self, told: &Told) {
        if told.again > 0 {
            let words = told.line.strip_suffix(b"\n").unwrap_or(&told.line);
            if let Ok(count) = format!(in self.alloc; " ({} more)\n", told.again) {
                let mut line = Vec::new(self.alloc);
                if line.extend_from_slice(words).is_ok()
                    && line.extend_from_slice(count.as_bytes()).is_ok()
                {
                    self.put(&line);
                }
            }
        }
    }

    // Writes the line, or drops it where that would have to wait.
    fn put(&mut self, line: &[u8]) {
        if !is_free() {
            self.dropped = self.dropped.saturating_add(1);
            return;
        }
        let dropped = mem::replace(&mut self.dropped, 0);
        if dropped > 0 {
            if let Ok(text) = format!(in self.alloc; "slotplan: lines dropped: {dropped}\n") {
                let _ = Output::new(&mut self.err).write_all(text.as_bytes());
            }
        }
        let _ = Output::new(&mut self.err).write_all(line);
    }
}

impl<'a> Write for Notices<'a> {
    fn write(&mut self, buf: &[u8]) -> io::Result<usize> {
        self.begun.extend_from_slice(buf)?;
        if buf.ends_with(b"\n") {
            let line = mem::replace(&mut self.begun, Vec::new(self.alloc));
            self.take(line);
        }
        Ok(buf.len())
    }

    fn flush(&mut self) -> io::Result<()> {
        Ok(())
    }
}

// Whether a short line can be written to standard error at once.
fn is_free() -> bool {
    let mut ends = [pollfd {
        fd: ERROR,
        events: POLLOUT,
        revents: 0,
    }];
    net::poll(&mut ends, 0) > 0
}
