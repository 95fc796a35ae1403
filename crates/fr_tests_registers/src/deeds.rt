//! What is done to a register in files that fail from some call on, and what is seen in them afterwards.
use crate::fused::{Calls, Fused, Fusible, Image, connected, opened, passes};
use crate::looking::seen;
use sqlite::{Connection, FileStore, Files};
use sqlite_disk::Crash;
use std::alloc::Global;
use std::test::Fail;

/// What is found where something is done in steps.
#[derive(Drop)]
pub(crate) struct Course {
    /// The files before.
    pub(crate) start: Image,
    /// What is seen before, and after each step.
    pub(crate) states: Vec<Vec<u8>>,
}

impl Course {
    // How many steps there are. It is an error where one of them shows nothing.
    fn steps(&self) -> Result<usize, Fail> {
        let (_, after) = self.states.split_first().ok_or("no state")?;
        let mut steps = self.states.iter().zip(after);
        if steps.any(|(before, after)| before.as_slice() == after.as_slice()) {
            return Err(Fail::from("a step that shows nothing"));
        }
        Ok(after.len())
    }

    fn is_at(&self, at: usize, text: &[u8]) -> bool {
        match self.states.get(at) {
            Some(state) => state.as_slice() == text,
            None => false,
        }
    }
}

/// What is done to a register, in steps of which each is done whole or not at all.
pub(crate) trait Deed {
    fn course(&self) -> &Course;

    /// Does the steps up to the first that is stopped.
    fn done(&self, alloc: Global, conn: Connection<FileStore<Fused>>) -> Result<Left, Fail>;
}

/// What is left of a deed.
#[derive(Drop)]
pub(crate) struct Left {
    pub(crate) files: Files<Fused>,
    /// How many steps were done.
    pub(crate) done: usize,
    /// Whether the step after these was stopped.
    pub(crate) is_stopped: bool,
}

impl Left {
    // Whether it leaves this, which the course has after the steps that were done, or after the one that was stopped too.
    fn may_be(&self, course: &Course, text: &[u8]) -> bool {
        course.is_at(self.done, text)
            || self.is_stopped && course.is_at(self.done.saturating_add(1), text)
    }

    // Whether no call was stopped, neither of these files up to now.
    fn is_whole(&mut self) -> bool {
        passes(&mut self.files.log) && passes(&mut self.files.db)
    }
}

fn done<D: Deed>(alloc: Global, deed: &D, calls: Calls, checkpoint: usize) -> Result<Left, Fail> {
    match connected(alloc, &deed.course().start, calls, checkpoint)? {
        Ok(conn) => deed.done(alloc, conn),
        Err(files) => Ok(Left {
            files,
            done: 0,
            is_stopped: false,
        }),
    }
}

/// The files that were looked at last, and what was seen.
#[derive(Drop)]
struct Looked {
    image: Image,
    text: Vec<u8>,
}

impl Looked {
    fn new(alloc: Global, image: Image) -> Result<Looked, Fail> {
        let text = seen(alloc, opened(alloc, &image)?)?;
        Ok(Looked { image, text })
    }

    // Looks at what is left, unless the files are as they were. It is an error where neither state of the deed is seen.
    fn look<D: Deed>(&mut self, alloc: Global, deed: &D, left: &Left) -> Result<(), Fail> {
        if !self.image.is_of(&left.files) {
            *self = Looked::new(alloc, Image::of(alloc, &left.files)?)?;
        }
        if !left.may_be(deed.course(), self.text.as_slice()) {
            return Err(Fail::from("another state"));
        }
        Ok(())
    }
}

/// What a process that ends leaves, and what a machine that stops.
#[derive(Drop)]
struct Remains {
    ended: Looked,
    crashed: Looked,
}

impl Remains {
    fn new(alloc: Global) -> Result<Remains, Fail> {
        Ok(Remains {
            ended: Looked::new(alloc, Image::empty(alloc))?,
            crashed: Looked::new(alloc, Image::empty(alloc))?,
        })
    }

    // Looks at what is left of a deed, and then at what a crash leaves of that.
    fn look<D: Deed>(&mut self, alloc: Global, deed: &D, mut left: Left) -> Result<(), Fail> {
        self.ended.look(alloc, deed, &left)?;
        left.files.log.crash();
        left.files.db.crash();
        self.crashed.look(alloc, deed, &left)
    }
}

/// More calls than any deed here makes.
const MANY: u64 = 1_000_000;

/// Stops a file at each of its calls in turn, until a deed meets no stop: how often each step was stopped. What is left is as
/// after the steps that were done, or after the one that was stopped too, and no step is left undone without a stop; else it
/// is an error.
pub(crate) fn stops<D: Deed>(
    alloc: Global,
    deed: &D,
    fusible: Fusible,
    checkpoint: usize,
) -> Result<Vec<u64>, Fail> {
    let mut stopped = vec![in alloc; 0u64; deed.course().steps()?]?;
    let mut remains = Remains::new(alloc)?;
    for calls in 0..MANY {
        let mut left = done(alloc, deed, fusible.after(calls), checkpoint)?;
        let (is_whole, is_last) = (left.is_whole(), left.done == stopped.len());
        if let (true, Some(count)) = (left.is_stopped, stopped.get_mut(left.done)) {
            *count = count.saturating_add(1);
        }
        remains.look(alloc, deed, left)?;
        if is_whole && is_last {
            return Ok(stopped);
        }
        if is_whole {
            return Err(Fail::from("undone without a stop"));
        }
    }
    Err(Fail::from("no end of stops"))
}
