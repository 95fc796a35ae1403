//! Runs of a script from readers and to writers that are interrupted or fail. A contract says which of their errors may be
//! tried again, and none that a run tries them so, and how often.
use fr_cli::{ScriptFault, run_script};
use std::alloc::Global;
use std::io;
use std::io::{ErrorKind, Read, Write};

const SCRIPT: &[u8] = br#"channels = "AB"
static_slots = 2
slot_macroticks = 1
dynamic_macroticks = 0
symbol_macroticks = 0
idle_macroticks = 1
macroticks_per_cycle = 3
payload_words = 1
integrator = "integrator1"
[suppliers]
s1 = "supplier01"
---
integrator1 {"do":"open_variant","variant":"v1"}
integrator1 {"do":"add_node","supplier":"s1","node":"n1"}
supplier01 {"do":"add_frame","variant":"v1","frame":"f1","node":"n1"}
supplier01 {"do":"frames","variant":"v1"}
"#;

const ANSWERS: &[u8] = br#"{"ok":"done"}
{"ok":"done"}
{"ok":"done"}
{"lines":["FRAME f1 n1"],"ok":"frames"}
"#;

/// The most bytes of one read or write.
const PIECE: usize = 7;

/// Kinds of errors after which nothing is tried again.
const FAILURES: [ErrorKind; 9] = [
    ErrorKind::BrokenPipe,
    ErrorKind::ConnectionReset,
    ErrorKind::IsADirectory,
    ErrorKind::Other,
    ErrorKind::PermissionDenied,
    ErrorKind::StorageFull,
    ErrorKind::TimedOut,
    ErrorKind::UnexpectedEof,
    ErrorKind::WouldBlock,
];

/// A reader of the script that has an error, once, before its last bytes.
#[derive(Drop)]
struct Source {
    rest: &'static [u8],
    error: Option<ErrorKind>,
}

impl Source {
    fn new(error: Option<ErrorKind>) -> Source {
        Source {
            rest: SCRIPT,
            error,
        }
    }
}

impl Read for Source {
    fn read(&mut self, buf: &mut [u8]) -> io::Result<usize> {
        if self.rest.len() < PIECE {
            if let Some(kind) = self.error.take() {
                return Err(io::Error::from(kind));
            }
        }
        let n = self.rest.len().min(buf.len()).min(PIECE);
        let (given, rest) = self.rest.split_at(n);
        buf[..n].copy_from_slice(given);
        self.rest = rest;
        Ok(n)
    }
}

/// A reader of line feeds, one a read, that is interrupted at every other read until its end.
#[derive(Drop)]
struct Feeds {
    reads: u32,
    end: u32,
}

impl Read for Feeds {
    fn read(&mut self, buf: &mut [u8]) -> io::Result<usize> {
        self.reads = self.reads.saturating_add(1);
        if self.reads >= self.end || buf.is_empty() {
            return Ok(0);
        }
        if self.reads % 2 == 0 {
            return Err(io::Error::from(ErrorKind::Interrupted));
        }
        buf[0] = b'\n';
        Ok(1)
    }
}

/// A writer that keeps what it took.
#[derive(Drop)]
struct Sink {
    taken: Vec<u8>,
    /// How many writes are interrupted before each line, and how many more before this one.
    interruptions: u32,
    waits: u32,
    /// The error that it has, once, before its last bytes; as `WriteZero`, that it takes nothing.
    error: Option<ErrorKind>,
    /// What a flush answers.
    flush_error: Option<ErrorKind>,
}

impl Sink {
    fn new(alloc: Global) -> Sink {
        Sink {
            taken: Vec::new(alloc),
            interruptions: 0,
            waits: 0,
            error: None,
            flush_error: None,
        }
    }
}

impl Write for Sink {
    fn write(&mut self, buf: &[u8]) -> io::Result<usize> {
        if self.waits > 0 {
            self.waits -= 1;
            return Err(io::Error::from(ErrorKind::Interrupted));
        }
        if buf.len() < PIECE {
            match self.error.take() {
                Some(ErrorKind::WriteZero) => return Ok(0),
                Some(kind) => return Err(io::Error::from(kind)),
                None => {}
            }
        }
        let piece = &buf[..buf.len().min(PIECE)];
        self.taken.extend_from_slice(piece)?;
        if piece.ends_with(b"\n") {
            self.waits = self.interruptions;
        }
        Ok(piece.len())
    }

    fn flush(&mut self) -> io::Result<()> {
        match self.flush_error {
            Some(kind) => Err(io::Error::from(kind)),
            None => Ok(()),
        }
    }
}

#[test]
fn office_succeeds_where_memory_is_ample(rt: HostRuntime) {
    let mut writer = Sink::new(rt.alloc());
    let done = run_script(rt.alloc(), &mut Source::new(None), &mut writer, false);
    assert_eq!(rt; done, Ok(()));
    assert_eq!(rt; writer.taken.as_slice(), ANSWERS);
}

#[test]
fn only_an_interrupted_read_is_tried_again(rt: HostRuntime) {
    let mut writer = Sink::new(rt.alloc());
    let mut reader = Source::new(Some(ErrorKind::Interrupted));
    assert_eq!(rt;
        run_script(rt.alloc(), &mut reader, &mut writer, false),
        Ok(())
    );
    assert_eq!(rt; writer.taken.as_slice(), ANSWERS);
    for kind in FAILURES {
        let mut writer = Sink::new(rt.alloc());
        let done = run_script(rt.alloc(), &mut Source::new(Some(kind)), &mut writer, false);
        assert_eq!(rt; done, Err(ScriptFault::ReadFailed), "{kind:?}");
        assert!(rt; writer.taken.is_empty());
    }
}

#[test]
fn a_script_takes_at_most_twenty_million_reads(rt: HostRuntime) {
    let cases = [
        (20_000_000, ScriptFault::NoSeparator),
        (20_000_001, ScriptFault::TooManyReads),
    ];
    for (end, fault) in cases {
        let mut reader = Feeds { reads: 0, end };
        let done = run_script(rt.alloc(), &mut reader, &mut Sink::new(rt.alloc()), false);
        assert_eq!(rt; done, Err(fault));
        assert_eq!(rt; reader.reads, 20_000_000);
    }
}

#[test]
fn only_an_interrupted_write_is_tried_again(rt: HostRuntime) {
    let mut writer = Sink::new(rt.alloc());
    writer.error = Some(ErrorKind::Interrupted);
    let done = run_script(rt.alloc(), &mut Source::new(None), &mut writer, false);
    assert_eq!(rt; done, Ok(()));
    assert_eq!(rt; writer.taken.as_slice(), ANSWERS);
    for kind in FAILURES.iter().chain([ErrorKind::WriteZero].iter()) {
        let mut writer = Sink::new(rt.alloc());
        writer.error = Some(*kind);
        let done = run_script(rt.alloc(), &mut Source::new(None), &mut writer, false);
        assert_eq!(rt; done, Err(ScriptFault::WriteFailed), "{kind:?}");
        assert!(rt; writer.taken.len() < ANSWERS.len());
    }
    let mut writer = Sink::new(rt.alloc());
    writer.flush_error = Some(ErrorKind::StorageFull);
    let done = run_script(rt.alloc(), &mut Source::new(None), &mut writer, false);
    assert_eq!(rt; done, Err(ScriptFault::WriteFailed));
}

#[test]
fn the_retries_of_a_run_are_a_thousand(rt: HostRuntime) {
    // The interrupted writes before each of the four lines, how the run ends, and how many bytes it wrote.
    let front = ANSWERS.len() - b"{\"lines\":[\"FRAME f1 n1\"],\"ok\":\"frames\"}\n".len();
    let cases = [
        (250, Ok(()), ANSWERS.len()),
        (251, Err(ScriptFault::WriteFailed), front),
        (u32::MAX, Err(ScriptFault::WriteFailed), 0),
    ];
    for (interruptions, ending, written) in cases {
        let mut writer = Sink::new(rt.alloc());
        (writer.interruptions, writer.waits) = (interruptions, interruptions);
        let done = run_script(rt.alloc(), &mut Source::new(None), &mut writer, false);
        assert_eq!(rt; done, ending);
        assert_eq!(rt; writer.taken.as_slice(), &ANSWERS[..written]);
    }
}
