//! Tests of `fr_http`. The check would let pass a request that is not served though there is memory, and reads and
//! writes that are tried again too seldom, too often, or after another error.
//!
//! Replies are typed by hand from the formats.
use fr_base::{
    Actor, Answer, Ask, Channel, Config, Desk, Name, NoMemory, Query, Refusal, Report, ReportRows,
    Request, Rows, Sending, Slot,
};
use fr_http::{Engine, LinkFault, Need, Served, serve_one};
use fr_text::read_config;
use std::alloc::Global;
use std::io;
use std::io::{ErrorKind, Read, Write};
use std::test::Fail;

const CLUSTER: &str = "\
channels = 'A'
static_slots = 4
slot_macroticks = 10
dynamic_macroticks = 40
symbol_macroticks = 10
idle_macroticks = 10
macroticks_per_cycle = 100
payload_words = 1
integrator = 'integrator1'
suppliers = {s1 = 'supplier01'}
";

/// A desk that knows one key, counts what it is asked, and answers a schedule with one line and all else with `Done`. Of
/// its rows nothing is said: it is never clean.
#[derive(Drop)]
struct Counter {
    config: Config,
    supplier: Name,
    sending: Sending,
    asked: u32,
}

impl Counter {
    fn new(alloc: Global) -> Result<Counter, Fail> {
        let config = read_config(alloc, CLUSTER.as_bytes()).map_err(|_| "no cluster file")?;
        let supplier = Name::read("s1").ok_or("no name")?;
        let sending = Sending {
            cycle: 0,
            slot: Slot::new(1).ok_or("no slot")?,
            channel: Channel::A,
            frame: Name::read("f1").ok_or("no name")?,
            node: Name::read("n1").ok_or("no name")?,
            supplier,
        };
        Ok(Counter {
            config,
            supplier,
            sending,
            asked: 0,
        })
    }

    fn schedule(&self, alloc: Global) -> Result<Answer, NoMemory> {
        let mut rows = Rows::new(alloc);
        rows.push(self.sending)?;
        Ok(Answer::Report {
            all: false,
            rows: ReportRows::Schedule(rows),
        })
    }
}

impl Desk for Counter {
    ghost stands = { λ _ _ _. ⊥ };

    ghost clean = { λ _. ⊥ };

    fn actor_of(&self, key: &str) -> Option<Actor> {
        if key == "supplier01" {
            Some(Actor::Supplier(self.supplier))
        } else {
            None
        }
    }

    fn config(&self) -> &Config {
        &self.config
    }

    fn ask(&mut self, alloc: Global, ask: &Ask) -> Answer {
        self.asked = self.asked.saturating_add(1);
        match ask.request {
            Request::Query(
                Query::Variant {
                    report: Report::Schedule,
                    ..
                },
            ) => self
                .schedule(alloc)
                .unwrap_or(Answer::Refused(Refusal::Unavailable)),
            _ => Answer::Done,
        }
    }
}

/// A reader of these bytes, so many a read, that is interrupted so often before; behind them it has the error, if there is
/// one, each time.
#[derive(Drop)]
struct Source<'a> {
    rest: &'a [u8],
    piece: usize,
    waits: u32,
    error: Option<ErrorKind>,
}

impl<'a> Read for Source<'a> {
    fn read(&mut self, buf: &mut [u8]) -> io::Result<usize> {
        if self.waits > 0 {
            self.waits -= 1;
            return Err(io::Error::from(ErrorKind::Interrupted));
        }
        if self.rest.is_empty() {
            if let Some(kind) = self.error {
                return Err(io::Error::from(kind));
            }
        }
        let n = self.rest.len().min(buf.len()).min(self.piece);
        let (given, rest) = self.rest.split_at(n);
        buf[..n].copy_from_slice(given);
        self.rest = rest;
        Ok(n)
    }
}

fn whole(bytes: &[u8]) -> Source<'_> {
    Source {
        rest: bytes,
        piece: usize::MAX,
        waits: 0,
        error: None,
    }
}

/// A writer that is interrupted so often, takes so many bytes, at most so many a write, and then has the error each time;
/// as `WriteZero` it then takes nothing. It counts how many of the bytes that it took were flushed.
#[derive(Drop)]
struct Sink {
    taken: Vec<u8>,
    flushed: usize,
    waits: u32,
    room: usize,
    piece: usize,
    error: ErrorKind,
}

impl Sink {
    fn new(alloc: Global, room: usize, error: ErrorKind) -> Sink {
        Sink {
            taken: Vec::new(alloc),
            flushed: 0,
            waits: 0,
            room,
            piece: usize::MAX,
            error,
        }
    }
}

impl Write for Sink {
    fn write(&mut self, buf: &[u8]) -> io::Result<usize> {
        if self.waits > 0 {
            self.waits -= 1;
            return Err(io::Error::from(ErrorKind::Interrupted));
        }
        let n = buf.len().min(self.room).min(self.piece);
        if n == 0 {
            return match self.error {
                ErrorKind::WriteZero => Ok(0),
                kind => Err(io::Error::from(kind)),
            };
        }
        self.taken.extend_from_slice(&buf[..n])?;
        self.room -= n;
        Ok(n)
    }

    fn flush(&mut self) -> io::Result<()> {
        self.flushed = self.taken.len();
        Ok(())
    }
}

const SCHEDULE: &str =
    "GET /v1/variants/v1/schedule HTTP/1.1\r\nHost: localhost\r\nX-Office-Key: supplier01\r\n\r\n";

const SCHEDULED: &str =
    "HTTP/1.1 200 OK\r\ncontent-type: text/plain; charset=us-ascii\r\ncontent-length: 16\r\nconnection: close\r\n\r\n00 0001 A f1 n1\n";

const ADD_FRAME: &str =
    "POST /v1/commands HTTP/1.1\r\nx-office-key: supplier01\r\nexpect: 100-continue\r\ncontent-length: 58\r\n\r\n{\"do\":\"add_frame\",\"variant\":\"v1\",\"frame\":\"f1\",\"node\":\"n1\"}";

const CONTINUE: &str = "HTTP/1.1 100 Continue\r\n\r\n";

const DONE: &str =
    "HTTP/1.1 200 OK\r\ncontent-type: application/json\r\ncontent-length: 13\r\nconnection: close\r\n\r\n{\"ok\":\"done\"}";

const UNKNOWN_KEY: &str =
    "HTTP/1.1 401 Unauthorized\r\ncontent-type: application/json\r\ncontent-length: 31\r\nwww-authenticate: Office-Key\r\nconnection: close\r\n\r\n{\"no\":2,\"refused\":\"UnknownKey\"}";

const BAD_TEXT: &str =
    "HTTP/1.1 400 Bad Request\r\ncontent-type: application/json\r\ncontent-length: 28\r\nconnection: close\r\n\r\n{\"no\":1,\"refused\":\"BadText\"}";

const BAD_REQUEST: &str =
    "HTTP/1.1 400 Bad Request\r\ncontent-length: 0\r\nconnection: close\r\n\r\n";

const NOT_FOUND: &str = "HTTP/1.1 404 Not Found\r\ncontent-length: 0\r\nconnection: close\r\n\r\n";

const TOO_LARGE: &str =
    "HTTP/1.1 413 Payload Too Large\r\ncontent-length: 0\r\nconnection: close\r\n\r\n";

const HEAD_TOO_LARGE: &str =
    "HTTP/1.1 431 Request Header Fields Too Large\r\ncontent-length: 0\r\nconnection: close\r\n\r\n";

/// What is sent, and the whole reply.
const REPLIES: [(&str, &str); 24] = [
    (SCHEDULE, SCHEDULED),
    (
        "GET /v1/variants/v1/schedule?x=1 HTTP/1.0\r\nx-office-key:\t supplier01 \t\r\n\r\n",
        SCHEDULED,
    ),
    (
        "POST /v1/commands HTTP/1.0\r\nx-office-key: supplier01\r\nexpect: 100-continue\r\ncontent-length: 34\r\n\r\n{\"do\":\"grants\",\"variant\":\"v1\"}    what follows the body",
        DONE,
    ),
    (
        "PUT /v1/variants/v1/rows HTTP/1.1\r\nx-office-key: supplier01\r\ncontent-length: 11\r\n\r\nframe,node\n",
        DONE,
    ),
    (
        "GET /v1/variants/v1/exports/frames/x HTTP/1.1\r\nx-office-key: nobody123\r\n\r\n",
        BAD_TEXT,
    ),
    ("GET /v1/variants/v1/frames HTTP/1.1\r\n\r\n", UNKNOWN_KEY),
    (
        "GET /v1/variants/v1/frames HTTP/1.1\r\nx-office-key: supplier01\r\nX-Office-Key: supplier01\r\n\r\n",
        UNKNOWN_KEY,
    ),
    (
        "POST /v1/commands HTTP/1.1\r\nx-office-key: supplier01\r\ncontent-length: 0\r\n\r\n",
        BAD_TEXT,
    ),
    (
        "POST /v1/commands HTTP/1.1\r\nx-office-key: nobody123\r\ncontent-length: 1\r\n\r\n[",
        BAD_TEXT,
    ),
    (
        "POST /v1/commands HTTP/1.1\r\ncontent-length: 1\r\ncontent-length: 99999\r\n\r\n{",
        BAD_REQUEST,
    ),
    (
        "POST /v1/commands HTTP/1.1\r\ncontent-length: 1a\r\n\r\n{",
        BAD_REQUEST,
    ),
    (
        "POST /v1/commands HTTP/1.1\r\ncontent-length:\r\n\r\n{",
        BAD_REQUEST,
    ),
    (
        "POST /v1/commands HTTP/1.1\r\ncontent-length: 65537\r\n\r\n",
        TOO_LARGE,
    ),
    (
        "POST /v1/commands HTTP/1.1\r\ncontent-length: 999999999999999999999999999999\r\n\r\n",
        TOO_LARGE,
    ),
    (
        "POST /v1/commands HTTP/1.1\r\n\r\n",
        "HTTP/1.1 411 Length Required\r\ncontent-length: 0\r\nconnection: close\r\n\r\n",
    ),
    (
        "PUT /v1/nothing HTTP/1.1\r\ntransfer-encoding: chunked\r\n\r\n",
        "HTTP/1.1 501 Not Implemented\r\ncontent-length: 0\r\nconnection: close\r\n\r\n",
    ),
    (
        "PUT /v1/commands HTTP/1.1\r\n\r\n",
        "HTTP/1.1 405 Method Not Allowed\r\ncontent-length: 0\r\nallow: POST\r\nconnection: close\r\n\r\n",
    ),
    (
        "POST /v1/variants/v1/frames/f1/layout HTTP/1.1\r\n\r\n",
        "HTTP/1.1 405 Method Not Allowed\r\ncontent-length: 0\r\nallow: GET\r\nconnection: close\r\n\r\n",
    ),
    ("GET /v1/nothing HTTP/1.1\r\n\r\n", NOT_FOUND),
    ("GET /v1/variants//gaps HTTP/1.1\r\n\r\n", NOT_FOUND),
    ("GET /v1/variants/v1/gaps/ HTTP/1.1\r\n\r\n", NOT_FOUND),
    ("GET /v1/variants/v1/v2/gaps HTTP/1.1\r\n\r\n", NOT_FOUND),
    (
        "GET /v1/variants/v1/frames/layout HTTP/1.1\r\n\r\n",
        NOT_FOUND,
    ),
    ("nothing of the kind\r\n\r\n", BAD_REQUEST),
];

fn served(
    engine: &Engine,
    input: &[u8],
    desk: &mut Counter,
) -> (Result<Served, LinkFault>, Vec<u8>) {
    let mut writer = Sink::new(engine.alloc(), usize::MAX, ErrorKind::Other);
    let done = serve_one(engine, &mut whole(input), &mut writer, desk);
    // What was not flushed may never come.
    writer.taken.truncate(writer.flushed);
    (done, writer.taken)
}

#[test]
fn each_request_has_its_reply(rt: HostRuntime) -> Result<(), Fail> {
    let engine = Engine::new(rt.alloc())?;
    let mut desk = Counter::new(rt.alloc())?;
    for (input, reply) in REPLIES {
        let (done, written) = served(&engine, input.as_bytes(), &mut desk);
        assert!(rt; done.is_ok(), "{input}");
        assert_eq!(rt; written.as_slice(), reply.as_bytes(), "{input}");
    }
    assert_eq!(rt; desk.asked, 4);
    Ok(())
}

/// So many bytes `x` between these.
fn with_many(alloc: Global, before: &str, count: usize, after: &str) -> Result<Vec<u8>, Fail> {
    let mut bytes = Vec::new(alloc);
    bytes.extend_from_slice(before.as_bytes())?;
    for _ in 0..count {
        bytes.push(b'x')?;
    }
    bytes.extend_from_slice(after.as_bytes())?;
    Ok(bytes)
}

#[test]
fn a_head_has_at_most_8192_bytes(rt: HostRuntime) -> Result<(), Fail> {
    let engine = Engine::new(rt.alloc())?;
    let mut desk = Counter::new(rt.alloc())?;
    let (before, after) = ("GET /", " HTTP/1.1\r\n\r\n");
    let room = 8192 - before.len() - after.len();
    for (count, reply) in [
        (room, NOT_FOUND),
        (room + 1, HEAD_TOO_LARGE),
        (8200, HEAD_TOO_LARGE),
    ] {
        let input = with_many(rt.alloc(), before, count, after)?;
        let (done, written) = served(&engine, &input, &mut desk);
        assert!(rt; done.is_ok());
        assert_eq!(rt; written.as_slice(), reply.as_bytes(), "{count}");
    }
    Ok(())
}

/// What a request needs is known with its head, and what follows does not change it. Where no head can come of the bytes,
/// they are all that is needed.
#[test]
fn what_a_request_needs_is_known_with_its_head(rt: HostRuntime) -> Result<(), Fail> {
    let engine = Engine::new(rt.alloc())?;
    let bytes = ADD_FRAME.as_bytes();
    let head = ADD_FRAME.len() - 58;
    let all = Need::Known {
        bytes: bytes.len(),
        invites: true,
    };
    for end in 0..bytes.len() + 1 {
        let need = if end < head { Need::Open } else { all };
        assert_eq!(rt; engine.need_of(&bytes[..end]), need);
    }
    for input in [
        "GET / HTTP/1.1\r\n\r\n",
        "GET /v1/nodes HTTP/1.1\r\nContent-Length: 9\r\n\r\n",
        "POST /v1/nothing HTTP/1.1\r\nContent-Length: 9\r\n\r\n",
        "POST /v1/commands HTTP/1.1\r\nContent-Length: 65537\r\n\r\n",
        "GET / HTTP/2.0\r\n\r\n",
    ] {
        let need = Need::Known {
            bytes: input.len(),
            invites: false,
        };
        assert_eq!(rt; engine.need_of(input.as_bytes()), need, "{input}");
    }
    let mut crowded = Vec::new(rt.alloc());
    crowded.extend_from_slice(b"GET / HTTP/1.1\r\n")?;
    for _ in 0..64 {
        crowded.extend_from_slice(b"a: b\r\n")?;
    }
    assert_eq!(rt; engine.need_of(&crowded), Need::Open);
    crowded.extend_from_slice(b"a: b\r\n")?;
    let bytes = crowded.len();
    assert_eq!(rt;
        engine.need_of(&crowded),
        Need::Known {
            bytes,
            invites: false
        }
    );
    Ok(())
}

/// Wherever the input ends or a read fails nothing is asked, and nothing but a whole interim reply is written.
#[test]
fn a_request_is_asked_once_it_is_whole(rt: HostRuntime) -> Result<(), Fail> {
    let engine = Engine::new(rt.alloc())?;
    let mut desk = Counter::new(rt.alloc())?;
    let bytes = ADD_FRAME.as_bytes();
    let head = ADD_FRAME.len() - 58;
    for end in 0..bytes.len() {
        for (error, fault) in [
            (None, LinkFault::Truncated),
            (Some(ErrorKind::ConnectionReset), LinkFault::ReadFailed),
            (Some(ErrorKind::WouldBlock), LinkFault::ReadFailed),
            (Some(ErrorKind::Interrupted), LinkFault::TooManyReads),
        ] {
            if end > 0 && error == Some(ErrorKind::Interrupted) {
                continue;
            }
            let mut reader = whole(&bytes[..end]);
            reader.error = error;
            let mut writer = Sink::new(rt.alloc(), usize::MAX, ErrorKind::Other);
            let done = serve_one(&engine, &mut reader, &mut writer, &mut desk);
            assert_eq!(rt; done, Err(fault));
            let interim = if end < head { "" } else { CONTINUE };
            assert_eq!(rt; writer.taken.as_slice(), interim.as_bytes());
            assert_eq!(rt; writer.flushed, writer.taken.len());
        }
    }
    assert_eq!(rt; desk.asked, 0);
    let mut reader = whole(bytes);
    reader.piece = 1;
    let mut writer = Sink::new(rt.alloc(), usize::MAX, ErrorKind::Other);
    writer.piece = 1;
    let done = serve_one(&engine, &mut reader, &mut writer, &mut desk);
    assert_eq!(rt;
        done,
        Ok(Served {
            status: 200,
            asked: true
        })
    );
    assert!(rt;
        writer.taken.starts_with(CONTINUE.as_bytes()) && writer.taken.ends_with(DONE.as_bytes())
    );
    assert_eq!(rt; writer.taken.len(), CONTINUE.len() + DONE.len());
    Ok(())
}

// How a connection ends whose writer fails behind so many bytes, how often the desk was asked, and how many bytes were
// written.
fn cut_off(
    alloc: Global,
    room: usize,
    error: ErrorKind,
) -> Result<(Result<Served, LinkFault>, u32, usize), Fail> {
    let mut desk = Counter::new(alloc)?;
    let mut writer = Sink::new(alloc, room, error);
    let mut reader = whole(ADD_FRAME.as_bytes());
    let ended = serve_one(&Engine::new(alloc)?, &mut reader, &mut writer, &mut desk);
    Ok((ended, desk.asked, writer.taken.len()))
}

/// Where a write fails it is told whether the register was asked before.
#[test]
fn a_failed_write_is_told(rt: HostRuntime) -> Result<(), Fail> {
    for error in [
        ErrorKind::BrokenPipe,
        ErrorKind::Interrupted,
        ErrorKind::WriteZero,
    ] {
        for room in 0..CONTINUE.len() + DONE.len() {
            let asked = room >= CONTINUE.len();
            let ended = Err(LinkFault::WriteFailed { asked });
            assert_eq!(rt;
                cut_off(rt.alloc(), room, error)?,
                (ended, u32::from(asked), room)
            );
        }
    }
    Ok(())
}

/// A connection has 100,000 reads, interrupted ones too, and 1,000 interrupted writes.
#[test]
fn interruptions_are_counted(rt: HostRuntime) -> Result<(), Fail> {
    let engine = Engine::new(rt.alloc())?;
    let mut desk = Counter::new(rt.alloc())?;
    let done = Ok(Served {
        status: 200,
        asked: true,
    });
    for (reads, writes, ending) in [
        (99_999, 1_000, done),
        (100_000, 0, Err(LinkFault::TooManyReads)),
        (0, 1_001, Err(LinkFault::WriteFailed { asked: true })),
    ] {
        let mut reader = whole(SCHEDULE.as_bytes());
        reader.waits = reads;
        let mut writer = Sink::new(rt.alloc(), usize::MAX, ErrorKind::Other);
        writer.waits = writes;
        let ended = serve_one(&engine, &mut reader, &mut writer, &mut desk);
        assert_eq!(rt; ended, ending);
    }
    assert_eq!(rt; desk.asked, 2);
    Ok(())
}
