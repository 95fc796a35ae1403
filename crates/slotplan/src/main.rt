//! The program `slotplan`: it reads the words after its name, has `fr_cli` do the job, and ends with its status.
#![tactic(auto)]

mod notices;
mod streams;

use fr_cli::perform::{explain, perform};
use fr_cli::{
    Job, Listener, LocalFiles, LocalListener, LocalRegisters, WordFault, end_closed, read_words,
};
use fr_text::Sink;
use notices::Notices;
use sqlite::{FileFrom, Leftover, Start, Unknown};
use std::env;
use std::io::{self, ErrorKind};
use std::process::ExitCode;
use streams::StandIns;

fn main(rt: HostRuntime) -> ExitCode {
    let _closed = StandIns::new(&rt);
    ExitCode::from(run(&rt))
}

// Does what the words of the command line ask for, and gives the status.
fn run(rt: &HostRuntime) -> u8 {
    let mut out = io::writer(rt);
    let mut err = rt.stderr();
    let words = match given_words(rt) {
        Ok(words) => words,
        Err(error) => return explain(&unread(rt, &error), &mut out, &mut err),
    };
    match read_words(rt.alloc(), &words) {
        Ok(job) => match job {
            Job::Serve { count, .. } => {
                let mut notices = Notices::new(rt);
                let status = carry_out(rt, &job, count, &mut out, &mut notices);
                notices.end();
                status
            }
            _ => carry_out(rt, &job, u32::MAX, &mut out, &mut err),
        },
        Err(fault) => explain(&fault, &mut out, &mut err),
    }
}

// Does the job, over as many connections at most, and gives the status.
fn carry_out<O: Sink, E: Sink>(
    rt: &HostRuntime,
    job: &Job<'_>,
    most: u32,
    out: &mut O,
    err: &mut E,
) -> u8 {
    let mut listener = LocalListener::new(rt);
    listener.most = most;
    let (status, left) = perform_from(rt, job, Unknown, out, err, &mut listener);
    listener.finish();
    end_closed(status, &left, err)
}

// Does the job with this machine's files and connections. `start` says what the job's register file held as it was opened.
fn perform_from<S: Start, O: Sink, E: Sink, L: Listener>(
    rt: &HostRuntime,
    job: &Job<'_>,
    start: S,
    out: &mut O,
    err: &mut E,
    listener: &mut L,
) -> (u8, Option<Leftover<FileFrom<S>>>) {
    let mut registers = LocalRegisters {
        rt,
        start: Some(start),
        kept: job.kept_bytes(),
    };
    perform(
        rt.alloc(),
        job,
        &mut registers,
        &mut LocalFiles { rt },
        &mut rt.reader(),
        out,
        err,
        listener,
    )
}

// The words after the program's name.
fn given_words(rt: &HostRuntime) -> io::Result<Vec<String>> {
    let mut words = Vec::new(rt.alloc());
    for word in env::args(rt)?.skip(1) {
        words.push(word)?;
    }
    Ok(words)
}

// Why the words cannot be read: there is no memory for them, or one is not UTF-8.
fn unread(rt: &HostRuntime, error: &io::Error) -> WordFault {
    if error.kind() == ErrorKind::OutOfMemory {
        return WordFault::NoMemory;
    }
    match String::from_str(rt.alloc(), NOT_UTF8) {
        Ok(text) => WordFault::Usage { text },
        Err(_) => WordFault::NoMemory,
    }
}

const NOT_UTF8: &str = "\
error: a word is not UTF-8 text

For more information, try '--help'.
";
