//! The words of the command line, and the job for which they ask.
ghost use Rattle.std.specs.Prelude.{◌≡◌, ◌⊎◌, codes, map, option_map, string_bytes, IfErr, IfOk, OnOk};
ghost use Rattle.clap.specs.Walk.{first_of, rows_of};
ghost use Rattle.clap.specs.Words.{found_of, kind_of, subcommand_rows_of};
ghost use Rattle.fr_cli.specs.Words.{AreTaken, AskFor, HasPurpose, IsFaultOf, IsFileIn, IsJobFound, IsJobIn, IsJobOf, IsNumberIn, IsOfKind, IsReportJobIn, LackAnObject, MayRefuse, asked_by, header_in, is_given, kept_by, manner_in, records, word_of_delivery};
ghost use Rattle.fr_cli.specs.declared.words.WordFault.TheVariants.{NoMemory};

pub(crate) mod check_subject;
pub(crate) mod commands;
pub(crate) mod delivery;
pub(crate) mod inquiry;
pub(crate) mod reports;

use crate::words::check_subject::CheckSubject;
use crate::words::commands::{MAX_CONNECTIONS, MAX_MEMORY, MAX_PORT, MAX_SECONDS, program};
use crate::words::delivery::Delivery;
use crate::words::inquiry::Inquiry;
use crate::words::reports::{argument_name, asked_with};
use clap::error::ErrorKind;
use clap::{ArgMatches, Error};
use fr_base::{FieldName, Header, Manner, Purpose, Query, QueryReader, Question, Report};
use fr_office::MAX_BYTES;
use std::alloc::Global;

/// What is said of words of `check` that name no job, though `clap` takes them.
const NO_FILE: &str =
    "check takes one of these: CONFIG, --requests FILE, --rows FILE, --path PATH, --register DB";

/// What is said of words of `export` that name no job, though `clap` takes them.
const NO_ROWS: &str = "export takes ROWS that are frames, placements or signals";

/// What is said of words of `try` that name no job, though `clap` takes them.
const NO_REPLACEMENT: &str = "try takes --whole only with --replace";

/// Half of a mebibyte, in bytes.
const HALF_MEBIBYTE: usize = 524_288;

/// What the program is to do.
#[derive(Clone, Copy, PartialEq, Eq)]
pub enum Job<'a> {
    /// Answer the script on standard input; each answer with the number of its request's line in the script, where lines
    /// are numbered.
    Run {
        numbered: bool,
    },
    /// Make a register file of a cluster file.
    Create {
        db: &'a str,
        config: &'a str,
    },
    /// Bring a register file of the schema before this one to this one.
    Migrate {
        db: &'a str,
    },
    /// Serve a register file on this port, 1 to 65,535, for so many connections, 1 to 1,000,000, each of
    /// which lasts so many seconds at most, 1 to 3,600. Pages of at most so many MiB are kept beside the one in use, 1 to
    /// 1,000,000.
    Serve {
        db: &'a str,
        port: u16,
        count: u32,
        seconds: u32,
        memory: u32,
    },
    /// Answer the requests on standard input over a register file; each answer with the number of its request's line in the
    /// input, where lines are numbered.
    Ask {
        db: &'a str,
        numbered: bool,
    },
    /// Print a report.
    Report {
        db: &'a str,
        query: Inquiry<'a>,
    },
    /// Draw a variant's plan, as the integrator sees it, or the supplier that is named; with what is new since another
    /// variant, where one is named.
    Picture {
        db: &'a str,
        variant: &'a str,
        since: Option<&'a str>,
        supplier: Option<&'a str>,
    },
    /// Deliver a file of rows to a register, or try it there, or have placements proposed for a file of wishes.
    Deliver {
        db: &'a str,
        delivery: Delivery<'a>,
    },
    /// Say what is wrong with the text of a file, and where, or with a path, or that nothing is; or what stands in the way of
    /// using a register.
    Check {
        file: CheckSubject<'a>,
    },
    /// Say what a refusal's name or a fault's word means, or list all of them.
    Explain {
        word: Option<&'a str>,
    },
}

impl Job<'_> {
    /// The most bytes of pages on each of the two shelves of the job's register. A server keeps half of what it is told on
    /// each, and each other job as much as where nothing is said.
    pub fn kept_bytes(&self) -> usize
        ensures { result ≡ kept_by self.now }
    {
        match *self {
            Job::Serve { memory, .. } => memory as usize * HALF_MEBIBYTE,
            _ => MAX_BYTES,
        }
    }
}

/// Why words name no job.
#[derive(Debug, Drop)]
pub enum WordFault {
    /// They ask for help or for the version, which is this text.
    Help { text: String },
    /// They do not fit the command line: this text says how the program is called.
    Usage { text: String },
    /// There was no memory to read them.
    NoMemory,
}

/// The job that the words after the program's name ask for. Where `clap` takes the words there is one, unless memory runs
/// out, or they lack an object: `check` names no file or several, `export` names rows that are none of its three, or `try`
/// is to be whole and no replacement.
pub fn read_words<'a>(alloc: Global, words: &'a [String]) -> Result<Job<'a>, WordFault>
    ensures taken { OnOk result (AreTaken (map string_bytes words.entry.now)) }
    ensures job { IfOk result (AskFor (map string_bytes words.entry.now)) }
    ensures fault { IfErr result (IsFaultOf (map string_bytes words.entry.now)) }
    ensures finds { AreTaken (map string_bytes words.entry.now) → IfErr result
        (λ fault. (fault ≡ NoMemory) ⊎ LackAnObject (map string_bytes words.entry.now)) }
{
    match read(alloc, words) {
        Ok(job) => Ok(job),
        Err(error) => Err(word_fault(alloc, &error)),
    }
}

// The job that the words ask for, or the parser's error.
fn read<'a>(alloc: Global, words: &'a [String]) -> Result<Job<'a>, Error>
    ensures taken { OnOk result (AreTaken (map string_bytes words.entry.now)) }
    ensures job { IfOk result (AskFor (map string_bytes words.entry.now)) }
    ensures fault { IfErr result
        (λ error. MayRefuse (map string_bytes words.entry.now) (kind_of error)) }
{
    let mut program = program(alloc)?;
    let matches = program.try_get_matches_from_mut(words)?;
    match job_of(&matches) {
        Some(job) => Ok(job),
        None => Err(program.error(ErrorKind::ValueValidation, missing_object(&matches))?),
    }
}

// What is said of words that `clap` takes and that name no job: those of `export` name no rows, those of `try` no
// replacement that could be whole, or those of `check` no file or several.
fn missing_object(matches: &ArgMatches<'_>) -> &'static str {
    match matches.subcommand() {
        Some(("export", _)) => NO_ROWS,
        Some(("try", _)) => NO_REPLACEMENT,
        _ => NO_FILE,
    }
}

// The job of the subcommand that was found.
fn job_of<'a>(matches: &ArgMatches<'a>) -> Option<Job<'a>>
    ensures { IsJobFound result (subcommand_rows_of matches.now) }
{
    let (name, found) = matches.subcommand()?;
    named_job(name, found)
}

// The job of the subcommand of this name, with the words that it takes.
fn named_job<'a>(name: &str, found: &ArgMatches<'a>) -> Option<Job<'a>>
    ensures { IsJobIn result name.now (rows_of (found_of found.now)) }
{
    match name {
        "run" => Some(run_job(found)),
        "create" => create_job(found),
        "migrate" => migrate_job(found),
        "serve" => serve_job(found),
        "ask" => ask_job(found),
        "picture" => picture_job(found),
        "import" => import_job(found),
        "replace" => replace_job(found),
        "try" => try_job(found),
        "propose" => propose_job(found),
        "check" => check_job(found),
        "explain" => Some(explain_job(found)),
        _ => report_job(name, found),
    }
}

fn run_job<'a>(found: &ArgMatches<'a>) -> Job<'a>
    ensures { IsJobOf result (codes "run") (rows_of (found_of found.now)) }
{
    Job::Run {
        numbered: flag(found, "lines"),
    }
}

#[tactic(auto, unfolding(crate::specs::Reports::asked_with))]
fn create_job<'a>(found: &ArgMatches<'a>) -> Option<Job<'a>>
    ensures { IsJobIn result (codes "create") (rows_of (found_of found.now)) }
{
    Some(Job::Create {
        db: word(found, "DB")?,
        config: word(found, "CONFIG")?,
    })
}

fn migrate_job<'a>(found: &ArgMatches<'a>) -> Option<Job<'a>>
    ensures { IsJobIn result (codes "migrate") (rows_of (found_of found.now)) }
{
    Some(Job::Migrate {
        db: word(found, "DB")?,
    })
}

fn serve_job<'a>(found: &ArgMatches<'a>) -> Option<Job<'a>>
    ensures { IsJobIn result (codes "serve") (rows_of (found_of found.now)) }
{
    Some(Job::Serve {
        db: word(found, "DB")?,
        port: u16::try_from(number(found, "PORT", 1, MAX_PORT)?).ok()?,
        count: number(found, "count", 1, MAX_CONNECTIONS)?,
        seconds: number(found, "seconds", 1, MAX_SECONDS)?,
        memory: number(found, "memory", 1, MAX_MEMORY)?,
    })
}

fn ask_job<'a>(found: &ArgMatches<'a>) -> Option<Job<'a>>
    ensures { IsJobIn result (codes "ask") (rows_of (found_of found.now)) }
{
    Some(Job::Ask {
        db: word(found, "DB")?,
        numbered: flag(found, "lines"),
    })
}

// The job of a report's subcommand.
fn report_job<'a>(name: &str, found: &ArgMatches<'a>) -> Option<Job<'a>>
    ensures { IsReportJobIn result name.now (rows_of (found_of found.now)) }
{
    let asked = asked_by(name, found)?;
    let db = word(found, "DB")?;
    match asked.read(&Words { found, asked }) {
        Ok(query) => {
            let query = Inquiry {
                query,
                supplier: word(found, "supplier"),
            };
            Some(Job::Report { db, query })
        }
        Err(()) => None,
    }
}

// What is asked with the subcommand of this name and these words.
fn asked_by(name: &str, found: &ArgMatches<'_>) -> Option<Question>
    ensures { result ≡ asked_by name.now (rows_of (found_of found.now)) }
{
    match name {
        "export" => header(found).map(records),
        _ => asked_with(name),
    }
}

// What is asked for the records below this header.
fn records(header: Header) -> Question
    ensures { result ≡ records header }
{
    Query::Variant {
        variant: FieldName::Variant,
        report: Report::Export {
            header,
            part: FieldName::Part,
        },
    }
}

// The words of a subcommand, and what is asked with them.
#[derive(Drop)]
struct Words<'m, 'a> {
    found: &'m ArgMatches<'a>,
    asked: Question,
}

// The names and numbers of what is asked are the words at the places of their arguments.
impl<'a> QueryReader<FieldName, FieldName, &'a str, ()> for Words<'_, 'a> {
    ghost use Rattle.clap.specs.Walk.{rows_of};
    ghost use Rattle.clap.specs.Words.{found_of};
    ghost use Rattle.fr_cli.specs.Words.{IsNumberAt, IsWordAt};

    ghost reads = { λ words field result. IsWordAt words.asked (rows_of (found_of words.found.now)) field result };

    ghost counts = { λ words field result. IsNumberAt words.asked (rows_of (found_of words.found.now)) field result };

    fn read_name(&self, field: &FieldName) -> Result<&'a str, ()> {
        word(self.found, argument_name(&self.asked, *field)).ok_or(())
    }

    fn read_number(&self, field: &FieldName) -> Result<u32, ()> {
        match number(self.found, argument_name(&self.asked, *field), 0, u32::MAX) {
            Some(read) => Ok(read),
            None => Err(()),
        }
    }
}

// The header of the records to export.
fn header(found: &ArgMatches<'_>) -> Option<Header>
    ensures { result ≡ header_in (rows_of (found_of found.now)) }
{
    match word(found, "ROWS")? {
        "frames" => Some(Header::Frames),
        "placements" => Some(Header::Placements),
        "signals" => Some(Header::Signals),
        _ => None,
    }
}

#[tactic(auto, unfolding(crate::specs::Reports::asked_with))]
fn picture_job<'a>(found: &ArgMatches<'a>) -> Option<Job<'a>>
    ensures { IsJobIn result (codes "picture") (rows_of (found_of found.now)) }
{
    Some(Job::Picture {
        db: word(found, "DB")?,
        variant: word(found, "VARIANT")?,
        since: word(found, "since"),
        supplier: word(found, "supplier"),
    })
}

#[tactic(auto, unfolding(crate::specs::Reports::asked_with))]
fn import_job<'a>(found: &ArgMatches<'a>) -> Option<Job<'a>>
    ensures { IsJobIn result (codes "import") (rows_of (found_of found.now)) }
{
    let label = word(found, "LABEL")?;
    deliver_job(found, Purpose::Import { label })
}

fn replace_job<'a>(found: &ArgMatches<'a>) -> Option<Job<'a>>
    ensures { IsJobIn result (codes "replace") (rows_of (found_of found.now)) }
{
    let whole = flag(found, "whole");
    deliver_job(found, Purpose::Replacement { whole })
}

fn try_job<'a>(found: &ArgMatches<'a>) -> Option<Job<'a>>
    ensures { IsJobIn result (codes "try") (rows_of (found_of found.now)) }
{
    let manner = manner(found)?;
    deliver_job(found, Purpose::Trial { manner })
}

fn propose_job<'a>(found: &ArgMatches<'a>) -> Option<Job<'a>>
    ensures { IsJobIn result (codes "propose") (rows_of (found_of found.now)) }
{
    let replace = flag(found, "replace");
    deliver_job(found, Purpose::Proposal { replace })
}

// How the rows of a file act that is tried.
fn manner(found: &ArgMatches<'_>) -> Option<Manner>
    ensures { result ≡ manner_in (rows_of (found_of found.now)) }
{
    let whole = flag(found, "whole");
    if flag(found, "replace") {
        Some(Manner::Replace { whole })
    } else if whole {
        None
    } else {
        Some(Manner::Import)
    }
}

fn deliver_job<'a>(found: &ArgMatches<'a>, how: Purpose<&'a str>) -> Option<Job<'a>>
    ensures { HasPurpose how.entry (rows_of (found_of found.now))
        → IsJobIn result (word_of_delivery how.entry) (rows_of (found_of found.now)) }
{
    let db = word(found, "DB")?;
    let delivery = Delivery {
        key: word(found, "KEY")?,
        variant: word(found, "VARIANT")?,
        how,
        file: word(found, "FILE")?,
    };
    Some(Job::Deliver { db, delivery })
}

#[tactic(auto, unfolding(crate::specs::Reports::asked_with))]
fn check_job<'a>(found: &ArgMatches<'a>) -> Option<Job<'a>>
    ensures { IsJobIn result (codes "check") (rows_of (found_of found.now)) }
{
    Some(Job::Check {
        file: subject(found)?,
    })
}

// The one file or path that is named.
fn subject<'a>(found: &ArgMatches<'a>) -> Option<CheckSubject<'a>>
    ensures { IsFileIn result (rows_of (found_of found.now)) }
{
    let config = word(found, "CONFIG");
    let requests = word(found, "requests");
    let rows = word(found, "rows");
    let target = word(found, "path");
    let register = word(found, "register");
    match (config, requests, rows, target, register) {
        (Some(path), None, None, None, None) => Some(CheckSubject::Config { path }),
        (None, Some(path), None, None, None) => Some(CheckSubject::Requests { path }),
        (None, None, Some(path), None, None) => Some(CheckSubject::Rows { path }),
        (None, None, None, Some(path), None) => Some(CheckSubject::Target { path }),
        (None, None, None, None, Some(path)) => Some(CheckSubject::Register { path }),
        _ => None,
    }
}

fn explain_job<'a>(found: &ArgMatches<'a>) -> Job<'a>
    ensures { IsJobOf result (codes "explain") (rows_of (found_of found.now)) }
{
    Job::Explain {
        word: word(found, "WORD"),
    }
}

// The word at this place, if one stands there.
fn word<'a>(found: &ArgMatches<'a>, name: &str) -> Option<&'a str>
    ensures { option_map (λ text. text.now) result
        ≡ first_of name.now (rows_of (found_of found.now)) }
{
    found.get_str(name)
}

// Whether the flag of this name is given.
fn flag(found: &ArgMatches<'_>, name: &str) -> bool
    ensures { result ≡ is_given name.now (rows_of (found_of found.now)) }
{
    found.get_one(name).unwrap_or(false)
}

// The number at this place, if it is `least` to `most`.
fn number(found: &ArgMatches<'_>, name: &str, least: u32, most: u32) -> Option<u32>
    ensures { IsNumberIn result name.now least most (rows_of (found_of found.now)) }
{
    let read = found.get_one::<u32>(name)?;
    if (least..=most).contains(&read) {
        Some(read)
    } else {
        None
    }
}

// What the program makes of the parser's error.
fn word_fault(alloc: Global, error: &Error) -> WordFault
    ensures { IsOfKind (kind_of error.now) result }
{
    let Ok(text) = error.to_string(alloc) else {
        return WordFault::NoMemory;
    };
    match error.kind() {
        ErrorKind::OutOfMemory => WordFault::NoMemory,
        ErrorKind::DisplayHelp | ErrorKind::DisplayVersion => WordFault::Help { text },
        _ => WordFault::Usage { text },
    }
}
