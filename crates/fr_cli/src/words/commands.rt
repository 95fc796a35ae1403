//! The program's command line, as `clap` reads it: a subcommand for each job.
ghost use Rattle.std.specs.Prelude.{◌≡◌, IfOk, codes, false, filter_map, map};
ghost use Rattle.std.specs.List.{fold};
ghost use Rattle.clap.specs.Words.{App, Text, new_app, rule_of};
ghost use Rattle.fr_base.specs.Forms.{form_in};
ghost use Rattle.fr_cli.specs.Commands as app;
ghost use Rattle.fr_cli.specs.Commands.{IsReadAs};
ghost use Rattle.fr_cli.specs.Reports.{argument_name, report_row};

use crate::words::reports::{argument_help, argument_name, asked_in};
use clap::{Arg, ArgAction, Command, value_parser};
use fr_base::{FieldName, Form, Query, Question, Report, request_forms};
use fr_text::report_text;
use std::alloc::{AllocError, Global};

/// The greatest port of TCP.
pub const MAX_PORT: u32 = 65_535;

/// How many connections are served at most, and so many where no number is given.
pub const MAX_CONNECTIONS: u32 = 1_000_000;

/// The most seconds that a connection may last.
pub const MAX_SECONDS: u32 = 3_600;

/// The most mebibytes of pages that a server may be told to keep.
pub const MAX_MEMORY: u32 = 1_000_000;

/// The program's command line: a subcommand for each thing that it does.
pub fn program<'a>(alloc: Global) -> Result<Command<'a>, AllocError>
    ensures { IfOk result (IsReadAs app.slotplan) }
{
    let program = settings(Command::new(alloc, "slotplan").bin_name("slotplan")?)
        .subcommand(run(alloc)?)?
        .subcommand(create(alloc)?)?
        .subcommand(migrate(alloc)?)?
        .subcommand(serve(alloc)?)?
        .subcommand(ask(alloc)?)?;
    let program = with_reports(alloc, program, request_forms())?
        .subcommand(export(alloc)?)?
        .subcommand(picture(alloc)?)?
        .subcommand(import(alloc)?)?
        .subcommand(replace(alloc)?)?
        .subcommand(trial(alloc)?)?
        .subcommand(propose(alloc)?)?
        .subcommand(check(alloc)?)?
        .subcommand(explain(alloc)?)?;
    Ok(program)
}

// The words begin with a subcommand; without a word the help is shown.
fn settings<'a>(command: Command<'a>) -> Command<'a>
    ensures { (name : Text) → IsReadAs (new_app name) command.entry
        → IsReadAs (app.unasked name) result }
{
    command
        .about(PROGRAM_ABOUT)
        .after_help(PROGRAM_HELP)
        .version(VERSION)
        .no_binary_name(true)
        .subcommand_required(true)
        .arg_required_else_help(true)
}

fn run<'a>(alloc: Global) -> Result<Command<'a>, AllocError>
    ensures { IfOk result (IsReadAs app.run) }
{
    let command = Command::new(alloc, "run")
        .about("Answers a script on standard input, over a register in memory")
        .after_help(RUN_HELP)
        .arg(lines(alloc))?;
    Ok(command)
}

fn create<'a>(alloc: Global) -> Result<Command<'a>, AllocError>
    ensures { IfOk result (IsReadAs app.create) }
{
    let command = Command::new(alloc, "create")
        .about("Makes a register file of a cluster file")
        .after_help(CREATE_HELP)
        .arg(db(alloc))?
        .arg(word(
            alloc,
            "CONFIG",
            "The cluster file (TOML), at most 1,048,576 bytes",
        ))?;
    Ok(command)
}

fn migrate<'a>(alloc: Global) -> Result<Command<'a>, AllocError>
    ensures { IfOk result (IsReadAs app.migrate) }
{
    let command = Command::new(alloc, "migrate")
        .about("Brings a register file of schema 1 to schema 2, with all that it holds")
        .after_help(MIGRATE_HELP)
        .arg(db(alloc))?;
    Ok(command)
}

fn serve<'a>(alloc: Global) -> Result<Command<'a>, AllocError>
    ensures { IfOk result (IsReadAs app.serve) }
{
    let command = Command::new(alloc, "serve")
        .about("Serves a register file over HTTP")
        .after_help(SERVE_HELP)
        .arg(db(alloc))?
        .arg(port(alloc))?
        .arg(count(alloc))?
        .arg(seconds(alloc))?
        .arg(memory(alloc))?;
    Ok(command)
}

// The port, 1 to 65,535.
fn port<'a>(alloc: Global) -> Arg<'a>
    ensures { (rule_of result ≡ app.port) × (result.global ≡ false) }
{
    word(alloc, "PORT", "The TCP port on 127.0.0.1").value_parser(value_parser!(u16).range(1..))
}

// After how many connections the server ends, 1 to [`MAX_CONNECTIONS`].
fn count<'a>(alloc: Global) -> Arg<'a>
    ensures { (rule_of result ≡ app.count) × (result.global ≡ false) }
{
    Arg::new(alloc, "count")
        .long("count")
        .value_name("N")
        .help("Ends after so many connections")
        .action(ArgAction::Set)
        .default_value("1000000")
        .value_parser(value_parser!(u32).range(1..=1_000_000))
}

// How many seconds a connection lasts at most, 1 to [`MAX_SECONDS`].
fn seconds<'a>(alloc: Global) -> Arg<'a>
    ensures { (rule_of result ≡ app.seconds) × (result.global ≡ false) }
{
    Arg::new(alloc, "seconds")
        .long("seconds")
        .value_name("N")
        .help("Ends a connection after so many seconds")
        .action(ArgAction::Set)
        .default_value("10")
        .value_parser(value_parser!(u32).range(1..=3_600))
}

// How many mebibytes of pages are kept at most, 1 to [`MAX_MEMORY`].
fn memory<'a>(alloc: Global) -> Arg<'a>
    ensures { (rule_of result ≡ app.memory) × (result.global ≡ false) }
{
    Arg::new(alloc, "memory")
        .long("memory")
        .value_name("MIB")
        .help("Keeps pages of at most so many MiB in memory")
        .action(ArgAction::Set)
        .default_value("512")
        .value_parser(value_parser!(u32).range(1..=1_000_000))
}

fn ask<'a>(alloc: Global) -> Result<Command<'a>, AllocError>
    ensures { IfOk result (IsReadAs app.ask) }
{
    let command = Command::new(alloc, "ask")
        .about("Answers requests on standard input, a line each, over a register file")
        .after_help(ASK_HELP)
        .arg(db(alloc))?
        .arg(lines(alloc))?;
    Ok(command)
}

// Whether each answer has the number of its line before it.
fn lines<'a>(alloc: Global) -> Arg<'a>
    ensures { (rule_of result ≡ app.flag (codes "lines")) × (result.global ≡ false) }
{
    flag(
        alloc,
        "lines",
        "Puts the number of its line and a space before each answer",
    )
}

// The program with a subcommand for each report of these forms.
fn with_reports<'a>(
    alloc: Global,
    program: Command<'a>,
    forms: &'static [Form],
) -> Result<Command<'a>, AllocError>
    ensures { IfOk result (λ more. (old : App) → IsReadAs old program.entry
        → IsReadAs (fold app.with_report old (filter_map report_row (map form_in forms.now))) more) }
{
    let mut grown = program;
    for form in forms {
        if let Some(asked) = asked_in(form) {
            grown = grown.subcommand(report(alloc, form.word, &asked)?)?;
        }
    }
    Ok(grown)
}

// The subcommand of a report.
fn report<'a>(
    alloc: Global,
    name: &'static str,
    asked: &Question,
) -> Result<Command<'a>, AllocError>
    ensures { IfOk result (IsReadAs (app.report (name.now, asked.now))) }
{
    let (about, lines) = report_text(name).map_or(("", ""), |text| (text.about, text.lines));
    let command = Command::new(alloc, name)
        .about(about)
        .after_help(lines)
        .arg(db(alloc))?;
    let command = with_words(alloc, command, asked)?.arg(reader(alloc, asked))?;
    Ok(command)
}

// The subcommand with a word for each name and number of what is asked.
fn with_words<'a>(
    alloc: Global,
    command: Command<'a>,
    asked: &Question,
) -> Result<Command<'a>, AllocError>
    ensures { IfOk result (λ more. (a : App) → IsReadAs a command.entry
        → IsReadAs (app.with_words (argument_name asked.now) a asked.now) more) }
{
    match asked {
        Query::Register(_) => Ok(command),
        Query::Variant { variant, report } => {
            let command = command.arg(argument(alloc, asked, *variant))?;
            with_more_words(alloc, command, asked, report)
        }
        Query::Difference { variant, from } => {
            let command = command
                .arg(argument(alloc, asked, *from))?
                .arg(argument(alloc, asked, *variant))?;
            Ok(command)
        }
    }
}

// The subcommand with a word for each name and number of the report that is asked for.
fn with_more_words<'a>(
    alloc: Global,
    command: Command<'a>,
    asked: &Question,
    report: &Report<FieldName, FieldName>,
) -> Result<Command<'a>, AllocError>
    ensures { IfOk result (λ more. (a : App) → IsReadAs a command.entry
        → IsReadAs (app.with_more_words (argument_name asked.now) a report.now) more) }
{
    match report {
        Report::Layout { frame } => {
            let command = command.arg(argument(alloc, asked, *frame))?;
            Ok(command)
        }
        Report::Room { frame, repetition } => {
            let command = command
                .arg(argument(alloc, asked, *frame))?
                .arg(numeral(alloc, asked, *repetition))?;
            Ok(command)
        }
        _ => Ok(command),
    }
}

// A variant's plan as a page.
fn picture<'a>(alloc: Global) -> Result<Command<'a>, AllocError>
    ensures { IfOk result (IsReadAs app.picture) }
{
    let command = Command::new(alloc, "picture")
        .about("Draws a variant's plan as a page of HTML, for a browser or a printer")
        .after_help(PICTURE_HELP)
        .arg(db(alloc))?
        .arg(variant(alloc))?
        .arg(named(
            alloc,
            "since",
            "FROM",
            "Marks what is new since this variant, and what is gone",
        ))?
        .arg(supplier(alloc))?;
    Ok(command)
}

// The records of a variant, as a file.
fn export<'a>(alloc: Global) -> Result<Command<'a>, AllocError>
    ensures { IfOk result (IsReadAs app.export) }
{
    let command = Command::new(alloc, "export")
        .about("Prints a variant's frames, placements or signals as a CSV file, which imports read")
        .after_help(EXPORT_HELP)
        .arg(db(alloc))?
        .arg(variant(alloc))?
        .arg(word(alloc, "ROWS", "Which rows: frames, placements or signals"))?
        .arg(part(alloc))?
        .arg(supplier(alloc))?;
    Ok(command)
}

fn import<'a>(alloc: Global) -> Result<Command<'a>, AllocError>
    ensures { IfOk result (IsReadAs app.import_words) }
{
    let command = Command::new(alloc, "import")
        .about(
            "Carries out a supplier's import: a CSV file of frames, placements or signals, all rows or none",
        )
        .after_help(IMPORT_HELP)
        .arg(db(alloc))?
        .arg(key(alloc))?
        .arg(variant(alloc))?
        .arg(word(
            alloc,
            "LABEL",
            "The import's label: sent again, it has the same answer",
        ))?
        .arg(rows(alloc))?;
    Ok(command)
}

fn replace<'a>(alloc: Global) -> Result<Command<'a>, AllocError>
    ensures { IfOk result (IsReadAs app.replace_words) }
{
    let command = Command::new(alloc, "replace")
        .about("Puts a supplier's CSV file in the place of the rows of the frames that it names")
        .after_help(REPLACE_HELP)
        .arg(db(alloc))?
        .arg(key(alloc))?
        .arg(variant(alloc))?
        .arg(rows(alloc))?
        .arg(flag(
            alloc,
            "whole",
            "The file is all that there is of its kind: what it does not name goes",
        ))?;
    Ok(command)
}

// What would become of each row of a file.
fn trial<'a>(alloc: Global) -> Result<Command<'a>, AllocError>
    ensures { IfOk result (IsReadAs app.try_words) }
{
    let command = Command::new(alloc, "try")
        .about("Says what would become of each row of a supplier's CSV file, and changes nothing")
        .after_help(TRY_HELP)
        .arg(db(alloc))?
        .arg(key(alloc))?
        .arg(variant(alloc))?
        .arg(rows(alloc))?
        .arg(flag(
            alloc,
            "replace",
            "Tries it as replace would carry it out; without it, as import would",
        ))?
        .arg(flag(
            alloc,
            "whole",
            "Tries it as replace --whole would carry it out; only with --replace",
        ))?;
    Ok(command)
}

// What is proposed for the wishes of a file.
fn propose<'a>(alloc: Global) -> Result<Command<'a>, AllocError>
    ensures { IfOk result (IsReadAs app.propose_words) }
{
    let command = Command::new(alloc, "propose")
        .about("Proposes a placement for each wish of a supplier's CSV file, and changes nothing")
        .after_help(PROPOSE_HELP)
        .arg(db(alloc))?
        .arg(key(alloc))?
        .arg(variant(alloc))?
        .arg(rows(alloc))?
        .arg(flag(
            alloc,
            "replace",
            "Proposes what replace would put in the place of the placements of the frames that are named",
        ))?;
    Ok(command)
}

// The command `check`, with the texts that it may take.
fn check_texts<'a>(alloc: Global) -> Result<Command<'a>, AllocError>
    ensures { IfOk result (IsReadAs app.check_texts) }
{
    let command = Command::new(alloc, "check")
        .about("Says what is wrong with the text of a file or a path, or with a register's file")
        .after_help(CHECK_HELP)
        .arg(free_word(
            alloc,
            "CONFIG",
            "A cluster file (TOML), at most 1,048,576 bytes",
        ))?
        .arg(named(
            alloc,
            "requests",
            "FILE",
            "Requests, a line each, as ask reads them; at most 16,777,216 bytes",
        ))?
        .arg(named(alloc, "rows", "FILE", "The file (CSV) of an import"))?
        .arg(named(
            alloc,
            "path",
            "PATH",
            "The path of a request over HTTP, all before its ?",
        ))?;
    Ok(command)
}

fn check<'a>(alloc: Global) -> Result<Command<'a>, AllocError>
    ensures { IfOk result (IsReadAs app.check) }
{
    let command = check_texts(alloc)?.arg(named(
        alloc,
        "register",
        "DB",
        "A register's file: what stands in the way of using it",
    ))?;
    Ok(command)
}

fn explain<'a>(alloc: Global) -> Result<Command<'a>, AllocError>
    ensures { IfOk result (IsReadAs app.explain) }
{
    let command = Command::new(alloc, "explain")
        .about("Says what a refusal or a fault means, when it comes and what to do")
        .after_help(EXPLAIN_HELP)
        .arg(free_word(
            alloc,
            "WORD",
            "The refusal's name or number, or the fault's word; without it all are listed",
        ))?;
    Ok(command)
}

// The register file.
fn db<'a>(alloc: Global) -> Arg<'a>
    ensures { (rule_of result ≡ app.word (codes "DB")) × (result.global ≡ false) }
{
    word(alloc, "DB", "The register file (an SQLite database)")
}

// The variant.
fn variant<'a>(alloc: Global) -> Arg<'a>
    ensures { (rule_of result ≡ app.word (codes "VARIANT")) × (result.global ≡ false) }
{
    word(alloc, "VARIANT", "The variant's name")
}

// A word for a name in what is asked.
fn argument<'a>(alloc: Global, asked: &Question, field: FieldName) -> Arg<'a>
    ensures { (rule_of result ≡ app.word (argument_name asked.now field)) × (result.global ≡ false) }
{
    word(
        alloc,
        argument_name(asked, field),
        argument_help(asked, field),
    )
}

// A word for a number in what is asked, any number.
fn numeral<'a>(alloc: Global, asked: &Question, field: FieldName) -> Arg<'a>
    ensures { (rule_of result ≡ app.numeral (argument_name asked.now field)) × (result.global ≡ false) }
{
    argument(alloc, asked, field).value_parser(value_parser!(u32))
}

// The key of a supplier.
fn key<'a>(alloc: Global) -> Arg<'a>
    ensures { (rule_of result ≡ app.word (codes "KEY")) × (result.global ≡ false) }
{
    word(
        alloc,
        "KEY",
        "The supplier's key; - takes it from standard input's first line",
    )
}

// A file of rows or wishes.
fn rows<'a>(alloc: Global) -> Arg<'a>
    ensures { (rule_of result ≡ app.word (codes "FILE")) × (result.global ≡ false) }
{
    word(alloc, "FILE", "The file (CSV), at most 65,536 bytes")
}

// Which part of the records is printed, any number.
fn part<'a>(alloc: Global) -> Arg<'a>
    ensures { (rule_of result ≡ app.part) × (result.global ≡ false) }
{
    Arg::new(alloc, "part")
        .long("part")
        .value_name("N")
        .help("Which part of the rows, of at most 512 each")
        .action(ArgAction::Set)
        .default_value("0")
        .value_parser(value_parser!(u32))
}

// The supplier that reads a report: where room is asked for it is the one whose frame it is.
fn reader<'a>(alloc: Global, asked: &Question) -> Arg<'a>
    ensures { (rule_of result ≡ app.reader asked.now) × (result.global ≡ false) }
{
    match asked {
        Query::Variant {
            report: Report::Room { .. },
            ..
        } => owner(alloc),
        _ => supplier(alloc),
    }
}

// The supplier whose frame it is.
fn owner<'a>(alloc: Global) -> Arg<'a>
    ensures { (rule_of result ≡ app.owner) × (result.global ≡ false) }
{
    Arg::new(alloc, "supplier")
        .long("supplier")
        .value_name("NAME")
        .help("Whose frame it is")
        .required(true)
        .action(ArgAction::Set)
}

// The supplier that reads a report.
fn supplier<'a>(alloc: Global) -> Arg<'a>
    ensures { (rule_of result ≡ app.supplier) × (result.global ≡ false) }
{
    Arg::new(alloc, "supplier")
        .long("supplier")
        .value_name("NAME")
        .help("Prints what this supplier sees; without it, what the integrator sees")
        .action(ArgAction::Set)
}

// A text that may be named, as a file, a path or another variant.
fn named<'a>(alloc: Global, name: &'a str, value: &'a str, help: &'a str) -> Arg<'a>
    ensures { (rule_of result ≡ app.named name.entry.now) × (result.global ≡ false) }
{
    Arg::new(alloc, name)
        .long(name)
        .value_name(value)
        .help(help)
        .action(ArgAction::Set)
}

// A word that is given or left out.
fn flag<'a>(alloc: Global, name: &'a str, help: &'a str) -> Arg<'a>
    ensures { (rule_of result ≡ app.flag name.entry.now) × (result.global ≡ false) }
{
    Arg::new(alloc, name)
        .long(name)
        .help(help)
        .action(ArgAction::SetTrue)
}

// A word that is to stand at its place.
fn word<'a>(alloc: Global, name: &'a str, help: &'a str) -> Arg<'a>
    ensures { (rule_of result ≡ app.word name.entry.now) × (result.global ≡ false) }
{
    Arg::new(alloc, name)
        .help(help)
        .required(true)
        .action(ArgAction::Set)
}

// A word that may stand at its place.
fn free_word<'a>(alloc: Global, name: &'a str, help: &'a str) -> Arg<'a>
    ensures { (rule_of result ≡ app.free_word name.entry.now) × (result.global ≡ false) }
{
    Arg::new(alloc, name).help(help).action(ArgAction::Set)
}

/// The program's version, and the logic that it is proved with.
const VERSION: &str = "1.0\nlogic dac8208d650f15bf";

const PROGRAM_ABOUT: &str = "\
Plans the static segment of a FlexRay bus: a register in which an integrator grants
slots, and each supplier places frames and packs signals of its own";

const PROGRAM_HELP: &str = "\
Status 0: done. Status 1: refused, or a fault; standard error says which.
Status 2: the words name no job.

Example: a register file, the figures of its cluster, and a server
  slotplan create car.db cluster.toml
  slotplan cluster car.db
  slotplan serve car.db 8080";

const RUN_HELP: &str = "\
A script is a cluster file, the line ---, and a request on each line after it:
a key, a space and the request's JSON. With --lines an answer begins with the
number of its request's line in the script, all lines of the script counted.

Example:
  slotplan run < first.script
  slotplan run --lines < first.script";

const CREATE_HELP: &str = "\
Example:
  slotplan create car.db cluster.toml";

const MIGRATE_HELP: &str = "\
End the server of the file first, and keep a copy of the file and of its log. A file of schema 2
is left as it is: WrongSchema.

Example:
  mkdir before && cp car.db* before
  slotplan migrate car.db";

const SERVE_HELP: &str = "\
Example:
  slotplan serve car.db 8080
  curl -H 'X-Office-Key: supplier01' http://127.0.0.1:8080/v1/variants/v1/schedule";

const ASK_HELP: &str = "\
A line is a key, a space and the request's JSON. It is answered with a line on
standard output, once the file has what it changes. Empty lines are skipped. With
--lines an answer begins with the number of its line, empty lines counted, as
check --requests counts them.

Example:
  slotplan ask car.db < changes.txt
  slotplan ask car.db --lines < changes.txt";

const EXPORT_HELP: &str = "\
A header, and a line for each row. Behind the last part there is the header alone. For
the integrator each line has one field more, the supplier.

Example:
  slotplan export car.db v1 placements --supplier s1 > placements.csv
  slotplan export car.db v1 signals --part 1 --supplier s1";

const PICTURE_HELP: &str = "\
The page shows the static segment: cycles down, slots across, each grant and each
frame that is sent; how full each supplier's grants are; and the frames with their
gaps and signals. It needs no other file and no network. With --since it marks what is
new since another variant and what is gone, and lists both.

Example:
  slotplan picture car.db v1 > v1.html
  slotplan picture car.db v2 --since v1 > v2.html
  slotplan picture car.db v1 --supplier s1 > s1.html";

const IMPORT_HELP: &str = "\
Other users of the machine may see a key that stands on the command line. With - for KEY
it is read from standard input, whose first line it is.

Example:
  slotplan import car.db - v1 week47 placements.csv < key.txt";

const REPLACE_HELP: &str = "\
The frames that the file names lose their placements, or their signals, and get those of
the file; all others stay. All rows are carried out, or none. A file of frames adds those
that are not there. With --whole all others lose theirs too, and a file of frames takes
out those that it does not name.

Other users of the machine may see a key that stands on the command line. With - for KEY
it is read from standard input, whose first line it is.

Example:
  slotplan replace car.db - v1 placements.csv < key.txt
  slotplan replace car.db - v1 frames.csv --whole < key.txt";

const TRY_HELP: &str = "\
A line for each row: its number (the header is 1), the number and the name of its refusal,
and what it meets; or 00 done. A refused row changes nothing for those behind it. Where
there is one the status is 1.

Other users of the machine may see a key that stands on the command line. With - for KEY
it is read from standard input, whose first line it is.

Example:
  slotplan try car.db - v1 placements.csv < key.txt
  slotplan try car.db - v1 placements.csv --replace < key.txt
  slotplan try car.db - v1 placements.csv --replace --whole < key.txt";

const PROPOSE_HELP: &str = "\
FILE has the header frame,node,channels,repetition. Each further row is a wish: one more
placement of the frame. Standard output has the file to import: the header and a row for
each wish. A line for each wish without a placement goes to standard error, as 0004 32
NoRoom, where the header is line 1, and how many slots a node lacks, as LACK n1 A 0001.
Where there is one the status is 1, and with --replace standard output is empty.

Other users of the machine may see a key that stands on the command line. With - for KEY
it is read from standard input, whose first line it is.

Example:
  slotplan propose car.db - v1 wishes.csv < key.txt > placements.csv
  slotplan propose car.db - v1 wishes.csv --replace < key.txt > placements.csv";

const CHECK_HELP: &str = "\
Of a cluster file the first fault is told, of requests and rows each fault with its line,
of a path each fault. Of rows it is told what each cluster refuses, as the channel a or
slot 0. The register is not asked: it may still refuse what has no fault here, as a slot
that its cluster lacks, or that is not granted. Of a register's file each thing is told
that stands in the way of using it, and else nothing. The file is not changed.

Example:
  slotplan check cluster.toml
  slotplan check --requests changes.txt
  slotplan check --rows placements.csv
  slotplan check --path /v1/variants/sport/imports/week_48
  slotplan check --register car.db";

const EXPLAIN_HELP: &str = "\
Example:
  slotplan explain CellTaken";
