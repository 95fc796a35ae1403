//! Does a job, and says how it ended: what is printed of it, and its status.
ghost use Rattle.std.specs.Prelude.{◌≡◌, Err, Result, IfErr, ⊤};
ghost use Rattle.fr_cli.specs.Endings.{IsPrinted, IsTold, Tells, status_of};
ghost use Rattle.fr_cli.specs.Faults.{IsNotMigrated};
ghost use Rattle.fr_cli.specs.Handlings.{handlings};
ghost use Rattle.fr_cli.specs.Jobs.{IsPerformed, path_of};
ghost use Rattle.fr_cli.specs.Outlets.{IsSaid, StopsSo, outlet};
ghost use Rattle.fr_cli.specs.Performing.{of_script};
ghost use Rattle.fr_cli.specs.RegisterFiles.{IsMoved};
ghost use Rattle.fr_cli.specs.Runs.{IsRunOf};
ghost use Rattle.fr_cli.specs.Texts.{readings};
ghost use Rattle.fr_cli.specs.Visits.{comings};
ghost use Rattle.fr_cli.specs.declared.script_fault.ScriptFault.{ScriptFault as Early};

use crate::failure::Failure;
use crate::fault::{Fault, of_script};
use crate::files::registers::Registers;
use crate::files::text_files::TextFiles;
use crate::jobs::ask::ask;
use crate::jobs::check::check;
use crate::jobs::create::create;
use crate::jobs::deliver::deliver_file;
use crate::jobs::explain::explain_word;
use crate::jobs::print_task::PrintTask;
use crate::jobs::register_task::run_task;
use crate::jobs::script::run_script;
use crate::jobs::serve::{Service, serve};
use crate::streams::listener::Listener;
use crate::streams::printing::{end, print, print_all, tell};
use crate::words::{Job, WordFault};
use fr_base::Desk;
use fr_desks::Left;
use fr_office::Office;
use fr_text::Sink;
use sqlite_disk::Disk;
use std::alloc::Global;
use std::io::Read;

/// Does the job, and gives its status: 0 where it was done; 1 where the register refused it, or would refuse rows of a
/// file that was tried, or a fault ended it. What cannot be written to `err` is lost. Beside the status it gives what is
/// left of the job's register file, of which [`end_closed`](crate::end_closed) makes the status that the process ends with.
/// The register's file stands in `registers`, and the texts that it reads by their paths in `files`; a server's connections come in at
/// the listener. It handles the register's file at the job's path, and no other.
pub fn perform<G: Registers, F: TextFiles, R: Read, O: Sink, E: Sink, L: Listener>(
    alloc: Global,
    job: &Job<'_>,
    registers: &mut G,
    files: &mut F,
    input: &mut R,
    out: &mut O,
    err: &mut E,
    listener: &mut L,
) -> (u8, Left<G::File>)
    ensures { IsPerformed ⟦<Office<G::Records> as Desk>⟧
        (G.holds registers.old (path_of job.now)) result.1
        (readings F.TextFiles F.Reader.Read files.old files.new)
        (handlings G.Registers registers.old registers.new)
        (comings L.Listener L.Reader.Source L.Writer.Sink listener.old listener.new) job.now record {
          input = record { old = R.remaining input.old; new = R.remaining input.new };
          out = outlet O.Sink out.old out.new;
          err = outlet E.Sink err.old err.new;
        } result.0 }
{
    match *job {
        Job::Run { numbered } => (end_script(alloc, input, out, err, numbered), None),
        Job::Create { db, config } => ended(create(alloc, registers, db, config, files), err),
        Job::Migrate { db } => ended(migrate_file(registers, db), err),
        Job::Serve {
            db,
            port,
            count,
            seconds,
            ..
        } => {
            let service = Service {
                port,
                count,
                seconds,
            };
            ended(
                serve(alloc, registers, db, service, listener, out, err),
                err,
            )
        }
        Job::Ask { db, numbered } => ended(ask(alloc, registers, db, input, out, numbered), err),
        Job::Report { db, query } => {
            let mut report = PrintTask::Report(query);
            told(run_task(alloc, registers, db, &mut report), out, err)
        }
        Job::Picture {
            db,
            variant,
            since,
            supplier,
        } => {
            let mut picture = PrintTask::Picture {
                variant,
                since,
                supplier,
            };
            told(run_task(alloc, registers, db, &mut picture), out, err)
        }
        Job::Deliver { db, delivery } => {
            let delivered = deliver_file(alloc, registers, db, delivery, files, input);
            told(delivered, out, err)
        }
        Job::Check { file } => (tell(check(alloc, registers, files, file), out, err), None),
        Job::Explain { word } => (tell(explain_word(alloc, word), out, err), None),
    }
}

/// Says why words name no job, and gives the status: 0 where help or the version was asked for and is printed; 1 where it
/// cannot be printed, or there was no memory; 2 where the program was called otherwise.
pub fn explain<O: Sink, E: Sink>(fault: &WordFault, out: &mut O, err: &mut E) -> u8
    ensures help { (text : _) → fault.now ≡ WordFault.Help text
        → IsPrinted (outlet O.Sink out.old out.new) (outlet E.Sink err.old err.new)
        text.bytes.items result }
    ensures usage { (text : _) → fault.now ≡ WordFault.Usage text
        → (result ≡ 2) × (out.new ≡ out.old)
        × IsSaid (outlet E.Sink err.old err.new) text.bytes.items }
    ensures memory { fault.now ≡ WordFault.NoMemory
        → (result ≡ 1) × (out.new ≡ out.old)
        × Tells E.Sink err.old err.new (Err Fault.NoMemory) }
{
    match fault {
        WordFault::Help { text } => print_all(text.as_bytes(), out, err),
        WordFault::Usage { text } => {
            let _ = print(text.as_bytes(), err);
            2
        }
        WordFault::NoMemory => end(Err(Fault::NoMemory), err),
    }
}

// Ends a job that gives no text: what it came to, and what is left of its file.
fn ended<D: Disk, E: Sink>(job: (Result<(), Fault>, Left<D>), err: &mut E) -> (u8, Left<D>)
    ensures status { result.0 ≡ status_of job.0 }
    ensures tells { Tells E.Sink err.old err.new job.0 }
    ensures left { result.1 ≡ job.1 }
{
    let (done, left) = job;
    (end(done, err), left)
}

// Ends a job that gives a text: what it came to, and what is left of its file.
fn told<D: Disk, O: Sink, E: Sink>(
    job: (Result<Vec<u8>, Failure>, Left<D>),
    out: &mut O,
    err: &mut E,
) -> (u8, Left<D>)
    ensures told { IsTold (outlet O.Sink out.old out.new) (outlet E.Sink err.old err.new) job.0
        result.0 }
    ensures left { result.1 ≡ job.1 }
{
    let (done, left) = job;
    (tell(done, out, err), left)
}

// Runs the script on standard input.
fn end_script<R: Read, O: Sink, E: Sink>(
    alloc: Global,
    input: &mut R,
    out: &mut O,
    err: &mut E,
    numbered: bool,
) -> u8
    ensures run { (done : Result ⊤ Early) × (result ≡ status_of (of_script done))
        × Tells E.Sink err.old err.new (of_script done)
        × IsRunOf numbered (R.remaining input.old) (R.remaining input.new) (O.contents out.old)
        (O.contents out.new) done × StopsSo O.Sink out.new done }
{
    end(of_script(run_script(alloc, input, out, numbered)), err)
}

// Migrates the register in a file.
fn migrate_file<G: Registers>(registers: &mut G, db: &str) -> (Result<(), Fault>, Left<G::File>)
    ensures fault { IfErr result.0 (IsNotMigrated (G.holds registers.old db.now) result.1) }
    ensures moved { IsMoved (G.holds registers.old db.now) result.1 result.0 }
    ensures files { (handlings G.Registers registers.old registers.new).migrated db.now }
{
    match registers.migrate(db) {
        Ok(left) => (Ok(()), Some(left)),
        Err((fault, left)) => (Err(Fault::Register(fault)), left),
    }
}
