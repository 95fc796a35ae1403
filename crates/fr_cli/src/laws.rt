//! Laws of a script's answers, of the words of faults, and of jobs: lines that are answered one after another are a run of the
//! register, and come to one end; each fault's word is explained; what jobs ask, one after another at one register's file, is a
//! run of the register too, whatever stops come between them.
ghost use Rattle.fr_cli.specs.Laws.{AnsweredLinesAreARun, AvailableAnswersAreSteps, EachFaultIsExplained};
ghost use Rattle.fr_cli.specs.OutputLaws.{AnsweredLinesAreOne, NumberedAreRequests, OutputIsOne, ScriptLinesAreParts};
ghost use Rattle.fr_cli.specs.Series.{AllJobsAreKept, JobLeads, JobsAreKept, MadeIsHeld};
ghost use Rattle.fr_cli.specs.Stops.{JobStops};
ghost use Rattle.fr_office.specs.Crashed.{leaves_of};

use crate::files::registers::Registers;
use crate::files::text_files::TextFiles;
use crate::streams::listener::Listener;
use fr_base::Desk;
use fr_office::Office;
use fr_store::Store;
use fr_text::Sink;
use fr_world::Records;
use sqlite::FileStore;
use sqlite_disk::Disk;

/// What answered lines ask, each as the book then stood, is a run of the register with their answers.
pub fn answered_lines_are_a_run()
    ensures { AnsweredLinesAreARun }
{}

/// Lines of which none is answered `Unavailable` are answered by the register's steps, one after another.
pub fn available_answers_are_steps()
    ensures { AvailableAnswersAreSteps }
{}

/// The same lines from one book, `Unavailable` at the same places or nowhere, have the same answers and lead to the same
/// book.
pub fn answered_lines_are_one()
    ensures { AnsweredLinesAreOne }
{}

/// Two outputs of a script, `Unavailable` at the same places or nowhere, are the same bytes.
pub fn output_is_one()
    ensures { OutputIsOne }
{}

/// The requests of a text that have the numbers of their lines are its requests.
pub fn numbered_are_requests()
    ensures { NumberedAreRequests }
{}

/// The lines of a script are those of its cluster file, the separator, and those behind it. So the number of a request's line
/// counts all lines above it.
pub fn script_lines_are_parts()
    ensures { ScriptLinesAreParts }
{}

/// Each word of a fault that ends a job or a connection is explained.
pub fn each_fault_is_explained()
    ensures { EachFaultIsExplained }
{}

/// A register's file that was made, and that is opened next as it is or as a crash left it, holds the book of a new register. That is
/// the register of the cluster file that was read.
pub fn made_is_held<D: Disk, K: Desk, G: Registers, F: TextFiles, L: Listener, O: Sink, E: Sink>()
    ensures { MadeIsHeld D.Disk K.Desk G.Registers F.TextFiles F.Reader.Read L.Listener L.Reader.Source
        L.Writer.Sink O.Sink E.Sink }
{}

/// What a job asked the register of a file, by what the job read and printed, leads from the book that the file held to the one that
/// it holds next: the book after what was asked, and where the file failed to close at most one request more. Or the job ended as one
/// that did not open the file, and asked nothing. Then what is left holds next what the file held, where it is clear what is left.
pub fn job_leads<D: Disk, K: Desk, G: Registers, F: TextFiles, L: Listener, O: Sink, E: Sink>()
    ensures { JobLeads D.Disk K.Desk G.Registers F.TextFiles F.Reader.Read L.Listener L.Reader.Source
        L.Writer.Sink O.Sink E.Sink }
{}

/// Behind each line that a job answered, and each connection that it served, there was a register that stood for the book after it. So
/// there was before the first. If the program stops there, a crash leaves that book, or the one after one request more. Nobody else may
/// have written to the file before the job closed it. The job came to its end: that the same holds of one that was stopped is argued.
/// Or the job did not open the file.
pub fn job_stops<D: Disk, G: Registers, F: TextFiles, L: Listener, O: Sink, E: Sink>()
    ensures { JobStops D.Disk ⟦<Office<Store<FileStore<D>>> as Desk>⟧
        (leaves_of ⟦<Store<FileStore<D>> as Records>⟧.leaves) G.Registers F.TextFiles F.Reader.Read L.Listener
        L.Reader.Source L.Writer.Sink O.Sink E.Sink }
{}

/// What jobs did, one after another at one file, with crashes in them and between them, leads from the book that the file held at
/// first to the one after all that they asked, with one request more at most behind each whose file failed to close. To each
/// supplier all was answered as if it were alone, and at most one frame is sent in a cell.
pub fn jobs_are_kept()
    ensures { JobsAreKept }
{}

/// So it is also where jobs come before them, between them or behind them that did not open the file: each book that the file held
/// before such a job it holds next. And so it is where jobs were stopped behind an answer, as [`job_stops`] says.
pub fn all_jobs_are_kept()
    ensures { AllJobsAreKept }
{}
