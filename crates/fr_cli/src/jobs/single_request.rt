//! Asks a register for a report, a change, a trial or a proposal, and gives the text of its answer.
ghost use Rattle.std.specs.Prelude.{◌≡◌, IfOk};
ghost use Rattle.fr_base.specs.Desks.{AsksDesk};
ghost use Rattle.fr_cli.specs.Asked.{asked_by};
ghost use Rattle.fr_cli.specs.Reading.{Stays};
ghost use Rattle.fr_cli.specs.SingleRequest.{IsAnswer, IsForReader, IsRefusedBy, IsToldBy, Leads, Prints, asked_with, for_reader, query_of};
ghost use Rattle.fr_cli.specs.Outcomes.{file_of, printed_of, said_of};

use crate::failure::Failure;
use crate::fault::Fault;
use crate::jobs::answers::actor_of;
use crate::streams::answer_line::line_of;
use crate::streams::outcome::{Outcome, is_complete, outcome_of};
use crate::words::inquiry::Inquiry;
use fr_base::{Actor, Answer, Ask, Desk, NoMemory, Proposal, Refusal, ReportRows, Request};
use fr_text::{write_lines, write_proposed, write_unplaced};
use std::alloc::Global;

/// The report for which the query asks, as its reader sees it.
pub fn report_on<D: Desk>(
    alloc: Global,
    desk: &mut D,
    query: Inquiry<'_>,
) -> Result<Vec<u8>, Failure>
    ensures falls { D.clean desk.new → D.clean desk.old }
    ensures prints { Prints (IsForReader
        (IsAnswer (query_of query.entry) (D.clean desk.new) (D.stands desk.old)
        (D.stands desk.new))) result }
    ensures stays { Stays (D.clean desk.new) (D.stands desk.old) (D.stands desk.new) }
{
    let request = query.request(alloc)?;
    let given = ask_as(alloc, desk, query.reader(), request);
    tell_answer(alloc, &for_reader(given))
}

/// Asks for a change, a trial or a proposal, as whoever has the key, and gives what is printed of the answer.
pub fn change<D: Desk>(
    alloc: Global,
    desk: &mut D,
    key: &[u8],
    request: Request,
) -> Result<Vec<u8>, Failure>
    ensures falls { D.clean desk.new → D.clean desk.old }
    ensures prints { Prints (IsAnswer (asked_with key.now request) (D.clean desk.new)
        (D.stands desk.old) (D.stands desk.new)) result }
    ensures leads { Leads (D.clean desk.new) (D.stands desk.old) (D.stands desk.new)
        (asked_with key.now request) }
{
    let answer = ask_by(alloc, desk, key, request);
    tell_answer(alloc, &answer)
}

// Asks as whoever has the key.
fn ask_by<D: Desk>(alloc: Global, desk: &mut D, key: &[u8], request: Request) -> Answer
    ensures { AsksDesk D.Desk (IsAnswer (asked_with key.now request)) desk.old desk.new result }
{
    let actor = actor_of(desk, key);
    ask_as(alloc, desk, actor, request)
}

// Asks as this actor. Where there is none, the answer is `UnknownKey`.
fn ask_as<D: Desk>(alloc: Global, desk: &mut D, actor: Option<Actor>, request: Request) -> Answer
    ensures { AsksDesk D.Desk (IsAnswer (λ c b. asked_by actor request)) desk.old desk.new result }
{
    match actor {
        Some(actor) => desk.ask(alloc, &Ask { actor, request }),
        None => Answer::Refused(Refusal::UnknownKey),
    }
}

// The answer to a reader whom the command line names. No key was given, so `NoSupplier` stands for `UnknownKey`.
fn for_reader(answer: Answer) -> Answer
    ensures { result ≡ for_reader answer }
{
    if matches!(&answer, Answer::Refused(Refusal::UnknownKey)) {
        return Answer::Refused(Refusal::NoSupplier);
    }
    answer
}

// What is printed of the answer: as the text of a job that is done, or as the failure of one that is not.
fn tell_answer(alloc: Global, answer: &Answer) -> Result<Vec<u8>, Failure>
    ensures { IsToldBy answer.now result }
{
    match outcome_of(answer) {
        Outcome::Done => Ok(printed_of(alloc, answer)?),
        Outcome::RefusedRows => Err(Failure::RefusedRows {
            text: printed_of(alloc, answer)?,
        }),
        Outcome::UnplacedWishes => Err(Failure::UnplacedWishes {
            file: printed_of(alloc, answer)?,
            lines: said_of(alloc, answer)?,
        }),
        Outcome::Refused => Err(tell_refusal(alloc, answer)),
    }
}

// The file of a proposal, the lines of another report, or the line of another answer.
fn printed_of(alloc: Global, answer: &Answer) -> Result<Vec<u8>, NoMemory>
    ensures { IfOk result (λ text. text.items ≡ printed_of answer.now) }
{
    match answer {
        Answer::Report {
            rows: ReportRows::Proposal { replaces, proposal },
            ..
        } => file_of(alloc, *replaces, proposal),
        Answer::Report { .. } => write_lines(alloc, answer),
        _ => line_of(alloc, answer),
    }
}

// The file with which a supplier takes a proposal. A replacement has none where a wish has no placement.
fn file_of(alloc: Global, replaces: bool, proposal: &Proposal) -> Result<Vec<u8>, NoMemory>
    ensures { IfOk result (λ text. text.items ≡ file_of replaces proposal.now) }
{
    if replaces && !is_complete(proposal) {
        return Ok(Vec::new(alloc));
    }
    write_proposed(alloc, proposal)
}

// The lines of a proposal beside its file; none of another answer.
fn said_of(alloc: Global, answer: &Answer) -> Result<Vec<u8>, NoMemory>
    ensures { IfOk result (λ text. text.items ≡ said_of answer.now) }
{
    match answer {
        Answer::Report {
            rows: ReportRows::Proposal { proposal, .. },
            ..
        } => write_unplaced(alloc, proposal),
        _ => Ok(Vec::new(alloc)),
    }
}

/// The failure of a job in which this was refused to a reader whom the command line names.
pub fn refused_reader(alloc: Global, refusal: Refusal) -> Failure
    ensures { IsRefusedBy (for_reader (Answer.Refused refusal)) result }
{
    tell_refusal(alloc, &for_reader(Answer::Refused(refusal)))
}

// The failure of a job that was refused with this answer.
fn tell_refusal(alloc: Global, answer: &Answer) -> Failure
    ensures { IsRefusedBy answer.now result }
{
    match line_of(alloc, answer) {
        Ok(line) => Failure::Refused { line },
        Err(NoMemory) => Failure::Fault(Fault::NoMemory),
    }
}
