//! Serves one connection: reads what it asks, asks the register, and writes the reply.
ghost use Rattle.std.specs.Prelude.{◌≡◌, ◌≤◌, IfErr, OnErr, OnOk, false};
ghost use Rattle.std.specs.List.{list_any};
ghost use Rattle.fr_http.specs.Calls.{ReadsAndWrites, WritesTo};
ghost use Rattle.fr_http.specs.Connection.{HasAnswered, HasTaken, Invites, IsConnection, Sends, WasFlushed, WritesText};
ghost use Rattle.fr_http.specs.Exchanges.{was_asked};
ghost use Rattle.fr_http.specs.Outcome.{due, is_continue};
ghost use Rattle.fr_http.specs.Reads.{IsReadWithin, MayEnd, MayEndAsking, SpendsReads};
ghost use Rattle.fr_http.specs.Writes.{LastFailed, MayFail, MayFailAsking};

use crate::body::read_body;
use crate::engine::Engine;
use crate::exchange::{Exchange, actor, asked_operation};
use crate::exchange_reply::reply_to;
use crate::fault::{LinkFault, Unasked};
use crate::head::{Head, Values};
use crate::input::{Input, MAX_READS};
use crate::method::Method;
use crate::page_reply::planner_reply;
use crate::plan::{Plan, make_plan};
use crate::receive::receive;
use crate::reply::{ReplyText, answer_reply, engine_reply, explained_reply};
use crate::source::Source;
use fr_base::{Answer, Desk, NoMemory, Refusal};
use fr_text::{Output, Sink, WriteFailed};
use std::alloc::Global;

/// A connection was served: the final reply's status, and whether the register was asked.
#[derive(Clone, Copy, Debug, PartialEq, Eq)]
pub struct Served {
    pub status: u16,
    pub asked: bool,
}

/// Serves one connection: reads a request, asks the register, draws a picture of what the key's owner sees, or tells what
/// asks nothing of the register, and writes the reply. It gives the reply's status, or the fault that ended the connection, and whether the register
/// was asked. Where it was not, the desk is as it was.
#[tactic(auto, using(crate::proofs::ReadsLaws::spending))]
pub fn serve_one<R: Source, W: Sink, D: Desk>(
    engine: &Engine,
    reader: &mut R,
    writer: &mut W,
    desk: &mut D,
) -> Result<Served, LinkFault>
    ensures falls { D.clean desk.new → D.clean desk.old }
    ensures served { IsConnection (D.clean desk.new) (D.stands desk.old) (D.stands desk.new)
        (R.remaining reader.old) (R.remaining reader.new) (W.contents writer.old)
        (W.contents writer.new) result }

    // The connection is read at most so often, and such a fault of reading comes only for its cause.
    ensures reads { IsReadWithin R.reads MAX_READS reader.old reader.new result }

    // Where a reply was written it was flushed.
    ensures flushed { OnOk result (WasFlushed W.flushes writer.new) }

    // A fault of writing comes only where the last call on the writer failed.
    ensures failed { IfErr result (λ fault. MayFail W.writes W.flushes fault writer.new) }

    // Where the register was not asked it is as it was.
    ensures stays { was_asked result ≡ false → desk.new ≡ desk.old }
{
    let mut input = Input::new(reader);
    let mut output = Output::new(writer);
    serve(engine, &mut input, &mut output, desk)
}

// Serves the connection of this input and output.
#[tactic(auto, using(crate::proofs::ReadsLaws::spending))]
fn serve<R: Source, W: Sink, D: Desk>(
    engine: &Engine,
    input: &mut Input<'_, R>,
    output: &mut Output<'_, W>,
    desk: &mut D,
) -> Result<Served, LinkFault>
    ensures falls { D.clean desk.new → D.clean desk.old }
    ensures served { ReadsAndWrites R.Read W.Write
        (IsConnection (D.clean desk.new) (D.stands desk.old) (D.stands desk.new))
        input.old input.new output.old output.new result }
    ensures stays { was_asked result ≡ false → desk.new ≡ desk.old }
    ensures reads { SpendsReads R.reads (MayEnd R.reads) input.old input.new result }
    ensures flushed { OnOk result (WasFlushed W.flushes output.new.writer.now) }
    ensures failed { IfErr result (λ fault. MayFail W.writes W.flushes fault
        output.new.writer.now) }
    ensures retries { output.new.retries ≤ output.old.retries }
{
    let alloc = engine.alloc();
    match take(engine, input, output, desk) {
        Ok(exchange) => answer(alloc, &exchange, output, desk),
        Err(Unasked::Engine(rejection)) => send(engine_reply(alloc, rejection), output, false),
        Err(Unasked::Page { part, held }) => send(planner_reply(engine, part, held), output, false),
        Err(Unasked::Explained { word }) => send(
            explained_reply(alloc, word.as_ref()),
            output,
            false,
        ),
        Err(Unasked::Refused(refusal)) => send(
            answer_reply(alloc, Method::Post, &Answer::Refused(refusal)),
            output,
            false,
        ),
        Err(Unasked::Fault(fault)) => Err(fault),
    }
}

// Reads a request, as far as what it asks of the register, or why it asks nothing.
#[tactic(auto, using(crate::proofs::ReadsLaws::spending))]
fn take<R: Source, W: Sink, D: Desk>(
    engine: &Engine,
    input: &mut Input<'_, R>,
    output: &mut Output<'_, W>,
    desk: &D,
) -> Result<Exchange, Unasked>
    ensures taken { ReadsAndWrites R.Read W.Write (HasTaken (D.stands desk.now))
        input.old input.new output.old output.new result }
    ensures reads { SpendsReads R.reads (MayEndAsking R.reads) input.old input.new result }
    ensures failed { IfErr result (λ unasked. MayFailAsking W.writes W.flushes unasked
        output.new.writer.now) }
    ensures retries { output.new.retries ≤ output.old.retries }
{
    let alloc = engine.alloc();
    let received = receive(alloc, input)?;
    let head = received.head();
    let plan = make_plan(engine, &head)?;
    invite(&head, &plan, output)?;
    let body = read_body(alloc, input, head.rest(), plan.length)?;
    let operation = asked_operation(engine, &plan, &head, &body)?;
    let actor = actor(desk, &head).ok_or(Unasked::Refused(Refusal::UnknownKey))?;
    Ok(operation.asked_by(actor, plan.route.method()))
}

// Writes the interim reply, if it is due.
fn invite<W: Sink>(
    head: &Head<'_>,
    plan: &Plan<'_>,
    output: &mut Output<'_, W>,
) -> Result<(), LinkFault>
    ensures sent { WritesTo W.Write (Invites plan.now head.now.0) output.old output.new result }
    ensures failed { OnErr result (LastFailed W.writes W.flushes output.new.writer.now) }
    ensures retries { output.new.retries ≤ output.old.retries }
{
    if is_due(head, plan.length) {
        write(b"HTTP/1.1 100 Continue\r\n\r\n", output, false)
    } else {
        Ok(())
    }
}

/// Whether `100 Continue` is due: a body is to come, the version is 1.1, and a field asks for it.
#[tactic(auto, unfolding(crate::specs::Outcome::due))]
pub(crate) fn is_due(head: &Head<'_>, length: usize) -> bool
    ensures { result ≡ due length head.now.0 }
{
    length > 0 && head.minor() == 1 && expects_continue(head.values("expect"))
}

// Whether a field asks for `100 Continue`.
#[tactic(auto, using(crate::proofs::HeadLaws::continues))]
fn expects_continue(mut values: Values<'_>) -> bool
    ensures { result ≡ list_any is_continue values.entry }
{
    while let Some(value) = values.next() {
        if value.eq_ignore_ascii_case(b"100-continue") {
            return true;
        }
    }
    false
}

// Deals with what is asked, and writes the reply.
fn answer<W: Sink, D: Desk>(
    alloc: Global,
    exchange: &Exchange,
    output: &mut Output<'_, W>,
    desk: &mut D,
) -> Result<Served, LinkFault>
    ensures falls { D.clean desk.new → D.clean desk.old }
    ensures stays { was_asked result ≡ false → desk.new ≡ desk.old }
    ensures answered { WritesTo W.Write
        (HasAnswered (D.clean desk.new) (D.stands desk.old) (D.stands desk.new) exchange.now)
        output.old output.new result }
    ensures flushed { OnOk result (WasFlushed W.flushes output.new.writer.now) }
    ensures failed { IfErr result (λ fault. MayFail W.writes W.flushes fault
        output.new.writer.now) }
    ensures retries { output.new.retries ≤ output.old.retries }
{
    send(reply_to(alloc, exchange, desk), output, exchange.is_ask())
}

// Writes a reply, if there was memory for it.
fn send<W: Sink>(
    reply: Result<ReplyText, NoMemory>,
    output: &mut Output<'_, W>,
    asked: bool,
) -> Result<Served, LinkFault>
    ensures sent { WritesTo W.Write (Sends reply asked) output.old output.new result }
    ensures flushed { OnOk result (WasFlushed W.flushes output.new.writer.now) }
    ensures failed { IfErr result (λ fault. MayFail W.writes W.flushes fault
        output.new.writer.now) }
    ensures retries { output.new.retries ≤ output.old.retries }
{
    let reply = reply.map_err(|_| LinkFault::NoMemory { asked })?;
    write(&reply.bytes, output, asked)?;
    Ok(Served {
        status: reply.status,
        asked,
    })
}

// Writes all the bytes, and hands them on.
fn write<W: Sink>(bytes: &[u8], output: &mut Output<'_, W>, asked: bool) -> Result<(), LinkFault>
    ensures written { WritesTo W.Write (WritesText bytes.now) output.old output.new result }
    ensures fault { IfErr result (λ fault. fault ≡ LinkFault.WriteFailed asked) }
    ensures flushed { OnOk result (WasFlushed W.flushes output.new.writer.now) }
    ensures failed { OnErr result (LastFailed W.writes W.flushes output.new.writer.now) }
    ensures retries { output.new.retries ≤ output.old.retries }
{
    match write_out(bytes, output) {
        Ok(()) => Ok(()),
        Err(WriteFailed) => Err(LinkFault::WriteFailed { asked }),
    }
}

// Writes all the bytes, and hands them on.
fn write_out<W: Sink>(bytes: &[u8], output: &mut Output<'_, W>) -> Result<(), WriteFailed>
    ensures written { WritesTo W.Write (WritesText bytes.now) output.old output.new result }
    ensures flushed { OnOk result (WasFlushed W.flushes output.new.writer.now) }
    ensures failed { OnErr result (LastFailed W.writes W.flushes output.new.writer.now) }
    ensures retries { output.new.retries ≤ output.old.retries }
{
    output.write_all(bytes)?;
    output.flush()
}
