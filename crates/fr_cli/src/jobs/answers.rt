//! Answers lines of requests by a desk, one after another.
ghost use Rattle.std.specs.Prelude.{◌≡◌, ◌<◌, ◌^◌, IfErr};
ghost use Rattle.fr_base.specs.Actors.{actor_of};
ghost use Rattle.fr_base.specs.Desks.{AsksDesk, InSound};
ghost use Rattle.fr_cli.specs.AnsweredLines.{GivesAnswer, HasWritten, Reads};

use crate::script_fault::ScriptFault;
use crate::streams::answer_line::numbered_line;
use crate::streams::numbered_lines::next_request;
use fr_base::{Actor, Answer, Ask, Desk, Refusal};
use fr_text::{Output, Sink, key_and_text, read_command};
use std::alloc::Global;
use std::str;

/// Writes the answer to each request, before the next one is read. Behind each there is a desk that stands for the book after it.
/// Where lines are numbered, an answer has the number of its request's line before it. The first line's is `first`.
pub fn write_answers<D: Desk, W: Sink>(
    alloc: Global,
    desk: &mut D,
    lines: &[u8],
    first: u64,
    numbered: bool,
    output: &mut Output<'_, W>,
) -> Result<(), ScriptFault>
    requires room { first < 2 ^ 63 }
    ensures { HasWritten D.Desk W.Sink numbered first lines.now desk.old desk.new output.old
        output.new result }
{
    let mut rest = lines;
    let mut number = first;
    while let Some(next) = next_request(rest, number) {
        let answer = answer_line(alloc, desk, next.line)?;
        let text = numbered_line(alloc, numbered, next.number, &answer)?;
        output.write_all(&text)?;
        number = next.number + 1;
        rest = next.rest;
    }
    Ok(output.flush()?)
}

// Answers a request's line, which may change the register.
fn answer_line<D: Desk>(alloc: Global, desk: &mut D, line: &[u8]) -> Result<Answer, ScriptFault>
    ensures answers { AsksDesk D.Desk (GivesAnswer line.now) desk.old desk.new result }
    ensures fault { IfErr result (λ fault. (fault ≡ ScriptFault.NoMemory) × (desk.new ≡ desk.old)) }
{
    match read_ask(alloc, desk, line) {
        Ok(ask) => Ok(desk.ask(alloc, &ask)),
        Err(Refusal::Unavailable) => Err(ScriptFault::NoMemory),
        Err(refusal) => Ok(Answer::Refused(refusal)),
    }
}

// What a request's line asks, and who asks it. `BadText` comes before `UnknownKey`. Want of memory is
// `Unavailable`.
#[tactic(auto, unfolding(crate::specs::Asked::ask_in))]
fn read_ask<D: Desk>(alloc: Global, desk: &D, line: &[u8]) -> Result<Ask, Refusal>
    ensures { Reads (D.stands desk.now) line.now result }
{
    let (key, text) = key_and_text(line).ok_or(Refusal::BadText)?;
    let request = read_command(alloc, text)?;
    let actor = actor_of(desk, key).ok_or(Refusal::UnknownKey)?;
    Ok(Ask { actor, request })
}

/// Who asks with this key. A key that is not UTF-8 is nobody's.
pub fn actor_of<D: Desk>(desk: &D, key: &[u8]) -> Option<Actor>
    ensures { InSound (D.stands desk.now) (λ c b. result ≡ actor_of c b key.now) }
{
    desk.actor_of(str::from_utf8(key).ok()?)
}
