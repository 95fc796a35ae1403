//! Requests that come in on a reader, each answered before the next one is awaited.
ghost use Rattle.std.specs.Prelude.{◌≡◌, ◌⊎◌, ◌<◌, ◌≤◌, ◌+◌, ◌^◌, ◌++◌, length, vec_len, IfErr, OnOk};
ghost use Rattle.std.specs.Io.KnownBytes.{IsAtEnd};
ghost use Rattle.fr_cli.specs.AnsweredLines.{account_by};
ghost use Rattle.fr_cli.specs.Outlets.{StopsSo};
ghost use Rattle.fr_cli.specs.RequestStream.{EndsAsking, HasAnswered, HasAsked, HasHeard};
ghost use Rattle.fr_text.specs.Script.{HasNo};
ghost use Rattle.fr_cli.specs.declared.streams.input.InputFault.{InputFault};

use crate::jobs::answers::write_answers;
use crate::jobs::live_desk::LiveDesk;
use crate::script_fault::ScriptFault;
use crate::streams::input::{InputFault, PIECE_BYTES, SCRIPT_BYTES, SCRIPT_READS, append};
use fr_text::{LINE_BYTES, Output, RequestLines, Sink, split_once, try_again};
use std::alloc::Global;
use std::io::Read;

/// Answers requests that come in, a line each, in order. All lines are answered; or a fault ends the run, and what was answered
/// stays. The fault is `Unavailable` behind the answer after which the register came to an end. The bounds are those of a
/// script, [`SCRIPT_BYTES`] bytes and [`SCRIPT_READS`] reads, and [`LINE_BYTES`] for each line. A line that has no end
/// when the bounds are met or a read fails is not answered.
///
/// Behind each line that is answered there is a desk that stands for the book after it. Where lines are numbered, an answer has
/// the number of its line in the input before it, from 1 on.
///
/// The answer to a line is written before more than what came with it is read. No clause speaks of that order, nor says when
/// a read fails or the reads are too many.
pub fn answer_input<D: LiveDesk, R: Read, W: Sink>(
    alloc: Global,
    desk: &mut D,
    reader: &mut R,
    writer: &mut W,
    numbered: bool,
) -> Result<(), ScriptFault>
    ensures falls { D.clean desk.new → D.clean desk.old }
    ensures answered { HasAnswered numbered (account_by D.Desk desk.old desk.new)
        (R.remaining reader.old) (R.remaining reader.new) (W.contents writer.old)
        (W.contents writer.new) result }
    ensures end { OnOk result (IsAtEnd (R.remaining reader.new)) }
    ensures stops { StopsSo W.Sink writer.new result }
{
    let mut output = Output::new(writer);
    answer_pieces(alloc, desk, reader, numbered, &mut output)
}

// Answers what the reader gives, piece by piece.
fn answer_pieces<D: LiveDesk, R: Read, W: Sink>(
    alloc: Global,
    desk: &mut D,
    reader: &mut R,
    numbered: bool,
    output: &mut Output<'_, W>,
) -> Result<(), ScriptFault>
    ensures falls { D.clean desk.new → D.clean desk.old }
    ensures answered { HasAnswered numbered (account_by D.Desk desk.old desk.new)
        (R.remaining reader.old) (R.remaining reader.new) (W.contents output.old.writer.now)
        (W.contents output.new.writer.now) result }
    ensures end { OnOk result (IsAtEnd (R.remaining reader.new)) }
    ensures stops { StopsSo W.Sink output.new.writer.now result }
    ensures same { output.new.writer.ghost_name ≡ output.old.writer.ghost_name }
{
    let mut begun = Vec::new(alloc);
    let mut number = 1;
    let mut room = SCRIPT_BYTES;
    let mut piece = [0u8; PIECE_BYTES];
    for _ in 0..SCRIPT_READS {
        match reader.read(&mut piece) {
            Ok(0) => return answer_requests(alloc, desk, &begun, number, numbered, output),
            Ok(n) => {
                room = room.checked_sub(n).ok_or(ScriptFault::TooLong)?;
                answer_piece(
                    alloc,
                    desk,
                    &mut begun,
                    &mut number,
                    &piece[..n],
                    numbered,
                    output,
                )?;
            }
            Err(error) => try_again(&error, InputFault::ReadFailed)?,
        }
    }
    Err(ScriptFault::TooManyReads)
}

// Answers each line that ends in the piece; the first of them begins with `begun`, and has this number. What follows the last
// of them is begun then, and has the number that is left. No line ends in `begun`, before and after.
fn answer_piece<D: LiveDesk, W: Sink>(
    alloc: Global,
    desk: &mut D,
    begun: &mut Vec<u8>,
    number: &mut u64,
    piece: &[u8],
    numbered: bool,
    output: &mut Output<'_, W>,
) -> Result<(), ScriptFault>
    requires open_ended { HasNo 10 begun.old.items }
    requires short { vec_len begun.old ≤ LINE_BYTES }
    requires room { number.old + length piece.now < 2 ^ 63 }
    ensures short { OnOk result (vec_len begun.new ≤ LINE_BYTES) }
    ensures falls { D.clean desk.new → D.clean desk.old }
    ensures heard { HasHeard numbered (account_by D.Desk desk.old desk.new) number.old number.new
        (begun.old.items ++ piece.now) begun.new.items (W.contents output.old.writer.now)
        (W.contents output.new.writer.now) result }
    ensures faults { IfErr result (λ fault. (fault ≡ ScriptFault.TooLong) ⊎ EndsAsking fault) }
    ensures stops { StopsSo W.Sink output.new.writer.now result }
    ensures same { output.new.writer.ghost_name ≡ output.old.writer.ghost_name }
{
    let mut rest = piece;
    while let Some((line, after)) = split_once(rest, b'\n') {
        append(begun, line, LINE_BYTES)?;
        begun.extend_from_slice(b"\n")?;
        answer_requests(alloc, desk, begun, *number, numbered, output)?;
        begun.clear();
        *number += 1;
        rest = after;
    }
    Ok(append(begun, rest, LINE_BYTES)?)
}

// Answers the requests; the first line has this number. If there were any, and the register cannot be asked any more, the fault
// is `Unavailable`.
fn answer_requests<D: LiveDesk, W: Sink>(
    alloc: Global,
    desk: &mut D,
    requests: &[u8],
    number: u64,
    numbered: bool,
    output: &mut Output<'_, W>,
) -> Result<(), ScriptFault>
    requires room { number < 2 ^ 63 }
    ensures { HasAsked D.Desk W.Sink numbered number requests.now desk.old desk.new output.old
        output.new result }
{
    write_answers(alloc, desk, requests, number, numbered, output)?;
    if RequestLines::new(requests).next().is_none() {
        return Ok(());
    }
    if desk.lasts(alloc) {
        Ok(())
    } else {
        Err(ScriptFault::Unavailable)
    }
}
