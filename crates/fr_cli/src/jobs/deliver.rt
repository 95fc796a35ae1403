//! Delivers a file of rows to the register in another file, as the command line says.
ghost use Rattle.std.specs.Prelude.{◌≡◌, ◌≢◌, codes};
ghost use Rattle.std.specs.Io.KnownBytes.{Keeps};
ghost use Rattle.std.specs.Str.Lines.{lines};
ghost use Rattle.fr_cli.specs.Deliveries.{request_with};
ghost use Rattle.fr_cli.specs.Faults.{IsNotDelivered, IsNotGiven};
ghost use Rattle.fr_cli.specs.Handlings.{IsAskedAs, IsDeliveredAt, handlings};
ghost use Rattle.fr_cli.specs.Keys.{first_of};
ghost use Rattle.fr_cli.specs.Performing.{Says};
ghost use Rattle.fr_cli.specs.RegisterFiles.{IsAnswerToGiven, IsDeliveryToFile};
ghost use Rattle.fr_cli.specs.Texts.{readings};

use crate::failure::Failure;
use crate::fault::Fault;
use crate::files::file_contents::read_front;
use crate::files::registers::Registers;
use crate::files::text_files::TextFiles;
use crate::jobs::print_task::PrintTask;
use crate::jobs::register_task::run_task;
use crate::script_fault::ScriptFault;
use crate::streams::input::{ReadBounds, read_line};
use crate::words::delivery::Delivery;
use fr_desks::Left;
use fr_text::next_line;
use std::alloc::Global;
use std::io::Read;

/// How many bytes of a file of rows are read at most: one more than it may have.
pub const FILE_BYTES: usize = 65_537;

/// The word in the place of a key that says that the key stands on standard input.
const KEY_ON_INPUT: &str = "-";

/// How much of standard input is read for a key.
const KEY_BOUNDS: ReadBounds = ReadBounds {
    bytes: 8_192,
    reads: 100_000,
};

/// Delivers a file of rows to the register in the file at `db`. Closes that file, and gives what is left of it. The file of rows
/// is one of `files`. It is read first, then the key, if that stands on standard input. Where one of them is not read, the register's
/// file is not touched.
pub fn deliver_file<G: Registers, F: TextFiles, R: Read>(
    alloc: Global,
    registers: &mut G,
    db: &str,
    delivery: Delivery<'_>,
    files: &mut F,
    input: &mut R,
) -> (Result<Vec<u8>, Failure>, Left<G::File>)
    ensures says { let read = readings F.TextFiles F.Reader.Read files.old files.new in
        Says (IsNotDelivered (G.holds registers.old db.now) result.1 read delivery.entry
        (R.remaining input.old) (R.remaining input.new))
        (IsDeliveryToFile (G.holds registers.old db.now) result.1 read delivery.entry
        (R.remaining input.old) (R.remaining input.new)) result.0 }
    ensures quiet { delivery.entry.key.now ≢ codes "-"
        → Keeps (R.remaining input.old) (R.remaining input.new) }
    ensures files { let read = readings F.TextFiles F.Reader.Read files.old files.new in
        IsDeliveredAt (handlings G.Registers registers.old registers.new) result.1 read db.now
        delivery.entry (R.remaining input.old) (R.remaining input.new) }
{
    match read_front(alloc, files, delivery.file, FILE_BYTES) {
        Ok(body) => deliver(alloc, registers, db, delivery, &body, input),
        Err(fault) => (Err(Failure::Fault(fault)), None),
    }
}

// Delivers a file of rows with these bytes. The key stands on the command line, or on standard input.
fn deliver<G: Registers, R: Read>(
    alloc: Global,
    registers: &mut G,
    db: &str,
    delivery: Delivery<'_>,
    body: &[u8],
    input: &mut R,
) -> (Result<Vec<u8>, Failure>, Left<G::File>)
    ensures says { Says (IsNotGiven (G.holds registers.old db.now) result.1 delivery.entry.key.now
        (request_with delivery.entry body.now) (R.remaining input.old) (R.remaining input.new))
        (IsAnswerToGiven (G.holds registers.old db.now) result.1 delivery.entry.key.now
        (request_with delivery.entry body.now) (R.remaining input.old) (R.remaining input.new))
        result.0 }
    ensures quiet { delivery.entry.key.now ≢ codes "-"
        → Keeps (R.remaining input.old) (R.remaining input.new) }
    ensures files { IsAskedAs (handlings G.Registers registers.old registers.new) result.1 db.now
        delivery.entry.key.now (R.remaining input.old) (R.remaining input.new) }
{
    if delivery.key != KEY_ON_INPUT {
        let key = delivery.key.as_bytes();
        let mut answer = PrintTask::Answer {
            key,
            delivery,
            body,
        };
        return run_task(alloc, registers, db, &mut answer);
    }
    match read_line(alloc, input, KEY_BOUNDS) {
        Ok(front) => {
            let key = first_line(&front);
            let mut answer = PrintTask::Answer {
                key,
                delivery,
                body,
            };
            run_task(alloc, registers, db, &mut answer)
        }
        Err(fault) => (
            Err(Failure::Fault(Fault::Script(ScriptFault::from(fault)))),
            None,
        ),
    }
}

// The first line of the bytes, without its end. It is empty where there are no bytes.
fn first_line(bytes: &[u8]) -> &[u8]
    ensures { result.now ≡ first_of (lines bytes.now) }
{
    match next_line(bytes) {
        Some((line, _)) => line,
        None => &[],
    }
}
