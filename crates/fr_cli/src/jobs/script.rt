//! Runs a script: reads it whole, splits it, and writes the answer to each of its requests.
ghost use Rattle.fr_cli.specs.Outlets.{StopsSo};
ghost use Rattle.fr_cli.specs.Runs.{IsRunOf};

use crate::jobs::answers::write_answers;
use crate::script_fault::ScriptFault;
use crate::streams::input::read_all;
use crate::streams::numbered_lines::line_count;
use fr_desks::MemoryDesk;
use fr_text::{Output, Sink, read_config, split_script};
use std::alloc::Global;
use std::io::Read;

/// Reads a whole script, and answers its requests in order, each on a line of its own. Where lines are numbered, the number
/// of the request's line in the script stands before its answer. What it writes is the output of the script. A fault of
/// reading, a missing separator, a fault of the cluster file and a register that could not be made come before anything is
/// written; want of memory for a request comes after whole answers to all before it, and a failed write may cut an answer
/// short.
///
/// Each supplier is answered as if it were alone. Take a register that the cluster file makes with this
/// supplier alone. Give it the supplier's lines; those without a key or with nobody's, as the supplier's own
/// is before it joins; and those of the integrator's that were done and are common or name the supplier.
/// It answers them alike, line by line; a line that was answered `Unavailable` is left out. And after each
/// line at most one frame is sent in a cycle, slot and channel of a variant, by the node that holds the
/// grant.
pub fn run_script<R: Read, W: Sink>(
    alloc: Global,
    reader: &mut R,
    writer: &mut W,
    numbered: bool,
) -> Result<(), ScriptFault>
    ensures run { IsRunOf numbered (R.remaining reader.old) (R.remaining reader.new) (W.contents writer.old)
        (W.contents writer.new) result }
    ensures stops { StopsSo W.Sink writer.new result }
{
    let script = read_all(alloc, reader)?;
    let (cluster, requests) = split_script(&script).ok_or(ScriptFault::NoSeparator)?;
    let config = read_config(alloc, cluster)?;
    let Ok(mut desk) = MemoryDesk::new(alloc, &config) else {
        return Err(ScriptFault::Unavailable);
    };
    // All that is written shares the retries of one output.
    let mut output = Output::new(writer);
    // The cluster file and the separator stand above the first request's line.
    let first = line_count(cluster) + 2;
    write_answers(alloc, &mut desk, requests, first, numbered, &mut output)
}
