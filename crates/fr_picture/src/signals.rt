//! Payloads as strips of bits.
ghost use Rattle.std.specs.Prelude.{◌≡◌, ℕ, List, ◌+◌, ◌*◌, ◌<◌, ◌≤◌, ◌%◌, ◌^◌, ◌++◌, IsPermutation, OnOk, IfOk, true};
ghost use Rattle.std.specs.List.{range_with_len};
ghost use Rattle.fr_base.specs.Bits.{run_big, run_of};
ghost use Rattle.fr_picture.specs.Strips.{HasItsBits, bars_text, bits_in, row_of, run_text, runs_text, signal_text, signals_text, strip_text};
ghost use Rattle.fr_picture.specs.Texts.{Appends};

use crate::texts::{Fixed, push_fixed};
use fr_base::{Name, NoMemory, Order, Signal};
use std::alloc::Global;

/// A signal as the page shows it.
#[derive(Drop)]
pub struct DrawnSignal {
    /// The signal.
    pub signal: Signal,
    /// Its payload bits.
    pub runs: Vec<Run>,
}

/// Payload bits that follow one another.
#[derive(Clone, Copy)]
pub struct Run {
    /// The least bit.
    pub start: u64,
    /// How many there are.
    pub length: u64,
}

impl DrawnSignal {
    /// The signal with its bits. Each bit of the signal is in exactly one of the runs, and no other
    /// bit is in one.
    #[tactic(auto, using(crate::proofs::RunLemmas::signal_bits))]
    pub fn of(alloc: Global, signal: Signal) -> Result<DrawnSignal, NoMemory>
        ensures signal { IfOk result (λ drawn. drawn.signal ≡ signal) }
        ensures bits { IfOk result HasItsBits }
    {
        let runs = runs_of(alloc, signal.order(), signal.start(), signal.length())?;
        Ok(DrawnSignal { signal, runs })
    }
}

// The payload bits of a signal.
#[tactic(auto, using(crate::proofs::RunLemmas::orders))]
fn runs_of(alloc: Global, order: Order, start: u32, length: u32) -> Result<Vec<Run>, NoMemory>
    ensures { IfOk result (λ runs. IsPermutation (bits_in runs.items) (run_of order start length)) }
{
    match order {
        Order::Little => little_runs(alloc, u64::from(start), u64::from(length)),
        Order::Big => big_runs(alloc, u64::from(start), u64::from(length)),
    }
}

// The bits of a signal in little order: all of them from its first bit on.
#[tactic(auto, unfolding(crate::specs::Strips::bits_in))]
fn little_runs(alloc: Global, start: u64, length: u64) -> Result<Vec<Run>, NoMemory>
    ensures { IfOk result (λ runs. bits_in runs.items ≡ range_with_len start length) }
{
    let mut runs = Vec::new(alloc);
    runs.push(Run { start, length })?;
    Ok(runs)
}

// The bits of a signal in big order: down to the lowest bit of its byte, and then from the highest
// bit of the next byte.
#[tactic(auto, using(crate::proofs::RunLemmas::bits_in_none))]
fn big_runs(alloc: Global, start: u64, length: u64) -> Result<Vec<Run>, NoMemory>
    requires small { start + 15 * length < 2 ^ 40 }
    ensures { IfOk result (λ runs. IsPermutation (bits_in runs.items) (run_big start length)) }
{
    let mut runs = Vec::new(alloc);
    let mut high = start;
    let mut left = length;
    while left > high % 8 {
        runs.push(Run {
            start: high - high % 8,
            length: high % 8 + 1,
        })?;
        left -= high % 8 + 1;
        high = high - high % 8 + 15;
    }
    push_last(&mut runs, high, left)?;
    Ok(runs)
}

// Appends the last bits, if any are left. They lie in one byte.
#[tactic(auto, using(crate::proofs::RunLemmas::last))]
fn push_last(runs: &mut Vec<Run>, high: u64, left: u64) -> Result<(), NoMemory>
    requires byte { left ≤ high % 8 }
    ensures { OnOk result ((all : List ℕ)
        → IsPermutation (bits_in runs.old.items ++ run_big high left) all
        → IsPermutation (bits_in runs.new.items) all) }
{
    if left == 0 {
        return Ok(());
    }
    runs.push(Run {
        start: high - left + 1,
        length: left,
    })?;
    Ok(())
}

/// Appends a payload as a strip of bits, with its signals. Two signals that follow one another
/// stand in different rows, of which there are two.
#[tactic(auto, unfolding(crate::specs::Strips::strip_text))]
pub(crate) fn push_strip(signals: &[DrawnSignal], out: &mut String) -> Result<(), NoMemory>
    ensures { OnOk result (Appends out.old out.new (strip_text signals.now)) }
{
    if signals.is_empty() {
        return push_fixed(Fixed::NoStrip, out);
    }
    push_fixed(Fixed::StripStart, out)?;
    push_bars(signals, out)?;
    push_fixed(Fixed::StripEnd, out)?;
    push_signals(signals, out)
}

// Appends the bits of signals.
fn push_bars(signals: &[DrawnSignal], out: &mut String) -> Result<(), NoMemory>
    ensures { OnOk result (Appends out.old out.new (bars_text true signals.now)) }
{
    let mut upper = true;
    for signal in signals {
        push_runs(row_of(upper), signal.runs.as_slice(), out)?;
        upper = !upper;
    }
    Ok(())
}

// The middle of the row in the strip.
fn row_of(upper: bool) -> u32
    ensures { result ≡ row_of upper }
{
    if upper { 3 } else { 9 }
}

#[tactic(auto, unfolding(crate::specs::Strips::runs_text))]
fn push_runs(row: u32, runs: &[Run], out: &mut String) -> Result<(), NoMemory>
    ensures { OnOk result (Appends out.old out.new (runs_text row runs.now)) }
{
    for run in runs {
        push_run(row, run.start, run.length, out)?;
    }
    Ok(())
}

#[tactic(auto, unfolding(crate::specs::Strips::run_text))]
fn push_run(row: u32, start: u64, length: u64, out: &mut String) -> Result<(), NoMemory>
    ensures { OnOk result (Appends out.old out.new (run_text row start length)) }
{
    write!(out, "M{start},{row}h{length}")
}

// Appends the signals' names, with their starts, lengths and orders.
#[tactic(auto, unfolding(crate::specs::Strips::signals_text))]
fn push_signals(signals: &[DrawnSignal], out: &mut String) -> Result<(), NoMemory>
    ensures { OnOk result (Appends out.old out.new (signals_text signals.now)) }
{
    for signal in signals {
        let one = signal.signal;
        push_signal(one.name(), one.start(), one.length(), one.order(), out)?;
    }
    Ok(())
}

/// Appends a signal's name, start, length and order.
#[tactic(auto, unfolding(crate::specs::Strips::signal_text))]
pub(crate) fn push_signal(
    name: Name,
    start: u32,
    length: u32,
    order: Order,
    out: &mut String,
) -> Result<(), NoMemory>
    ensures { OnOk result (Appends out.old out.new (signal_text name start length order)) }
{
    match order {
        Order::Little => write!(out, " {name}:{start}+{length}"),
        Order::Big => write!(out, " {name}:{start}+{length}big"),
    }
}
