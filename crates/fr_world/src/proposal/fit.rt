//! The fittest place in a slot: the one that breaks fewest coarser repetitions there.
ghost use Rattle.std.specs.Prelude.{◌≡◌, ◌+◌, ◌%◌, ◌<◌, ◌≤◌, ◌&&◌, List, ℕ, Some, None, if◌then◌else◌, IsTrue, slice_index, option_map};
ghost use Rattle.std.specs.Ordering.{min_by_ordering};
ghost use Rattle.fr_base.specs.Channels.{has_channel};
ghost use Rattle.fr_base.specs.Cycles.{is_bit_set, is_cycle_set, is_repetition};
ghost use Rattle.fr_base.specs.Fittest.{lesser, rated_cmp};
ghost use Rattle.fr_base.specs.declared.channel.Channel.{Channel as OneChannel};
ghost use Rattle.fr_base.specs.declared.name.Name.{Name as NameText};
ghost use Rattle.fr_base.specs.declared.placement.Placement.{Placement as Cells};
ghost use Rattle.fr_world.specs.Masks.{AreFilled, word_on};
ghost use Rattle.fr_world.specs.Proposals.{broken_by, cycles_with, fittest_in, is_empty, rated_of};

use crate::filled_cycles::FilledCycles;
use fr_base::{Channel, Channels, CycleSet, Params, Placement, Slot};

/// What is asked of a place: its channels and its repetition.
#[derive(Clone, Copy)]
pub(super) struct Kind {
    pub(super) channels: Channels,
    pub(super) repetition: u32,
}

/// How many coarser repetitions a place breaks: on its channels together, and on each of them by itself,
/// added up. What breaks fewer comes first in the order.
#[derive(Clone, Copy, PartialEq, Eq, PartialOrd, Ord)]
pub(super) struct Breaks {
    pub(super) together: u32,
    pub(super) apart: u32,
}

/// A place, and how much it breaks.
#[derive(Clone, Copy)]
pub(super) struct RatedPlace {
    pub(super) place: Placement,
    pub(super) breaks: Breaks,
}

/// The fittest place of this kind in a slot where these cycles are filled, if one is free.
pub(super) fn fittest_in(
    params: &Params,
    slot: Slot,
    filled: FilledCycles,
    kind: Kind,
) -> Option<RatedPlace>
    requires { IsTrue (is_repetition params.now.cycles kind.repetition) }
    ensures { (pairs : List (NameText × Cells))
        → ((x : OneChannel) → AreFilled pairs slot x (word_on x filled))
        → option_map rated_of result
        ≡ fittest_in params.now pairs kind.channels kind.repetition slot }
{
    // Gives the proof that there are at most 64 cycles.
    let _cycles = params.cycles();
    let word = filled.on_any(kind.channels);
    let together = broken_by_base(params, word, kind.repetition);
    let on_a = broken_on(params, filled, kind, Channel::A);
    let on_b = broken_on(params, filled, kind, Channel::B);
    let mut fittest = None;
    for base in 0..kind.repetition {
        if let Some(cycles) = free_cycles(params, word, base, kind.repetition) {
            let rated = RatedPlace {
                place: Placement {
                    slot,
                    channels: kind.channels,
                    cycles,
                },
                breaks: Breaks {
                    together: together[base as usize],
                    apart: on_a[base as usize] + on_b[base as usize],
                },
            };
            fittest = fitter(fittest, Some(rated));
        }
    }
    fittest
}

/// The fitter one of two. The former where they break as much.
pub(super) fn fitter(former: Option<RatedPlace>, latter: Option<RatedPlace>) -> Option<RatedPlace>
    ensures { option_map rated_of result
        ≡ lesser rated_cmp (option_map rated_of former) (option_map rated_of latter) }
{
    match (former, latter) {
        (Some(x), Some(y)) => Some(if y.breaks < x.breaks { y } else { x }),
        (x, y) => x.or(y),
    }
}

// The cycles of this base and repetition, if there are such and none of them is filled.
fn free_cycles(params: &Params, filled: u64, base: u32, repetition: u32) -> Option<CycleSet>
    ensures { let cycles = cycles_with params.now base repetition in
        result ≡ (if is_cycle_set params.now.cycles base repetition && is_empty filled cycles then
        Some cycles else None) }
{
    let cycles = CycleSet::new(params.cycles(), base, repetition).ok()?;
    if filled & cycles.mask() != 0 {
        return None;
    }
    Some(cycles)
}

// For each base how many coarser repetitions a place of this kind breaks on the channel: none, where
// the kind does not have the channel.
fn broken_on(params: &Params, filled: FilledCycles, kind: Kind, channel: Channel) -> [u32; 64]
    requires divides { IsTrue (is_repetition params.now.cycles kind.repetition) }
    requires within { kind.repetition ≤ params.now.cycles }
    requires few { params.now.cycles ≤ 64 }
    ensures { (base : ℕ) → base < kind.repetition → slice_index result base
        ≡ (if has_channel kind.channels channel then broken_by params.now (word_on channel filled)
        kind.repetition base else 0) }
{
    if kind.channels.has(channel) {
        broken_by_base(params, filled.on(channel), kind.repetition)
    } else {
        [0; 64]
    }
}

// For each base how many coarser repetitions a place breaks, where these cycles are filled.
fn broken_by_base(params: &Params, filled: u64, repetition: u32) -> [u32; 64]
    requires divides { IsTrue (is_repetition params.now.cycles repetition) }
    requires within { repetition ≤ params.now.cycles }
    requires few { params.now.cycles ≤ 64 }
    ensures { (base : ℕ) → base < repetition
        → slice_index result base ≡ broken_by params.now filled repetition base }
{
    let mut broken = [0; 64];
    for coarser in 1..repetition {
        if repetition % coarser == 0 {
            count(&mut broken, empty_cycles(params, filled, coarser));
        }
    }
    broken
}

// The cycles that are empty together with all others that have the same remainder by the repetition.
fn empty_cycles(params: &Params, filled: u64, repetition: u32) -> u64
    requires { IsTrue (is_repetition params.now.cycles repetition) }
    ensures { (k : ℕ) → k < params.now.cycles → is_bit_set result k
        ≡ is_empty filled (cycles_with params.now (k % repetition) repetition) }
{
    let mut empty = 0;
    for base in 0..repetition {
        if let Some(cycles) = free_cycles(params, filled, base, repetition) {
            empty |= cycles.mask();
        }
    }
    empty
}

// One more wherever the bit of the word is set.
fn count(counts: &mut [u32; 64], word: u64)
    requires { (k : ℕ) → k < 64 → slice_index counts.old k < 64 }
    ensures { (k : ℕ) → k < 64 → slice_index counts.new k
        ≡ slice_index counts.old k + (if is_bit_set word k then 1 else 0) }
{
    for (place, count) in counts.iter_mut().enumerate() {
        if (word >> place) & 1 == 1 {
            *count += 1;
        }
    }
}
