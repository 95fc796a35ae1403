//! The cycles that a base and a repetition select, out of the count of cycles.
ghost use Rattle.std.specs.Prelude.{◌≡◌, ◌≤◌, ◌^◌, ◌-◌, IsTrue, Ok, Err, if◌then◌else◌};

use std::marker::Model;

/// The most communication cycles that a cycle counter goes through before it starts at 0 again: then it
/// runs from 0 to 63 (FlexRay Protocol Specification 2.1 Rev. A, chapter 5, media access control).
pub const MAX_CYCLES: u32 = 64;

/// Base and repetition select no set of cycles: the repetition does not divide the count of cycles, or
/// the base is not below it.
#[derive(Clone, Copy, Debug, PartialEq, Eq)]
pub struct BadCycles;

/// The communication cycles `c` below a count with `c mod repetition = base`. The count is even and from
/// 8 to 64, the repetition divides it, and the base is below the repetition. This is the register's form
/// of cycle filtering, by which several frames share a slot and channel. Sets are ordered by base, then
/// by repetition, then by count.
#[derive(Clone, Copy, PartialEq, Eq, PartialOrd, Ord)]
pub struct CycleSet {
    base: u8,
    repetition: u8,
    count: u8,
}

impl Model for CycleSet {
    ghost use Rattle.std.specs.Prelude.{IsTrue};
    ghost use Rattle.fr_base.specs.Cycles.{Cycles, are_cycles};

    ghost Value = { Cycles };

    ghost view = { λ s. record { count = s.count; base = s.base; repetition = s.repetition } };

    ghost invariant = { λ s. IsTrue (are_cycles (record { count = s.count; base = s.base; repetition = s.repetition })) };

    ghost inverse = { λ s. record { count = s.count; base = s.base; repetition = s.repetition } };
}

impl CycleSet {
    ghost use Rattle.std.specs.Prelude.{ℕ};
    ghost use Rattle.fr_base.specs.Cycles.{are_cycles, is_cycle_count, is_cycle_set, has_cycle, first_common, is_bit_set};

    /// The cycles that base and repetition select of so many cycles, if they select any.
    #[tactic(auto, using(crate::proofs::CycleLemmas::divisor_within))]
    pub fn new(cycles: u32, base: u32, repetition: u32) -> Result<CycleSet, BadCycles>
        requires { IsTrue (is_cycle_count cycles) }
        ensures { result ≡ (if is_cycle_set cycles base repetition then Ok
            (record { count = cycles; base = base; repetition = repetition }) else Err
            (record {})) }
    {
        if repetition != 0 && cycles % repetition == 0 && base < repetition {
            Ok(CycleSet {
                base: base as u8,
                repetition: repetition as u8,
                count: cycles as u8,
            })
        } else {
            Err(BadCycles)
        }
    }

    /// How many cycles the cycle counter goes through, 8 to 64. The set has some of them.
    pub fn cycles(&self) -> u8
        ensures value { result ≡ self.now.count }
        ensures are_cycles { IsTrue (are_cycles self.now) }
        ensures range { (8 ≤ result) × (result ≤ 64) }
    {
        self.count
    }

    /// The least cycle of the set.
    pub fn base(&self) -> u8
        ensures value { result ≡ self.now.base }
        ensures are_cycles { IsTrue (are_cycles self.now) }
    {
        self.base
    }

    /// How many cycles lie from one cycle of the set to the next.
    pub fn repetition(&self) -> u8
        ensures value { result ≡ self.now.repetition }
        ensures are_cycles { IsTrue (are_cycles self.now) }
    {
        self.repetition
    }

    /// Whether the cycle is in the set. A cycle at or above the count is not.
    pub fn contains(&self, cycle: u8) -> bool
        ensures { result ≡ has_cycle self.now cycle }
    {
        cycle < self.count && cycle % self.repetition == self.base
    }

    /// The cycles as bits of a word: the bit of weight `2^c` is set where cycle `c` is in the set. It takes
    /// no memory.
    pub fn mask(&self) -> u64
        ensures { (c : ℕ) → is_bit_set result c ≡ has_cycle self.now c }
    {
        // The quotient has a one for the first cycle of each repetition.
        (ones(self.count) / ones(self.repetition)) << self.base
    }

    /// The least cycle that is in both sets, which may be of different counts.
    pub fn first_common(&self, other: &CycleSet) -> Option<u8>
        ensures { result ≡ first_common self.now other.now }
    {
        let both = self.mask() & other.mask();
        if both == 0 {
            return None;
        }
        Some(both.trailing_zeros() as u8)
    }
}

// The word whose `count` lowest bits are ones.
fn ones(count: u8) -> u64
    requires { (1 ≤ count) × (count ≤ 64) }
    ensures { result ≡ 2 ^ count - 1 }
{
    u64::MAX >> (64 - u32::from(count))
}
