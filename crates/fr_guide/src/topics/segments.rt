//! Faults of a cluster file: the lengths of its cycle, the count of cycles, and its keys.
ghost use Rattle.std.specs.Prelude.{◌≡◌};
ghost use Rattle.fr_guide.specs.Topics.{segments, words_of};

use crate::topic::Topic;

/// The words explained here.
pub fn topics() -> [Topic; 4]
    ensures { words_of result ≡ segments }
{
    [BAD_MACROTICKS, BAD_SUM, BAD_CYCLE_COUNT, KEY_TWICE]
}

const BAD_MACROTICKS: Topic = Topic {
    word: "BadMacroticks",
    about: "a fault of a cluster file. A length in macroticks is out of its range.",
    help: "\
`slot_macroticks` and `idle_macroticks` are 1 or more. `macroticks_per_cycle` is at most 16000.
`slotplan check` says which of them it is.
",
};

const BAD_SUM: Topic = Topic {
    word: "BadSum",
    about: "a fault of a cluster file. The segments do not fill the cycle exactly.",
    help: "\
static_slots * slot_macroticks + dynamic_macroticks + symbol_macroticks + idle_macroticks
has to be macroticks_per_cycle.
`slotplan check` says what the segments take, and how long the cycle is.
Fix the length that is wrong. What is left over belongs to `dynamic_macroticks` or `idle_macroticks`.
",
};

const BAD_CYCLE_COUNT: Topic = Topic {
    word: "BadCycleCount",
    about: "a fault of a cluster file. `cycles` is not an even number from 8 to 64.",
    help: "\
The cycle counter runs from 0 to the number before `cycles`, and then starts at 0 again.
Most clusters have 64 cycles, and the key may be left out for these.
Fix `cycles`, or leave it out.
",
};

const KEY_TWICE: Topic = Topic {
    word: "KeyTwice",
    about: "a fault of a cluster file. Two keys are equal.",
    help: "\
The keys of the integrator and of all suppliers have to differ, since a key says who asks.
`slotplan check` says whose keys they are. Give one of the two another key.
",
};
