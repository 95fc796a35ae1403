//! Refusals of the values of a request's fields.
ghost use Rattle.std.specs.Prelude.{◌≡◌};
ghost use Rattle.fr_guide.specs.Topics.{fields, words_of};

use crate::topic::Topic;

/// The words explained here.
pub fn topics() -> [Topic; 4]
    ensures { words_of result ≡ fields }
{
    [BAD_CYCLES, BAD_SLOT, BAD_CHANNEL, BAD_SIGNAL]
}

const BAD_CYCLES: Topic = Topic {
    word: "BadCycles",
    about: "refusal 5. Base and repetition select no cycles.",
    help: "\
A repetition divides the cluster's `cycles`: in a cluster of 64 it is 1, 2, 4, 8, 16, 32 or 64.
A base is 0 or more, and less than its repetition.
They select the cycles whose remainder by the repetition is the base.
Of 64 cycles base 1 and repetition 4 select 1, 5, 9, and so on, up to 61.
It comes for `place`, for `unplace`, for a row of a file, and for `room`. Choose another base or repetition.
",
};

const BAD_SLOT: Topic = Topic {
    word: "BadSlot",
    about: "refusal 6. The cluster has no such static slot.",
    help: "\
Static slots are numbered from 1 to `static_slots` of the cluster file.
It comes for `grant`, `revoke`, `place` and `unplace`, and for a row of a file.
Choose a slot in that range.
",
};

const BAD_CHANNEL: Topic = Topic {
    word: "BadChannel",
    about: "refusal 7. There is no such channel, or the cluster does not have it.",
    help: "\
`grant` and `revoke` take A or B. `place`, `unplace` and a row of a file take A, B or AB.
A cluster whose `channels` is A has no B, and so no AB.
Choose a channel that the cluster has, in capital letters.
",
};

const BAD_SIGNAL: Topic = Topic {
    word: "BadSignal",
    about: "refusal 8. The signal's length or order is not allowed.",
    help: "\
A signal has 1 to 64 bits. Its order is `little` or `big`, in small letters.
It comes for `add_signal` and for a row of a file.
Split what is longer into several signals.
",
};
