//! Faults of a cluster file: its text, its keys and the bounds of its slots.
ghost use Rattle.std.specs.Prelude.{◌≡◌};
ghost use Rattle.fr_guide.specs.Topics.{clusters, words_of};

use crate::topic::Topic;

/// The words explained here.
pub fn topics() -> [Topic; 4]
    ensures { words_of result ≡ clusters }
{
    [BAD_TOML, BAD_FIELD, BAD_SLOTS, BAD_PAYLOAD]
}

const BAD_TOML: Topic = Topic {
    word: "BadToml",
    about: "a fault of a cluster file. The bytes are not TOML.",
    help: "\
Often a text lacks its quotes, or a key stands twice. The bytes have to be UTF-8.
In a script the cluster file is all before the first line that is exactly ---.
`slotplan check` says in which line it is.
",
};

const BAD_FIELD: Topic = Topic {
    word: "BadField",
    about: "a fault of a cluster file. A key is missing or unknown, or its value is of another kind.",
    help: "\
The keys are `channels`, `static_slots`, `slot_macroticks`, `dynamic_macroticks`, `symbol_macroticks`,
`idle_macroticks`, `macroticks_per_cycle`, `payload_words`, `integrator`, `suppliers`, and `cycles` if you like.
A number is whole, of 0 to 4294967295. `channels` is \"A\", \"B\" or \"AB\".
A key that stands below `[suppliers]` is a supplier's, so put `[suppliers]` last.
`slotplan check` says which key it is, and what it may be.
",
};

const BAD_SLOTS: Topic = Topic {
    word: "BadSlots",
    about: "a fault of a cluster file. `static_slots` is not 2 to 1023.",
    help: "\
A FlexRay cycle has 2 to 1023 static slots, the same number on each channel.
Fix `static_slots`, and then the lengths, so that the segments fill the cycle again.
",
};

const BAD_PAYLOAD: Topic = Topic {
    word: "BadPayload",
    about: "a fault of a cluster file. `payload_words` is above 127.",
    help: "\
All static frames have the same payload. It is counted in words of two bytes, and 127 words are 254 bytes.
If you have the number of bytes, write half of it.
",
};
