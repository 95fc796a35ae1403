//! Refusals of a signal's bits.
ghost use Rattle.std.specs.Prelude.{◌≡◌};
ghost use Rattle.fr_guide.specs.Topics.{signals, words_of};

use crate::topic::Topic;

/// The words explained here.
pub fn topics() -> [Topic; 2]
    ensures { words_of result ≡ signals }
{
    [OUT_OF_PAYLOAD, BIT_TAKEN]
}

const OUT_OF_PAYLOAD: Topic = Topic {
    word: "OutOfPayload",
    about: "refusal 26. A bit of the signal lies past the payload.",
    help: "\
The payload has 16 bits for each of the cluster's `payload_words`, numbered from 0.
A signal in little order has the bits from its start upwards. In big order they go down from the start,
and after a byte's lowest bit on to the highest of the next byte.
It comes for `add_signal` and for a row of a file. Choose another start, or a shorter length.
",
};

const BIT_TAKEN: Topic = Topic {
    word: "BitTaken",
    about: "refusal 27. A bit of the signal is used by another signal.",
    help: "\
The answer names the least such bit, and the signal that uses it.
It comes for `add_signal` and for a row of a file.
The report `layout` shows where the frame's signals begin, and how long they are.
Choose another start, or drop the other signal first.
",
};
