//! Refusals of keys.
ghost use Rattle.std.specs.Prelude.{◌≡◌};
ghost use Rattle.fr_guide.specs.Topics.{keys, words_of};

use crate::topic::Topic;

/// The words explained here.
pub fn topics() -> [Topic; 2]
    ensures { words_of result ≡ keys }
{
    [BAD_KEY, KEY_TAKEN]
}

const BAD_KEY: Topic = Topic {
    word: "BadKey",
    about: "refusal 30, and a fault of a cluster file. A key does not have the form of a key.",
    help: "\
A key is 8 to 64 ASCII letters and digits. Case matters.
As a refusal it comes for `add_supplier` and `set_key`.
In a cluster file it is the integrator's key or a supplier's; `slotplan check` says whose.
Choose another key.
",
};

const KEY_TAKEN: Topic = Topic {
    word: "KeyTaken",
    about: "refusal 31. The integrator or a supplier has the key.",
    help: "\
It comes for `add_supplier` and `set_key`, since a key says who asks.
Choose another key for the supplier; by `set_key` its own is refused too.
",
};
