//! The refusal of a wish.
ghost use Rattle.std.specs.Prelude.{◌≡◌};
ghost use Rattle.fr_guide.specs.Topics.{wishes, words_of};

use crate::topic::Topic;

/// The words explained here.
pub fn topics() -> [Topic; 1]
    ensures { words_of result ≡ wishes }
{
    [NO_ROOM]
}

const NO_ROOM: Topic = Topic {
    word: "NoRoom",
    about: "refusal 32. No placement is left for a wish.",
    help: "\
It comes for a row of a file that `propose` is asked with, and refuses no request.
Under 8, 16, 32 or 64 cycles, and where the node's wishes are all on the same channels, it is certain:
whoever plans, not all of them fit, as long as what is placed stays where it is.
A line LACK tells how many slots more the node needs on these channels, empty in all cycles.
Ask the integrator for them, or wish for a greater repetition. With `replace` frames that the file names may move.
",
};
