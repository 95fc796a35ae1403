//! Refusals of what is named and is not there.
ghost use Rattle.std.specs.Prelude.{◌≡◌};
ghost use Rattle.fr_guide.specs.Topics.{missing, words_of};

use crate::topic::Topic;

/// The words explained here.
pub fn topics() -> [Topic; 5]
    ensures { words_of result ≡ missing }
{
    [NO_SUPPLIER, NO_NODE, NO_FRAME, NO_SIGNAL, NO_PLACEMENT]
}

const NO_SUPPLIER: Topic = Topic {
    word: "NoSupplier",
    about: "refusal 14. There is no such supplier.",
    help: "\
It comes for `set_key`, `add_node`, `grant` and `revoke`, and for a report with `--supplier NAME`.
The suppliers are those of the cluster file, and those that were added since.
Look at the spelling; case matters. Or let the supplier join by `add_supplier`.
",
};

const NO_NODE: Topic = Topic {
    word: "NoNode",
    about: "refusal 15. The supplier has no such node.",
    help: "\
It comes for `grant`, for `add_frame`, and for a row of a file.
Nodes are a supplier's own, and the same in all variants.
Look at the spelling; case matters. Or let the integrator add the node by `add_node`.
",
};

const NO_FRAME: Topic = Topic {
    word: "NoFrame",
    about: "refusal 16. There is no such frame in the variant.",
    help: "\
It comes for `drop_frame`, `place`, `unplace`, `add_signal`, `drop_signal`, `layout` and `room`,
and for a row of signals in a file.
A supplier reaches its own frames only. For the integrator's `layout` no supplier has such a frame.
The report `frames` shows which frames there are; `add_frame` adds one.
",
};

const NO_SIGNAL: Topic = Topic {
    word: "NoSignal",
    about: "refusal 17. The frame has no such signal.",
    help: "\
It comes for `drop_signal`.
The report `layout` shows the frame's signals. Look at the spelling; case matters.
",
};

const NO_PLACEMENT: Topic = Topic {
    word: "NoPlacement",
    about: "refusal 18. The frame has no placement with exactly these fields.",
    help: "\
It comes for `unplace`: slot, channels, base and repetition have to be those of one placement.
A placement on AB goes as a whole. It is not taken back from A alone.
The report `frames` shows the placements of each frame, on the lines that begin with AT.
",
};
