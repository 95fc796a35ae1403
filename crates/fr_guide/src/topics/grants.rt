//! Refusals of grants, and of what is there already.
ghost use Rattle.std.specs.Prelude.{◌≡◌};
ghost use Rattle.fr_guide.specs.Topics.{grants, words_of};

use crate::topic::Topic;

/// The words explained here.
pub fn topics() -> [Topic; 4]
    ensures { words_of result ≡ grants }
{
    [EXISTS, NODE_DIFFERS, NOT_GRANTED, IN_USE]
}

const EXISTS: Topic = Topic {
    word: "Exists",
    about: "refusal 19. What would be added is there already.",
    help: "\
There is a variant, supplier, node, frame or signal of that name, or the grant to this supplier and node.
It comes for the commands that add one of these, and for a row of frames or of signals in a file.
If it is the one that you want, there is nothing to do. Else choose another name.
",
};

const NODE_DIFFERS: Topic = Topic {
    word: "NodeDiffers",
    about: "refusal 20. Another node of the same supplier has it.",
    help: "\
For `grant` the supplier holds slot and channel with another of its nodes: revoke that grant first.
For a row of placements in a file the frame is there with another node: name that node in the row.
The reports `grants` and `frames` show the nodes.
",
};

const NOT_GRANTED: Topic = Topic {
    word: "NotGranted",
    about: "refusal 21. The slot is not granted.",
    help: "\
For `place` and for a row of a file: the frame's node does not hold the slot on one of the channels.
For `revoke`: the supplier does not hold the slot on the channel.
A placement on AB needs the grants of both channels, each to the frame's node.
The report `grants` shows which node holds what. The integrator grants by `grant`.
",
};

const IN_USE: Topic = Topic {
    word: "InUse",
    about: "refusal 22. A placement uses slot and channel.",
    help: "\
It comes for `revoke`: a frame of the supplier is sent in the slot on the channel.
Let the supplier take these placements back by `unplace`, then revoke.
The report `schedule` shows which frames are sent there.
",
};
