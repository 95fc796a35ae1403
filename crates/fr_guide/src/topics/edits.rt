//! Refusals of rows that find no room.
ghost use Rattle.std.specs.Prelude.{◌≡◌};
ghost use Rattle.fr_guide.specs.Topics.{edits, words_of};

use crate::topic::Topic;

/// The words explained here.
pub fn topics() -> [Topic; 3]
    ensures { words_of result ≡ edits }
{
    [LIMIT, TAKEN, CELL_TAKEN]
}

const LIMIT: Topic = Topic {
    word: "Limit",
    about: "refusal 23, and a fault of a cluster file. There would be one too many.",
    help: "\
At most: 64 suppliers, 64 nodes a supplier, 64 variants; 256 frames a supplier in one variant;
8 placements and 64 signals a frame; 1000 imports a supplier; 65536 bytes and 512 rows a file.
In a cluster file there are more than 64 suppliers. For `room` the frame has 8 placements.
Drop frames, placements or signals that are not needed, or split the file.
Suppliers, nodes, variants and kept imports stay.
",
};

const TAKEN: Topic = Topic {
    word: "Taken",
    about: "refusal 24. Another supplier holds slot and channel.",
    help: "\
It comes for `grant`. A slot on a channel is granted to one node, for all cycles.
The integrator's report `grants` shows who holds what.
Grant another slot, or revoke that grant first.
",
};

const CELL_TAKEN: Topic = Topic {
    word: "CellTaken",
    about: "refusal 25. A cell of the placement is filled.",
    help: "\
A cell is a cycle, a slot and a channel, and one frame at most is sent in it.
The answer names the filled cell of least cycle, A before B, and the frame that is sent there.
It comes for `place` and for a row of a file. The report `schedule` shows what is sent.
Choose a base and a repetition that share no cycle with that frame's, or another slot. `room` shows which there are.
",
};
