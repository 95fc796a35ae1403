//! Faults of what is read: scripts and connections.
ghost use Rattle.std.specs.Prelude.{◌≡◌};
ghost use Rattle.fr_guide.specs.Topics.{inputs, words_of};

use crate::topic::Topic;

/// The words explained here.
pub fn topics() -> [Topic; 5]
    ensures { words_of result ≡ inputs }
{
    [
        TOO_LONG,
        TOO_MANY_READS,
        READ_FAILED,
        NO_SEPARATOR,
        TRUNCATED,
    ]
}

const TOO_LONG: Topic = Topic {
    word: "TooLong",
    about: "a fault of `run`, `ask`, and commands whose KEY is `-`. Standard input is too long, or a line of it.",
    help: "\
For `run` and `ask` it has at most 16777216 bytes, a line of `ask` 1048576, and the key's line 8192.
`run` has answered nothing. `ask` has answered the lines before, and what they did is in the file;
but not those of the last 8192 bytes or less that it read at once.
A script's register ends with the script, so a second script would begin anew.
For many requests make a register file by `slotplan create`, and `ask` them in several parts.
",
};

const TOO_MANY_READS: Topic = Topic {
    word: "TooManyReads",
    about: "a fault of `run`, `ask`, a KEY that is `-`, or a connection. It did not end in the reads that are allowed.",
    help: "\
`run` and `ask` read at most 20000000 times. A command for its key, and the server from a connection, read at most
100000 times.
The input came in very small pieces. `run` has answered nothing, and a connection's request was not asked.
`ask` has answered the lines before, and what they did is in the file.
Send the input in larger pieces: a script from a file, a request as one piece.
",
};

const READ_FAILED: Topic = Topic {
    word: "ReadFailed",
    about: "a fault of `run`, `ask`, a KEY that is `-`, or a connection. A read failed.",
    help: "\
`run` has answered nothing. `ask` has answered the lines before, and what they did is in the file.
Read standard input from a file: slotplan run < FILE
A connection's request was not asked, and the server goes on with the next connection.
A connection ends so too where its seconds are over; `serve --seconds N` allows more of them.
",
};

const NO_SEPARATOR: Topic = Topic {
    word: "NoSeparator",
    about: "a fault of a script. No line of it is ---.",
    help: "\
A script is a cluster file, a line that is exactly ---, and the requests, one on each line.
Add that line between the two, with no space before or after it.
",
};

const TRUNCATED: Topic = Topic {
    word: "Truncated",
    about: "a fault of a connection. It ended before its request was whole.",
    help: "\
The client closed before the head's end, or sent fewer bytes than its content-length says.
The request was not asked, and the server goes on with the next connection.
Look at the client, and at what stands between it and the server.
",
};
