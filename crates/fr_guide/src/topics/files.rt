//! Faults of files, registers, the socket, memory and output.
ghost use Rattle.std.specs.Prelude.{◌≡◌};
ghost use Rattle.fr_guide.specs.Topics.{files, words_of};

use crate::topic::Topic;

/// The words explained here.
pub fn topics() -> [Topic; 7]
    ensures { words_of result ≡ files }
{
    [
        CANNOT_OPEN,
        NOT_EMPTY,
        NOT_A_REGISTER,
        WRONG_SCHEMA,
        CANNOT_LISTEN,
        NO_MEMORY,
        WRITE_FAILED,
    ]
}

const CANNOT_OPEN: Topic = Topic {
    word: "CannotOpen",
    about: "a fault of a file. The file cannot be read: a cluster's, one of rows or one of requests.",
    help: "\
There is no such file, you may not read it, or it is a folder or a pipe, as `/dev/stdin` behind a `|` and `<(..)` are.
A cluster file of more than 1048576 bytes is not read, nor requests of more than 16777216 bytes, nor a file that takes
more than 100000 reads.
Look at the path and at the file's permissions.
",
};

const NOT_EMPTY: Topic = Topic {
    word: "NotEmpty",
    about: "a fault of `slotplan create`. The file DB has a register's table already.",
    help: "\
Nothing in the file has changed.
Use the register that is there, or name another file.
",
};

const NOT_A_REGISTER: Topic = Topic {
    word: "NotARegister",
    about: "a fault of the commands on DB. The file is no register.",
    help: "\
There is no file DB, or it is no SQLite database, has no table `register` or no row in it, or has a row that breaks a
rule of its table. `slotplan check --register DB` tells which.
Look at the path. `slotplan create` makes a register file.
A file that was damaged is no register either: put a backup in its place.
",
};

const WRONG_SCHEMA: Topic = Topic {
    word: "WrongSchema",
    about: "a fault of the commands on DB. The register is of another version of the program.",
    help: "\
The number `schema` in its table `register` is not 2. Nothing in the file has changed.
Where it is 1, an earlier `slotplan` made the file: `slotplan migrate DB` brings it to 2.
Of `migrate` itself the number is not 1. Where it is 2, there is nothing to migrate.
With another number use the version of the program that made the file.
",
};

const CANNOT_LISTEN: Topic = Topic {
    word: "CannotListen",
    about: "a fault of `slotplan serve`. The port cannot be used, or a connection cannot be accepted.",
    help: "\
Often another program listens on the port, or you may not use a port below 1024.
Choose another port, or end the other program.
",
};

const NO_MEMORY: Topic = Topic {
    word: "NoMemory",
    about: "a fault of any job. There was no memory for it.",
    help: "\
It may come at any point. What was answered before stays.
Give the program more memory, or end other programs.
On a register file ask for a report before you send a command again.
",
};

const WRITE_FAILED: Topic = Topic {
    word: "WriteFailed",
    about: "a fault of any job or of a connection. The answer could not be written.",
    help: "\
Often the one who reads ended before all was written, the disk is full, or a connection's seconds were over.
A command may have been carried out although its answer was not written.
On a register file ask for a report before you send it again.
",
};
