//! Refusals of what is no request, and of who asks.
ghost use Rattle.std.specs.Prelude.{◌≡◌};
ghost use Rattle.fr_guide.specs.Topics.{senders, words_of};

use crate::topic::Topic;

/// The words explained here.
pub fn topics() -> [Topic; 4]
    ensures { words_of result ≡ senders }
{
    [BAD_TEXT, UNKNOWN_KEY, NOT_YOURS, BAD_NAME]
}

const BAD_TEXT: Topic = Topic {
    word: "BadText",
    about: "refusal 1. The text is no request.",
    help: "\
The line has no space after its key; the text is not UTF-8, or not one JSON object; `do` names no request;
or a field is missing, unknown, of another kind, or no whole number of 0 to 4294967295.
In a file the header is none of the three; or a row lacks a field, has one too many, or one that is no text or number.
`slotplan check --requests FILE` and `--rows FILE` say in which line and field, and what may stand there.
Over HTTP so do `/v1/checks/requests` and `/v1/checks/rows`, where the text is the body of a `POST`.
",
};

const UNKNOWN_KEY: Topic = Topic {
    word: "UnknownKey",
    about: "refusal 2. The key belongs to nobody.",
    help: "\
Neither the integrator nor a supplier has the key when the request's turn comes.
Over HTTP it also comes where the field X-Office-Key is missing or stands more than once.
Use a key of the cluster file, or let the integrator add the supplier by `add_supplier`.
Of a supplier whose key was changed by `set_key` the new one is known alone.
",
};

const NOT_YOURS: Topic = Topic {
    word: "NotYours",
    about: "refusal 3. The request is not for the one who asks.",
    help: "\
A supplier gave a command of the integrator, or the integrator gave one of a supplier.
The integrator plans variants, suppliers, nodes and grants.
A supplier plans its frames, placements and signals, and imports them. Both ask for reports; a supplier for `room`.
Send the request with the key of the one who may ask it.
",
};

const BAD_NAME: Topic = Topic {
    word: "BadName",
    about: "refusal 4, and a fault of a cluster file. A name does not have the form of a name.",
    help: "\
A name is 1 to 32 ASCII letters, digits and underscores, and begins with a letter.
That holds for variants, suppliers, nodes, frames and signals, and for the label of an import: `week-48` is none.
Names stand in the fields `variant`, `from`, `supplier`, `node`, `frame`, `signal` and `label`, in a file's rows,
and over HTTP in the path. `slotplan check` says which it is: CONFIG, `--requests FILE`, `--rows FILE`, `--path PATH`.
Choose another name. Hyphens, spaces and letters with accents are not allowed. Case matters.
",
};
