//! The refusal of a register that cannot be used.
ghost use Rattle.std.specs.Prelude.{◌≡◌};
ghost use Rattle.fr_guide.specs.Topics.{register, words_of};

use crate::topic::Topic;

/// The words explained here.
pub fn topics() -> [Topic; 1]
    ensures { words_of result ≡ register }
{
    [UNAVAILABLE]
}

const UNAVAILABLE: Topic = Topic {
    word: "Unavailable",
    about: "refusal 28, and a fault of a register. Its file cannot be used, or memory or the disk failed.",
    help: "\
Another program has the file; you may not write it or its folder, as a report needs too; `create` finds no such folder;
DB is a folder or pipe, or has a second hard link, as by `cp -al`; its log is a link; a `-journal` lies beside it;
for `create` it is no database or has another table; for `serve` other files stand there; the rows make no register.
As a refusal: no memory, the file failed, or a row is not of its form. Nothing changed, but a failed disk may keep it.
`slotplan check --register DB` tells which. See to that, to memory and disk, and ask for a report before you send again.
",
};
