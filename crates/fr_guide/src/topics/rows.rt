//! The refusal of a file's row.
ghost use Rattle.std.specs.Prelude.{◌≡◌};
ghost use Rattle.fr_guide.specs.Topics.{rows, words_of};

use crate::topic::Topic;

/// The words explained here.
pub fn topics() -> [Topic; 1]
    ensures { words_of result ≡ rows }
{
    [BAD_ROW]
}

const BAD_ROW: Topic = Topic {
    word: "BadRow",
    about: "refusal 29. A row of an import or a replacement is refused, and nothing of the file is carried out.",
    help: "\
The answer names the row by its line, and says the row's own refusal.
The header is line 1, and empty lines are not counted. `slotplan check --rows FILE` counts each line.
Look that refusal up, and fix the row. The file may be sent again, an import under the same label.
",
};
