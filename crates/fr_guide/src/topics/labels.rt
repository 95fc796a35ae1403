//! The refusal of an import's label.
ghost use Rattle.std.specs.Prelude.{◌≡◌};
ghost use Rattle.fr_guide.specs.Topics.{labels, words_of};

use crate::topic::Topic;

/// The words explained here.
pub fn topics() -> [Topic; 1]
    ensures { words_of result ≡ labels }
{
    [LABEL_USED]
}

const LABEL_USED: Topic = Topic {
    word: "LabelUsed",
    about: "refusal 9. The label is used by another import.",
    help: "\
An import of the supplier is kept under the label, with another variant or another file.
The same import that is sent again has its old answer and changes nothing.
Choose another label for the new file.
",
};
