//! Refusals of variants.
ghost use Rattle.std.specs.Prelude.{◌≡◌};
ghost use Rattle.fr_guide.specs.Topics.{variants, words_of};

use crate::topic::Topic;

/// The words explained here.
pub fn topics() -> [Topic; 4]
    ensures { words_of result ≡ variants }
{
    [NO_VARIANT, RELEASED, NOT_RELEASED, TOO_DEEP]
}

const NO_VARIANT: Topic = Topic {
    word: "NoVariant",
    about: "refusal 10. There is no such variant.",
    help: "\
It comes for each request that names a variant. For `open_variant` the parent is missing.
Look at the spelling; case matters.
Or let the integrator open the variant by `open_variant`.
",
};

const RELEASED: Topic = Topic {
    word: "Released",
    about: "refusal 11. The variant is released and never changes.",
    help: "\
It comes for each command that would change the variant, for a second `release`, for a new import, for `try` and for
`room`.
An import that was carried out before the release has its old answer when it is sent again.
To go on, let the integrator open a new variant from this one, and change the new one.
",
};

const NOT_RELEASED: Topic = Topic {
    word: "NotReleased",
    about: "refusal 12. The variant from which another is opened is not released.",
    help: "\
It comes for `open_variant`: a variant is opened from a released variant, or empty.
Release the variant that `from` names. Then it never changes again.
Or leave `from` out, and the variant is opened empty.
",
};

const TOO_DEEP: Topic = Topic {
    word: "TooDeep",
    about: "refusal 13. The parent has depth 16, which is the most.",
    help: "\
It comes for `open_variant`. A variant that was opened empty or flat has depth 1.
One that has a parent is one deeper than that.
Open the variant flat, by the field `flat`: it has all rows then, and no parent.
Or open it from one of less depth, or empty.
",
};
