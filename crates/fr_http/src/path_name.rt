//! The names of the parts of a path, which stand in braces in the patterns of paths.
ghost use Rattle.std.specs.Prelude.{◌≡◌};
ghost use Rattle.fr_http.specs.Routes.{place};

/// The name of a part of a path: the field of the request whose value the part is, or a word to be
/// explained.
#[derive(Clone, Copy, PartialEq, Eq)]
pub enum PathName {
    Variant,
    From,
    Label,
    Frame,
    Repetition,
    Part,
    Word,
}

impl PathName {
    /// How many slashes stand before the part, in each path that has it.
    pub(crate) fn place(self) -> usize
        ensures { result ≡ place self }
    {
        match self {
            PathName::Variant | PathName::Word => 3,
            PathName::From | PathName::Label | PathName::Frame => 5,
            PathName::Part => 6,
            PathName::Repetition => 7,
        }
    }
}
