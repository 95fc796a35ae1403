//! The fields of which a query's names and numbers are read.
ghost use Rattle.std.specs.Prelude.{◌≡◌};
ghost use Rattle.fr_base.specs.QueryNames.{name_of_field};

/// A field that holds a name or a number of what is asked.
#[derive(Clone, Copy, Debug, Drop, PartialEq, Eq)]
pub enum FieldName {
    /// The variant that is asked about.
    Variant,
    /// The variant with which that is compared.
    From,
    /// The frame.
    Frame,
    /// The cycle repetition.
    Repetition,
    /// Which part of the records, from 0.
    Part,
}

impl FieldName {
    /// The name of the field in a request.
    pub fn as_str<'a>(self) -> &'a str
        ensures { result.now ≡ name_of_field self }
    {
        match self {
            FieldName::Variant => "variant",
            FieldName::From => "from",
            FieldName::Frame => "frame",
            FieldName::Repetition => "repetition",
            FieldName::Part => "part",
        }
    }
}
