//! What the records of a supplier's file are.
ghost use Rattle.std.specs.Prelude.{◌≡◌, map};
ghost use Rattle.csv.specs.Records.{fields_of};
ghost use Rattle.fr_guide.specs.FileKinds.{kind_of, spelled_kind};

use csv::ByteRecord;
use fr_base::Header;
use fr_text::{header_of, names, spells_wishes, wish_names};

/// What the records of a file are, as its first one says.
#[derive(Clone, Copy, PartialEq, Eq)]
pub enum FileKind {
    /// Rows below this header, as imports, replacements and trials read them.
    Rows(Header),
    /// Wishes, as proposals read them.
    Wishes,
}

impl FileKind {
    /// The kind of which the fields are the header, if they are one.
    pub fn of(fields: &ByteRecord) -> Option<FileKind>
        ensures { result ≡ kind_of (fields_of fields.now) }
    {
        match header_of(fields) {
            Some(header) => Some(FileKind::Rows(header)),
            None if spells_wishes(fields) => Some(FileKind::Wishes),
            None => None,
        }
    }

    /// The names of its fields.
    pub fn names(self) -> &'static [&'static str]
        ensures { map (λ name. name.now) result.now ≡ spelled_kind self }
    {
        match self {
            FileKind::Rows(header) => names(header),
            FileKind::Wishes => wish_names(),
        }
    }
}
