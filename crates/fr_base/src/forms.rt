//! The forms of the requests: the word of each, and its fields, each a name and a kind; and what is asked with those that change
//! nothing.
ghost use Rattle.std.specs.Prelude.{◌≡◌, map, option_copied, option_map};
ghost use Rattle.std.specs.List.{find};
ghost use Rattle.std.specs.Str.{bytes_eq};
ghost use Rattle.fr_base.specs.Forms.{form_data, form_in, form_of, forms};

use crate::field_name::FieldName;
use crate::import::Header;
use crate::query::{Inventory, Query, Question};
use crate::report::Report;

/// The kind of a request's field.
#[derive(Clone, Copy, PartialEq, Eq)]
pub enum Kind {
    /// A text.
    Text,
    /// A text, or null; the field may also be left out.
    TextOrNull,
    /// `true` or `false`; the field may also be left out.
    Flag,
    /// A whole number from 0 to 4,294,967,295.
    Number,
}

/// A field of a request.
#[derive(Clone, Copy)]
pub struct Field {
    /// Its name.
    pub name: &'static str,
    /// Its kind.
    pub kind: Kind,
    /// The name of another field that it needs. It is given only where that is given: a field is
    /// given where it is there, and is neither null nor `false`.
    pub needs: Option<&'static str>,
}

/// The form of a request.
#[derive(Clone, Copy)]
pub struct Form {
    /// The word by which it is asked.
    pub word: &'static str,
    /// Its fields besides the word.
    pub fields: &'static [Field],
    /// What is asked with it, where it changes nothing.
    pub asks: Option<Question>,
}

// The form of a request that may change rows: its word, and its fields.
macro_rules! form {
    ($word:expr $(, $kind:ident $name:literal $(with $other:literal)?)*) => {
        Form {
            word: $word,
            fields: fields!($($kind $name $(with $other)?),*),
            asks: None,
        }
    };
}

// The form of a request that changes nothing: its word, what is asked with it, and its fields.
macro_rules! question {
    ($word:expr, $asks:expr $(, $kind:ident $name:literal)*) => {
        Form {
            word: $word,
            fields: fields!($($kind $name),*),
            asks: Some($asks),
        }
    };
}

// The form of a report of a variant: its word, the report, and its fields beside the variant.
macro_rules! report {
    ($word:expr, $report:expr $(, $kind:ident $name:literal)*) => {
        question!(
            $word,
            Query::Variant {
                variant: FieldName::Variant,
                report: $report,
            },
            Text "variant" $(, $kind $name)*
        )
    };
}

// The form of a report of the records below a header.
macro_rules! export {
    ($word:expr, $header:ident) => {
        report!(
            $word,
            Report::Export {
                header: Header::$header,
                part: FieldName::Part,
            },
            Number "part"
        )
    };
}

// Fields, each a kind and a name, and where it needs another field the name of that.
macro_rules! fields {
    ($($kind:ident $name:literal $(with $other:literal)?),*) => {
        &[$(Field {
            name: $name,
            kind: Kind::$kind,
            needs: other!($($other)?),
        }),*]
    };
}

// The field that a field needs, if it needs one.
macro_rules! other {
    () => {
        None
    };
    ($other:literal) => {
        Some($other)
    };
}

// The words of the requests that change nothing. Their answers are named by them too.
pub(crate) const CLUSTER: &str = "cluster";

pub(crate) const VARIANTS: &str = "variants";

pub(crate) const NODES: &str = "nodes";

pub(crate) const DIFF: &str = "diff";

pub(crate) const GRANTS: &str = "grants";

pub(crate) const FRAMES: &str = "frames";

pub(crate) const SCHEDULE: &str = "schedule";

pub(crate) const GAPS: &str = "gaps";

pub(crate) const LOAD: &str = "load";

pub(crate) const ROWS: &str = "rows";

pub(crate) const LAYOUT: &str = "layout";

pub(crate) const ROOM: &str = "room";

pub(crate) const EXPORT_FRAMES: &str = "export_frames";

pub(crate) const EXPORT_PLACEMENTS: &str = "export_placements";

pub(crate) const EXPORT_SIGNALS: &str = "export_signals";

// The word of a trial, by which its answer is named too.
pub(crate) const TRY: &str = "try";

// The word of a proposal, by which its answer is named too.
pub(crate) const PROPOSE: &str = "propose";

// The forms of all requests, in the order in which they are listed.
const TABLE: &[Form] = &[
    form!("open_variant", Text "variant", TextOrNull "from", Flag "flat" with "from"),
    form!("release", Text "variant"),
    form!("add_supplier", Text "supplier", Text "key"),
    form!("set_key", Text "supplier", Text "key"),
    form!("add_node", Text "supplier", Text "node"),
    form!("grant", Text "variant", Number "slot", Text "channel", Text "supplier", Text "node"),
    form!("revoke", Text "variant", Number "slot", Text "channel", Text "supplier"),
    form!("add_frame", Text "variant", Text "frame", Text "node"),
    form!("drop_frame", Text "variant", Text "frame"),
    form!(
        "place", Text "variant", Text "frame", Number "slot", Text "channels",
        Number "base", Number "repetition"
    ),
    form!(
        "unplace", Text "variant", Text "frame", Number "slot", Text "channels",
        Number "base", Number "repetition"
    ),
    form!(
        "add_signal", Text "variant", Text "frame", Text "signal",
        Number "start", Number "length", Text "order"
    ),
    form!("drop_signal", Text "variant", Text "frame", Text "signal"),
    form!("import", Text "variant", Text "label", Text "body"),
    form!("replace", Text "variant", Text "body", Flag "whole"),
    form!(TRY, Text "variant", Text "body", Flag "replace", Flag "whole" with "replace"),
    form!(PROPOSE, Text "variant", Text "body", Flag "replace"),
    question!(CLUSTER, Query::Register(Inventory::Cluster)),
    question!(VARIANTS, Query::Register(Inventory::Variants)),
    question!(NODES, Query::Register(Inventory::Nodes)),
    question!(
        DIFF,
        Query::Difference { variant: FieldName::Variant, from: FieldName::From },
        Text "variant", Text "from"
    ),
    report!(GRANTS, Report::Grants),
    report!(FRAMES, Report::Frames),
    report!(SCHEDULE, Report::Schedule),
    report!(GAPS, Report::Gaps),
    report!(LOAD, Report::Load),
    report!(ROWS, Report::Rows),
    report!(LAYOUT, Report::Layout { frame: FieldName::Frame }, Text "frame"),
    report!(
        ROOM,
        Report::Room { frame: FieldName::Frame, repetition: FieldName::Repetition },
        Text "frame", Number "repetition"
    ),
    export!(EXPORT_FRAMES, Frames),
    export!(EXPORT_PLACEMENTS, Placements),
    export!(EXPORT_SIGNALS, Signals),
];

/// The forms of all requests.
#[tactic(auto, unfolding(crate::specs::Forms::forms))]
pub fn request_forms() -> &'static [Form]
    ensures { map form_in result.now ≡ forms }
{
    TABLE
}

/// The form of the request of this word.
pub fn form_of(word: &str) -> Option<&'static Form>
    ensures { option_map (λ form. form_data form.now) result ≡ form_of word.now }
{
    find(request_forms(), word)
}

// The first form of this word.
fn find<'a>(forms: &'a [Form], word: &str) -> Option<&'a Form>
    ensures { option_copied result ≡ find (λ form. bytes_eq word.now form.word.now) forms.now }
{
    forms.iter().find(|form| word == form.word)
}
