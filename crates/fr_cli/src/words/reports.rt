//! The reports: what is asked with the subcommand of each, and its arguments, which are the fields of what is asked.
ghost use Rattle.std.specs.Prelude.{◌≡◌};
ghost use Rattle.fr_base.specs.Forms.{form_data};
ghost use Rattle.fr_cli.specs.Reports.{argument_name, asked_in, asked_with};

use fr_base::{FieldName, Form, Query, Question, Report, form_of};

/// What is asked with the subcommand of this form's word, if that is a report's. Those that ask for records to export share
/// a subcommand of its own.
pub fn asked_in(form: &Form) -> Option<Question>
    ensures { result ≡ asked_in (form_data form.now) }
{
    match form.asks {
        Some(
            Query::Variant {
                report: Report::Export { .. },
                ..
            },
        ) => None,
        asks => asks,
    }
}

/// What is asked with the report's subcommand of this name.
pub fn asked_with(name: &str) -> Option<Question>
    ensures { result ≡ asked_with name.now }
{
    asked_in(form_of(name)?)
}

/// What the argument for this field of what is asked is called in the help.
pub fn argument_name<'a>(asked: &Question, field: FieldName) -> &'a str
    ensures { result.now ≡ argument_name asked.now field }
{
    match (asked, field) {
        (Query::Difference { .. }, FieldName::Variant) => "TO",
        (_, FieldName::Variant) => "VARIANT",
        (_, FieldName::From) => "FROM",
        (_, FieldName::Frame) => "FRAME",
        (_, FieldName::Repetition) => "REPETITION",
        (_, FieldName::Part) => "part",
    }
}

/// What the help says of the argument for this field of what is asked.
pub fn argument_help<'a>(asked: &Question, field: FieldName) -> &'a str {
    match (asked, field) {
        (Query::Difference { .. }, FieldName::Variant) => "The variant that is compared",
        (_, FieldName::Variant) => "The variant's name",
        (_, FieldName::From) => "The variant with which the other is compared",
        (_, FieldName::Frame) => "The frame's name",
        (_, FieldName::Repetition) => "The cycle repetition",
        (_, FieldName::Part) => "Which part of the rows, of at most 512 each",
    }
}
