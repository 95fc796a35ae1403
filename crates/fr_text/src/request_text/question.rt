//! A request that changes nothing: what its form asks, with the values of its fields.
ghost use Rattle.std.specs.Prelude.{◌≡◌, IfOk};
ghost use Rattle.fr_text.specs.Fields.{fields_in};
ghost use Rattle.fr_text.specs.RequestText.{asked};

use crate::fields::{Fields, copy_text, number_in};
use fr_base::{FieldName, NoMemory, QueryReader, Question, Request, Text};
use std::alloc::Global;

/// The request that asks this of the fields.
pub(super) fn ask(alloc: Global, question: &Question, fields: &Fields) -> Result<Request, NoMemory>
    ensures { IfOk result (λ request. request ≡ asked (fields_in fields.now) question.now) }
{
    let query = question.read(&FieldValues { alloc, fields })?;
    Ok(Request::Query(query))
}

// The values of a request's fields.
#[derive(Drop)]
struct FieldValues<'f> {
    alloc: Global,
    fields: &'f Fields,
}

// The names and numbers of a query are the values of their fields.
impl QueryReader<FieldName, FieldName, Text, NoMemory> for FieldValues<'_> {
    ghost use Rattle.std.specs.Prelude.{◌≡◌, IfOk};
    ghost use Rattle.fr_base.specs.QueryNames.{name_of_field};
    ghost use Rattle.fr_text.specs.Fields.{fields_in, number, text};

    ghost reads = { λ values name result. IfOk result
        (λ made. made ≡ text (fields_in values.fields.now) (name_of_field name)) };

    ghost counts = { λ values name result. IfOk result
        (λ made. made ≡ number (fields_in values.fields.now) (name_of_field name)) };

    fn read_name(&self, name: &FieldName) -> Result<Text, NoMemory> {
        copy_text(self.alloc, self.fields, name.as_str())
    }

    fn read_number(&self, name: &FieldName) -> Result<u32, NoMemory> {
        Ok(number_in(self.fields, name.as_str()))
    }
}
