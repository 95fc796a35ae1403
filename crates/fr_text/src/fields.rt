//! Reads JSON, and the values of an object's fields.
ghost use Rattle.std.specs.Prelude.{◌≡◌, ◌⊎◌, IfOk, false, Err, option_map};
ghost use Rattle.std.specs.Str.{is_utf8};
ghost use Rattle.serde_json.specs.Errors.{IsMemory};
ghost use Rattle.serde_json.specs.Find.{get_member};
ghost use Rattle.serde_json.specs.View.{view};
ghost use Rattle.fr_text.specs.Fields.{as_whole, fields_in, flag, number, text, text_or_null, word_of};
ghost use Rattle.fr_text.specs.Faults.{ReadsJson};

use fr_base::{Body, NoMemory, Text};
use serde_json::{Error, Map, Value};
use std::alloc::Global;

/// The fields of a request's object.
pub(crate) type Fields = Map<String, Value>;

/// Why no value of JSON was read.
#[derive(Drop)]
pub enum JsonFault {
    /// Memory was wanting.
    NoMemory,
    /// The bytes are not UTF-8.
    NotUtf8,
    /// The text is not JSON, and that is why.
    NotJson(Error),
}

/// The value that the bytes spell in JSON.
#[tactic(auto, using(crate::proofs::FieldsLemmas::utf8_tests), unfolding(crate::specs::Fields::value_of))]
pub fn read_json(alloc: Global, bytes: &[u8]) -> Result<Value, JsonFault>
    ensures value { ReadsJson bytes.now result }

    // Bytes that are not UTF-8 never lack memory.
    ensures plain { is_utf8 bytes.now ≡ false → result ≡ Err JsonFault.NotUtf8 }
{
    let Ok(text) = str::from_utf8(bytes) else {
        return Err(JsonFault::NotUtf8);
    };
    match Value::from_str(alloc, text) {
        Ok(value) => Ok(value),
        Err(error) => Err(fault_of(error)),
    }
}

// Why no value was read from a text: memory was wanting, or the text is not JSON.
fn fault_of(error: Error) -> JsonFault
    ensures { ((result ≡ JsonFault.NoMemory) × IsMemory error)
        ⊎ ((result ≡ JsonFault.NotJson error) × ¬ (IsMemory error)) }
{
    if error.is_memory() {
        JsonFault::NoMemory
    } else {
        JsonFault::NotJson(error)
    }
}

/// The word of a request, which is what its field `do` says.
#[tactic(auto, unfolding(crate::specs::Fields::word_of))]
pub(crate) fn word_in(fields: &Fields) -> Option<&str>
    ensures { option_map (λ word. word.now) result ≡ word_of (fields_in fields.now) }
{
    field(fields, "do").and_then(Value::as_str)
}

/// The field of this name, a text, copied.
pub(crate) fn copy_text(alloc: Global, fields: &Fields, name: &str) -> Result<Text, NoMemory>
    ensures { IfOk result (λ s. s ≡ text (fields_in fields.now) name.now) }
{
    Text::copy(alloc, text_in(fields, name))
}

/// The field of this name, a text, copied; `None` where it is absent or null.
#[tactic(auto, unfolding(crate::specs::Fields::text_or_null))]
pub(crate) fn copy_text_or_null(
    alloc: Global,
    fields: &Fields,
    name: &str,
) -> Result<Option<Text>, NoMemory>
    ensures { IfOk result (λ s. s ≡ text_or_null (fields_in fields.now) name.now) }
{
    match field(fields, name).and_then(Value::as_str) {
        Some(text) => Ok(Some(Text::copy(alloc, text)?)),
        None => Ok(None),
    }
}

/// The field of this name, the text of a file, copied.
pub(crate) fn copy_body(alloc: Global, fields: &Fields, name: &str) -> Result<Body, NoMemory>
    ensures { IfOk result (λ b. b ≡ text (fields_in fields.now) name.now) }
{
    Body::copy(alloc, text_in(fields, name).as_bytes())
}

/// The field of this name, `true` or `false`; `false` where it is absent.
#[tactic(auto, unfolding(crate::specs::Fields::flag))]
pub(crate) fn flag_in(fields: &Fields, name: &str) -> bool
    ensures { result ≡ flag (fields_in fields.now) name.now }
{
    field(fields, name)
        .and_then(Value::as_bool)
        .unwrap_or(false)
}

/// The field of this name, a whole number from 0 to 4,294,967,295.
#[tactic(auto, unfolding(crate::specs::Fields::number))]
pub(crate) fn number_in(fields: &Fields, name: &str) -> u32
    ensures { result ≡ number (fields_in fields.now) name.now }
{
    field(fields, name).and_then(whole).unwrap_or(0)
}

/// The whole number that the value is, if it is one from 0 to 4,294,967,295.
#[tactic(auto, unfolding(crate::specs::Fields::as_whole))]
pub(crate) fn whole(value: &Value) -> Option<u32>
    ensures { result ≡ as_whole (view value.now) }
{
    value.as_u64().and_then(|number| u32::try_from(number).ok())
}

/// The field of this name.
pub(crate) fn field<'v>(fields: &'v Fields, name: &str) -> Option<&'v Value>
    ensures { option_map (λ x. view x.now) result ≡ get_member name.now (fields_in fields.now) }
{
    fields.get(name)
}

// The field of this name, a text.
#[tactic(auto, unfolding(crate::specs::Fields::text))]
fn text_in<'v>(fields: &'v Fields, name: &str) -> &'v str
    ensures { result.now ≡ text (fields_in fields.now) name.now }
{
    field(fields, name).and_then(Value::as_str).unwrap_or("")
}
