//! Reads a request from the bytes of its line: one JSON object, whose field `do` has the word of a
//! form, and whose other fields are just those of the form.
ghost use Rattle.std.specs.Prelude.{◌≡◌, ◌⊎◌, ◌++◌, Some, None, IfOk, MatchResult};
ghost use Rattle.serde_json.specs.View.{view};
ghost use Rattle.fr_text.specs.Fields.{fields_in};
ghost use Rattle.fr_text.specs.Faults.{ReadsRequest};
ghost use Rattle.fr_text.specs.RequestText.{integrators, made, of_files, of_frames, picked, request_of};

mod files;
mod frames;
mod integrator;
mod question;

use crate::field_faults::{FieldFault, field_faults};
use crate::fields::{Fields, JsonFault, field, read_json, word_in};
use crate::request_text::question::ask;
use fr_base::{Form, NoMemory, Refusal, Request, form_of};
use serde_json::Value;
use std::alloc::{AllocError, Global};

/// Why a value is no request.
#[derive(Drop)]
pub enum RequestFault<'v> {
    /// Memory was wanting.
    NoMemory,
    /// The value is not an object.
    NoObject,
    /// The field `do`, if it is there, names no request.
    NoRequest(Option<&'v Value>),
    /// The fields are not just those of the form.
    OfFields(&'static Form, Vec<FieldFault<'v>>),
}

/// Reads a request. Bytes that are no request are `BadText`; want of memory is `Unavailable`.
#[tactic(auto, unfolding(crate::specs::RequestText::request_of))]
pub fn read_command(alloc: Global, bytes: &[u8]) -> Result<Request, Refusal>
    ensures { MatchResult result (λ request. request_of bytes.now ≡ Some request)
        (λ refusal. (refusal ≡ Refusal.Unavailable)
        ⊎ ((refusal ≡ Refusal.BadText) × (request_of bytes.now ≡ None))) }
{
    let value = match read_json(alloc, bytes) {
        Ok(value) => value,
        Err(JsonFault::NoMemory) => return Err(Refusal::Unavailable),
        Err(_) => return Err(Refusal::BadText),
    };
    match read_request(alloc, &value) {
        Ok(request) => Ok(request),
        Err(RequestFault::NoMemory) => Err(Refusal::Unavailable),
        Err(_) => Err(Refusal::BadText),
    }
}

/// Reads a request from a value, or says why it is none.
#[tactic(auto, unfolding(crate::specs::RequestText::request_from, crate::specs::RequestText::request_in))]
pub fn read_request<'v>(alloc: Global, value: &'v Value) -> Result<Request, RequestFault<'v>>
    ensures { ReadsRequest (view value.now) result }
{
    let Some(fields) = value.as_object() else {
        return Err(RequestFault::NoObject);
    };
    let Some(word) = word_in(fields) else {
        return Err(RequestFault::NoRequest(field(fields, "do")));
    };
    let Some(form) = form_of(word) else {
        return Err(RequestFault::NoRequest(field(fields, "do")));
    };
    let Ok(faults) = field_faults(alloc, form, fields) else {
        return Err(RequestFault::NoMemory);
    };
    if !faults.is_empty() {
        return Err(RequestFault::OfFields(form, faults));
    }
    match make(alloc, form, word, fields) {
        Ok(Some(request)) => Ok(request),
        Ok(None) => Err(RequestFault::NoRequest(field(fields, "do"))),
        Err(AllocError) => Err(RequestFault::NoMemory),
    }
}

// The request of this word, whose form this is, made of the fields' values.
fn make(
    alloc: Global,
    form: &Form,
    word: &str,
    fields: &Fields,
) -> Result<Option<Request>, NoMemory>
    ensures { IfOk result (λ request. request
        ≡ made form.now.asks word.now (fields_in fields.now)) }
{
    match form.asks {
        Some(question) => Ok(Some(ask(alloc, &question, fields)?)),
        None => pick(alloc, word, fields),
    }
}

// The request of this word that may change rows, made of the fields' values.
fn pick(alloc: Global, word: &str, fields: &Fields) -> Result<Option<Request>, NoMemory>
    ensures { IfOk result (λ request. request
        ≡ picked (integrators ++ of_frames ++ of_files) word.now (fields_in fields.now)) }
{
    if let Some(request) = integrator::pick(alloc, word, fields)? {
        return Ok(Some(request));
    }
    if let Some(request) = frames::pick(alloc, word, fields)? {
        return Ok(Some(request));
    }
    files::pick(alloc, word, fields)
}
