//! What a head asks for, and how long the body is.
ghost use Rattle.std.specs.Prelude.{◌≡◌, [], ◌∷◌};
ghost use Rattle.std.specs.Char.{is_ascii_digit};
ghost use Rattle.std.specs.List.{list_all};
ghost use Rattle.fr_http.specs.Outcome.{body_length, is_decimal, length_in};
ghost use Rattle.fr_http.specs.Planning.{Plans};

use crate::engine::Engine;
use crate::fault::Rejection;
use crate::head::{Head, Values};
use crate::method::Method;
use crate::routes::{Route, ascii, path_of};

/// How many bytes a body has at most.
pub const MAX_BODY: usize = 65_536;

/// What a head asks for: a route with its path, and how long the body is.
#[derive(Clone, Copy)]
pub(crate) struct Plan<'a> {
    pub(crate) route: Route,
    pub(crate) path: &'a str,
    pub(crate) length: usize,
}

/// What the head asks for, or the engine's own answer.
pub(crate) fn make_plan<'a>(engine: &Engine, head: &Head<'a>) -> Result<Plan<'a>, Rejection>
    ensures { Plans head.now.0 result }
{
    if head.values("transfer-encoding").next().is_some() {
        return Err(Rejection::NotImplemented);
    }
    let Some(path) = ascii(path_of(head.target())) else {
        return Err(Rejection::NotFound);
    };
    let Some(resource) = engine.find(path) else {
        return Err(Rejection::NotFound);
    };
    let Some(route) = resource.by(head.method()) else {
        return Err(Rejection::MethodNotAllowed(resource.allowed()));
    };
    match body_length(head, route.method()) {
        Ok(length) => Ok(Plan {
            route,
            path,
            length,
        }),
        Err(rejection) => Err(rejection),
    }
}

// The length of the body that a request by this method has.
fn body_length(head: &Head<'_>, method: Method) -> Result<usize, Rejection>
    ensures { result ≡ body_length method head.now.0 }
{
    match method {
        Method::Get => Ok(0),
        Method::Post | Method::Put => length_in(head.values("content-length")),
    }
}

// The length of a body, by the values of the fields that give it.
fn length_in(mut values: Values<'_>) -> Result<usize, Rejection>
    ensures { result ≡ length_in values.entry }
{
    let Some(value) = values.next() else {
        return Err(Rejection::LengthRequired);
    };
    if values.next().is_some() {
        return Err(Rejection::BadRequest);
    }
    decimal(value)
}

// The number, if a body may have this length.
fn decimal(text: &[u8]) -> Result<usize, Rejection>
    ensures { result ≡ length_in (text.now ∷ []) }
{
    if !is_decimal(text) {
        return Err(Rejection::BadRequest);
    }
    let mut length = 0;
    for digit in text {
        length = length * 10 + usize::from(*digit - b'0');
        if length > MAX_BODY {
            return Err(Rejection::PayloadTooLarge);
        }
    }
    Ok(length)
}

// Whether the text is one or more ASCII digits.
fn is_decimal(text: &[u8]) -> bool
    ensures { result ≡ is_decimal text.now }
{
    !text.is_empty() && are_digits(text)
}

// Whether all the bytes are ASCII digits.
fn are_digits(bytes: &[u8]) -> bool
    ensures { result ≡ list_all is_ascii_digit bytes.now }
{
    bytes.iter().all(|byte| byte.is_ascii_digit())
}
