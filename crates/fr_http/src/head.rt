//! The head of a request, its fields, and the bytes behind it.
ghost use Rattle.std.specs.Prelude.{◌≡◌};
ghost use Rattle.std.specs.Iterator.{YieldsFirstRef, item_count};
ghost use Rattle.httparse.specs.Spans.{IsRequestWithin};
ghost use Rattle.fr_http.specs.Head.{values};
ghost use Rattle.fr_http.specs.Received.{shown};

use httparse::spans::{HeaderSpan, RequestSpans};
use std::marker::Model;

/// How many bytes a head has at most.
pub const MAX_HEAD: usize = 8192;

/// How many field lines a head has at most.
pub const MAX_FIELDS: usize = 64;

/// The bytes of a connection that begin with a head: what the head says, and the bytes behind the
/// head.
#[derive(Drop)]
pub(crate) struct Received {
    bytes: Vec<u8>,
    spans: RequestSpans,
    fields: [HeaderSpan; MAX_FIELDS],
}

impl Model for Received {
    ghost use Rattle.std.specs.Prelude.{ℕ, List};
    ghost use Rattle.fr_http.specs.Head.{HeadData};
    ghost use Rattle.fr_http.specs.Received.{IsPlaced, shown};

    ghost Value = { HeadData × List ℕ };

    ghost view = { λ r. shown r.bytes.items r.fields r.spans };

    ghost invariant = { λ r. IsPlaced r.bytes.items r.fields r.spans };
}

impl Received {
    /// The bytes and their head, whose parts lie at these spans.
    pub(crate) fn new(
        bytes: Vec<u8>,
        spans: RequestSpans,
        fields: [HeaderSpan; MAX_FIELDS],
    ) -> Received
        requires { IsRequestWithin bytes.items fields spans }
        ensures { result ≡ shown bytes.items fields spans }
    {
        Received {
            bytes,
            spans,
            fields,
        }
    }

    /// The head, and the bytes behind it.
    pub(crate) fn head(&self) -> Head<'_>
        ensures { result ≡ self.now }
    {
        Head {
            bytes: &self.bytes,
            spans: self.spans,
            fields: &self.fields,
        }
    }
}

/// A head, whose parts lie in bytes that stay where they are, and the bytes behind it.
#[derive(Drop)]
pub(crate) struct Head<'a> {
    bytes: &'a [u8],
    spans: RequestSpans,
    fields: &'a [HeaderSpan],
}

impl<'a> Model for Head<'a> {
    ghost use Rattle.std.specs.Prelude.{ℕ, List};
    ghost use Rattle.fr_http.specs.Head.{HeadData};
    ghost use Rattle.fr_http.specs.Received.{IsPlaced, shown};

    ghost Value = { HeadData × List ℕ };

    ghost view = { λ h. shown h.bytes.now h.fields.now h.spans };

    ghost invariant = { λ h. IsPlaced h.bytes.now h.fields.now h.spans };
}

impl<'a> Head<'a> {
    /// The head of these bytes, whose parts lie at these spans.
    pub(crate) fn new(
        bytes: &'a [u8],
        spans: RequestSpans,
        fields: &'a [HeaderSpan; MAX_FIELDS],
    ) -> Head<'a>
        requires { IsRequestWithin bytes.now fields.now spans }
        ensures { result ≡ shown bytes.now fields.now spans }
    {
        Head {
            bytes,
            spans,
            fields,
        }
    }

    /// The method.
    pub(crate) fn method(&self) -> &'a [u8]
        ensures { result.now ≡ self.now.0.method }
    {
        self.spans.method.of(self.bytes)
    }

    /// The request's target.
    pub(crate) fn target(&self) -> &'a [u8]
        ensures { result.now ≡ self.now.0.target }
    {
        self.spans.path.of(self.bytes)
    }

    /// The minor version.
    pub(crate) fn minor(&self) -> u8
        ensures { result ≡ self.now.0.minor }
    {
        self.spans.version
    }

    /// The values of the fields of this name, in their order.
    pub(crate) fn values(&self, name: &'a str) -> Values<'a>
        ensures { result ≡ values name.now self.now.0.fields }
    {
        Values {
            bytes: self.bytes,
            fields: &self.fields[..self.spans.headers],
            name,
        }
    }

    /// The bytes behind the head.
    pub(crate) fn rest(&self) -> &'a [u8]
        ensures { result.now ≡ self.now.1 }
    {
        &self.bytes[self.spans.len..]
    }
}

/// The values of the fields of one name that are still to come.
#[derive(Drop)]
pub(crate) struct Values<'a> {
    bytes: &'a [u8],
    fields: &'a [HeaderSpan],
    name: &'a str,
}

impl<'a> Model for Values<'a> {
    ghost use Rattle.std.specs.Prelude.{ℕ, List, length, map, All};
    ghost use Rattle.httparse.specs.Spans.{IsHeaderWithin, header_bytes};
    ghost use Rattle.fr_http.specs.Head.{values};

    ghost Value = { List (List ℕ) };

    ghost view = { λ v. values v.name.now (map (header_bytes v.bytes.now) v.fields.now) };

    ghost invariant = { λ v. All (IsHeaderWithin (length v.bytes.now)) v.fields.now };
}

impl<'a> Iterator for Values<'a> {
    type Item = &'a [u8];

    ghost next_gives = { YieldsFirstRef (λ left. left) };

    ghost remaining = { item_count (λ left. left) };

    fn next(&mut self) -> Option<&'a [u8]> {
        while let [field, rest @ ..] = self.fields {
            self.fields = rest;
            if field
                .name
                .of(self.bytes)
                .eq_ignore_ascii_case(self.name.as_bytes())
            {
                return Some(field.value.of(self.bytes));
            }
        }
        None
    }
}
