//! The reply with a part of the planner's page, or to whom holds it as it is.
ghost use Rattle.std.specs.Prelude.{◌≡◌, ◌++◌, IfOk, OnOk};
ghost use Rattle.fr_page.specs.Page.{text_of};
ghost use Rattle.fr_http.specs.Conditions.{tag_of};
ghost use Rattle.fr_http.specs.PageReply.{document_guards, file_guards, guards, held_reply, part_fields, part_reply, planner_reply, type_of_part};
ghost use Rattle.fr_http.specs.Reply.{closing, status_line};
ghost use Rattle.fr_http.specs.Replying.{IsReply};

use crate::engine::Engine;
use crate::reply::{ReplyText, push_close, push_field, push_status};
use fr_base::NoMemory;
use fr_page::Part;
use http::StatusCode;
use itoa::Buffer;
use std::alloc::Global;

/// The reply with a part of the planner's page, or to whom holds it as it is.
pub(crate) fn planner_reply(engine: &Engine, part: Part, held: bool) -> Result<ReplyText, NoMemory>
    ensures { IfOk result (λ reply. IsReply (planner_reply part held) reply) }
{
    let alloc = engine.alloc();
    let tag = engine.tag(part);
    if held {
        held_reply(alloc, tag)
    } else {
        part_reply(alloc, part, tag)
    }
}

// The reply to whom holds what has this tag.
fn held_reply(alloc: Global, tag: &str) -> Result<ReplyText, NoMemory>
    ensures { IfOk result (λ reply. IsReply (held_reply tag.now) reply) }
{
    let status = StatusCode::NOT_MODIFIED;
    let mut bytes = Vec::new(alloc);
    push_status(status, &mut bytes)?;
    push_field("etag", tag, &mut bytes)?;
    push_close(&mut bytes)?;
    Ok(ReplyText {
        status: status.as_u16(),
        bytes,
    })
}

// The reply with a part of the page, which has this tag. Its head is written behind its body and then turned to the front.
fn part_reply(alloc: Global, part: Part, tag: &str) -> Result<ReplyText, NoMemory>
    requires { tag.now ≡ tag_of (text_of part) }
    ensures { IfOk result (λ reply. IsReply (part_reply part) reply) }
{
    let status = StatusCode::OK;
    let mut bytes = part.bytes(alloc)?;
    let length = bytes.len();
    push_status(status, &mut bytes)?;
    push_fields(part, length, tag, &mut bytes)?;
    push_close(&mut bytes)?;
    bytes.rotate_left(length);
    Ok(ReplyText {
        status: status.as_u16(),
        bytes,
    })
}

// Appends the fields of a part with so many bytes and this tag.
fn push_fields(part: Part, length: usize, tag: &str, out: &mut Vec<u8>) -> Result<(), NoMemory>
    ensures { OnOk result (out.new.items ≡ out.old.items ++ part_fields part length tag.now) }
{
    push_field("content-type", type_of_part(part), out)?;
    push_field("content-length", Buffer::new().format(length), out)?;
    push_field("etag", tag, out)?;
    push_guards(part, out)
}

// The type of a part.
fn type_of_part(part: Part) -> &'static str
    ensures { result.now ≡ type_of_part part }
{
    match part {
        Part::Document => "text/html; charset=utf-8",
        Part::Style => "text/css; charset=utf-8",
        Part::Program => "text/javascript; charset=utf-8",
    }
}

// Appends what a browser may do with a part, and what else it is told of it.
fn push_guards(part: Part, out: &mut Vec<u8>) -> Result<(), NoMemory>
    ensures { OnOk result (out.new.items ≡ out.old.items ++ guards part) }
{
    match part {
        Part::Document => push_document_guards(out),
        Part::Style | Part::Program => push_file_guards(out),
    }
}

// Appends what a browser may do with the page, whom it tells of it, and that it asks each time whether the page has changed.
#[tactic(auto, unfolding(crate::specs::PageReply::document_guards))]
fn push_document_guards(out: &mut Vec<u8>) -> Result<(), NoMemory>
    ensures { OnOk result (out.new.items ≡ out.old.items ++ document_guards) }
{
    push_field(
        "content-security-policy",
        "default-src 'none'; script-src 'self'; style-src 'self'; connect-src 'self'; img-src data:; base-uri 'none'; form-action 'none'; frame-ancestors 'none'; require-trusted-types-for 'script'; trusted-types 'none'",
        out,
    )?;
    push_field("x-content-type-options", "nosniff", out)?;
    push_field("referrer-policy", "no-referrer", out)?;
    push_field("cross-origin-opener-policy", "same-origin", out)?;
    push_field("cache-control", "no-cache", out)
}

// Appends the same for a file of the page.
#[tactic(auto, unfolding(crate::specs::PageReply::file_guards))]
fn push_file_guards(out: &mut Vec<u8>) -> Result<(), NoMemory>
    ensures { OnOk result (out.new.items ≡ out.old.items ++ file_guards) }
{
    push_field("x-content-type-options", "nosniff", out)?;
    push_field("referrer-policy", "no-referrer", out)?;
    push_field("cache-control", "no-cache", out)
}
