//! Writes the bytes of a reply.
ghost use Rattle.std.specs.Prelude.{◌≡◌, ◌++◌, IfOk, OnOk};
ghost use Rattle.fr_base.specs.Refusals.{status_of};
ghost use Rattle.fr_http.specs.Reply.{advice_reply, allow, answer_reply, authenticate, body_of, closing, engine_reply, explanation_reply, field_line, is_file, is_report, page_reply, phrase_of, reply_with, status_line, status_of_answer, status_of_rejection, type_of};
ghost use Rattle.fr_http.specs.Routes.{text_of_allowed};
ghost use Rattle.fr_http.specs.Replying.{IsReply, RepliesExplained, head_with};

use crate::fault::Rejection;
use crate::method::{Allowed, Method};
use fr_base::{Answer, NoMemory, Refusal, ReportRows, Text};
use fr_guide::{explanation, meant_word, overview};
use fr_text::{write_answer, write_lines};
use http::StatusCode;
use itoa::Buffer;
use std::alloc::Global;

/// A reply's status and its bytes.
#[derive(Drop)]
pub(crate) struct ReplyText {
    pub(crate) status: u16,
    pub(crate) bytes: Vec<u8>,
}

/// The reply of the engine itself.
pub(crate) fn engine_reply(alloc: Global, rejection: Rejection) -> Result<ReplyText, NoMemory>
    ensures { IfOk result (λ reply. IsReply (engine_reply rejection) reply) }
{
    let status = status_of_rejection(rejection);
    let mut bytes = Vec::new(alloc);
    push_status(status, &mut bytes)?;
    push_field("content-length", "0", &mut bytes)?;
    push_allow(rejection, &mut bytes)?;
    push_close(&mut bytes)?;
    Ok(ReplyText {
        status: status.as_u16(),
        bytes,
    })
}

// Appends the methods that are allowed, where another was used.
fn push_allow(rejection: Rejection, out: &mut Vec<u8>) -> Result<(), NoMemory>
    ensures { OnOk result (out.new.items ≡ out.old.items ++ allow rejection) }
{
    match rejection {
        Rejection::MethodNotAllowed(allowed) => {
            push("allow: ", out)?;
            push_methods(allowed, out)?;
            push("\r\n", out)
        }
        Rejection::BadRequest
        | Rejection::NotFound
        | Rejection::LengthRequired
        | Rejection::PayloadTooLarge
        | Rejection::HeadTooLarge
        | Rejection::NotImplemented => Ok(()),
    }
}

// Appends the methods, with a comma between two.
fn push_methods(allowed: Allowed, out: &mut Vec<u8>) -> Result<(), NoMemory>
    ensures { OnOk result (out.new.items ≡ out.old.items ++ text_of_allowed allowed) }
{
    match allowed {
        Allowed::Only(method) => push(method.as_str(), out),
        Allowed::Either(first, second) => {
            push(first.as_str(), out)?;
            push(", ", out)?;
            push(second.as_str(), out)
        }
    }
}

// The status of an answer that the engine gives itself.
fn status_of_rejection(rejection: Rejection) -> StatusCode
    ensures { result ≡ status_of_rejection rejection }
{
    match rejection {
        Rejection::BadRequest => StatusCode::BAD_REQUEST,
        Rejection::NotFound => StatusCode::NOT_FOUND,
        Rejection::MethodNotAllowed(_) => StatusCode::METHOD_NOT_ALLOWED,
        Rejection::LengthRequired => StatusCode::LENGTH_REQUIRED,
        Rejection::PayloadTooLarge => StatusCode::PAYLOAD_TOO_LARGE,
        Rejection::HeadTooLarge => StatusCode::REQUEST_HEADER_FIELDS_TOO_LARGE,
        Rejection::NotImplemented => StatusCode::NOT_IMPLEMENTED,
    }
}

/// The reply that says what the word means, or the refusal of this number; that there is nothing
/// where no word is explained; or, without a word, a line on each that is.
pub(crate) fn explained_reply(alloc: Global, word: Option<&Text>) -> Result<ReplyText, NoMemory>
    ensures { IfOk result (RepliesExplained word.entry) }
{
    let Some(word) = word else {
        return explanation_reply(overview(alloc)?);
    };
    match explanation(alloc, meant_word(word.as_str()))? {
        Some(text) => explanation_reply(text),
        None => engine_reply(alloc, Rejection::NotFound),
    }
}

// The reply that explains.
#[tactic(auto, unfolding(crate::specs::Reply::explanation_reply))]
fn explanation_reply(text: Vec<u8>) -> Result<ReplyText, NoMemory>
    ensures { IfOk result (λ reply. IsReply (explanation_reply text.items) reply) }
{
    reply_with(StatusCode::OK, "text/plain; charset=us-ascii", text)
}

/// The reply that has advice. The texts on which it is given may be quoted in it, so it is UTF-8.
#[tactic(auto, unfolding(crate::specs::Reply::advice_reply))]
pub(crate) fn advice_reply(lines: Vec<u8>) -> Result<ReplyText, NoMemory>
    ensures { IfOk result (λ reply. IsReply (advice_reply lines.items) reply) }
{
    reply_with(StatusCode::OK, "text/plain; charset=utf-8", lines)
}

/// The reply that has this page.
#[tactic(auto, unfolding(crate::specs::Reply::page_reply))]
pub(crate) fn page_reply(page: Vec<u8>) -> Result<ReplyText, NoMemory>
    ensures { IfOk result (λ reply. IsReply (page_reply page.items) reply) }
{
    reply_with(StatusCode::OK, "text/html; charset=utf-8", page)
}

/// The reply to a request by this method, with its answer.
#[tactic(auto, unfolding(crate::specs::Reply::answer_reply))]
pub(crate) fn answer_reply(
    alloc: Global,
    method: Method,
    answer: &Answer,
) -> Result<ReplyText, NoMemory>
    ensures { IfOk result (λ reply. IsReply (answer_reply method answer.now) reply) }
{
    let report = is_report(method, answer);
    let body = write_body(alloc, report, answer)?;
    reply_with(status_of_answer(answer), type_of(report, answer), body)
}

// The reply with this body. Its head is written behind the body and then turned to the front. So it
// takes no more memory than the reply has bytes.
fn reply_with(status: StatusCode, body_type: &str, mut body: Vec<u8>) -> Result<ReplyText, NoMemory>
    ensures { IfOk result (λ reply. IsReply (reply_with status body_type.now body.items) reply) }
{
    let length = body.len();
    push_head(status, body_type, length, &mut body)?;
    body.rotate_left(length);
    Ok(ReplyText {
        status: status.as_u16(),
        bytes: body,
    })
}

// The body of a reply: a report's lines, or the answer's text.
#[tactic(auto, unfolding(crate::specs::Reply::body_of))]
fn write_body(alloc: Global, report: bool, answer: &Answer) -> Result<Vec<u8>, NoMemory>
    ensures { IfOk result (λ body. body.items ≡ body_of report answer.now) }
{
    if report {
        write_lines(alloc, answer)
    } else {
        write_answer(alloc, answer)
    }
}

// The status of an answer.
fn status_of_answer(answer: &Answer) -> StatusCode
    ensures { result ≡ status_of_answer answer.now }
{
    match answer {
        Answer::Refused(refusal) => status_of_refusal(refusal),
        Answer::RefusedRow { .. } => StatusCode::UNPROCESSABLE_ENTITY,
        Answer::Done | Answer::Imported { .. } | Answer::Replaced { .. } | Answer::Report { .. } =>
            StatusCode::OK,
    }
}

// The status of a refusal.
#[tactic(auto, using(crate::proofs::ReplyLaws::refusal_has_status))]
fn status_of_refusal(refusal: &Refusal) -> StatusCode
    ensures { result ≡ status_of refusal.now }
{
    StatusCode::from_u16(refusal.status()).unwrap()
}

// Whether the answer to a request by this method is a report's lines.
fn is_report(method: Method, answer: &Answer) -> bool
    ensures { result ≡ is_report method answer.now }
{
    method == Method::Get && !matches!(answer, Answer::Refused(_) | Answer::RefusedRow { .. })
}

// The type of a reply's body: a report's lines, or the answer's text.
fn type_of(report: bool, answer: &Answer) -> &'static str
    ensures { result.now ≡ type_of report answer.now }
{
    if !report {
        "application/json"
    } else if is_file(answer) {
        "text/csv; charset=utf-8"
    } else {
        "text/plain; charset=us-ascii"
    }
}

// Whether the answer's lines are records of a file.
fn is_file(answer: &Answer) -> bool
    ensures { result ≡ is_file answer.now }
{
    matches!(
        answer,
        Answer::Report {
            all: _,
            rows: ReportRows::FrameRecords(_)
                | ReportRows::PlacementRecords(_)
                | ReportRows::SignalRecords(_),
        }
    )
}

// Appends the head of a reply with a body of so many bytes.
fn push_head(
    status: StatusCode,
    kind: &str,
    length: usize,
    out: &mut Vec<u8>,
) -> Result<(), NoMemory>
    ensures { OnOk result (out.new.items ≡ out.old.items ++ head_with status kind.now length) }
{
    push_status(status, out)?;
    push_field("content-type", kind, out)?;
    push_field("content-length", Buffer::new().format(length), out)?;
    push_authenticate(status, out)?;
    push_close(out)
}

// Appends how a client shows who it is, where it has no known key.
fn push_authenticate(status: StatusCode, out: &mut Vec<u8>) -> Result<(), NoMemory>
    ensures { OnOk result (out.new.items ≡ out.old.items ++ authenticate status) }
{
    if status.as_u16() == 401 {
        push_field("www-authenticate", "Office-Key", out)
    } else {
        Ok(())
    }
}

/// Appends the first line of a reply.
pub(crate) fn push_status(status: StatusCode, out: &mut Vec<u8>) -> Result<(), NoMemory>
    ensures { OnOk result (out.new.items ≡ out.old.items ++ status_line status) }
{
    push("HTTP/1.1 ", out)?;
    push(Buffer::new().format(status.as_u16()), out)?;
    push(" ", out)?;
    push(phrase(status), out)?;
    push("\r\n", out)
}

// The phrase of a status.
fn phrase(status: StatusCode) -> &'static str
    ensures { result.now ≡ phrase_of status }
{
    match status.canonical_reason() {
        Some(phrase) => phrase,
        None => "",
    }
}

/// Appends a field's line.
pub(crate) fn push_field(name: &str, value: &str, out: &mut Vec<u8>) -> Result<(), NoMemory>
    ensures { OnOk result (out.new.items ≡ out.old.items ++ field_line name.now value.now) }
{
    push(name, out)?;
    push(": ", out)?;
    push(value, out)?;
    push("\r\n", out)
}

/// Appends the last field's line, and the empty line behind the fields.
pub(crate) fn push_close(out: &mut Vec<u8>) -> Result<(), NoMemory>
    ensures { OnOk result (out.new.items ≡ out.old.items ++ closing) }
{
    push_field("connection", "close", out)?;
    push("\r\n", out)
}

// Appends the text.
fn push(text: &str, out: &mut Vec<u8>) -> Result<(), NoMemory>
    ensures { OnOk result (out.new.items ≡ out.old.items ++ text.now) }
{
    out.extend_from_slice(text.as_bytes())
}
