//! What a connection asks of the register, by a request's head and body, and who asks.
ghost use Rattle.std.specs.Prelude.{◌≡◌, IfOk};
ghost use Rattle.fr_http.specs.Operations.{FindsActor, MakesCommand, MakesOperation, unasked_by};
ghost use Rattle.fr_http.specs.Outcome.{asked_by, is_ask};
ghost use Rattle.fr_http.specs.Routes.{is_held, other_variant, part};

use crate::conditions::none_matches;
use crate::engine::Engine;
use crate::fault::{LinkFault, Unasked};
use crate::head::Head;
use crate::method::Method;
use crate::path_name::PathName;
use crate::plan::Plan;
use crate::routes::{Route, part};
use fr_base::{Actor, Ask, Body, Desk, NoMemory, QueryReader, Refusal, Request, Text};
use fr_guide::Subject;
use fr_page::Part;
use fr_text::{read_command, read_number};
use std::alloc::Global;
use std::str;

/// An exchange with the register: what a connection asks of it, and who asks. Advice asks it only
/// whose a key is.
#[derive(Drop)]
pub enum Exchange {
    /// The answer to a request. The form of the reply depends on the method.
    Request {
        ask: Ask,
        method: Method,
    },
    /// The page of a variant's plan, as the reader sees it, and what is new since another variant,
    /// where one is named.
    Picture {
        reader: Actor,
        variant: Text,
        since: Option<Text>,
    },
    /// Advice on a text.
    Advice {
        reader: Actor,
        subject: Subject,
        text: Body,
    },
}

impl Exchange {
    /// Whether the register is asked for more than whose a key is.
    pub(crate) fn is_ask(&self) -> bool
        ensures { result ≡ is_ask self.now }
    {
        !matches!(self, Exchange::Advice { .. })
    }
}

/// What is asked, whoever asks it.
#[derive(Drop)]
pub(crate) enum Operation {
    /// The answer to a request.
    Request(Request),
    /// The page of a variant's plan, and what is new since another variant, where one is named.
    Picture { variant: Text, since: Option<Text> },
    /// Advice on a text.
    Advice { subject: Subject, text: Body },
}

impl Operation {
    /// The exchange of this actor, by this method.
    pub(crate) fn asked_by(self, actor: Actor, method: Method) -> Exchange
        ensures { result ≡ asked_by actor method self }
    {
        match self {
            Operation::Request(request) => Exchange::Request {
                ask: Ask { actor, request },
                method,
            },
            Operation::Picture { variant, since } => Exchange::Picture {
                reader: actor,
                variant,
                since,
            },
            Operation::Advice { subject, text } => Exchange::Advice {
                reader: actor,
                subject,
                text,
            },
        }
    }
}

/// What a route asks for, with the fields and the body that came with the request, or why it asks nothing.
#[tactic(auto, unfolding(crate::specs::Routes::operation_by))]
pub(crate) fn asked_operation(
    engine: &Engine,
    plan: &Plan<'_>,
    head: &Head<'_>,
    body: &[u8],
) -> Result<Operation, Unasked>
    ensures { MakesOperation plan.now.route plan.now.path.now head.now.0.fields body.now result }
{
    let alloc = engine.alloc();
    let words = PathWords {
        alloc,
        path: plan.path,
    };
    match plan.route {
        Route::Page(part) => Err(Unasked::Page {
            part,
            held: is_held(engine, part, head),
        }),
        Route::Explanations => Err(Unasked::Explained { word: None }),
        Route::Explanation => Err(Unasked::Explained {
            word: Some(copy_part(alloc, plan.path, PathName::Word)?),
        }),
        Route::Advice(subject) => Ok(Operation::Advice {
            subject,
            text: Body::copy(alloc, body)?,
        }),
        Route::Commands => Ok(Operation::Request(command(alloc, body)?)),
        Route::Deliver(how) => Ok(Operation::Request(Request::Deliver {
            variant: copy_part(alloc, plan.path, PathName::Variant)?,
            how: how.read(&words)?,
            body: Body::copy(alloc, body)?,
        })),
        Route::Query(asked) => Ok(Operation::Request(Request::Query(asked.read(&words)?))),
        Route::Picture { since } => Ok(Operation::Picture {
            variant: copy_part(alloc, plan.path, PathName::Variant)?,
            since: other_variant(alloc, plan.path, since)?,
        }),
    }
}

// Whether whoever sends this head holds the part of the page as it is.
fn is_held(engine: &Engine, part: Part, head: &Head<'_>) -> bool
    ensures { result ≡ is_held part head.now.0.fields }
{
    !none_matches(head.values("if-none-match"), engine.tag(part))
}

// The other variant of a path that names one.
fn other_variant(alloc: Global, path: &str, since: bool) -> Result<Option<Text>, NoMemory>
    ensures { IfOk result (λ other. other ≡ other_variant since path.now) }
{
    if since {
        Ok(Some(copy_part(alloc, path, PathName::From)?))
    } else {
        Ok(None)
    }
}

// The request that the body's text is.
fn command(alloc: Global, body: &[u8]) -> Result<Request, Unasked>
    ensures { MakesCommand body.now result }
{
    match read_command(alloc, body) {
        Ok(request) => Ok(request),
        Err(refusal) => Err(unasked_by(refusal)),
    }
}

// The names and numbers of a path.
#[derive(Drop)]
struct PathWords<'a> {
    alloc: Global,
    path: &'a str,
}

// The names and numbers of a query, and an import's label, are parts of the path.
impl QueryReader<PathName, PathName, Text, Unasked> for PathWords<'_> {
    ghost use Rattle.fr_http.specs.Operations.{CountsPart, NamesPart};

    ghost reads = { λ words name result. NamesPart words.path.now name result };

    ghost counts = { λ words name result. CountsPart words.path.now name result };

    fn read_name(&self, name: &PathName) -> Result<Text, Unasked> {
        Ok(copy_part(self.alloc, self.path, *name)?)
    }

    fn read_number(&self, name: &PathName) -> Result<u32, Unasked> {
        let digits = part(self.path, *name).as_bytes();
        read_number(digits).ok_or(Unasked::Refused(Refusal::BadText))
    }
}

// The part of the path that its pattern calls so, copied.
fn copy_part(alloc: Global, path: &str, name: PathName) -> Result<Text, NoMemory>
    ensures { IfOk result (λ text. text ≡ part name path.now) }
{
    Text::copy(alloc, part(path, name))
}

// Why nothing is asked where a command's text is refused: for want of memory, or because it is not a
// command.
fn unasked_by(refusal: Refusal) -> Unasked
    ensures { result ≡ unasked_by refusal }
{
    match refusal {
        Refusal::Unavailable => Unasked::Fault(LinkFault::NoMemory { asked: false }),
        refusal => Unasked::Refused(refusal),
    }
}

/// The actor that has the head's key, which stands in one field. A key that is not a text is nobody's.
pub(crate) fn actor<D: Desk>(desk: &D, head: &Head<'_>) -> Option<Actor>
    ensures { FindsActor (D.stands desk.now) head.now.0 result }
{
    let mut values = head.values("x-office-key");
    let key = values.next()?;
    if values.next().is_some() {
        return None;
    }
    desk.actor_of(str::from_utf8(key).ok()?)
}
