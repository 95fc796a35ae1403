//! The routes of requests.
ghost use Rattle.std.specs.Prelude.{◌≡◌, ◌==◌, map};
ghost use Rattle.std.specs.Char.{is_ascii};
ghost use Rattle.std.specs.List.{list_all, position};
ghost use Rattle.std.specs.Option.{option_map};
ghost use Rattle.fr_http.specs.Routes.{allowed, ascii_text, chosen, export, is_by, leads, method_of, method_of_delivery, of_register, of_two, of_variant, part, path_of, table};
ghost use Rattle.fr_http.specs.declared.routes.Resource.TheVariants.{One};

use crate::method::{Allowed, Method};
use crate::path_name::PathName;
use fr_base::{Header, Inventory, Manner, Purpose, Query, Report};
use fr_guide::{Subject, explains, meant_word};
use fr_page::Part;
use std::str;

/// A route: what a path asks for.
#[derive(Clone, Copy, PartialEq, Eq)]
pub enum Route {
    /// A part of the planner's page, which is the same for everybody.
    Page(Part),
    /// A line on each word that is explained.
    Explanations,
    /// What the word or number of the path means.
    Explanation,
    /// The body is a text, on which advice is wanted.
    Advice(Subject),
    /// The body is a request.
    Commands,
    /// The body is a file of rows or wishes that is delivered. The label of an import stands in the path.
    Deliver(Purpose<PathName>),
    /// A query. Each name and number in it stands in the path.
    Query(Query<PathName, PathName>),
    /// The page of a variant's plan; with what is new since another variant, where the path names one.
    Picture { since: bool },
}

impl Route {
    /// The method of its requests.
    pub fn method(self) -> Method
        ensures { result ≡ method_of self }
    {
        match self {
            Route::Advice(_) | Route::Commands => Method::Post,
            Route::Deliver(how) => method_of_delivery(how),
            Route::Page(_)
            | Route::Explanations
            | Route::Explanation
            | Route::Query(_)
            | Route::Picture { .. } => Method::Get,
        }
    }

    // Whether its requests are by this method.
    fn is_by(self, method: &[u8]) -> bool
        ensures { result ≡ is_by method.now self }
    {
        method == self.method().as_str().as_bytes()
    }
}

// The method by which a file is delivered: an import adds, and a replacement puts rows in place of others.
fn method_of_delivery(how: Purpose<PathName>) -> Method
    ensures { result ≡ method_of_delivery how }
{
    match how {
        Purpose::Import { .. }
        | Purpose::Trial {
            manner: Manner::Import,
        }
        | Purpose::Proposal { replace: false } => Method::Post,
        Purpose::Replacement { .. }
        | Purpose::Trial {
            manner: Manner::Replace { .. },
        }
        | Purpose::Proposal { replace: true } => Method::Put,
    }
}

/// What a path leads to: a route for each method that the path allows.
#[derive(Clone, Copy, PartialEq, Eq)]
pub enum Resource {
    /// There is one method.
    One(Route),
    /// There are two, of which each route has its own.
    Two(Route, Route),
}

impl Resource {
    /// The methods that the path allows.
    pub fn allowed(self) -> Allowed
        ensures { result ≡ allowed self }
    {
        match self {
            Resource::One(route) => Allowed::Only(route.method()),
            Resource::Two(first, second) => Allowed::Either(first.method(), second.method()),
        }
    }

    /// The route by the method of the request, if the path allows it.
    pub(crate) fn by(self, method: &[u8]) -> Option<Route>
        ensures { result ≡ chosen method.now self }
    {
        match self {
            Resource::One(route) if route.is_by(method) => Some(route),
            Resource::Two(first, _) if first.is_by(method) => Some(first),
            Resource::Two(_, second) if second.is_by(method) => Some(second),
            _ => None,
        }
    }

    /// Whether the path, which matches, leads to it. None leads to the explanation of a word that is
    /// not explained.
    pub(crate) fn leads(self, path: &str) -> bool
        ensures { result ≡ leads path.now self }
    {
        match self {
            Resource::One(Route::Explanation) => explains(meant_word(part(path, PathName::Word))),
            _ => true,
        }
    }
}

/// The path of a target: all before its first `?`.
pub(crate) fn path_of(target: &[u8]) -> &[u8]
    ensures { result.now ≡ path_of target.now }
{
    match index_of(target, b'?') {
        Some(at) => &target[..at],
        None => target,
    }
}

// The index of the first such byte.
fn index_of(bytes: &[u8], byte: u8) -> Option<usize>
    ensures { result ≡ position (λ b. b == byte) bytes.now }
{
    bytes.iter().position(|b| *b == byte)
}

/// The bytes as a text, where they are ASCII.
#[tactic(auto, using(crate::proofs::RouteLaws::ascii_is_text))]
pub(crate) fn ascii(bytes: &[u8]) -> Option<&str>
    ensures { option_map (λ text. text.now) result ≡ ascii_text bytes.now }
{
    if !is_ascii(bytes) {
        return None;
    }
    match str::from_utf8(bytes) {
        Ok(text) => Some(text),
        Err(_) => None,
    }
}

// Whether all the bytes are ASCII.
fn is_ascii(bytes: &[u8]) -> bool
    ensures { result ≡ list_all is_ascii bytes.now }
{
    bytes.iter().all(|byte| byte.is_ascii())
}

// The route for what the register holds.
fn of_register(inventory: Inventory) -> Resource
    ensures { result ≡ of_register inventory }
{
    Resource::One(Route::Query(Query::Register(inventory)))
}

// The route for a report of the path's variant.
fn of_variant(report: Report<PathName, PathName>) -> Route
    ensures { result ≡ of_variant report }
{
    Route::Query(Query::Variant {
        variant: PathName::Variant,
        report,
    })
}

// What the path of such a report alone leads to.
fn report(report: Report<PathName, PathName>) -> Resource
    ensures { result ≡ One (of_variant report) }
{
    Resource::One(of_variant(report))
}

// The route for the difference of the path's two variants.
fn of_two() -> Resource
    ensures { result ≡ of_two }
{
    Resource::One(Route::Query(Query::Difference {
        variant: PathName::Variant,
        from: PathName::From,
    }))
}

// The route for the records of the path's variant below this header.
fn export(header: Header) -> Resource
    ensures { result ≡ export header }
{
    report(Report::Export {
        header,
        part: PathName::Part,
    })
}

// What the path of a delivered file alone leads to.
fn deliver(how: Purpose<PathName>) -> Resource
    ensures { result ≡ One (Route.Deliver how) }
{
    Resource::One(Route::Deliver(how))
}

// The route for a file that is tried so.
fn trial(manner: Manner) -> Route
    ensures { result ≡ Route.Deliver (Purpose.Trial manner) }
{
    Route::Deliver(Purpose::Trial { manner })
}

// The route for a file of wishes.
fn proposal(replace: bool) -> Route
    ensures { result ≡ Route.Deliver (Purpose.Proposal replace) }
{
    Route::Deliver(Purpose::Proposal { replace })
}

/// What each path leads to, by the pattern that it matches.
#[tactic(auto, unfolding(crate::specs::Routes::table))]
pub(crate) fn routes() -> [(&'static str, Resource); 30]
    ensures { map (λ entry. (entry.0.now, entry.1)) result ≡ table }
{
    use Resource::{One, Two};
    use Route::*;

    [
        ("/", One(Page(Part::Document))),
        ("/slotplan.css", One(Page(Part::Style))),
        ("/slotplan.js", One(Page(Part::Program))),
        ("/v1/explanations", One(Explanations)),
        ("/v1/explanations/{word}", One(Explanation)),
        ("/v1/checks/rows", One(Advice(Subject::Rows))),
        ("/v1/checks/requests", One(Advice(Subject::Requests))),
        ("/v1/commands", One(Commands)),
        ("/v1/cluster", of_register(Inventory::Cluster)),
        ("/v1/variants", of_register(Inventory::Variants)),
        ("/v1/nodes", of_register(Inventory::Nodes)),
        (
            "/v1/variants/{variant}/imports/{label}",
            deliver(Purpose::Import {
                label: PathName::Label,
            }),
        ),
        ("/v1/variants/{variant}/since/{from}", of_two()),
        ("/v1/variants/{variant}/grants", report(Report::Grants)),
        ("/v1/variants/{variant}/frames", report(Report::Frames)),
        ("/v1/variants/{variant}/schedule", report(Report::Schedule)),
        ("/v1/variants/{variant}/gaps", report(Report::Gaps)),
        (
            "/v1/variants/{variant}/frames/{frame}/layout",
            report(Report::Layout {
                frame: PathName::Frame,
            }),
        ),
        ("/v1/variants/{variant}/load", report(Report::Load)),
        (
            "/v1/variants/{variant}/frames/{frame}/room/{repetition}",
            report(Report::Room {
                frame: PathName::Frame,
                repetition: PathName::Repetition,
            }),
        ),
        (
            "/v1/variants/{variant}/exports/frames/{part}",
            export(Header::Frames),
        ),
        (
            "/v1/variants/{variant}/exports/placements/{part}",
            export(Header::Placements),
        ),
        (
            "/v1/variants/{variant}/exports/signals/{part}",
            export(Header::Signals),
        ),
        (
            "/v1/variants/{variant}/rows",
            Two(
                of_variant(Report::Rows),
                Deliver(Purpose::Replacement { whole: false }),
            ),
        ),
        (
            "/v1/variants/{variant}/rows/whole",
            deliver(Purpose::Replacement { whole: true }),
        ),
        (
            "/v1/variants/{variant}/tries",
            Two(
                trial(Manner::Import),
                trial(Manner::Replace { whole: false }),
            ),
        ),
        (
            "/v1/variants/{variant}/tries/whole",
            deliver(Purpose::Trial {
                manner: Manner::Replace { whole: true },
            }),
        ),
        (
            "/v1/variants/{variant}/proposals",
            Two(proposal(false), proposal(true)),
        ),
        (
            "/v1/variants/{variant}/picture",
            One(Picture { since: false }),
        ),
        (
            "/v1/variants/{variant}/since/{from}/picture",
            One(Picture { since: true }),
        ),
    ]
}

/// The part of the path that its pattern calls so.
pub(crate) fn part(path: &str, name: PathName) -> &str
    ensures { result.now ≡ part name path.now }
{
    path.split('/').nth(name.place()).unwrap_or("")
}
