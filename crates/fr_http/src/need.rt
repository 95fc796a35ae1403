//! When a connection's request is complete.
ghost use Rattle.std.specs.Prelude.{◌≤◌};
ghost use Rattle.fr_http.specs.Complete.{Needs, NeedsBehind};

use crate::engine::Engine;
use crate::head::{Head, MAX_FIELDS, MAX_HEAD};
use crate::plan::make_plan;
use crate::serve::is_due;
use httparse::Status;
use httparse::spans::{EMPTY_HEADER_SPAN, parse_request};

/// What a connection's request needs, as far as the bytes tell that came of it.
#[derive(Clone, Copy, Debug, PartialEq, Eq)]
pub enum Need {
    /// More bytes, and it is not known how many: they are not a head yet.
    Open,
    /// So many bytes from the first on. Where `invites` is true, `100 Continue` is due before the body.
    Known { bytes: usize, invites: bool },
}

impl Engine {
    /// What the request needs that begins with these bytes. Where so many are there as it needs, it is complete: what
    /// follows changes nothing of what the connection asks. It is read as [`serve_one`](crate::serve_one) reads it.
    pub fn need_of(&self, bytes: &[u8]) -> Need
        ensures { Needs bytes.now result }
    {
        let mut fields = [EMPTY_HEADER_SPAN; MAX_FIELDS];
        let all = Need::Known {
            bytes: bytes.len(),
            invites: false,
        };
        match parse_request(bytes, &mut fields) {
            Ok(Status::Complete(spans)) => {
                let length = spans.len;
                if length > MAX_HEAD {
                    return all;
                }
                need_behind(self, &Head::new(bytes, spans, &fields), length)
            }
            Ok(Status::Partial) => {
                if bytes.len() < MAX_HEAD {
                    Need::Open
                } else {
                    all
                }
            }
            Err(_) => all,
        }
    }
}

// What the request needs that has this head of so many bytes.
fn need_behind(engine: &Engine, head: &Head<'_>, length: usize) -> Need
    requires { length ≤ MAX_HEAD }
    ensures { NeedsBehind length head.now.0 result }
{
    match make_plan(engine, head) {
        Ok(plan) => Need::Known {
            bytes: length + plan.length,
            invites: is_due(head, plan.length),
        },
        Err(_) => Need::Known {
            bytes: length,
            invites: false,
        },
    }
}
