//! The reply of an exchange: the register answers a request, a picture is drawn of what the register's
//! reports say, or advice is given on a text.
ghost use Rattle.std.specs.Prelude.{◌≡◌, false};
ghost use Rattle.fr_picture.specs.Plans.{since_of};
ghost use Rattle.fr_base.specs.Desks.{AsksDesk};
ghost use Rattle.fr_http.specs.Connection.{GivesReply, HasDrawn};
ghost use Rattle.fr_http.specs.Outcome.{is_ask};

use crate::exchange::Exchange;
use crate::method::Method;
use crate::reply::{ReplyText, advice_reply, answer_reply, page_reply};
use fr_base::{Answer, Desk, NoMemory, Refusal, Text};
use fr_guide::advise;
use fr_picture::{View, read_plan, write_page};
use std::alloc::Global;

/// The reply of an exchange. The desk stays where it is not asked.
pub(crate) fn reply_to<D: Desk>(
    alloc: Global,
    exchange: &Exchange,
    desk: &mut D,
) -> Result<ReplyText, NoMemory>
    ensures given { AsksDesk D.Desk (GivesReply exchange.now) desk.old desk.new result }
    ensures stays { is_ask exchange.now ≡ false → desk.new ≡ desk.old }
{
    match exchange {
        Exchange::Request { ask, method } => {
            let answer = desk.ask(alloc, ask);
            answer_reply(alloc, *method, &answer)
        }
        Exchange::Picture {
            reader,
            variant,
            since,
        } => {
            let view = View {
                reader: *reader,
                variant: variant.as_str(),
                since: text_of(since),
            };
            match picture(alloc, &view, desk) {
                Ok(page) => page_reply(page),
                Err(refusal) => answer_reply(alloc, Method::Get, &Answer::Refused(refusal)),
            }
        }
        Exchange::Advice {
            reader: _,
            subject,
            text,
        } => {
            let lines = advise(alloc, *subject, text.as_slice())?;
            advice_reply(lines)
        }
    }
}

// The text, if there is one.
fn text_of(text: &Option<Text>) -> Option<&str>
    ensures { since_of result ≡ text.now }
{
    match text {
        Some(text) => Some(text.as_str()),
        None => None,
    }
}

// The page of the variant's plan, as the reader sees it, or why there is none. Want of memory is
// `Unavailable`.
fn picture<D: Desk>(alloc: Global, view: &View<'_>, desk: &mut D) -> Result<Vec<u8>, Refusal>
    ensures { AsksDesk D.Desk
        (HasDrawn view.now.reader view.now.variant.now (since_of view.now.since))
        desk.old desk.new result }
{
    let plan = read_plan(alloc, desk, view)?;
    let page = write_page(alloc, &plan)?;
    Ok(page.into_bytes())
}
