//! Requests answered one after another, by any desk.
ghost use Rattle.std.specs.Prelude.{◌≡◌, ◌<◌, length, IfOk, IfErr};
ghost use Rattle.fr_office.specs.Crashed.{AsksEach, KeepsEach};
ghost use Rattle.fr_office.specs.Headline.{AnswersEach};

use crate::dispatch::answer;
use crate::lender::Lender;
use fr_base::{Answer, Ask};
use std::alloc::Global;

/// There was no memory for one more answer. The requests that were answered were carried out. No
/// other request was asked.
#[derive(Drop)]
pub struct Stopped {
    /// The answers to the requests before.
    pub answers: Vec<Answer>,
}

/// Answers requests one after another. Before it asks a request it makes room for the answer. Where
/// there is no room, `Stopped` has the answers to the requests before.
pub fn run<R: Lender>(alloc: Global, records: &mut R, asks: &[Ask]) -> Result<Vec<Answer>, Stopped>
    ensures falls { R.clean records.new → R.clean records.old }
    ensures each { IfOk result (λ answers. length answers.items ≡ length asks.now) }
    ensures front { IfErr result (λ stopped. length stopped.answers.items < length asks.now) }
    ensures headline { R.clean records.new
        → AnswersEach (R.stands records.old) (R.stands records.new) asks.now result }
    ensures asked { R.clean records.new
        → AsksEach R.stands R.leaves records.old records.new asks.now result }
    ensures kept { R.clean records.new
        → KeepsEach R.stands R.leaves records.old records.new asks.now result }
{
    let mut answers = Vec::new(alloc);
    for ask in asks {
        if answers.reserve(1).is_err() {
            return Err(Stopped { answers });
        }
        let answer = answer(alloc, records, ask);
        let _ = answers.push(answer);
    }
    Ok(answers)
}
