//! How one request is answered: who asks, its check, and its effect.
ghost use Rattle.std.specs.Prelude.{◌≡◌, Err, IsTrue, MatchResult, Ok};
ghost use Rattle.fr_base.specs.Step.{knows};
ghost use Rattle.fr_office.specs.Answers.{Answers, AnswersAsk, CarriesAct, HasPassed, is_known};

use crate::commands::common::change_common;
use crate::commands::nodes::add_node;
use crate::commands::rows::{change_frame, grant, revoke};
use crate::commands::suppliers::{add_supplier, set_key};
use crate::deliveries::deliver;
use crate::lender::Lender;
use crate::queries::reply;
use fr_base::{Actor, Answer, Ask, Change, Checked, Command, Config, Refusal, check};
use fr_world::Records;
use std::alloc::Global;

/// Answers a request of a sound register by one step: `UnknownKey` where who asks is not there; then what the request's own
/// text refuses; then it is carried out, or `Unavailable`.
pub fn answer<R: Lender>(alloc: Global, records: &mut R, ask: &Ask) -> Answer
    ensures { AnswersAsk R.Records ask.now records.old records.new result }
{
    let config = records.config();
    if !is_known(config, &ask.actor) {
        return Answer::Refused(Refusal::UnknownKey);
    }
    let params = config.params();
    match check(&params, &ask.actor, &ask.request) {
        Ok(valid) => match act(alloc, records, &ask.actor, &valid) {
            Ok(answer) => answer,
            Err(refusal) => Answer::Refused(refusal),
        },
        Err(refusal) => Answer::Refused(refusal),
    }
}

/// The refusal that answers a request while the records cannot be read: `UnknownKey` where who asks is not there; then what
/// the request's own text refuses; else `Unavailable`.
pub fn decline<R: Records>(records: &R, ask: &Ask) -> Answer
    ensures refused { (refusal : Refusal) × (result ≡ Answer.Refused refusal) }
    ensures answers { Answers (R.stands records.now) (R.stands records.now) ask.now result }
{
    let file = records.config();
    if !is_known(file, &ask.actor) {
        return Answer::Refused(Refusal::UnknownKey);
    }
    match check(&file.params(), &ask.actor, &ask.request) {
        Ok(_valid) => Answer::Refused(Refusal::Unavailable),
        Err(refusal) => Answer::Refused(refusal),
    }
}

/// Whether the sender is there.
pub(crate) fn is_known(config: &Config, actor: &Actor) -> bool
    ensures { result ≡ is_known config.now actor.now }
{
    match actor {
        Actor::Integrator => true,
        Actor::Supplier(supplier) => config.has_supplier(*supplier),
    }
}

// Carries out a request that was checked under the cluster's parameters. Its sender is there.
fn act<R: Lender>(
    alloc: Global,
    records: &mut R,
    actor: &Actor,
    valid: &Checked<'_>,
) -> Result<Answer, Refusal>
    requires passed { HasPassed (R.params records.old) actor.now valid.now }
    requires known { (c : _) (b : _) → R.stands records.old c b → IsTrue (knows b actor.now) }
    ensures { CarriesAct R.Records actor.now valid.now records.old records.new result }
{
    match valid {
        Checked::Command(command) => match command {
            Command::Common(command) => done(change_common(alloc, records, command)),
            Command::AddSupplier { supplier, key } => {
                done(add_supplier(alloc, records, *supplier, *key))
            }
            Command::SetKey { supplier, key } => done(set_key(alloc, records, *supplier, *key)),
            Command::AddNode { supplier, node } => {
                done(add_node(alloc, records, *supplier, *node))
            }
            Command::Rows(rows) => match &rows.change {
                Change::Grant { slot, channel, .. } => {
                    done(grant(alloc, records, rows, *slot, *channel))
                }
                Change::Revoke { .. } => done(revoke(alloc, records, rows)),
                Change::Frame { .. } => done(change_frame(alloc, records, rows)),
            },
        },
        Checked::Deliver(delivery) => deliver(alloc, records, delivery),
        Checked::Query(query) => reply(alloc, records, actor, query),
    }
}

// The answer to a command, as it was carried out.
fn done(carried: Result<(), Refusal>) -> Result<Answer, Refusal>
    ensures { MatchResult carried (λ _. result ≡ Ok Answer.Done) (λ e. result ≡ Err e) }
{
    carried?;
    Ok(Answer::Done)
}
