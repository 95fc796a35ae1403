//! A request checked by itself, before any register is asked: checked values, or the first refusal.
ghost use Rattle.std.specs.Prelude.{◌≡◌, ◌&&◌, ℕ, List, true, false, not};
ghost use Rattle.std.specs.List.{list_all};
ghost use Rattle.fr_base.specs.Channels.{channels_in, has_channel};
ghost use Rattle.fr_base.specs.Refusing.{refuse◌when◌};
ghost use Rattle.fr_base.specs.Changes.{in_rows};
ghost use Rattle.fr_base.specs.declared.request.Request.TheVariants as request;
ghost use Rattle.fr_base.specs.Cycles.{is_repetition};
ghost use Rattle.fr_base.specs.Checks.{asking, has_repetition, is_integrator, is_of_room, check, key, name, cycles, slot, channel, channels, placement, signal, beginning};

use crate::actor::Actor;
use crate::beginning::Beginning;
use crate::body::{Body, BodyRef};
use crate::channel::{Channel, Channels};
use crate::cycles::CycleSet;
use crate::delivery::{Delivery, Purpose};
use crate::key::Key;
use crate::name::Name;
use crate::params::Params;
use crate::placement::Placement;
use crate::query::{Query, QueryReader};
use crate::refusal::Refusal;
use crate::report::Report;
use crate::request::{Change, Checked, Command, CommonCommand, FrameChange, Request, RowsChange};
use crate::signal::{Order, Signal};
use crate::slot::Slot;
use crate::text::Text;

/// The request with checked values, or the first refusal that it meets by itself, whatever the
/// register holds: `NotYours`, `BadName`, `BadKey`, `BadCycles`, `BadSlot`, `BadChannel`, `BadSignal`, in this order.
pub fn check<'a>(
    params: &Params,
    actor: &Actor,
    request: &'a Request,
) -> Result<Checked<'a>, Refusal>
    ensures { result ≡ check params.now actor.now request.now }
{
    match request {
        Request::OpenVariant { variant, beginning } => open_variant(actor, variant, beginning),
        Request::Release { variant } => release(actor, variant),
        Request::AddSupplier { supplier, key } => add_supplier(actor, supplier, key),
        Request::SetKey { supplier, key } => set_key(actor, supplier, key),
        Request::AddNode { supplier, node } => add_node(actor, supplier, node),
        Request::Grant {
            variant,
            slot,
            channel,
            supplier,
            node,
        } => grant(params, actor, variant, *slot, channel, supplier, node),
        Request::Revoke {
            variant,
            slot,
            channel,
            supplier,
        } => revoke(params, actor, variant, *slot, channel, supplier),
        Request::AddFrame {
            variant,
            frame,
            node,
        } => add_frame(actor, variant, frame, node),
        Request::DropFrame { variant, frame } => drop_frame(actor, variant, frame),
        Request::Place {
            variant,
            frame,
            slot,
            channels,
            base,
            repetition,
        } => {
            let channels = channels.as_str().as_bytes();
            let placed = placement(params, *slot, channels, *base, *repetition);
            placing(actor, variant, frame, placed, false)
        }
        Request::Unplace {
            variant,
            frame,
            slot,
            channels,
            base,
            repetition,
        } => {
            let channels = channels.as_str().as_bytes();
            let placed = placement(params, *slot, channels, *base, *repetition);
            placing(actor, variant, frame, placed, true)
        }
        Request::AddSignal {
            variant,
            frame,
            signal,
            start,
            length,
            order,
        } => add_signal(actor, variant, frame, signal, *start, *length, order),
        Request::DropSignal {
            variant,
            frame,
            signal,
        } => drop_signal(actor, variant, frame, signal),
        Request::Deliver { variant, how, body } => deliver(actor, variant, how, body),
        Request::Query(asked) => query(params, actor, asked),
    }
}

#[tactic(auto, unfolding(crate::proofs::ChecksLemmas::checks_open))]
fn open_variant(
    actor: &Actor,
    variant: &Text,
    begins: &Beginning<Text>,
) -> Result<Checked<'static>, Refusal>
    ensures { (p : Params)
        → result ≡ check p actor.now (request.OpenVariant variant.now begins.now) }
{
    integrator(actor)?;
    let (variant, beginning) = (name(variant)?, beginning(begins)?);
    Ok(common(CommonCommand::OpenVariant { variant, beginning }))
}

#[tactic(auto, unfolding(crate::proofs::ChecksLemmas::checks_open))]
fn release(actor: &Actor, variant: &Text) -> Result<Checked<'static>, Refusal>
    ensures { (p : Params) → result ≡ check p actor.now (request.Release variant.now) }
{
    integrator(actor)?;
    let variant = name(variant)?;
    Ok(common(CommonCommand::Release { variant }))
}

#[tactic(auto, unfolding(crate::proofs::ChecksLemmas::checks_open))]
fn add_supplier(actor: &Actor, supplier: &Text, text: &Text) -> Result<Checked<'static>, Refusal>
    ensures { (p : Params)
        → result ≡ check p actor.now (request.AddSupplier supplier.now text.now) }
{
    integrator(actor)?;
    let (supplier, key) = (name(supplier)?, key(text)?);
    Ok(Checked::Command(Command::AddSupplier { supplier, key }))
}

#[tactic(auto, unfolding(crate::proofs::ChecksLemmas::checks_open))]
fn set_key(actor: &Actor, supplier: &Text, text: &Text) -> Result<Checked<'static>, Refusal>
    ensures { (p : Params) → result ≡ check p actor.now (request.SetKey supplier.now text.now) }
{
    integrator(actor)?;
    let (supplier, key) = (name(supplier)?, key(text)?);
    Ok(Checked::Command(Command::SetKey { supplier, key }))
}

#[tactic(auto, unfolding(crate::proofs::ChecksLemmas::checks_open))]
fn add_node(actor: &Actor, supplier: &Text, node: &Text) -> Result<Checked<'static>, Refusal>
    ensures { (p : Params) → result ≡ check p actor.now (request.AddNode supplier.now node.now) }
{
    integrator(actor)?;
    let (supplier, node) = (name(supplier)?, name(node)?);
    Ok(Checked::Command(Command::AddNode { supplier, node }))
}

#[tactic(auto, unfolding(crate::proofs::ChecksLemmas::checks_open))]
fn grant(
    params: &Params,
    actor: &Actor,
    variant: &Text,
    number: u32,
    text: &Text,
    supplier: &Text,
    node: &Text,
) -> Result<Checked<'static>, Refusal>
    ensures { result ≡ check params.now actor.now
        (request.Grant variant.now number text.now supplier.now node.now) }
{
    integrator(actor)?;
    let (variant, supplier, node) = (name(variant)?, name(supplier)?, name(node)?);
    let (slot, channel) = (slot(params, number)?, channel(params, text)?);
    let change = Change::Grant {
        slot,
        channel,
        node,
    };
    Ok(rows(supplier, variant, change))
}

#[tactic(auto, unfolding(crate::proofs::ChecksLemmas::checks_open))]
fn revoke(
    params: &Params,
    actor: &Actor,
    variant: &Text,
    number: u32,
    text: &Text,
    supplier: &Text,
) -> Result<Checked<'static>, Refusal>
    ensures { result ≡ check params.now actor.now
        (request.Revoke variant.now number text.now supplier.now) }
{
    integrator(actor)?;
    let (variant, supplier) = (name(variant)?, name(supplier)?);
    let (slot, channel) = (slot(params, number)?, channel(params, text)?);
    Ok(rows(supplier, variant, Change::Revoke { slot, channel }))
}

#[tactic(auto, unfolding(crate::proofs::ChecksLemmas::checks_open))]
fn add_frame(
    actor: &Actor,
    variant: &Text,
    frame: &Text,
    node: &Text,
) -> Result<Checked<'static>, Refusal>
    ensures { (p : Params)
        → result ≡ check p actor.now (request.AddFrame variant.now frame.now node.now) }
{
    let (supplier, variant, frame) = (asking(actor)?, name(variant)?, name(frame)?);
    let node = name(node)?;
    Ok(of_frame(supplier, variant, frame, FrameChange::Add { node }))
}

#[tactic(auto, unfolding(crate::proofs::ChecksLemmas::checks_open))]
fn drop_frame(actor: &Actor, variant: &Text, frame: &Text) -> Result<Checked<'static>, Refusal>
    ensures { (p : Params) → result ≡ check p actor.now (request.DropFrame variant.now frame.now) }
{
    let (supplier, variant, frame) = (asking(actor)?, name(variant)?, name(frame)?);
    Ok(of_frame(supplier, variant, frame, FrameChange::Drop))
}

// Checks the request for a placement of a frame, or, where it `ends`, the request to take one back.
// `placed` is the placement that its slot, channels, base and repetition make, or why they make
// none. A refusal by the supplier, the variant or the frame comes before that.
#[tactic(auto, unfolding(crate::proofs::ChecksLemmas::frames_open))]
fn placing(
    actor: &Actor,
    variant: &Text,
    frame: &Text,
    placed: Result<Placement, Refusal>,
    ends: bool,
) -> Result<Checked<'static>, Refusal>
    ensures made { (p : Params) (n : ℕ) (text : List ℕ) (base : ℕ) (repetition : ℕ)
        → ends ≡ false → placed ≡ placement p n text base repetition
        → result ≡ check p actor.now (request.Place variant.now frame.now n text base repetition) }
    ensures ended { (p : Params) (n : ℕ) (text : List ℕ) (base : ℕ) (repetition : ℕ)
        → ends ≡ true → placed ≡ placement p n text base repetition
        → result ≡ check p actor.now
        (request.Unplace variant.now frame.now n text base repetition) }
{
    let (supplier, variant, frame) = (asking(actor)?, name(variant)?, name(frame)?);
    let placement = placed?;
    let change = if ends {
        FrameChange::Unplace(placement)
    } else {
        FrameChange::Place(placement)
    };
    Ok(of_frame(supplier, variant, frame, change))
}

#[tactic(auto, unfolding(crate::proofs::ChecksLemmas::checks_open))]
fn add_signal(
    actor: &Actor,
    variant: &Text,
    frame: &Text,
    text: &Text,
    start: u32,
    length: u32,
    order: &Text,
) -> Result<Checked<'static>, Refusal>
    ensures { (p : Params)
        → result ≡ check p actor.now
        (request.AddSignal variant.now frame.now text.now start length order.now) }
{
    let (supplier, variant, frame) = (asking(actor)?, name(variant)?, name(frame)?);
    let signal = signal(name(text)?, start, length, order.as_str().as_bytes())?;
    Ok(of_frame(supplier, variant, frame, FrameChange::AddSignal(signal)))
}

#[tactic(auto, unfolding(crate::proofs::ChecksLemmas::checks_open))]
fn drop_signal(
    actor: &Actor,
    variant: &Text,
    frame: &Text,
    signal: &Text,
) -> Result<Checked<'static>, Refusal>
    ensures { (p : Params)
        → result ≡ check p actor.now (request.DropSignal variant.now frame.now signal.now) }
{
    let (supplier, variant, frame) = (asking(actor)?, name(variant)?, name(frame)?);
    let signal = name(signal)?;
    Ok(of_frame(supplier, variant, frame, FrameChange::DropSignal(signal)))
}

#[tactic(auto, unfolding(crate::proofs::ChecksLemmas::checks_open), using(crate::proofs::ChecksLemmas::purpose_read))]
fn deliver<'a>(
    actor: &Actor,
    variant: &Text,
    how: &Purpose<Text>,
    body: &'a Body,
) -> Result<Checked<'a>, Refusal>
    ensures { (p : Params)
        → result ≡ check p actor.now (request.Deliver variant.now how.now body.now) }
{
    let (supplier, variant, how) = (asking(actor)?, name(variant)?, how.read(&Checking)?);
    let body = BodyRef::of(body);
    Ok(Checked::Deliver(Delivery {
        supplier,
        variant,
        how,
        body,
    }))
}

fn query(params: &Params, actor: &Actor, asked: &Query<Text>) -> Result<Checked<'static>, Refusal>
    ensures { result ≡ check params.now actor.now (request.Query asked.now) }
{
    may_ask(actor, asked)?;
    let query = asked.read(&Checking)?;
    repeats(params, &query)?;
    Ok(Checked::Query(query))
}

// Refuses the integrator that asks for the room of a frame: a supplier alone may ask.
#[tactic(auto, unfolding(crate::proofs::ChecksLemmas::checks_open))]
fn may_ask(actor: &Actor, asked: &Query<Text>) -> Result<(), Refusal>
    ensures { result ≡ (refuse Refusal.NotYours when is_integrator actor.now
        && is_of_room asked.now) }
{
    match (actor, asked) {
        (
            Actor::Integrator,
            Query::Variant {
                variant: _,
                report: Report::Room { .. },
            },
        ) => Err(Refusal::NotYours),
        _ => Ok(()),
    }
}

// Refuses a query whose repetition does not divide the count of cycles.
#[tactic(auto, unfolding(crate::proofs::ChecksLemmas::checks_open))]
fn repeats(params: &Params, query: &Query<Name>) -> Result<(), Refusal>
    ensures { result ≡ (refuse Refusal.BadCycles when not (has_repetition params.now query.now)) }
{
    match query {
        Query::Variant {
            variant: _,
            report: Report::Room {
                frame: _,
                repetition,
            },
        } => {
            if is_repetition(params.cycles(), *repetition) {
                Ok(())
            } else {
                Err(Refusal::BadCycles)
            }
        }
        _ => Ok(()),
    }
}

/// Whether the repetition divides the count of cycles.
pub(crate) fn is_repetition(count: u32, repetition: u32) -> bool
    ensures { result ≡ is_repetition count repetition }
{
    repetition >= 1 && count % repetition == 0
}

// Reads a text as a name, and a number as it is.
#[derive(Clone, Copy)]
struct Checking;

impl QueryReader<Text, u32, Name, Refusal> for Checking {
    ghost use Rattle.std.specs.Prelude.{◌≡◌, Ok};
    ghost use Rattle.fr_base.specs.Checks.{name};

    ghost reads = { λ _ text result. result ≡ name text };

    ghost counts = { λ _ number result. result ≡ Ok number };

    fn read_name(&self, text: &Text) -> Result<Name, Refusal> {
        name(text)
    }

    fn read_number(&self, number: &u32) -> Result<u32, Refusal> {
        Ok(*number)
    }
}

// Refuses a supplier: the integrator alone may ask.
#[tactic(auto, unfolding(crate::proofs::ChecksLemmas::checks_open))]
fn integrator(actor: &Actor) -> Result<(), Refusal>
    ensures { result ≡ (refuse Refusal.NotYours when not (is_integrator actor.now)) }
{
    match actor {
        Actor::Integrator => Ok(()),
        Actor::Supplier(_) => Err(Refusal::NotYours),
    }
}

// The command with checked values.
fn common(command: CommonCommand) -> Checked<'static>
    ensures { result ≡ Checked.Command (Command.Common command) }
{
    Checked::Command(Command::Common(command))
}

// The change of the supplier's rows in the variant.
fn rows(supplier: Name, variant: Name, change: Change) -> Checked<'static>
    ensures { result ≡ Checked.Command (Command.Rows (in_rows supplier variant change)) }
{
    Checked::Command(Command::Rows(RowsChange {
        supplier,
        variant,
        change,
    }))
}

// The change of the supplier's frame in the variant.
fn of_frame(supplier: Name, variant: Name, frame: Name, change: FrameChange) -> Checked<'static>
    ensures { result
        ≡ Checked.Command (Command.Rows (in_rows supplier variant (Change.Frame frame change))) }
{
    rows(supplier, variant, Change::Frame { frame, change })
}

// The supplier that asks. The integrator is refused.
#[tactic(auto, unfolding(crate::specs::Checks::asking))]
fn asking(actor: &Actor) -> Result<Name, Refusal>
    ensures { result ≡ asking actor.now }
{
    match actor {
        Actor::Integrator => Err(Refusal::NotYours),
        Actor::Supplier(supplier) => Ok(*supplier),
    }
}

// The name that a request's text is.
fn name(text: &Text) -> Result<Name, Refusal>
    ensures { result ≡ name text.now }
{
    read_name(text.as_str().as_bytes())
}

/// The name that the bytes are.
#[tactic(auto, unfolding(crate::specs::Checks::name))]
pub(crate) fn read_name(bytes: &[u8]) -> Result<Name, Refusal>
    ensures { result ≡ name bytes.now }
{
    Name::from_bytes(bytes).ok_or(Refusal::BadName)
}

// The key that a request's text is.
#[tactic(auto, unfolding(crate::specs::Checks::key))]
fn key(text: &Text) -> Result<Key, Refusal>
    ensures { result ≡ key text.now }
{
    Key::read(text.as_str()).ok_or(Refusal::BadKey)
}

// The cycles of the cluster that base and repetition select.
#[tactic(auto, unfolding(crate::specs::Checks::cycles))]
#[inline(always)]
fn cycles(params: &Params, base: u32, repetition: u32) -> Result<CycleSet, Refusal>
    ensures { result ≡ cycles params.now base repetition }
{
    CycleSet::new(params.cycles(), base, repetition).map_err(|_| Refusal::BadCycles)
}

// The static slot of this number, if the cluster has it.
#[tactic(auto, unfolding(crate::specs::Checks::slot))]
#[inline(always)]
fn slot(params: &Params, number: u32) -> Result<Slot, Refusal>
    ensures { result ≡ slot params.now number }
{
    let last = params.static_slots();
    match Slot::new(number) {
        Some(slot) if number <= last => Ok(slot),
        _ => Err(Refusal::BadSlot),
    }
}

// The channel that the text writes, if the cluster has it.
#[tactic(auto, unfolding(crate::proofs::ChecksLemmas::checks_open))]
fn channel(params: &Params, text: &Text) -> Result<Channel, Refusal>
    ensures { result ≡ channel params.now text.now }
{
    match Channel::read(text.as_str()) {
        Some(channel) if params.channels().has(channel) => Ok(channel),
        _ => Err(Refusal::BadChannel),
    }
}

/// The channels that the text writes, if the cluster has them all.
#[tactic(auto, unfolding(crate::proofs::ChecksLemmas::checks_open))]
#[inline(always)]
pub(crate) fn channels(params: &Params, text: &[u8]) -> Result<Channels, Refusal>
    ensures { result ≡ channels params.now text.now }
{
    match Channels::from_bytes(text) {
        Some(channels) if has_all(params.channels(), channels) => Ok(channels),
        _ => Err(Refusal::BadChannel),
    }
}

/// The placement in these cycles, this slot and these channels, if the cluster has them.
#[tactic(auto, unfolding(crate::proofs::ChecksLemmas::checks_open))]
#[inline(always)]
pub(crate) fn placement(
    params: &Params,
    number: u32,
    text: &[u8],
    base: u32,
    repetition: u32,
) -> Result<Placement, Refusal>
    ensures { result ≡ placement params.now number text.now base repetition }
{
    Ok(Placement {
        cycles: cycles(params, base, repetition)?,
        slot: slot(params, number)?,
        channels: channels(params, text)?,
    })
}

// What a new variant begins with: the name of a released variant, or none.
#[tactic(auto, unfolding(crate::proofs::ChecksLemmas::checks_open))]
fn beginning(begins: &Beginning<Text>) -> Result<Beginning<Name>, Refusal>
    ensures { result ≡ beginning begins.now }
{
    match begins {
        Beginning::Empty => Ok(Beginning::Empty),
        Beginning::From(text) => Ok(Beginning::From(name(text)?)),
        Beginning::Flat(text) => Ok(Beginning::Flat(name(text)?)),
    }
}

/// The signal of this name, if it has 1 to 64 bits in one of the two orders.
#[tactic(auto, unfolding(crate::proofs::ChecksLemmas::checks_open))]
#[inline(always)]
pub(crate) fn signal(name: Name, start: u32, length: u32, text: &[u8]) -> Result<Signal, Refusal>
    ensures { result ≡ signal name start length text.now }
{
    let order = Order::from_bytes(text).ok_or(Refusal::BadSignal)?;
    Signal::new(name, start, length, order).map_err(|_| Refusal::BadSignal)
}

// Whether a cluster with the channels `cluster` has all of `wanted`.
fn has_all(cluster: Channels, wanted: Channels) -> bool
    ensures { result ≡ list_all (has_channel cluster) (channels_in wanted) }
{
    cluster == Channels::AB || cluster == wanted
}
