//! The office of a register. It answers one request, or a list of them.
ghost use Rattle.std.specs.Prelude.{◌≡◌, ◌<◌, [], None, length, IfOk, IfErr};
ghost use Rattle.fr_base.specs.Actors.{actor_of};
ghost use Rattle.fr_base.specs.Book.{Book, file_of};
ghost use Rattle.fr_base.specs.Cluster.{Cluster};
ghost use Rattle.fr_base.specs.Sound.{IsSound};
ghost use Rattle.fr_office.specs.Answers.{Answers, KeepsChange, LeavesStep};
ghost use Rattle.fr_office.specs.Crashed.{AsksEach, KeepsEach, StandsKept};
ghost use Rattle.fr_office.specs.Headline.{AnswersEach};
ghost use Rattle.fr_office.specs.KeptPages.{StandsWarm};
ghost use Rattle.fr_office.specs.Listing.{Lists};
ghost use Rattle.fr_world.specs.Held.{Reads};

use crate::dispatch::{answer, decline};
use crate::listing::list_variants;
use crate::running::{Stopped, run};
use crate::warm::Warm;
use fr_base::{Actor, Answer, Ask, Config, Desk, Refusal, VariantRow};
use fr_world::Records;
use std::alloc::Global;
use std::marker::Model;

/// The office of a register, which answers requests from its records. It keeps pages of them in memory, the one that
/// was used last and others of at most as many bytes as it was made for, by its own count, and none that is stale.
pub struct Office<R: Records> {
    warm: Warm<R>,
}

impl<R: Records> Model for Office<R> {
    ghost use Rattle.fr_office.specs.KeptPages.{WarmData};

    ghost Value = { WarmData R };

    ghost view = { λ office. office.warm };
}

// It is written out, so that a caller does not prove again how the records are dropped.
impl<R: Records + Drop> Drop for Office<R> {
    fn drop(self) {
        let Office { warm: _ } = self;
    }
}

impl<R: Records> Desk for Office<R> {
    ghost stands = { StandsKept R.stands R.leaves };

    ghost clean = { λ office. R.clean office.records };

    fn actor_of(&self, key: &str) -> Option<Actor> {
        Office::actor_of(self, key)
    }

    fn config(&self) -> &Config {
        Office::config(self)
    }

    fn ask(&mut self, alloc: Global, ask: &Ask) -> Answer {
        Office::ask(self, alloc, ask)
    }
}

impl<R: Records> Office<R> {
    /// The office of the register that has these records, with no page kept yet. Beside the page that was used last it will
    /// keep others on two shelves, each of at most so many bytes, by its own count, or one page.
    pub fn new(alloc: Global, records: R, kept: usize) -> Office<R>
        ensures value { result ≡ record {
          records = records;
          pages = record { lent = None; recent = []; earlier = []; most = kept };
          counts = [];
        } }
        ensures stands { (c : Cluster) (b : Book) → R.stands records c b
            → StandsWarm R.stands result c b }
    {
        Office {
            warm: Warm::new(alloc, records, kept),
        }
    }

    /// The register's records.
    pub fn into_records(self) -> R
        ensures { result ≡ self.records }
    {
        let Office { warm } = self;
        warm.into_records()
    }

    /// Who asks with this key in a sound register: the integrator, a supplier that is there, or nobody.
    pub fn actor_of(&self, key: &str) -> Option<Actor>
        ensures { (c : Cluster) (b : Book) → StandsWarm R.stands self.now c b → IsSound c b
            → result ≡ actor_of c b key.now }
    {
        self.warm.config().actor_of(key.as_bytes())
    }

    /// Answers a request of a sound register by one step of it. Or the answer is `Unavailable`, and
    /// the rows stay: that comes only where the sender is known and the request itself gives no
    /// cause for a refusal. A sender that is not there is answered `UnknownKey`.
    ///
    /// A crash then leaves what it would have left before, or the register after the step. Where the answer is `Done`,
    /// `Replaced`, or `Imported` to an import that is new, a crash leaves the register after the step, and no other. So where
    /// a crash left the register with all that was answered, or after one request more, it still does.
    pub fn ask(&mut self, alloc: Global, ask: &Ask) -> Answer
        ensures falls { R.clean self.new.records → R.clean self.old.records }
        ensures answers { R.clean self.new.records
            → Answers (StandsWarm R.stands self.old) (StandsWarm R.stands self.new) ask.now result }
        ensures leaves { R.clean self.new.records
            → LeavesStep (StandsWarm R.stands self.old) (R.leaves self.old.records)
            (R.leaves self.new.records) ask.now }
        ensures durable { R.clean self.new.records
            → KeepsChange (StandsWarm R.stands self.old) (R.leaves self.new.records) ask.now
            result }
        ensures kept { R.clean self.new.records
            → Answers (StandsKept R.stands R.leaves self.old)
            (StandsKept R.stands R.leaves self.new) ask.now result }
    {
        answer(alloc, &mut self.warm, ask)
    }

    /// The answer to a request while the register's rows cannot be had: the refusal that a step
    /// gives, or `Unavailable`.
    pub fn decline(&self, ask: &Ask) -> Answer
        ensures refused { (refusal : Refusal) × (result ≡ Answer.Refused refusal) }
        ensures answers { Answers (StandsWarm R.stands self.now) (StandsWarm R.stands self.now)
            ask.now result }
        ensures kept { Answers (StandsKept R.stands R.leaves self.now)
            (StandsKept R.stands R.leaves self.now) ask.now result }
    {
        decline(&self.warm, ask)
    }

    /// What a cluster file says of the register's cluster now, with the suppliers that are there.
    pub fn config(&self) -> &Config
        ensures { (c : Cluster) (b : Book) → StandsWarm R.stands self.now c b
            → result.now ≡ file_of c b }
    {
        self.warm.config()
    }

    /// The variants of the register, by name, as who asks is told: all of them, since they are common to all suppliers.
    /// `UnknownKey` where who asks is not there; `Unavailable` comes only where who asks is there.
    pub fn variants(&mut self, alloc: Global, actor: &Actor) -> Result<Vec<VariantRow>, Refusal>
        ensures reads { Reads R.clean R.params R.leaves self.old.records self.new.records }
        ensures lists { R.clean self.new.records
            → Lists (StandsWarm R.stands self.old) (StandsWarm R.stands self.new) actor.now result }
        ensures kept { R.clean self.new.records
            → Lists (StandsKept R.stands R.leaves self.old) (StandsKept R.stands R.leaves self.new)
            actor.now result }
    {
        list_variants(alloc, &mut self.warm, actor)
    }

    /// Answers requests one after another. Before it asks a request it makes room for the answer.
    /// Where there is no room, `Stopped` has the answers to the requests before.
    ///
    /// Whatever is asked of a sound register, and by whomever, each supplier is answered as by a
    /// register that holds it alone. After each request at most one frame is sent in a cycle, slot
    /// and channel of a variant, by the node that holds the grant.
    ///
    /// If a crash would have left the register as it stood, a crash then leaves it as it stands
    /// now, with all that was answered, or after one more request, which was answered
    /// `Unavailable`.
    pub fn run(&mut self, alloc: Global, asks: &[Ask]) -> Result<Vec<Answer>, Stopped>
        ensures falls { R.clean self.new.records → R.clean self.old.records }
        ensures each { IfOk result (λ answers. length answers.items ≡ length asks.now) }
        ensures front { IfErr result (λ stopped. length stopped.answers.items < length asks.now) }
        ensures headline { R.clean self.new.records
            → AnswersEach (StandsWarm R.stands self.old) (StandsWarm R.stands self.new) asks.now
            result }
        ensures asked { R.clean self.new.records
            → AsksEach (StandsWarm R.stands) (λ office. R.leaves office.records) self.old self.new
            asks.now result }
        ensures kept { R.clean self.new.records
            → KeepsEach (StandsWarm R.stands) (λ office. R.leaves office.records) self.old self.new
            asks.now result }
    {
        run(alloc, &mut self.warm, asks)
    }
}
