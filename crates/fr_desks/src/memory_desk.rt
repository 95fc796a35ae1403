//! The desk of a register in memory, which a script asks.
ghost use Rattle.std.specs.Prelude.{◌≡◌, ◌<◌, length, IfErr, IfOk, ⊤};
ghost use Rattle.fr_base.specs.Book.{opening};
ghost use Rattle.fr_office.specs.Headline.{AnswersEach};
ghost use Rattle.fr_office.specs.KeptPages.{StandsWarm};
ghost use Rattle.fr_store.specs.declared.fault.StoreFault.TheVariants.{Unavailable};

use fr_base::{Actor, Answer, Ask, Config, Desk};
use fr_office::{MAX_BYTES, Office, Stopped};
use fr_store::{MemoryFile, Store, StoreFault};
use fr_world::Records;
use sqlite::FileStore;
use std::alloc::Global;

/// The desk of a register in memory. Nobody else can write there, so it is always clean. A crash leaves nothing of it.
pub struct MemoryDesk {
    office: Office<Store<FileStore<MemoryFile>>>,
}

// It is written out, so that a caller does not prove again how the files are dropped.
impl Drop for MemoryDesk {
    fn drop(self) {
        let MemoryDesk { office: _ } = self;
    }
}

impl Desk for MemoryDesk {
    ghost stands = { λ it. StandsWarm ⟦<Store<FileStore<MemoryFile>> as Records>⟧.stands it.office };

    ghost clean = { λ _. ⊤ };

    fn actor_of(&self, key: &str) -> Option<Actor> {
        self.office.actor_of(key)
    }

    fn config(&self) -> &Config {
        self.office.config()
    }

    fn ask(&mut self, alloc: Global, ask: &Ask) -> Answer {
        self.office.ask(alloc, ask)
    }
}

impl MemoryDesk {
    /// The desk of a new register of this cluster. The only refusal is `Unavailable`.
    pub fn new(alloc: Global, config: &Config) -> Result<MemoryDesk, StoreFault>
        ensures stands { IfOk result
            (λ it. ⟦<MemoryDesk as Desk>⟧.stands it config.now.cluster (opening config.now)) }
        ensures told { IfErr result (λ e. e ≡ Unavailable) }
    {
        // Gives the proof that the suppliers are in order.
        let _formed = config.params();
        let store = Store::create_in_memory(alloc, config)?;
        let office = Office::new(alloc, store, MAX_BYTES);
        Ok(MemoryDesk { office })
    }

    /// Answers requests one after another, as an [`Office`] does.
    pub fn run(&mut self, alloc: Global, asks: &[Ask]) -> Result<Vec<Answer>, Stopped>
        ensures each { IfOk result (λ answers. length answers.items ≡ length asks.now) }
        ensures front { IfErr result (λ stopped. length stopped.answers.items < length asks.now) }
        ensures headline { AnswersEach (⟦<MemoryDesk as Desk>⟧.stands self.old)
            (⟦<MemoryDesk as Desk>⟧.stands self.new) asks.now result }
    {
        self.office.run(alloc, asks)
    }
}
