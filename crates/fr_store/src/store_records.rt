//! A store's tables as the records from which requests are answered.
ghost use Rattle.std.specs.Prelude.{◌≡◌, Ok, Err, MatchResult};
ghost use Rattle.sqlite.specs.Held.{state};
ghost use Rattle.sqlite.specs.State.{HasCleanDisk};
ghost use Rattle.fr_base.specs.declared.refusal.Refusal.TheVariants.{Unavailable};
ghost use Rattle.fr_store.specs.Crashes.{Serves, StoredLeaves};
ghost use Rattle.fr_store.specs.Ready.{RequiresReady};
ghost use Rattle.fr_store.specs.Stored.{StandsStored};
ghost use Rattle.fr_store.specs.Settled.{stored_settled};

use crate::fault::StoreFault;
use crate::store::Store;
use fr_base::{Channel, Config, Name, Refusal, Slot, VariantRow};
use fr_tables::tables;
use fr_world::{Edit, KeptImport, Page, Records};
use sqlite::Alter;
use std::alloc::Global;

impl<S: Alter> Records for Store<S> {
    ghost stands = { λ s c b. StandsStored s.config (state S.Store s.conn) c b };

    ghost clean = { λ s. HasCleanDisk (state S.Store s.conn) };

    ghost serves = { λ s. Serves (state S.Store s.conn) };

    ghost leaves = { λ s c books. StoredLeaves (state S.Store s.conn) c books };

    ghost settled = { λ s c b _ serves stands. stored_settled (state S.Store s.conn) s.config c b serves stands };

    ghost params = { λ s. s.config.cluster.params };

    fn config(&self) -> &Config {
        self.config()
    }

    fn has_variant(&mut self, variant: Name) -> Result<bool, Refusal> {
        require_ready(self)?;
        match tables::variants::one(&mut self.conn, &variant) {
            Ok(rows) => Ok(!rows.is_empty()),
            Err(_) => Err(Refusal::Unavailable),
        }
    }

    fn page(
        &mut self,
        alloc: Global,
        supplier: Name,
        variant: Name,
    ) -> Result<Option<Page>, Refusal> {
        require_ready(self)?;
        or_unavailable(self.page(alloc, &supplier, &variant))
    }

    fn is_held(&mut self, variant: Name, slot: Slot, channel: Channel) -> Result<bool, Refusal> {
        require_ready(self)?;
        let holder = or_unavailable(self.holder(&variant, slot, channel))?;
        Ok(holder.is_some())
    }

    fn variants(&mut self, alloc: Global) -> Result<Vec<VariantRow>, Refusal> {
        require_ready(self)?;
        or_unavailable(self.variants(alloc))
    }

    fn nodes(&mut self, alloc: Global, supplier: Name) -> Result<Vec<Name>, Refusal> {
        require_ready(self)?;
        or_unavailable(self.nodes(alloc, &supplier))
    }

    fn import(
        &mut self,
        alloc: Global,
        supplier: Name,
        label: Name,
    ) -> Result<Option<KeptImport>, Refusal> {
        require_ready(self)?;
        or_unavailable(self.import(alloc, &supplier, &label))
    }

    fn imports(&mut self, _alloc: Global, supplier: Name) -> Result<usize, Refusal> {
        require_ready(self)?;
        or_unavailable(self.imports(&supplier))
    }

    fn apply(&mut self, alloc: Global, edits: &[Edit]) -> Result<(), Refusal> {
        require_ready(self)?;
        or_unavailable(self.apply(alloc, edits))
    }
}

// Makes sure that the register can answer. Once a fault has shut it, nothing is read and nothing is
// changed.
fn require_ready<S: Alter>(store: &mut Store<S>) -> Result<(), Refusal>
    ensures { RequiresReady S.Store store.old store.new result }
{
    if store.is_ready() {
        Ok(())
    } else {
        Err(Refusal::Unavailable)
    }
}

// What the store answered. A fault of it is the register's `Unavailable`.
fn or_unavailable<T>(told: Result<T, StoreFault>) -> Result<T, Refusal>
    ensures { MatchResult told (λ x. result ≡ Ok x) (λ _. result ≡ Err Unavailable) }
{
    told.map_err(|_| Refusal::Unavailable)
}
