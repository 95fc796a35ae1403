//! What a register tells of its rows: nodes, variants, the holder of a slot, imports, and a
//! supplier's page.

ghost use Rattle.std.specs.Prelude.{◌≡◌, IfOk, IfSome, option_map};
ghost use Rattle.fr_base.specs.Book.{own};
ghost use Rattle.fr_base.specs.Tables.{get, len};
ghost use Rattle.fr_world.specs.BookEdits.{variants_in};
ghost use Rattle.fr_world.specs.ImportLabels.{kept_of};
ghost use Rattle.fr_world.specs.Pages.{nodes_in};
ghost use Rattle.fr_store.specs.Paging.{page_of};
ghost use Rattle.fr_store.specs.Reading.{AreOpened, OnlyTells, as_holder, holder_in};

use crate::fault::StoreFault;
use crate::page::rows;
use crate::reading::{first_holder, first_import, names_of, opened_variants};
use crate::slot_holder::Holder;
use crate::store::Store;
use fr_base::{Channel, Name, Slot, VariantRow};
use fr_tables::tables;
use fr_world::{KeptImport, Page};
use sqlite::Alter;
use std::alloc::Global;

impl<S: Alter> Store<S> {
    /// The supplier's page of the variant, if the variant is there. It has the supplier's rows of
    /// the book for which the tables stand, if that book's cluster has as many cycles as the config.
    /// The only refusal is `Unavailable`.
    pub fn page(
        &mut self,
        alloc: Global,
        supplier: &Name,
        variant: &Name,
    ) -> Result<Option<Page>, StoreFault>
        ensures tells { OnlyTells S.Store
            (λ c b found. c.params.cycles ≡ self.old.config.cluster.params.cycles
            → found ≡ page_of self.old.config.cluster.params b supplier.now variant.now)
            self.old self.new result }
        ensures params { IfOk result
            (λ found. IfSome found (λ page. page.params ≡ self.old.config.cluster.params)) }
    {
        let params = self.config.params();
        let Some(rows) = rows(alloc, &mut self.conn, &params, supplier, variant)? else {
            return Ok(None);
        };
        match Page::build(alloc, rows) {
            Ok(Some(page)) => Ok(Some(page)),
            _ => Err(StoreFault::Unavailable),
        }
    }

    /// Who holds the slot on the channel in the variant. The only refusal is `Unavailable`.
    pub fn holder(
        &mut self,
        variant: &Name,
        slot: Slot,
        channel: Channel,
    ) -> Result<Option<Holder>, StoreFault>
        ensures { OnlyTells S.Store
            (λ c b found. option_map as_holder found ≡ holder_in b variant.now (slot, channel))
            self.old self.new result }
    {
        let rows = tables::grants::holder(&mut self.conn, variant, slot, channel)?;
        first_holder(rows.as_slice())
    }

    /// The variants, by name. Each has no parent, or one of them. The only refusal is
    /// `Unavailable`.
    pub fn variants(&mut self, alloc: Global) -> Result<Vec<VariantRow>, StoreFault>
        ensures tells { OnlyTells S.Store
            (λ c b rows. rows.items ≡ variants_in b) self.old self.new result }
        ensures opened { IfOk result (λ rows. AreOpened rows.items) }
    {
        let rows = tables::variants::by_name(&mut self.conn)?;
        opened_variants(alloc, rows.as_slice()).ok_or(StoreFault::Unavailable)
    }

    /// The supplier's nodes, in byte order. The only refusal is `Unavailable`.
    pub fn nodes(&mut self, alloc: Global, supplier: &Name) -> Result<Vec<Name>, StoreFault>
        ensures { OnlyTells S.Store
            (λ c b names. names.items ≡ nodes_in b supplier.now) self.old self.new result }
    {
        let rows = tables::nodes::of_supplier(&mut self.conn, supplier)?;
        names_of(alloc, rows.as_slice()).ok_or(StoreFault::Unavailable)
    }

    /// The import that the supplier keeps under the label, if there is one. The only refusal is
    /// `Unavailable`.
    pub fn import(
        &mut self,
        alloc: Global,
        supplier: &Name,
        label: &Name,
    ) -> Result<Option<KeptImport>, StoreFault>
        ensures { OnlyTells S.Store
            (λ c b found. option_map kept_of found ≡ get b.imports (supplier.now, label.now))
            self.old self.new result }
    {
        let rows = tables::imports::one(&mut self.conn, supplier, label)?;
        first_import(alloc, rows.as_slice())
    }

    /// How many imports of the supplier are kept. The only refusal is `Unavailable`.
    pub fn imports(&mut self, supplier: &Name) -> Result<usize, StoreFault>
        ensures { OnlyTells S.Store
            (λ c b count. count ≡ len (own supplier.now b.imports)) self.old self.new result }
    {
        let rows = tables::imports::labels(&mut self.conn, supplier)?;
        Ok(rows.len())
    }
}
