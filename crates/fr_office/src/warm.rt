//! Records of which some pages are kept in memory, with counts of the imports that suppliers keep.
//! Pages are lent from there, changed with the records, and let go.
ghost use Rattle.std.specs.Prelude.{◌≡◌, [], None};
ghost use Rattle.fr_office.specs.KeptPages.{StandsWarm};

use crate::kept::Kept;
use crate::lender::Lender;
use fr_base::{Channel, Config, Name, Refusal, Slot, VariantRow};
use fr_world::{Edit, KeptImport, Page, Records};
use std::alloc::Global;
use std::marker::Model;

/// A register's records, and in memory pages of them and counts of imports. None of these is stale:
/// together they stand for a book only where each kept page is the book's, and each count is right.
pub struct Warm<R: Records> {
    records: R,
    kept: Kept,
}

impl<R: Records> Model for Warm<R> {
    ghost use Rattle.fr_office.specs.KeptPages.{AreOf, WarmData};

    ghost Value = { WarmData R };

    ghost view = { λ w. record { records = w.records; pages = w.kept.pages; counts = w.kept.counts } };

    ghost invariant = { λ w. AreOf (R.params w.records) w.kept.pages };
}

// It is written out, so that a caller does not prove again how the parts are dropped.
impl<R: Records + Drop> Drop for Warm<R> {
    fn drop(self) {
        let Warm {
            records: _,
            kept: _,
        } = self;
    }
}

impl<R: Records> Warm<R> {
    /// These records, with no page and no count kept. Of the pages that are kept, those that were used last and those that
    /// were used before these take `kept` bytes each at most, or are one page.
    pub fn new(alloc: Global, records: R, kept: usize) -> Warm<R>
        ensures { result ≡ record {
          records = records;
          pages = record { lent = None; recent = []; earlier = []; most = kept };
          counts = [];
        } }
    {
        Warm {
            records,
            kept: Kept::new(alloc, kept),
        }
    }

    /// The records.
    pub fn into_records(self) -> R
        ensures { result ≡ self.records }
    {
        let Warm { records, kept: _ } = self;
        records
    }
}

impl<R: Records> Records for Warm<R> {
    ghost stands = { StandsWarm R.stands };

    ghost clean = { λ warm. R.clean warm.records };

    ghost serves = { λ warm. R.serves warm.records };

    ghost leaves = { λ warm. R.leaves warm.records };

    ghost settled = { λ warm c b clean serves stands. R.settled warm.records c b clean serves stands.0 };

    ghost params = { λ warm. R.params warm.records };

    fn config(&self) -> &Config {
        self.records.config()
    }

    fn has_variant(&mut self, variant: Name) -> Result<bool, Refusal> {
        self.records.has_variant(variant)
    }

    fn page(
        &mut self,
        alloc: Global,
        supplier: Name,
        variant: Name,
    ) -> Result<Option<Page>, Refusal> {
        self.records.page(alloc, supplier, variant)
    }

    fn is_held(&mut self, variant: Name, slot: Slot, channel: Channel) -> Result<bool, Refusal> {
        self.records.is_held(variant, slot, channel)
    }

    fn variants(&mut self, alloc: Global) -> Result<Vec<VariantRow>, Refusal> {
        self.records.variants(alloc)
    }

    fn nodes(&mut self, alloc: Global, supplier: Name) -> Result<Vec<Name>, Refusal> {
        self.records.nodes(alloc, supplier)
    }

    fn import(
        &mut self,
        alloc: Global,
        supplier: Name,
        label: Name,
    ) -> Result<Option<KeptImport>, Refusal> {
        self.records.import(alloc, supplier, label)
    }

    // A count that is known is not read again.
    fn imports(&mut self, alloc: Global, supplier: Name) -> Result<usize, Refusal> {
        if let Some(count) = self.kept.counts.of(supplier) {
            return Ok(count);
        }
        let count = self.records.imports(alloc, supplier)?;
        self.kept.counts.note(supplier, count);
        Ok(count)
    }

    // Then no page is lent, and the pages that the edits may change are let go.
    fn apply(&mut self, alloc: Global, edits: &[Edit]) -> Result<(), Refusal> {
        self.records.apply(alloc, edits)?;
        let _ = self.kept.pages.put_away();
        self.kept.follow(alloc, edits);
        Ok(())
    }
}

impl<R: Records> Lender for Warm<R> {
    ghost lent = { λ warm. warm.pages.lent };

    // A page that is kept is not read again.
    fn lend(&mut self, alloc: Global, supplier: Name, variant: Name) -> Result<bool, Refusal> {
        if self.kept.pages.lend(supplier, variant) {
            return Ok(true);
        }
        let page = self.records.page(alloc, supplier, variant)?;
        let there = page.is_some();
        self.kept.pages.lend_read(page);
        Ok(there)
    }

    fn lent(&self) -> &Page {
        self.kept.pages.lent()
    }

    fn change(&mut self, alloc: Global, edits: &[Edit]) -> Result<(), Refusal> {
        self.records.apply(alloc, edits)?;
        self.kept.follow(alloc, edits);
        Ok(())
    }

    fn change_to(&mut self, alloc: Global, edits: &[Edit], page: Page) -> Result<(), Refusal> {
        self.records.apply(alloc, edits)?;
        self.kept.follow_to(alloc, edits, page);
        Ok(())
    }
}
