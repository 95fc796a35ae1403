//! Pages by supplier and variant, and how many bytes they take.
ghost use Rattle.std.specs.Prelude.{◌≡◌, ◌+◌, ◌≤◌, [], filter, not, sum_by, OnErr, OnOk};
ghost use Rattle.fr_office.specs.KeptPages.{bytes_of, others_than, page_at, with_page};
ghost use Rattle.std.specs.Map.{values_of};
ghost use Rattle.fr_base.specs.Names.{same_text};

use crate::page_bytes::Weighed;
use fr_base::{Name, NoMemory};
use fr_world::Page;
use std::alloc::Global;
use std::collections::BTreeMap;
use std::marker::Model;

/// The most bytes of pages that can be counted.
pub(crate) const COUNTED_BYTES: usize = usize::MAX;

/// Whose page it is: a supplier's, in a variant.
#[derive(Clone, Copy, PartialEq, Eq, PartialOrd, Ord)]
struct PageKey {
    supplier: Name,
    variant: Name,
}

/// Pages, at most one of each supplier and variant, and how many bytes they take at most.
#[derive(Drop)]
pub(crate) struct Shelf {
    pages: BTreeMap<PageKey, Weighed>,
    bytes: usize,
}

impl Model for Shelf {
    ghost use Rattle.std.specs.Prelude.{List};
    ghost use Rattle.std.specs.Map.{values_of};
    ghost use Rattle.fr_base.specs.Names.{same_text};
    ghost use Rattle.fr_office.specs.Shelves.{IsShelf};
    ghost use Rattle.fr_world.specs.Pages.{PageData};

    ghost Value = { List PageData };

    ghost view = { λ s. values_of s.pages.entries };

    ghost invariant = { λ s. IsShelf s.pages.entries s.bytes };
}

impl Shelf {
    /// No pages.
    pub(crate) fn new(alloc: Global) -> Shelf
        ensures { result ≡ [] }
    {
        Shelf {
            pages: BTreeMap::new(alloc),
            bytes: 0,
        }
    }

    /// How many bytes its pages take at most.
    pub(crate) fn bytes(&self) -> usize
        ensures value { result ≡ sum_by bytes_of self.now }
        ensures bound { result ≤ COUNTED_BYTES }
    {
        self.bytes
    }

    /// Takes the supplier's page of the variant out, if it is there. Then the shelf has none.
    pub(crate) fn take(&mut self, supplier: Name, variant: Name) -> Option<Page>
        ensures value { result ≡ page_at supplier variant self.old }
        ensures others { self.new ≡ others_than supplier variant self.old }
    {
        // Gives the proof that the keys are in order.
        let _len = self.pages.len();
        let page = self.pages.remove(&PageKey { supplier, variant })?;
        self.bytes -= page.bytes();
        Some(page.into_page())
    }

    /// Puts a page in its place, and lets go of the page that lay there. Where memory is refused,
    /// the page is given up.
    pub(crate) fn put(&mut self, page: Weighed) -> Result<(), NoMemory>
        requires fits { sum_by bytes_of self.old + bytes_of page ≤ COUNTED_BYTES }
        ensures ok { OnOk result (self.new ≡ with_page page self.old) }
        ensures err { OnErr result (self.new ≡ self.old) }
    {
        let bytes = page.bytes();
        let key = PageKey {
            supplier: page.page().supplier(),
            variant: page.page().variant(),
        };
        let former = self.pages.insert(key, page)?;
        self.bytes += bytes;
        if let Some(former) = former {
            self.bytes -= former.bytes();
        }
        Ok(())
    }

    /// Lets go of all pages.
    pub(crate) fn clear(&mut self)
        ensures { self.new ≡ [] }
    {
        self.pages.clear();
        self.bytes = 0;
    }

    /// Lets go of the variant's pages.
    pub(crate) fn let_go_of_variant(&mut self, variant: Name)
        ensures { self.new ≡ filter (λ page. not (same_text page.variant variant)) self.old }
    {
        self.pages.retain(
            |_, page|
                ensures value { result ≡ not (same_text page.old.variant variant) }
                ensures same { page.new ≡ page.old }
            { page.page().variant() != variant },
        );
        self.bytes = total(&self.pages);
    }

    /// Lets go of the supplier's pages.
    pub(crate) fn let_go_of_supplier(&mut self, supplier: Name)
        ensures { self.new ≡ filter (λ page. not (same_text page.supplier supplier)) self.old }
    {
        self.pages.retain(
            |_, page|
                ensures value { result ≡ not (same_text page.old.supplier supplier) }
                ensures same { page.new ≡ page.old }
            { page.page().supplier() != supplier },
        );
        self.bytes = total(&self.pages);
    }
}

// How many bytes the pages take at most.
fn total(pages: &BTreeMap<PageKey, Weighed>) -> usize
    requires { sum_by bytes_of (values_of pages.now.entries) ≤ COUNTED_BYTES }
    ensures { result ≡ sum_by bytes_of (values_of pages.now.entries) }
{
    let mut bytes = 0;
    for page in pages.values() {
        bytes += page.bytes();
    }
    bytes
}
