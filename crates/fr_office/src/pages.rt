//! Pages of the register that are kept in memory, so that they need not be read for each request;
//! and which of them are let go.
ghost use Rattle.std.specs.Prelude.{◌≡◌, ◌+◌, ◌≤◌, [], None, Some, IfSome, IsSome, OnErr, OnOk, is_some, not, sum_by};
ghost use Rattle.fr_base.specs.Book.{Book};
ghost use Rattle.fr_base.specs.Names.{same_text};
ghost use Rattle.fr_base.specs.declared.params.Params.{Params};
ghost use Rattle.fr_office.specs.KeptPages.{Amends, AreFresh, Turns, AreOf, bytes_of, given_up, kept_at, kept_where, kept_without, lent_at, none_lent, put_away, shelved_at, with_room};
ghost use Rattle.fr_office.specs.declared.page_bytes.TheConstants.{MAX_BYTES};
ghost use Rattle.fr_office.specs.declared.shelf.TheConstants.{COUNTED_BYTES};
ghost use Rattle.fr_world.specs.Edits.{Takes};
ghost use Rattle.fr_world.specs.Pages.{own_rows_of};

use crate::page_bytes::Weighed;
use crate::shelf::Shelf;
use fr_base::{Name, NoMemory};
use fr_world::{Edit, Page};
use std::alloc::Global;
use std::marker::Model;
use std::mem::swap;

/// The page that is lent, which was used last. The pages that were used before it lie on one shelf,
/// those that were used before these on another. A shelf takes so many bytes at most, or one page.
/// When the first shelf is full, the second is emptied and they change places.
#[derive(Drop)]
pub(crate) struct Pages {
    lent: Option<Page>,
    recent: Shelf,
    earlier: Shelf,
    most: usize,
}

impl Model for Pages {
    ghost use Rattle.fr_office.specs.KeptPages.{KeptData};

    ghost Value = { KeptData };

    ghost view = { λ p. record { lent = p.lent; recent = p.recent; earlier = p.earlier; most = p.most } };
}

impl Pages {
    /// No pages, and the most bytes that those of a shelf may take.
    pub(crate) fn new(alloc: Global, most: usize) -> Pages
        ensures { result ≡ record { lent = None; recent = []; earlier = []; most = most } }
    {
        Pages {
            lent: None,
            recent: Shelf::new(alloc),
            earlier: Shelf::new(alloc),
            most,
        }
    }

    /// The page that is lent.
    pub(crate) fn lent(&self) -> &Page
        requires { IsSome self.now.lent }
        ensures { self.now.lent ≡ Some result.now }
    {
        match &self.lent {
            Some(page) => page,
            None => unreachable!(),
        }
    }

    /// Lends the supplier's page of the variant, if it is kept, and says whether it is. Else no
    /// page is lent.
    pub(crate) fn lend(&mut self, supplier: Name, variant: Name) -> bool
        ensures told { result ≡ is_some self.new.lent }
        ensures page { self.new.lent ≡ kept_at supplier variant self.old }
        ensures others { Turns supplier variant self.old self.new }
        ensures params { (p : Params) → AreOf p self.old → AreOf p self.new }
        ensures fresh { (p : Params) (b : Book) → AreFresh p b self.old → AreFresh p b self.new }
    {
        if self.lends(supplier, variant) {
            return true;
        }
        let page = self.take(supplier, variant);
        let _ = self.put_away();
        self.lent = page;
        self.lent.is_some()
    }

    // Whether the page that is lent is the supplier's page of the variant.
    fn lends(&self, supplier: Name, variant: Name) -> bool
        ensures { result ≡ is_some (lent_at supplier variant self.now.lent) }
    {
        match &self.lent {
            Some(page) => page.supplier() == supplier && page.variant() == variant,
            None => false,
        }
    }

    /// Lends this page, which was just read, or no page.
    pub(crate) fn lend_read(&mut self, page: Option<Page>)
        ensures { self.new ≡ record self.old { lent = page } }
    {
        self.lent = page;
    }

    // Takes the supplier's page of the variant from the shelves, if it is there. Then they have
    // none.
    fn take(&mut self, supplier: Name, variant: Name) -> Option<Page>
        ensures value { result ≡ shelved_at supplier variant self.old }
        ensures others { self.new ≡ kept_without supplier variant self.old }
    {
        let recent = self.recent.take(supplier, variant);
        let earlier = self.earlier.take(supplier, variant);
        recent.or(earlier)
    }

    /// Puts the page that was lent on the shelf of the pages that were used before it. Where that shelf
    /// has no room for it, first the other shelf is emptied and the two change places. Where memory is
    /// refused, the page is given up.
    pub(crate) fn put_away(&mut self) -> Result<(), NoMemory>
        ensures ok { OnOk result (self.new ≡ put_away self.old) }
        ensures err { OnErr result (self.new ≡ given_up self.old) }
    {
        match self.lent.take() {
            Some(page) => {
                let page = Weighed::new(page);
                self.make_room(page.bytes());
                self.recent.put(page)
            }
            None => Ok(()),
        }
    }

    // Empties the shelf of the pages that were used last, if so many bytes have no room on it. Its
    // pages are then those that were used before.
    fn make_room(&mut self, bytes: usize)
        requires { bytes ≤ MAX_BYTES }
        ensures value { self.new ≡ with_room bytes self.old }
        ensures room { sum_by bytes_of self.new.recent + bytes ≤ COUNTED_BYTES }
    {
        if self.recent.bytes() > self.most.saturating_sub(bytes) {
            swap(&mut self.recent, &mut self.earlier);
            self.recent.clear();
        }
    }

    /// Lets go of the variant's pages.
    pub(crate) fn let_go_of_variant(&mut self, variant: Name)
        ensures { self.new ≡ kept_where (λ page. not (same_text page.variant variant)) self.old }
    {
        self.lent = self.lent.take().filter(
            |page|
                ensures { result ≡ not (same_text page.now.variant variant) }
            { page.variant() != variant },
        );
        self.recent.let_go_of_variant(variant);
        self.earlier.let_go_of_variant(variant);
    }

    /// Lets go of the supplier's pages.
    pub(crate) fn let_go_of_supplier(&mut self, supplier: Name)
        ensures { self.new ≡ kept_where (λ page. not (same_text page.supplier supplier)) self.old }
    {
        self.lent = self.lent.take().filter(
            |page|
                ensures { result ≡ not (same_text page.now.supplier supplier) }
            { page.supplier() != supplier },
        );
        self.recent.let_go_of_supplier(supplier);
        self.earlier.let_go_of_supplier(supplier);
    }

    /// Makes the edit of the supplier's rows in the variant in the page that is lent. Where memory
    /// is refused, that page is let go. The supplier's page of the variant on a shelf is let go
    /// too.
    pub(crate) fn amend(&mut self, alloc: Global, supplier: Name, variant: Name, edit: &Edit)
        requires takes { IfSome self.old.lent
            (λ page. Takes page.variant (own_rows_of page) edit.now) }
        ensures lent { Amends edit.now self.old.lent self.new.lent }
        ensures others { none_lent self.new ≡ kept_without supplier variant (none_lent self.old) }
    {
        let _ = self.take(supplier, variant);
        self.lent = page_after(self.lent.take(), alloc, edit);
    }
}

// The page, if there is one, after the edit. Where memory is refused, the page is given up.
fn page_after(page: Option<Page>, alloc: Global, edit: &Edit) -> Option<Page>
    requires takes { IfSome page (λ page. Takes page.variant (own_rows_of page) edit.now) }
    ensures { Amends edit.now page result }
{
    let mut page = page?;
    if page.amend(alloc, edit).is_err() {
        return None;
    }
    // Gives the proof that a page may have the rows.
    let _frames = page.frames();
    Some(page)
}
