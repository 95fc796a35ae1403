//! What is kept in memory of a register, and how it follows the register's edits.
ghost use Rattle.std.specs.Prelude.{◌≡◌, [], None, Some, IfSome, IsSome};
ghost use Rattle.fr_base.specs.Book.{Book};
ghost use Rattle.fr_base.specs.Cluster.{Cluster};
ghost use Rattle.fr_base.specs.declared.params.Params.{Params};
ghost use Rattle.fr_office.specs.Decided.{LeadsTo, MayTake, TakesAll};
ghost use Rattle.fr_office.specs.ImportCounts.{AreCounted};
ghost use Rattle.fr_office.specs.KeptPages.{AreFollowed, AreFresh, AreOf, FollowsAll, none_lent, untouched_by};
ghost use Rattle.fr_world.specs.BookEdits.{all_applied, applied};
ghost use Rattle.fr_world.specs.Fits.{AllFit, Fits};
ghost use Rattle.fr_world.specs.Pages.{own_rows_of};

use crate::import_counts::ImportCounts;
use crate::pages::Pages;
use fr_world::{Edit, Page};
use std::alloc::Global;

/// Pages of a register, and how many imports suppliers keep, as far as they are known.
#[derive(Drop)]
pub(crate) struct Kept {
    pub(crate) pages: Pages,
    pub(crate) counts: ImportCounts,
}

impl Kept {
    /// No page and no count, and the most bytes that pages may take.
    pub(crate) fn new(alloc: Global, most: usize) -> Kept
        ensures { result ≡ record {
          pages = record { lent = None; recent = []; earlier = []; most = most };
          counts = [];
        } }
    {
        Kept {
            pages: Pages::new(alloc, most),
            counts: ImportCounts::new(alloc),
        }
    }

    /// Follows the register's edits. Those of the lent page's rows are made in it, one after another.
    /// Where memory is refused the page is let go; the clauses allow that wherever an edit may change
    /// it. Other pages that the edits may change are let go.
    pub(crate) fn follow(&mut self, alloc: Global, edits: &[Edit])
        requires takes { IfSome self.old.pages.lent (λ page. TakesAll page edits.now) }
        ensures lent { FollowsAll edits.now self.old.pages.lent self.new.pages.lent }
        ensures others { none_lent self.new.pages
            ≡ untouched_by edits.now (none_lent self.old.pages) }
        ensures params { (p : Params) → AreOf p self.old.pages → AreOf p self.new.pages }
        ensures fresh { (c : Cluster) (b : Book) → AllFit c.params b edits.now
            → AreFresh c.params b self.old.pages
            → AreFresh c.params (all_applied b edits.now) self.new.pages }
        ensures counted { (p : Params) (b : Book) → AllFit p b edits.now
            → AreCounted b self.old.counts → AreCounted (all_applied b edits.now) self.new.counts }
    {
        for edit in edits {
            self.follow_one(alloc, edit);
        }
    }

    /// Follows the register's edits, which lead from the page that is lent to this one. Then this
    /// one is lent, and other pages that the edits may change are let go.
    pub(crate) fn follow_to(&mut self, alloc: Global, edits: &[Edit], page: Page)
        requires lent { IsSome self.old.pages.lent }
        requires leads { IfSome self.old.pages.lent (λ before. LeadsTo before edits.now page) }
        ensures lent { self.new.pages.lent ≡ Some page }
        ensures others { none_lent self.new.pages
            ≡ untouched_by edits.now (none_lent self.old.pages) }
        ensures params { (p : Params) → AreOf p self.old.pages → AreOf p self.new.pages }
        ensures fresh { (c : Cluster) (b : Book) → AllFit c.params b edits.now
            → AreFresh c.params b self.old.pages
            → AreFresh c.params (all_applied b edits.now) self.new.pages }
        ensures counted { (p : Params) (b : Book) → AllFit p b edits.now
            → AreCounted b self.old.counts → AreCounted (all_applied b edits.now) self.new.counts }
    {
        // Gives the proof that a page may have the rows.
        let _frames = page.frames();
        self.pages.lend_read(None);
        self.follow(alloc, edits);
        self.pages.lend_read(Some(page));
    }

    // Follows one edit of the register.
    fn follow_one(&mut self, alloc: Global, edit: &Edit)
        requires takes { IfSome self.old.pages.lent
            (λ page. MayTake page.variant (own_rows_of page) edit.now) }
        ensures pages { AreFollowed edit.now self.old.pages self.new.pages }
        ensures counts { (p : Params) (b : Book) → Fits p b edit.now → AreCounted b self.old.counts
            → AreCounted (applied b edit.now) self.new.counts }
    {
        match edit {
            Edit::NewVariant { variant, .. } => self.pages.let_go_of_variant(*variant),
            Edit::NewFlat { variant, .. } => self.pages.let_go_of_variant(*variant),
            Edit::SetReleased { variant } => self.pages.let_go_of_variant(*variant),
            Edit::NewSupplier { .. } => {}
            Edit::SetKey { .. } => {}
            Edit::NewNode { supplier, .. } => self.pages.let_go_of_supplier(*supplier),
            Edit::Rows(rows) => self.pages.amend(alloc, rows.supplier, rows.variant, edit),
            Edit::KeepImport { supplier, .. } => self.counts.add_one(*supplier),
        }
    }
}
