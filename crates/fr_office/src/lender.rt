//! Records that lend a supplier's page, so that it need not be read for each request. The page on which a supplier's rows
//! change.
#![tactic(auto, using(fr_world::proofs::ReadLaws::reads_none, fr_world::proofs::ReadLaws::reads_then))]

ghost use Rattle.std.specs.Prelude.{◌≡◌, Option, Some, false, IfOk, IfSome, IsSome, MatchResult, OnOk, is_some};
ghost use Rattle.fr_office.specs.Carried.{OnlyReads};
ghost use Rattle.fr_office.specs.Decided.{Opens};

use fr_base::{Name, Refusal};
use fr_world::{Edit, Page, Records};
use std::alloc::Global;

/// Records that lend one page at a time. The page stays with them, so it is not lost, whatever
/// comes of the request.
pub trait Lender: Records {
    ghost use Rattle.fr_office.specs.Carried.{CarriesEdits, OnlyReads};
    ghost use Rattle.fr_office.specs.Decided.{LeadsTo, TakesAll};
    ghost use Rattle.fr_office.specs.KeptPages.{FollowsAll};
    ghost use Rattle.fr_world.specs.Held.{Tells, page_of};
    ghost use Rattle.fr_world.specs.Pages.{PageData};

    /// The page that is lent, if one is.
    ghost lent: { Self → Option PageData };

    /// Lends the supplier's page of the variant, and says whether the variant is there. The page
    /// that was lent before is lent no more. Where the variant is not there, no page is lent. A
    /// page has the cluster's parameters.
    fn lend(&mut self, alloc: Global, supplier: Name, variant: Name) -> Result<bool, Refusal>
        ensures there { IfOk result (λ there. there ≡ is_some (lent self.new)) }
        ensures params { IfSome (lent self.new) (λ page. page.params ≡ Self.params self.old) }
        ensures lends { OnlyReads Self.Records
            (λ old new r. Tells old new r
            (λ c b _. lent self.new ≡ page_of c.params b supplier variant))
            self.old self.new result };

    /// The page that is lent.
    fn lent(&self) -> &Page
        requires { IsSome (lent self.now) }
        ensures { lent self.now ≡ Some result.now };

    /// Carries out the edits as `apply` does. The page that is lent has to take them, one after another, but for those that
    /// keep an import. Afterwards it is lent with the edits made in it. Where an edit may change it, it may be let go instead,
    /// as where memory is refused. After an error it is lent as it was.
    fn change(&mut self, alloc: Global, edits: &[Edit]) -> Result<(), Refusal>
        requires takes { IfSome (lent self.old) (λ page. TakesAll page edits.now) }
        ensures carries { CarriesEdits Self.Records edits.now self.old self.new result }
        ensures lent { MatchResult result
            (λ _. FollowsAll edits.now (lent self.old) (lent self.new))
            (λ _. lent self.new ≡ lent self.old) };

    /// Carries out the edits as `apply` does. They lead from the page that is lent to `page`. Afterwards `page` is lent, and no
    /// edit has to be made in it. After an error the page before is still lent, as it was.
    fn change_to(&mut self, alloc: Global, edits: &[Edit], page: Page) -> Result<(), Refusal>
        requires lent { IsSome (lent self.old) }
        requires leads { IfSome (lent self.old) (λ before. LeadsTo before edits.now page) }
        ensures carries { CarriesEdits Self.Records edits.now self.old self.new result }
        ensures lent { MatchResult result (λ _. lent self.new ≡ Some page)
            (λ _. lent self.new ≡ lent self.old) };
}

/// Lends the supplier's page of the variant, where the variant is open. Refusals: `NoVariant`,
/// `Released`.
pub(crate) fn open_page<R: Lender>(
    alloc: Global,
    records: &mut R,
    supplier: Name,
    variant: Name,
) -> Result<(), Refusal>
    ensures lent { OnOk result (IsSome (R.lent records.new)) }
    ensures open { OnOk result (IfSome (R.lent records.new) (λ page. page.released ≡ false)) }
    ensures params { IfSome (R.lent records.new) (λ page. page.params ≡ R.params records.old) }
    ensures opens { OnlyReads R.Records (Opens (R.lent records.new) supplier variant)
        records.old records.new result }
{
    if !records.lend(alloc, supplier, variant)? {
        return Err(Refusal::NoVariant);
    }
    if records.lent().released() {
        return Err(Refusal::Released);
    }
    Ok(())
}
