//! What is gathered for a query from the pages of suppliers, one page after another.
#![tactic(auto, using(fr_world::proofs::ReadLaws::reads_none, fr_world::proofs::ReadLaws::reads_then))]

ghost use Rattle.std.specs.Prelude.{[]};
ghost use Rattle.fr_base.specs.Book.{Variant};
ghost use Rattle.fr_base.specs.declared.params.Params.{Params};
ghost use Rattle.fr_office.specs.Carried.{OnlyReads};
ghost use Rattle.fr_office.specs.Shown.{Gathers};

use crate::lender::Lender;
use crate::queries::find_page;
use fr_base::{Name, NoMemory, Refusal};
use fr_world::Page;
use std::alloc::Global;

/// Something that is gathered from suppliers' pages of a variant.
pub(crate) trait Gathered {
    ghost use Rattle.std.specs.Prelude.{List, OnOk};
    ghost use Rattle.fr_base.specs.Book.{Variant as OfVariant};
    ghost use Rattle.fr_base.specs.declared.name.Name.{Name as NameText};
    ghost use Rattle.fr_base.specs.declared.params.Params.{Params as Given};
    ghost use Rattle.fr_office.specs.Gathered.{Takes};

    /// What it is once it was gathered from these suppliers' rows of the variant, by the cluster's parameters and by what it
    /// was before the first.
    ghost gathered: { Given → Self → List NameText → OfVariant → Self → Type 0 };

    /// Takes what it is to have of the page. Where memory is refused, it may have taken a part of that.
    fn take(&mut self, alloc: Global, page: &Page) -> Result<(), NoMemory>
        ensures { OnOk result (Takes gathered page.now self.old self.new) };
}

/// What is gathered from these suppliers' pages of the variant, supplier after supplier. Each page is lent once.
/// Refusals: `NoVariant`.
pub(crate) fn gather<G: Gathered + Drop, R: Lender>(
    alloc: Global,
    records: &mut R,
    suppliers: &[Name],
    variant: Name,
    mut gathered: G,
) -> Result<G, Refusal>
    requires { (p : Params) (x : Variant) → G.gathered p gathered [] x gathered }
    ensures { OnlyReads R.Records
        (Gathers variant (λ p x all. G.gathered p gathered suppliers.now x all))
        records.old records.new result }
{
    for supplier in suppliers {
        find_page(alloc, records, *supplier, variant)?;
        gathered.take(alloc, records.lent())?;
    }
    Ok(gathered)
}

// Of each page both are taken.
impl<A: Gathered, B: Gathered> Gathered for (A, B) {
    ghost gathered = { λ p first ss x all. A.gathered p first.0 ss x all.0 × B.gathered p first.1 ss x all.1 };

    fn take(&mut self, alloc: Global, page: &Page) -> Result<(), NoMemory> {
        self.0.take(alloc, page)?;
        self.1.take(alloc, page)
    }
}
