//! The trait of a register's records, wherever they are kept: how they are read and changed.
ghost use Rattle.std.specs.Prelude.{◌≡◌, List, [], ◌∷◌, IfOk, IfSome, OnOk, option_map};

use crate::edit::Edit;
use crate::kept_import::KeptImport;
use crate::page::Page;
use fr_base::{Channel, Config, Name, Refusal, Slot, VariantRow};
use std::alloc::Global;

/// The records of a register, wherever they are kept. What is said of them holds as long as they
/// are clean. Once somebody else may have written to them nothing is known, and they are never
/// clean again. The only refusal is `Unavailable`.
pub trait Records {
    ghost use Rattle.fr_base.specs.Book.{Book, file_of, own};
    ghost use Rattle.fr_base.specs.Cluster.{Cluster};
    ghost use Rattle.fr_base.specs.Tables.{contains, get, len};
    ghost use Rattle.fr_base.specs.declared.params.Params.{Params};
    ghost use Rattle.fr_world.specs.Held.{Applies, LeavesEdited, Reads, Tells, held_in, page_of};
    ghost use Rattle.fr_world.specs.BookEdits.{variants_in};
    ghost use Rattle.fr_world.specs.ImportLabels.{kept_of};
    ghost use Rattle.fr_world.specs.Pages.{nodes_in};

    /// The book for which they stand, in a cluster.
    ghost stands: { Self → Cluster → Book → Type 0 };

    /// Nobody else has written to them so far, and what was read of them was what was written.
    ghost clean: { Self → Type 0 };

    /// They can be read and changed, until a fault ends that.
    ghost serves: { Self → Type 0 };

    /// What a crash leaves of them stands for one of these books, in a cluster.
    ghost leaves: { Self → Cluster → List Book → Type 0 };

    /// While they can be read and changed, what a crash leaves of them stands for their book.
    ghost settled: { (records : Self) (c : Cluster) (b : Book) → clean records → serves records → stands records c b → leaves records c (b ∷ []) };

    /// The cluster's parameters, which stay.
    ghost params: { Self → Params };

    /// What a cluster file says of the cluster now: the suppliers are those of the book.
    fn config(&self) -> &Config
        ensures params { result.now.cluster.params ≡ params self.now }
        ensures config { (c : Cluster) (b : Book) → stands self.now c b → result.now ≡ file_of c b };

    /// Whether the variant is there.
    fn has_variant(&mut self, variant: Name) -> Result<bool, Refusal>
        ensures reads { Reads clean params leaves self.old self.new }
        ensures has { clean self.new
            → Tells (stands self.old) (stands self.new) result
            (λ c b has. has ≡ contains b.variants variant) };

    /// The supplier's page of the variant, if the variant is there. A page has the cluster's parameters.
    fn page(
        &mut self,
        alloc: Global,
        supplier: Name,
        variant: Name,
    ) -> Result<Option<Page>, Refusal>
        ensures reads { Reads clean params leaves self.old self.new }
        ensures params { IfOk result
            (λ found. IfSome found (λ page. page.params ≡ params self.old)) }
        ensures page { clean self.new
            → Tells (stands self.old) (stands self.new) result
            (λ c b found. found ≡ page_of c.params b supplier variant) };

    /// Whether anybody holds the slot on the channel in the variant.
    fn is_held(&mut self, variant: Name, slot: Slot, channel: Channel) -> Result<bool, Refusal>
        ensures reads { Reads clean params leaves self.old self.new }
        ensures held { clean self.new
            → Tells (stands self.old) (stands self.new) result
            (λ c b is. is ≡ held_in b variant (slot, channel)) };

    /// The variants, by name.
    fn variants(&mut self, alloc: Global) -> Result<Vec<VariantRow>, Refusal>
        ensures reads { Reads clean params leaves self.old self.new }
        ensures variants { clean self.new
            → Tells (stands self.old) (stands self.new) result
            (λ c b rows. rows.items ≡ variants_in b) };

    /// The supplier's nodes, in byte order.
    fn nodes(&mut self, alloc: Global, supplier: Name) -> Result<Vec<Name>, Refusal>
        ensures reads { Reads clean params leaves self.old self.new }
        ensures nodes { clean self.new
            → Tells (stands self.old) (stands self.new) result
            (λ c b names. names.items ≡ nodes_in b supplier) };

    /// The import that the supplier keeps under the label, if one is kept.
    fn import(
        &mut self,
        alloc: Global,
        supplier: Name,
        label: Name,
    ) -> Result<Option<KeptImport>, Refusal>
        ensures reads { Reads clean params leaves self.old self.new }
        ensures import { clean self.new
            → Tells (stands self.old) (stands self.new) result
            (λ c b found. option_map kept_of found ≡ get b.imports (supplier, label)) };

    /// How many imports of the supplier are kept.
    fn imports(&mut self, alloc: Global, supplier: Name) -> Result<usize, Refusal>
        ensures reads { Reads clean params leaves self.old self.new }
        ensures imports { clean self.new
            → Tells (stands self.old) (stands self.new) result
            (λ c b count. count ≡ len (own supplier b.imports)) };

    /// Carries out the edits, all or none. They fit the records, one after another. Until the call
    /// answers, a crash leaves either all or none.
    fn apply(&mut self, alloc: Global, edits: &[Edit]) -> Result<(), Refusal>
        ensures falls { clean self.new → clean self.old }
        ensures same { params self.new ≡ params self.old }
        ensures open { clean self.new → OnOk result (serves self.new) }
        ensures leaves { clean self.new
            → LeavesEdited (stands self.old) (leaves self.old) (leaves self.new) edits.now }
        ensures applies { clean self.new
            → Applies (stands self.old) (stands self.new) result edits.now };
}
