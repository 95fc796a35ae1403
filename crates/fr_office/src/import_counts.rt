//! How many imports suppliers keep. A count that is known need not be read for each import.
ghost use Rattle.std.specs.Prelude.{◌≡◌, ℕ, List, [], not};
ghost use Rattle.fr_base.specs.Book.{Book, own};
ghost use Rattle.fr_base.specs.Tables.{len};
ghost use Rattle.fr_base.specs.declared.name.Name.{Name as NameText};
ghost use Rattle.fr_base.specs.declared.params.Params.{Params};
ghost use Rattle.fr_office.specs.ImportCounts.{AreCounted, count_of, counts_without, is_count_of};
ghost use Rattle.fr_world.specs.BookEdits.{applied};
ghost use Rattle.fr_world.specs.Fits.{Fits};
ghost use Rattle.fr_world.specs.declared.edit.Edit.TheVariants.{KeepImport};

use fr_base::Name;
use std::alloc::Global;
use std::marker::Model;

/// How many imports a supplier keeps.
#[derive(Drop)]
struct ImportCount {
    supplier: Name,
    imports: usize,
}

/// How many imports suppliers keep, as far as it is known.
#[derive(Drop)]
pub(crate) struct ImportCounts {
    counts: Vec<ImportCount>,
}

impl Model for ImportCounts {
    ghost use Rattle.std.specs.Prelude.{List};
    ghost use Rattle.fr_office.specs.declared.import_counts.ImportCount.{ImportCount};

    ghost Value = { List ImportCount };

    ghost view = { λ c. c.counts.items };
}

impl ImportCounts {
    /// Counts of which none is known.
    pub(crate) fn new(alloc: Global) -> ImportCounts
        ensures { result ≡ [] }
    {
        ImportCounts {
            counts: Vec::new(alloc),
        }
    }

    /// How many the supplier keeps, if it is known.
    pub(crate) fn of(&self, supplier: Name) -> Option<usize>
        ensures { result ≡ count_of supplier self.now }
    {
        let count = self.counts.iter().find(|count| count.supplier == supplier)?;
        Some(count.imports)
    }

    /// Notes how many imports the supplier keeps. Where memory is refused the count is not known.
    pub(crate) fn note(&mut self, supplier: Name, imports: usize)
        ensures { (b : Book) → AreCounted b self.old → imports ≡ len (own supplier b.imports)
            → AreCounted b self.new }
    {
        let _ = self.counts.push(ImportCount { supplier, imports });
    }

    /// Counts one more import of the supplier.
    pub(crate) fn add_one(&mut self, supplier: Name)
        ensures { (p : Params) (b : Book) (label variant : NameText) (body : List ℕ) (rows : ℕ)
            → Fits p b (KeepImport supplier label variant body rows) → AreCounted b self.old
            → AreCounted (applied b (KeepImport supplier label variant body rows)) self.new }
    {
        let Some(count) = self.take(supplier) else {
            return;
        };
        if let Some(more) = count.checked_add(1) {
            self.note(supplier, more);
        }
    }

    // Takes the supplier's count out, if it is known.
    fn take(&mut self, supplier: Name) -> Option<usize>
        ensures value { result ≡ count_of supplier self.old }
        ensures others { self.new ≡ counts_without supplier self.old }
    {
        let count = self.of(supplier);
        self.counts.retain(
            |count|
                ensures { result ≡ not (is_count_of supplier count.now) }
            { count.supplier != supplier },
        );
        count
    }
}
