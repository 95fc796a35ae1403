//! What a query asks, and how the names and numbers in it are read.
ghost use Rattle.fr_base.specs.QueryNames.{IsQueryRead};

use crate::field_name::FieldName;
use crate::report::Report;

/// What a query asks, where a name is an `N` and a number an `M`.
#[derive(Clone, Copy, Debug, Drop, PartialEq, Eq)]
pub enum Query<N, M = u32> {
    /// What the register holds beside the rows of its variants.
    Register(Inventory),
    /// A report of a variant.
    Variant { variant: N, report: Report<N, M> },
    /// How `variant` differs from `from`: the rows that are gone, and those that are new.
    Difference { variant: N, from: N },
}

/// What is asked with a form of requests: each name and number in it is that of a field.
pub type Question = Query<FieldName, FieldName>;

/// What a register holds beside the rows of its variants.
#[derive(Clone, Copy, Debug, Drop, PartialEq, Eq)]
pub enum Inventory {
    /// The figures of the cluster, and the suppliers.
    Cluster,
    /// The variants, with what each was opened from.
    Variants,
    /// The nodes of the suppliers.
    Nodes,
}

/// A reader of a query's words, which makes an `A` of each name and a number of each `M`, or says why it makes none.
pub trait QueryReader<N, M, A, E> {
    ghost use Rattle.std.specs.Prelude.{ℕ, Result};

    /// What may come of a name.
    ghost reads: { Self → N → Result A E → Type 0 };

    /// What may come of a number.
    ghost counts: { Self → M → Result ℕ E → Type 0 };

    /// Reads a name.
    fn read_name(&self, name: &N) -> Result<A, E>
        ensures { reads self.now name.now result };

    /// Reads a number.
    fn read_number(&self, number: &M) -> Result<u32, E>
        ensures { counts self.now number.now result };
}

impl<N, M> Query<N, M> {
    /// The same query, with each name and number as the reader reads it, the variant's name first. The
    /// first error ends it.
    #[tactic(auto, unfolding(crate::specs::QueryNames::IsQueryRead))]
    pub fn read<A: Drop, E: Drop, R: QueryReader<N, M, A, E>>(
        &self,
        reader: &R,
    ) -> Result<Query<A>, E>
        ensures { IsQueryRead (R.reads reader.now) (R.counts reader.now) self.now result }
    {
        match self {
            Query::Register(inventory) => Ok(Query::Register(*inventory)),
            Query::Variant { variant, report } => {
                let variant = reader.read_name(variant)?;
                let report = report.read(reader)?;
                Ok(Query::Variant { variant, report })
            }
            Query::Difference { variant, from } => {
                let variant = reader.read_name(variant)?;
                let from = reader.read_name(from)?;
                Ok(Query::Difference { variant, from })
            }
        }
    }
}
