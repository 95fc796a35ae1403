//! Files that suppliers deliver.
ghost use Rattle.fr_base.specs.QueryNames.{IsPurposeRead};

use crate::body::BodyRef;
use crate::name::Name;
use crate::query::QueryReader;

/// A supplier's file of rows or wishes, with checked names; what the file says is not yet read.
#[derive(Drop)]
pub struct Delivery<'a> {
    pub supplier: Name,
    pub variant: Name,
    pub how: Purpose<Name>,
    pub body: BodyRef<'a>,
}

/// What a file is delivered for, where a label is an `N`.
#[derive(Clone, Copy, Debug, Drop, PartialEq, Eq)]
pub enum Purpose<N> {
    /// An import: the rows act, all of them or none, and the file is kept. The label is the supplier's
    /// own name for the import.
    Import { label: N },
    /// A replacement: the rows act, all of them or none. They stand in place of what the frames that the
    /// file names have. Where it is `whole`, they stand in place of what all the supplier's frames have.
    Replacement { whole: bool },
    /// A trial: it is told what would become of each row, and nothing is changed.
    Trial { manner: Manner },
    /// A proposal: for each wish of the file a placement is told, or that there is none, and nothing is
    /// changed. Where it is to `replace`, the placements of the frames that the file names count as free.
    Proposal { replace: bool },
}

impl<N> Purpose<N> {
    /// The same purpose, with the label of an import as the reader reads it.
    #[tactic(auto, unfolding(crate::specs::QueryNames::IsPurposeRead))]
    pub fn read<M, A: Drop, E: Drop, R: QueryReader<N, M, A, E>>(
        &self,
        reader: &R,
    ) -> Result<Purpose<A>, E>
        ensures { IsPurposeRead (R.reads reader.now) self.now result }
    {
        match self {
            Purpose::Import { label } => {
                let label = reader.read_name(label)?;
                Ok(Purpose::Import { label })
            }
            Purpose::Replacement { whole } => Ok(Purpose::Replacement { whole: *whole }),
            Purpose::Trial { manner } => Ok(Purpose::Trial { manner: *manner }),
            Purpose::Proposal { replace } => Ok(Purpose::Proposal { replace: *replace }),
        }
    }
}

/// How the rows of a file act.
#[derive(Clone, Copy, Debug, PartialEq, Eq)]
pub enum Manner {
    /// As those of an import: what they bring is new.
    Import,
    /// As those of a replacement: they stand in place of what the frames that the file names have, or,
    /// where it is `whole`, of what all the supplier's frames have.
    Replace { whole: bool },
}
