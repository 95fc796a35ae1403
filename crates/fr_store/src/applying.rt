//! The edits of the register's rows, carried out in the tables.

ghost use Rattle.fr_store.specs.Applying.{IsDone};

pub mod edits;
pub mod flat;
pub mod frames;
pub mod joining;
pub mod origin;
pub mod owning;
pub mod shown;

use crate::fault::StoreFault;
use sqlite::Error;

/// Whether a statement ran. How many rows it changed does not matter.
fn done(ran: Result<usize, Error>) -> Result<(), StoreFault>
    ensures { IsDone ran result }
{
    ran?;
    Ok(())
}
