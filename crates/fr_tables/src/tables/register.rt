//! The one row that says which schema the tables have.

ghost use Rattle.std.specs.Prelude.{pos};
ghost use Rattle.fr_tables.specs.Changes.{Makes, Runs};
ghost use Rattle.fr_tables.specs.Statements.{with_number, with_register};

use sqlite::{Alter, Error, Transaction, params};

/// Adds the row, to a register that has none. It gets the number 1.
pub fn insert<S: Alter>(tx: &mut Transaction<'_, S>, schema: u32) -> Result<usize, Error>
    ensures { Runs S.Store (Makes (with_register (record { schema = pos schema })))
        tx.old tx.new result }
{
    tx.execute("INSERT INTO register (schema) VALUES (?1)", params![schema])
}

/// Gives the row another number.
pub fn update<S: Alter>(tx: &mut Transaction<'_, S>, schema: u32) -> Result<usize, Error>
    ensures { Runs S.Store (Makes (with_number (pos schema))) tx.old tx.new result }
{
    tx.execute("UPDATE register SET schema = ?1", params![schema])
}
