//! The number of the schema of tables of which nothing is known yet. They are asked, and stay as they are.

ghost use Rattle.std.specs.Prelude.{◌≡◌, ℤ, IfSome, [], ◌∷◌, false, Some};
ghost use Rattle.fr_tables.specs.Statements.{shows_register};
ghost use Rattle.fr_tables.specs.SchemaNumbers.{AnswersText, FindsNumber, Looks, numbered};

use sqlite::{Alter, Connection, Error, Row};
use sqlite_value::value::ValueRef;

/// Asks in a transaction that it undoes. So the tables stay, whatever the text means there.
pub fn ask_and_undo<S: Alter>(conn: &mut Connection<S>, sql: &str) -> Result<Vec<Row>, Error>
    requires { conn.old.in_transaction ≡ false }
    ensures { Looks S.Store (AnswersText sql.now) conn.old conn.new result }
{
    // Gives the proof that all changes so far are committed.
    let _committed = conn.is_autocommit();
    let mut tx = conn.transaction();
    tx.query_all(sql, &[])
}

fn number_of(rows: &[Row]) -> Option<i64>
    ensures some { IfSome result (λ n. rows.now ≡ shows_register (numbered n) ∷ []) }
    ensures none { (n : ℤ) → rows.now ≡ shows_register (numbered n) ∷ [] → result ≡ Some n }
{
    if rows.len() != 1 || rows[0].column_count() != 1 {
        return None;
    }
    match rows[0].get_ref(0) {
        Ok(ValueRef::Int(n)) => Some(n),
        _ => None,
    }
}

/// The number of the schema, if the tables say one number and no other.
pub fn number<S: Alter>(conn: &mut Connection<S>) -> Result<Option<i64>, Error>
    requires { conn.old.in_transaction ≡ false }
    ensures { Looks S.Store FindsNumber conn.old conn.new result }
{
    match ask_and_undo(conn, "SELECT schema FROM register") {
        Ok(rows) => Ok(number_of(rows.as_slice())),
        Err(Error::SqlInputError(_)) => Ok(None),
        Err(error) => Err(error),
    }
}
