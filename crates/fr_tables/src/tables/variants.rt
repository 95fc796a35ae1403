//! The variants. A variant's parent is NULL where it has none.

ghost use Rattle.std.specs.Prelude.{◌≡◌, pos, option_copied, if◌then◌else◌};
ghost use Rattle.fr_tables.specs.Changes.{Makes, Finds, Asks, Runs};
ghost use Rattle.fr_tables.specs.Statements.{with_variant, with_released, is_variant, shows_variant, variants_cmp, every, any_order};

use fr_base::Name;
use sqlite::{Alter, Connection, Error, Row, Transaction, params};

fn text_of(name: Option<&Name>) -> Option<&str>
    ensures { option_copied result ≡ option_copied name.entry }
{
    name.map(Name::as_str)
}

/// Adds a variant that is open.
pub fn insert<S: Alter>(
    tx: &mut Transaction<'_, S>,
    name: &Name,
    parent: Option<&Name>,
    depth: u32,
    overlay: bool,
) -> Result<usize, Error>
    ensures { Runs S.Store (Makes (with_variant
        (record {
          name = name.now;
          parent = option_copied parent.entry;
          depth = pos depth;
          released = pos 0;
          overlay = if overlay then pos 1 else pos 0;
        }))) tx.old tx.new result }
{
    tx.execute(
        "INSERT INTO variants (name, parent, depth, released, overlay) VALUES (?1, ?2, ?3, 0, ?4)",
        params![name.as_str(), text_of(parent), depth, overlay],
    )
}

/// Releases the variant.
pub fn release<S: Alter>(tx: &mut Transaction<'_, S>, name: &Name) -> Result<usize, Error>
    ensures { Runs S.Store (Makes (with_released name.now)) tx.old tx.new result }
{
    tx.execute(
        "UPDATE variants SET released = 1 WHERE name = ?1",
        params![name.as_str()],
    )
}

/// All variants, by name.
pub fn by_name<S: Alter>(conn: &mut Connection<S>) -> Result<Vec<Row>, Error>
    ensures { Asks S.Store (Finds shows_variant every variants_cmp (λ t. t.variants))
        conn.old conn.new result }
{
    conn.query_all(
        "SELECT name, parent, depth, released, overlay FROM variants ORDER BY name",
        &[],
    )
}

/// All variants, by name, read inside a transaction.
pub fn by_name_inside<S: Alter>(tx: &mut Transaction<'_, S>) -> Result<Vec<Row>, Error>
    ensures { Runs S.Store (Finds shows_variant every variants_cmp (λ t. t.variants))
        tx.old tx.new result }
{
    tx.query_all(
        "SELECT name, parent, depth, released, overlay FROM variants ORDER BY name",
        &[],
    )
}

/// The variant of this name.
pub fn one<S: Alter>(conn: &mut Connection<S>, name: &Name) -> Result<Vec<Row>, Error>
    ensures { Asks S.Store (Finds shows_variant (is_variant name.now) any_order (λ t. t.variants))
        conn.old conn.new result }
{
    conn.query_all(
        "SELECT name, parent, depth, released, overlay FROM variants WHERE name = ?1",
        params![name.as_str()],
    )
}

/// The variant of this name, read inside a transaction.
pub fn one_inside<S: Alter>(tx: &mut Transaction<'_, S>, name: &Name) -> Result<Vec<Row>, Error>
    ensures { Runs S.Store (Finds shows_variant (is_variant name.now) any_order (λ t. t.variants))
        tx.old tx.new result }
{
    tx.query_all(
        "SELECT name, parent, depth, released, overlay FROM variants WHERE name = ?1",
        params![name.as_str()],
    )
}
