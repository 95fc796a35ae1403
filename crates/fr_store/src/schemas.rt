//! Whether tables are of this schema, or of the one before.

ghost use Rattle.std.specs.Prelude.{◌≡◌, IsTrue, IfOk, IfSome, OnOk, ◌<◌, None, false, ◌≤◌};
ghost use Rattle.sqlite.specs.State.{HasCleanDisk};
ghost use Rattle.sqlite.specs.Held.{state};
ghost use Rattle.sqlite_trees.specs.View.{doubt};
ghost use Rattle.fr_tables.specs.Making.{IsFresh};
ghost use Rattle.fr_tables.specs.Schema.{IsOurs, IsOld, register_schema, old_schema, layout_made};
ghost use Rattle.fr_tables.specs.SchemaNumbers.{Looks};
ghost use Rattle.fr_store.specs.Opening.{ExpectsNumber};

use crate::fault::StoreFault;
use fr_tables::making;
use fr_tables::schema::{add_stats, move_index, move_table, same_schema};
use fr_tables::schema_number::number;
use sqlite::{Alter, Connection, Error};
use sqlite_schema::schema::Schema;
use std::alloc::Global;

/// Makes the tables, in a database with none.
fn make<S: Alter>(conn: &mut Connection<S>) -> Result<(), Error>
    requires { conn.old.in_transaction ≡ false }
    ensures made { HasCleanDisk (state S.Store conn.new) → IsFresh 0 0 (state S.Store conn.old).now
        → OnOk result ((state S.Store conn.new).now.schema ≡ register_schema layout_made) }
    ensures clean { doubt (state S.Store conn.old).is_clean
        ≤ doubt (state S.Store conn.new).is_clean }
{
    let mut tx = conn.transaction();
    making::every_table(&mut tx)?;
    tx.commit()
}

/// Makes the tables of the schema before, in a database with none.
fn make_before<S: Alter>(conn: &mut Connection<S>) -> Result<(), Error>
    requires { conn.old.in_transaction ≡ false }
    ensures made { HasCleanDisk (state S.Store conn.new) → IsFresh 0 0 (state S.Store conn.old).now
        → OnOk result ((state S.Store conn.new).now.schema ≡ old_schema layout_made.index None) }
    ensures clean { doubt (state S.Store conn.old).is_clean
        ≤ doubt (state S.Store conn.new).is_clean }
{
    let mut tx = conn.transaction();
    making::before(&mut tx)?;
    tx.commit()
}

/// The trees of the objects that were made last: of the table `cluster2`; of the index, if it is
/// there; and of the table of ANALYZE, before `cluster2` or behind it, if it is there.
#[derive(Clone, Copy)]
struct Layout {
    cluster2: u32,
    index: Option<u32>,
    before: Option<u32>,
    behind: Option<u32>,
}

/// The schema that this version makes, with `cluster2`, the index and the table of ANALYZE in the
/// trees of this layout.
fn our_schema(alloc: Global, layout: Layout) -> Result<Schema, Error>
    ensures { IfOk result (λ schema.
        schema ≡ register_schema
        (record {
          cluster2 = layout.cluster2;
          index = layout.index;
          before = layout.before;
          behind = layout.behind;
        })) }
{
    let mut conn = Connection::open_in_memory(alloc)?;
    make(&mut conn)?;
    let mut schema = conn.schema().copy(alloc)?;
    move_index(&mut schema, layout.index)?;
    move_table(
        alloc,
        &mut schema,
        layout.cluster2,
        layout.before,
        layout.behind,
    )?;
    Ok(schema)
}

/// The schema that the version before made, with the index and the table of ANALYZE in these trees,
/// if they are there.
fn schema_before(alloc: Global, index: Option<u32>, stats: Option<u32>) -> Result<Schema, Error>
    ensures { IfOk result (λ schema. schema ≡ old_schema index stats) }
{
    let mut conn = Connection::open_in_memory(alloc)?;
    make_before(&mut conn)?;
    let mut schema = conn.schema().copy(alloc)?;
    move_index(&mut schema, index)?;
    add_stats(alloc, &mut schema, stats)?;
    Ok(schema)
}

const TABLES: usize = 11;

const KEYS: usize = 10;

/// The tree of the table at this place, if there is one.
fn table_at(schema: &Schema, place: usize) -> Option<u32> {
    match schema.tables.as_slice().get(place) {
        Some(table) => Some(table.tree),
        None => None,
    }
}

/// The tree of the index of grants, which stands after the indexes of keys, if it is there.
fn index_of(schema: &Schema) -> Option<u32> {
    match schema.indexes.as_slice().get(KEYS) {
        Some(index) => Some(index.tree),
        None => None,
    }
}

/// Whether the first table behind the eleven tables of the schema before has the name of the table
/// of ANALYZE.
fn has_stats_first(schema: &Schema) -> bool {
    match schema.tables.as_slice().get(TABLES) {
        Some(table) => table.name.as_slice() == b"sqlite_stat1".as_slice(),
        None => false,
    }
}

/// The layout of the schema, if it is the schema of this version.
fn layout_of(schema: &Schema) -> Option<Layout> {
    let index = index_of(schema);
    let first = table_at(schema, TABLES);
    let second = table_at(schema, TABLES + 1);
    if has_stats_first(schema) {
        let behind = table_at(schema, TABLES + 2);
        let cluster2 = second?;
        return Some(Layout {
            cluster2,
            index,
            before: first,
            behind,
        });
    }
    let cluster2 = first?;
    Some(Layout {
        cluster2,
        index,
        before: None,
        behind: second,
    })
}

/// Whether the tree, if there is one, stands behind those of the eleven tables of the schema before,
/// and before the other tree.
fn is_between(place: Option<u32>, other: u32) -> bool
    ensures { IsTrue result → IfSome place (λ tree. (20 < tree) × (tree < other)) }
{
    match place {
        Some(tree) => tree > 20 && tree < other,
        None => true,
    }
}

/// Whether the schema is that of this version, whatever its layout. Want of memory counts as no.
pub(crate) fn is_ours(alloc: Global, schema: &Schema) -> bool
    ensures { IsTrue result → IsOurs schema.now }
{
    let Some(layout) = layout_of(schema) else {
        return false;
    };
    let tree = layout.cluster2;
    if tree <= 20 || tree >= 25 || !is_between(layout.before, tree) {
        return false;
    }
    match our_schema(alloc, layout) {
        Ok(ours) => same_schema(schema, &ours),
        Err(_) => false,
    }
}

/// Whether the schema is that of the version before, wherever the index and the table of ANALYZE
/// stand, if they are there. Want of memory counts as no.
pub(crate) fn is_before(alloc: Global, schema: &Schema) -> bool
    ensures { IsTrue result → IsOld schema.now }
{
    let index = index_of(schema);
    let stats = table_at(schema, TABLES);
    if !is_between(index, 24) || !is_between(stats, 24) {
        return false;
    }
    match schema_before(alloc, index, stats) {
        Ok(before) => same_schema(schema, &before),
        Err(_) => false,
    }
}

/// Makes sure that the tables say this number of their schema, or says why they do not.
pub(crate) fn expect_number<S: Alter>(
    conn: &mut Connection<S>,
    wanted: i64,
) -> Result<(), StoreFault>
    requires { conn.old.in_transaction ≡ false }
    ensures { Looks S.Store (ExpectsNumber wanted) conn.old conn.new result }
{
    match number(conn) {
        Ok(Some(n)) if n == wanted => Ok(()),
        Ok(Some(_)) => Err(StoreFault::WrongSchema),
        Ok(None) => Err(StoreFault::NotARegister),
        Err(_) => Err(StoreFault::Unavailable),
    }
}
