//! Whether two schemas are the same. A schema whose last table or last index is put into another
//! tree.

ghost use Rattle.std.specs.Prelude.{◌≡◌, [], IsTrue, IfOk, OnOk};
ghost use Rattle.fr_tables.specs.Schema.{AddsStats, MovesIndex, MovesTable, loose, stats_table};

use sqlite_items::Items;
use sqlite_schema::code::{Op, Terms};
use sqlite_schema::schema::{Column, Index, Kind, Reference, Schema, Stamps, Table};
use sqlite_value::keys::{Collation, Order};
use sqlite_value::value::{Bytes, Value};
use std::alloc::{AllocError, Global};

fn same_places(a: &[usize], b: &[usize]) -> bool
    ensures { IsTrue result → a.now ≡ b.now }
{
    a == b
}

fn same_bytes(a: &[u8], b: &[u8]) -> bool
    ensures { IsTrue result → a.now ≡ b.now }
{
    a == b
}

fn same_keys(a: &[Items<usize>], b: &[Items<usize>]) -> bool
    ensures { IsTrue result → a.now ≡ b.now }
{
    if a.len() != b.len() {
        return false;
    }
    for at in 0..a.len() {
        if !same_places(a[at].as_slice(), b[at].as_slice()) {
            return false;
        }
    }
    true
}

fn same_orders(a: &[Order], b: &[Order]) -> bool
    ensures { IsTrue result → a.now ≡ b.now }
{
    if a.len() != b.len() {
        return false;
    }
    for at in 0..a.len() {
        if a[at] != b[at] {
            return false;
        }
    }
    true
}

fn same_names(a: &[Bytes], b: &[Bytes]) -> bool
    ensures { IsTrue result → a.now ≡ b.now }
{
    if a.len() != b.len() {
        return false;
    }
    for at in 0..a.len() {
        if !same_bytes(a[at].as_slice(), b[at].as_slice()) {
            return false;
        }
    }
    true
}

/// Whether the columns are the same. Of defaults only NULL is found to be the same.
fn same_column(a: &Column, b: &Column) -> bool
    ensures { IsTrue result → a.now ≡ b.now }
{
    matches!(a.default, Value::Null)
        && matches!(b.default, Value::Null)
        && same_bytes(a.name.as_slice(), b.name.as_slice())
        && a.kind == b.kind
        && a.is_strict == b.is_strict
        && a.not_null == b.not_null
        && a.collation == b.collation
}

fn same_columns(a: &[Column], b: &[Column]) -> bool
    ensures { IsTrue result → a.now ≡ b.now }
{
    if a.len() != b.len() {
        return false;
    }
    for at in 0..a.len() {
        if !same_column(&a[at], &b[at]) {
            return false;
        }
    }
    true
}

fn same_reference(a: &Reference, b: &Reference) -> bool
    ensures { IsTrue result → a.now ≡ b.now }
{
    same_places(a.columns.as_slice(), b.columns.as_slice())
        && same_bytes(a.parent.as_slice(), b.parent.as_slice())
        && same_names(a.parent_columns.as_slice(), b.parent_columns.as_slice())
        && a.on_delete == b.on_delete
        && a.on_update == b.on_update
        && a.is_deferred == b.is_deferred
}

fn same_references(a: &[Reference], b: &[Reference]) -> bool
    ensures { IsTrue result → a.now ≡ b.now }
{
    if a.len() != b.len() {
        return false;
    }
    for at in 0..a.len() {
        if !same_reference(&a[at], &b[at]) {
            return false;
        }
    }
    true
}

/// Whether the operations are the same. Of literals only NULL and integers are found to be the
/// same.
fn same_op(a: &Op, b: &Op) -> bool
    ensures { IsTrue result → a.now ≡ b.now }
{
    match (a, b) {
        (Op::Literal(Value::Int(m)), Op::Literal(Value::Int(n))) => m == n,
        (Op::Literal(Value::Null), Op::Literal(Value::Null)) => true,
        (Op::Column(slot, at), Op::Column(other, place)) => slot == other && at == place,
        (Op::Unary(op, x), Op::Unary(other, y)) => op == other && x == y,
        (Op::Binary(op, w, x), Op::Binary(other, y, z)) => op == other && w == y && x == z,
        _ => false,
    }
}

fn same_ops(a: &[Op], b: &[Op]) -> bool
    ensures { IsTrue result → a.now ≡ b.now }
{
    if a.len() != b.len() {
        return false;
    }
    for at in 0..a.len() {
        if !same_op(&a[at], &b[at]) {
            return false;
        }
    }
    true
}

fn same_terms(a: &Terms, b: &Terms) -> bool
    ensures { IsTrue result → a.now ≡ b.now }
{
    same_places(a.roots.as_slice(), b.roots.as_slice())
        && same_ops(a.nodes.as_slice(), b.nodes.as_slice())
}

fn same_table(a: &Table, b: &Table) -> bool
    ensures { IsTrue result → a.now ≡ b.now }
{
    same_bytes(a.name.as_slice(), b.name.as_slice())
        && a.tree == b.tree
        && same_columns(a.columns.as_slice(), b.columns.as_slice())
        && a.key == b.key
        && same_places(a.primary.as_slice(), b.primary.as_slice())
        && same_keys(a.uniques.as_slice(), b.uniques.as_slice())
        && same_orders(a.orders.as_slice(), b.orders.as_slice())
        && same_terms(&a.checks, &b.checks)
        && same_references(a.references.as_slice(), b.references.as_slice())
        && same_places(a.computed.as_slice(), b.computed.as_slice())
        && same_places(a.stamps.places.as_slice(), b.stamps.places.as_slice())
        && same_terms(&a.stamps.terms, &b.stamps.terms)
        && same_names(a.stamps.formats.as_slice(), b.stamps.formats.as_slice())
        && a.is_counted == b.is_counted
}

fn same_tables(a: &[Table], b: &[Table]) -> bool
    ensures { IsTrue result → a.now ≡ b.now }
{
    if a.len() != b.len() {
        return false;
    }
    for at in 0..a.len() {
        if !same_table(&a[at], &b[at]) {
            return false;
        }
    }
    true
}

fn same_index(a: &Index, b: &Index) -> bool
    ensures { IsTrue result → a.now ≡ b.now }
{
    same_bytes(a.name.as_slice(), b.name.as_slice())
        && a.tree == b.tree
        && a.table == b.table
        && same_places(a.columns.as_slice(), b.columns.as_slice())
        && a.order == b.order
        && a.is_unique == b.is_unique
}

fn same_indexes(a: &[Index], b: &[Index]) -> bool
    ensures { IsTrue result → a.now ≡ b.now }
{
    if a.len() != b.len() {
        return false;
    }
    for at in 0..a.len() {
        if !same_index(&a[at], &b[at]) {
            return false;
        }
    }
    true
}

/// Whether the schemas are the same. A schema with a view, or with a default that is not NULL, is
/// never found to be the same.
pub fn same_schema(a: &Schema, b: &Schema) -> bool
    ensures { IsTrue result → a.now ≡ b.now }
{
    a.views.is_empty()
        && b.views.is_empty()
        && same_indexes(a.indexes.as_slice(), b.indexes.as_slice())
        && same_tables(a.tables.as_slice(), b.tables.as_slice())
}

/// A column that holds values of every kind.
fn loose(alloc: Global, name: &str) -> Result<Column, AllocError>
    ensures { IfOk result (λ column. column ≡ loose name.now) }
{
    Ok(Column {
        name: Bytes::from_slice(alloc, name.as_bytes())?,
        kind: Kind::Any,
        is_strict: false,
        not_null: false,
        default: Value::Null,
        collation: Collation::Binary,
    })
}

fn no_terms(alloc: Global) -> Terms
    ensures { result ≡ [] }
{
    Terms {
        nodes: Items::new(alloc),
        roots: Items::new(alloc),
    }
}

/// The table that ANALYZE makes.
fn stats_table(alloc: Global, tree: u32) -> Result<Table, AllocError>
    ensures { IfOk result (λ table. table ≡ stats_table tree) }
{
    let mut columns = Items::new(alloc);
    columns.push(loose(alloc, "tbl")?)?;
    columns.push(loose(alloc, "idx")?)?;
    columns.push(loose(alloc, "stat")?)?;
    Ok(Table {
        name: Bytes::from_slice(alloc, b"sqlite_stat1")?,
        tree,
        columns,
        key: None,
        primary: Items::new(alloc),
        uniques: Items::new(alloc),
        orders: Items::new(alloc),
        checks: no_terms(alloc),
        references: Items::new(alloc),
        computed: Items::new(alloc),
        stamps: Stamps {
            places: Items::new(alloc),
            terms: no_terms(alloc),
            formats: Items::new(alloc),
        },
        is_counted: false,
    })
}

/// Adds the table that ANALYZE makes, in this tree, where one is given.
pub fn add_stats(alloc: Global, schema: &mut Schema, tree: Option<u32>) -> Result<(), AllocError>
    ensures { OnOk result (AddsStats tree schema.old schema.new) }
{
    if let Some(tree) = tree {
        schema.tables.push(stats_table(alloc, tree)?)?;
    }
    Ok(())
}

/// Puts the last table into another tree. The table that ANALYZE makes stands before it or behind
/// it, where a tree is given for that.
pub fn move_table(
    alloc: Global,
    schema: &mut Schema,
    tree: u32,
    before: Option<u32>,
    behind: Option<u32>,
) -> Result<(), AllocError>
    ensures { OnOk result (MovesTable tree before behind schema.old schema.new) }
{
    if let Some(mut table) = schema.tables.pop() {
        add_stats(alloc, schema, before)?;
        table.tree = tree;
        schema.tables.push(table)?;
        add_stats(alloc, schema, behind)?;
    }
    Ok(())
}

/// Puts the last index into another tree, or takes it out where no tree is given.
pub fn move_index(schema: &mut Schema, tree: Option<u32>) -> Result<(), AllocError>
    ensures { OnOk result (MovesIndex tree schema.old schema.new) }
{
    if let (Some(mut index), Some(tree)) = (schema.indexes.pop(), tree) {
        index.tree = tree;
        schema.indexes.push(index)?;
    }
    Ok(())
}
