//! The cluster that the rows of a register tell.

ghost use Rattle.std.specs.Prelude.{◌≡◌, [], ◌∷◌, map, IfOk, IfSome, IsTrue, Ok};
ghost use Rattle.sqlite.specs.Order.{column};
ghost use Rattle.sqlite.specs.declared.types.Value.TheVariants.{Text};
ghost use Rattle.fr_base.specs.Names.{is_name, is_key};
ghost use Rattle.fr_base.specs.Parameters.{check_params};
ghost use Rattle.fr_base.specs.Cluster.{IsWellFormed, names_rise, is_cluster};
ghost use Rattle.fr_tables.specs.Statements.{cluster_row, cluster2_row, shows_cluster, shows_cluster2, shows_supplier};
ghost use Rattle.fr_tables.specs.Filling.{supplier_row};
ghost use Rattle.fr_tables.specs.ClusterRows.{AreFormed, TellsParams, shown_supplier};

use crate::values::{channels_at, name_at, number_at, text_at};
use fr_base::{
    Config, Key, MAX_SUPPLIERS, NoMemory, Params, RawParams, Supplier, Suppliers, keys_differ,
};
use sqlite::Row;
use std::alloc::Global;

/// A copy of a config.
pub fn copy_config(alloc: Global, config: &Config) -> Result<Config, NoMemory>
    ensures { IfOk result (λ copy. copy ≡ config.now) }
{
    let mut suppliers = Suppliers::new(alloc);
    let list = config.suppliers();
    for supplier in list {
        suppliers.push(*supplier)?;
    }
    Ok(Config::new(config.params(), config.integrator(), suppliers))
}

fn key(row: &Row, at: usize) -> Option<Key>
    ensures value { IfSome result (λ key. column row.now at ≡ Text key) }
    ensures formed { IfSome result (λ key. IsTrue (is_key key)) }
{
    Key::read(text_at(row, at)?)
}

// The parameters that the row's first columns say, with this count of cycles.
fn raw_params(row: &Row, cycles: u32) -> Option<RawParams>
    ensures told { IfSome result (λ raw. TellsParams row.now raw) }
    ensures cycles { IfSome result (λ raw. raw.cycles ≡ cycles) }
{
    Some(RawParams {
        static_slots: number_at(row, 0)?,
        slot_macroticks: number_at(row, 1)?,
        dynamic_macroticks: number_at(row, 2)?,
        symbol_macroticks: number_at(row, 3)?,
        idle_macroticks: number_at(row, 4)?,
        macroticks_per_cycle: number_at(row, 5)?,
        payload_words: number_at(row, 6)?,
        channels: channels_at(row, 7)?,
        cycles,
    })
}

/// The parameters and the integrator's key, if the row has their form.
fn params_of(row: &Row) -> Option<(Params, Key)>
    ensures row { IfSome result (λ read. row.now ≡ shows_cluster2 (cluster2_row read.0 read.1)) }
    ensures formed { IfSome result (λ read. IsTrue (is_key read.1)) }
    ensures checked { IfSome result (λ read. check_params read.0 ≡ Ok read.0) }
{
    if row.column_count() != 10 {
        return None;
    }
    let raw = raw_params(row, number_at(row, 9)?)?;
    let params = Params::check(raw).ok()?;
    Some((params, key(row, 8)?))
}

// How many cycles a cluster has in a register of the schema before.
const CYCLES_BEFORE: u32 = 64;

// The parameters and the integrator's key, if the row has the form of the schema before. Such a row
// does not say the count of cycles.
fn params_before(row: &Row) -> Option<(Params, Key)>
    ensures row { IfSome result (λ read. row.now ≡ shows_cluster (cluster_row read.0 read.1)) }
    ensures cycles { IfSome result (λ read. read.0.cycles ≡ 64) }
{
    if row.column_count() != 9 {
        return None;
    }
    let raw = raw_params(row, CYCLES_BEFORE)?;
    let params = Params::check(raw).ok()?;
    Some((params, key(row, 8)?))
}

/// The parameters and the integrator's key that these rows of the schema before tell, with 64
/// cycles. None, if they tell none.
pub fn read_before(cluster: &[Row]) -> Option<(Params, Key)>
    ensures cluster { IfSome result
        (λ read. cluster.now ≡ shows_cluster (cluster_row read.0 read.1) ∷ []) }
    ensures cycles { IfSome result (λ read. read.0.cycles ≡ 64) }
{
    let [row] = cluster else {
        return None;
    };
    params_before(row)
}

/// The supplier, if the row has its form.
fn supplier_of(row: &Row) -> Option<Supplier>
    ensures row { IfSome result (λ s. row.now ≡ shown_supplier s) }
    ensures formed { IfSome result (λ s. IsTrue (is_name s.name) × IsTrue (is_key s.key)) }
{
    if row.column_count() != 2 {
        return None;
    }
    Some(Supplier {
        name: name_at(row, 0)?,
        key: key(row, 1)?,
    })
}

/// The suppliers, if each row has its form.
fn suppliers_of(alloc: Global, rows: &[Row]) -> Option<Suppliers>
    ensures rows { IfSome result (λ list. rows.now ≡ map shown_supplier list) }
    ensures formed { IfSome result (λ list. AreFormed list) }
{
    let mut suppliers = Suppliers::new(alloc);
    for row in rows {
        suppliers.push(supplier_of(row)?).ok()?;
    }
    Some(suppliers)
}

fn names_rise(suppliers: &[Supplier]) -> bool
    ensures { result ≡ names_rise suppliers.now }
{
    match suppliers {
        [first, rest @ ..] => {
            let is_before = match rest {
                [next, ..] => first.name < next.name,
                [] => true,
            };
            is_before && names_rise(rest)
        }
        [] => true,
    }
}

#[tactic(auto, unfolding(crate::proofs::ConfigLemmas::is_cluster_open))]
fn is_cluster(integrator: Key, suppliers: &[Supplier]) -> bool
    ensures { result ≡ is_cluster integrator suppliers.now }
{
    if suppliers.len() > MAX_SUPPLIERS || !names_rise(suppliers) {
        return false;
    }
    keys_differ(integrator, suppliers)
}

/// The config that these rows tell. None, if they tell none, or for want of memory.
pub fn read(alloc: Global, cluster: &[Row], suppliers: &[Row]) -> Option<Config>
    ensures cluster { IfSome result
        (λ c. cluster.now ≡ shows_cluster2 (cluster2_row c.cluster.params c.cluster.integrator)
        ∷ []) }
    ensures suppliers { IfSome result (λ c. suppliers.now ≡ map shown_supplier c.suppliers) }
    ensures formed { IfSome result IsWellFormed }
{
    let [row] = cluster else {
        return None;
    };
    let (params, integrator) = params_of(row)?;
    let suppliers = suppliers_of(alloc, suppliers)?;
    if !is_cluster(integrator, suppliers.as_slice()) {
        return None;
    }
    Some(Config::new(params, integrator, suppliers))
}
