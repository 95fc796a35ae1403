//! Reads a cluster file: a TOML document with the cluster's parameters, the integrator's key, and the suppliers with
//! theirs.
ghost use Rattle.std.specs.Prelude.{◌≡◌, ◌⊎◌, false, Ok, Err, Some, None, IfOk, IfErr, MatchResult, IsTrue, map, string_bytes};
ghost use Rattle.std.specs.List.{list_all, list_any};
ghost use Rattle.std.specs.Str.{bytes_eq};
ghost use Rattle.std.specs.BTreeMap.{keys};
ghost use Rattle.toml.specs.View.{view, table_view};
ghost use Rattle.toml.specs.Data.{get_member};
ghost use Rattle.fr_base.specs.Cluster.{names_rise};
ghost use Rattle.fr_base.specs.Names.{is_name, is_key};
ghost use Rattle.fr_text.specs.ClusterFile.{file_keys, is_file_key, has_only_file_keys, text_at, number_at, number_or, table_at, params_in, suppliers_in, fields_in, check_cluster, document, config_of, config_fault_word};
ghost use Rattle.fr_text.specs.SupplierTexts.{suppliers_of};

use fr_base::{
    Channels, Config, Key, MAX_SUPPLIERS, Name, NoMemory, ParamFault, Params, RawParams, Supplier,
    Suppliers, keys_differ,
};
use std::alloc::{AllocFailed, Global};
use std::fmt::{self, Display, Formatter};
use std::marker::Model;
use toml::{Table, Value};

/// Why bytes are no cluster file. Where several apply, the first of this list is answered, but
/// `NoMemory` may come at any point.
#[derive(Clone, Copy, Debug, PartialEq, Eq)]
pub enum ConfigFault {
    /// The bytes are no TOML document.
    BadToml,
    /// A key other than `cycles` is missing, another key is there, a value is of another kind, a number is
    /// below 0 or above 4,294,967,295, or `channels` is not `A`, `B` or `AB`.
    BadField,
    /// The parameters make no cluster.
    Params(ParamFault),
    /// There are more than 64 suppliers.
    Limit,
    /// A supplier's name is no name.
    BadName,
    /// The integrator's key or a supplier's has not the form of a key.
    BadKey,
    /// Two of the integrator's and the suppliers' keys are equal.
    KeyTwice,
    /// An allocation failed.
    NoMemory,
}

impl ConfigFault {
    /// The fault's word, as the program prints it.
    pub fn word(self) -> &'static str
        ensures { result.now ≡ config_fault_word self }
    {
        match self {
            ConfigFault::BadToml => "BadToml",
            ConfigFault::BadField => "BadField",
            ConfigFault::Params(fault) => fault.word(),
            ConfigFault::Limit => "Limit",
            ConfigFault::BadName => "BadName",
            ConfigFault::BadKey => "BadKey",
            ConfigFault::KeyTwice => "KeyTwice",
            ConfigFault::NoMemory => "NoMemory",
        }
    }
}

impl Display for ConfigFault {
    ghost output = { λ fault. Some (config_fault_word fault) };

    fn fmt<W: fmt::Write>(&self, f: &mut Formatter<W>) -> fmt::Result {
        f.write_str(self.word())
    }
}

impl From<ParamFault> for ConfigFault {
    ghost use Rattle.fr_text.specs.declared.cluster_file.ConfigFault.TheVariants.{Params};

    ghost from_gives = { λ fault result. result ≡ Params fault };

    fn from(fault: ParamFault) -> ConfigFault {
        ConfigFault::Params(fault)
    }
}

impl From<NoMemory> for ConfigFault {
    ghost use Rattle.fr_text.specs.declared.cluster_file.ConfigFault.TheVariants.{NoMemory};

    ghost from_gives = { λ _ result. result ≡ NoMemory };

    fn from(_: NoMemory) -> ConfigFault {
        ConfigFault::NoMemory
    }
}

impl<T: Drop> From<AllocFailed<T>> for ConfigFault {
    ghost use Rattle.fr_text.specs.declared.cluster_file.ConfigFault.TheVariants.{NoMemory};

    ghost from_gives = { λ _ result. result ≡ NoMemory };

    fn from(_: AllocFailed<T>) -> ConfigFault {
        ConfigFault::NoMemory
    }
}

/// A supplier's name and key as they stand in a cluster file.
#[derive(Clone, Copy)]
struct SupplierText<'a> {
    name: &'a str,
    key: &'a str,
}

/// The fields of a cluster file, each of its kind, and the suppliers in byte order of their names.
#[derive(Drop)]
struct Fields<'a> {
    params: RawParams,
    integrator: &'a str,
    suppliers: Vec<SupplierText<'a>>,
}

impl<'a> Model for Fields<'a> {
    ghost use Rattle.std.specs.Prelude.{IsTrue};
    ghost use Rattle.fr_base.specs.Cluster.{ClusterFile, names_rise};
    ghost use Rattle.fr_text.specs.SupplierTexts.{suppliers_of};

    ghost Value = { ClusterFile };

    ghost view = { λ f. record { cluster = record { params = f.params; integrator = f.integrator.now }; suppliers = suppliers_of f.suppliers.items } };

    ghost invariant = { λ f. IsTrue (names_rise (suppliers_of f.suppliers.items)) };
}

/// The table of the TOML document that the bytes are.
#[tactic(auto, unfolding(crate::specs::ClusterFile::document), using(crate::proofs::ClusterFileLemmas::documents))]
fn read_document(alloc: Global, bytes: &[u8]) -> Result<Table, ConfigFault>
    ensures read { IfOk result (λ file. document bytes.now ≡ Some (table_view file)) }
    ensures refused { IfErr result (λ fault. (fault ≡ ConfigFault.NoMemory)
        ⊎ ((fault ≡ ConfigFault.BadToml) × (document bytes.now ≡ None))) }
{
    match toml::table_from_slice(alloc, bytes) {
        Ok(file) => Ok(file),
        Err(error) if error.is_memory() => Err(ConfigFault::NoMemory),
        Err(_) => Err(ConfigFault::BadToml),
    }
}

/// The keys of a cluster file, in the order in which they are read.
pub fn file_keys() -> &'static [&'static str]
    ensures { map (λ key. key.now) result.now ≡ file_keys }
{
    &[
        "channels",
        "static_slots",
        "slot_macroticks",
        "dynamic_macroticks",
        "symbol_macroticks",
        "idle_macroticks",
        "macroticks_per_cycle",
        "payload_words",
        "cycles",
        "integrator",
        "suppliers",
    ]
}

/// Whether the key is one that a cluster file has.
pub fn is_file_key(key: &str) -> bool
    ensures { result ≡ is_file_key key.now }
{
    is_among(key, file_keys())
}

/// Whether the key is one of the list.
fn is_among(key: &str, keys: &[&str]) -> bool
    ensures { result ≡ list_any (λ known. bytes_eq key.now known.now) keys.now }
{
    keys.iter().any(|known| key == *known)
}

/// Whether the file has no keys but those of a cluster file.
fn has_only_file_keys(file: &Table) -> bool
    ensures { result ≡ list_all (λ key. is_file_key (string_bytes key)) (keys file.now) }
{
    file.keys().all(|key| is_file_key(key.as_str()))
}

/// The value at a key.
fn value_at<'a>(file: &'a Table, key: &str) -> Result<&'a Value, ConfigFault>
    ensures { MatchResult result
        (λ value. get_member key.now (table_view file.now) ≡ Some (view value.now))
        (λ fault. (fault ≡ ConfigFault.BadField)
        × (get_member key.now (table_view file.now) ≡ None)) }
{
    file.get(key).ok_or(ConfigFault::BadField)
}

/// The number at a key.
#[tactic(auto, unfolding(crate::proofs::ClusterFileLemmas::number_at_open))]
fn number_at(file: &Table, key: &str) -> Result<u32, ConfigFault>
    ensures { result ≡ number_at key.now (table_view file.now) }
{
    let number = value_at(file, key)?
        .as_integer()
        .ok_or(ConfigFault::BadField)?;
    u32::try_from(number).map_err(|_| ConfigFault::BadField)
}

/// The number at a key, or `other` where the key is absent.
#[tactic(auto, unfolding(crate::specs::ClusterFile::number_or))]
fn number_or(file: &Table, key: &str, other: u32) -> Result<u32, ConfigFault>
    ensures { result ≡ number_or other key.now (table_view file.now) }
{
    match file.get(key) {
        None => Ok(other),
        Some(_) => number_at(file, key),
    }
}

/// The text at a key.
#[tactic(auto, unfolding(crate::proofs::ClusterFileLemmas::text_at_open))]
fn text_at<'a>(file: &'a Table, key: &str) -> Result<&'a str, ConfigFault>
    ensures { MatchResult result
        (λ text. text_at key.now (table_view file.now) ≡ Ok text.now)
        (λ fault. text_at key.now (table_view file.now) ≡ Err fault) }
{
    value_at(file, key)?.as_str().ok_or(ConfigFault::BadField)
}

/// The table at a key.
#[tactic(auto, unfolding(crate::proofs::ClusterFileLemmas::table_at_open))]
fn table_at<'a>(file: &'a Table, key: &str) -> Result<&'a Table, ConfigFault>
    ensures { MatchResult result
        (λ table. table_at key.now (table_view file.now) ≡ Ok (table_view table.now))
        (λ fault. table_at key.now (table_view file.now) ≡ Err fault) }
{
    value_at(file, key)?.as_table().ok_or(ConfigFault::BadField)
}

/// The parameters as they stand in the file, not checked.
#[tactic(auto, unfolding(crate::proofs::ClusterFileLemmas::params_in_open))]
fn params_in(file: &Table) -> Result<RawParams, ConfigFault>
    ensures { result ≡ params_in (table_view file.now) }
{
    let channels = Channels::read(text_at(file, "channels")?).ok_or(ConfigFault::BadField)?;
    Ok(RawParams {
        channels,
        static_slots: number_at(file, "static_slots")?,
        slot_macroticks: number_at(file, "slot_macroticks")?,
        dynamic_macroticks: number_at(file, "dynamic_macroticks")?,
        symbol_macroticks: number_at(file, "symbol_macroticks")?,
        idle_macroticks: number_at(file, "idle_macroticks")?,
        macroticks_per_cycle: number_at(file, "macroticks_per_cycle")?,
        payload_words: number_at(file, "payload_words")?,
        cycles: number_or(file, "cycles", 64)?,
    })
}

/// The suppliers in the table's order.
fn suppliers_in<'a>(alloc: Global, table: &'a Table) -> Result<Vec<SupplierText<'a>>, ConfigFault>
    ensures read { IfOk result (λ texts.
        suppliers_in (table_view table.now) ≡ Ok (suppliers_of texts.items)) }
    ensures rise { IfOk result (λ texts. IsTrue (names_rise (suppliers_of texts.items))) }
    ensures refused { IfErr result (λ fault. (fault ≡ ConfigFault.NoMemory)
        ⊎ (suppliers_in (table_view table.now) ≡ Err fault)) }
{
    let mut texts = Vec::new(alloc);
    for (name, value) in table {
        let name = name.as_str();
        let Some(key) = value.as_str() else {
            return Err(ConfigFault::BadField);
        };
        texts.push(SupplierText { name, key })?;
    }
    Ok(texts)
}

impl<'a> Fields<'a> {
    /// The fields of the file, if all are there, each is of its kind, and no others are there.
    #[tactic(auto, unfolding(crate::proofs::ClusterFileLemmas::fields_in_open), using(crate::proofs::ClusterFileLemmas::table_keys))]
    fn read(alloc: Global, file: &'a Table) -> Result<Fields<'a>, ConfigFault>
        ensures read { IfOk result (λ fields. fields_in (table_view file.now) ≡ Ok fields) }
        ensures refused { IfErr result (λ fault. (fault ≡ ConfigFault.NoMemory)
            ⊎ (fields_in (table_view file.now) ≡ Err fault)) }
    {
        if !has_only_file_keys(file) {
            return Err(ConfigFault::BadField);
        }
        let params = params_in(file)?;
        let integrator = text_at(file, "integrator")?;
        let suppliers = suppliers_in(alloc, table_at(file, "suppliers")?)?;
        Ok(Fields {
            params,
            integrator,
            suppliers,
        })
    }

    /// What the file says, if its parameters, names and keys are in order.
    #[tactic(auto, unfolding(crate::proofs::ClusterFileLemmas::check_cluster_open))]
    fn check(&self, alloc: Global) -> Result<Config, ConfigFault>
        ensures read { IfOk result (λ config. check_cluster self.now ≡ Ok config) }
        ensures refused { IfErr result (λ fault. (fault ≡ ConfigFault.NoMemory)
            ⊎ (check_cluster self.now ≡ Err fault)) }
    {
        let texts = self.suppliers.as_slice();
        let params = Params::check(self.params)?;
        if texts.len() > MAX_SUPPLIERS {
            return Err(ConfigFault::Limit);
        }
        if !are_names(texts) {
            return Err(ConfigFault::BadName);
        }
        let Some(integrator) = Key::read(self.integrator) else {
            return Err(ConfigFault::BadKey);
        };
        let suppliers = read_suppliers(alloc, texts)?;
        if !keys_differ(integrator, suppliers.as_slice()) {
            return Err(ConfigFault::KeyTwice);
        }
        Ok(Config::new(params, integrator, suppliers))
    }
}

/// Whether the text of each supplier's name is a name.
fn are_names(texts: &[SupplierText]) -> bool
    ensures { result ≡ list_all (λ text. is_name text.name.now) texts.now }
{
    texts.iter().all(|text| Name::read(text.name).is_some())
}

/// The suppliers in their order. A text that is not a name, or not a key, is a fault.
fn read_suppliers(alloc: Global, texts: &[SupplierText]) -> Result<Suppliers, ConfigFault>
    ensures read { IfOk result (λ suppliers. (suppliers ≡ suppliers_of texts.now)
        × IsTrue (list_all (λ text. is_key text.key.now) texts.now)) }
    ensures name { result ≡ Err ConfigFault.BadName
        → list_all (λ text. is_name text.name.now) texts.now ≡ false }
    ensures key { result ≡ Err ConfigFault.BadKey
        → list_all (λ text. is_key text.key.now) texts.now ≡ false }
    ensures refused { IfErr result (λ fault. (fault ≡ ConfigFault.NoMemory)
        ⊎ (fault ≡ ConfigFault.BadName) ⊎ (fault ≡ ConfigFault.BadKey)) }
{
    let mut suppliers = Suppliers::new(alloc);
    for text in texts {
        let Some(name) = Name::read(text.name) else {
            return Err(ConfigFault::BadName);
        };
        let Some(key) = Key::read(text.key) else {
            return Err(ConfigFault::BadKey);
        };
        suppliers.push(Supplier { name, key })?;
    }
    Ok(suppliers)
}

/// What the bytes of a cluster file say, or the first fault.
///
/// The file is a TOML document whose table has exactly these keys: `channels`, which is `"A"`, `"B"` or
/// `"AB"`; the numbers of [`RawParams`], each by its field's name; `integrator`, the integrator's key;
/// and `suppliers`, a table from each supplier's name to its key, which may be empty. `cycles` alone may
/// be left out; then it is 64.
#[tactic(auto, unfolding(crate::proofs::ClusterFileLemmas::config_of_open))]
pub fn read_config(alloc: Global, bytes: &[u8]) -> Result<Config, ConfigFault>
    ensures read { IfOk result (λ config. config_of bytes.now ≡ Ok config) }
    ensures refused { IfErr result (λ fault. (fault ≡ ConfigFault.NoMemory)
        ⊎ (config_of bytes.now ≡ Err fault)) }
{
    let file = read_document(alloc, bytes)?;
    let fields = Fields::read(alloc, &file)?;
    fields.check(alloc)
}
