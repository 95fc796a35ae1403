//! What a cluster file says. A supplier more and another key of a supplier make another config.
ghost use Rattle.std.specs.Prelude.{◌≡◌, ◌==◌, [], ◌∷◌, ◌++◌, length, OnOk, OnErr};
ghost use Rattle.std.specs.Prelude.{◌⊎◌, Ok, Err, IfOk, IfErr, map, position, IsTrue};
ghost use Rattle.std.specs.List.{list_any};
ghost use Rattle.fr_base.specs.Cluster.{IsWellFormed, keys_differ, keys_of};
ghost use Rattle.fr_base.specs.Joining.{admits_supplier, is_earlier, joined, with_supplier};
ghost use Rattle.fr_base.specs.KeyChanges.{admits_key, keyed, with_key};
ghost use Rattle.fr_base.specs.Names.{same_text};
ghost use Rattle.fr_base.specs.declared.refusal.Refusal.TheVariants.{Unavailable};

use crate::NoMemory;
use crate::key::Key;
use crate::limits::MAX_SUPPLIERS;
use crate::name::Name;
use crate::params::Params;
use crate::refusal::Refusal;
use std::alloc::Global;
use std::marker::Model;

/// A supplier and its key.
#[derive(Clone, Copy, PartialEq, Eq)]
pub struct Supplier {
    /// The supplier's name.
    pub name: Name,
    /// The key by which the supplier's requests are known.
    pub key: Key,
}

/// A list of suppliers, in any order.
#[derive(Drop)]
pub struct Suppliers {
    list: Vec<Supplier>,
}

impl Model for Suppliers {
    ghost use Rattle.std.specs.Prelude.{List};
    ghost use Rattle.fr_base.specs.declared.config.Supplier.{Supplier};

    ghost Value = { List Supplier };

    ghost view = { λ s. s.list.items };
}

impl Suppliers {
    /// An empty list.
    pub fn new(alloc: Global) -> Suppliers
        ensures { result ≡ [] }
    {
        Suppliers {
            list: Vec::new(alloc),
        }
    }

    /// One more supplier at the end. The list stays as it was where memory runs out.
    pub fn push(&mut self, supplier: Supplier) -> Result<(), NoMemory>
        ensures ok { OnOk result (self.new ≡ self.old ++ supplier ∷ []) }
        ensures err { OnErr result (self.new ≡ self.old) }
    {
        self.list.push(supplier)?;
        Ok(())
    }

    /// One more supplier, before the first whose name is after its own. The list stays as it was where
    /// memory runs out.
    pub fn insert(&mut self, supplier: Supplier) -> Result<(), NoMemory>
        ensures ok { OnOk result (self.new ≡ with_supplier supplier self.old) }
        ensures err { OnErr result (self.new ≡ self.old) }
    {
        let index = first_after(&self.list, supplier.name).unwrap_or(self.list.len());
        self.list.insert(index, supplier)?;
        Ok(())
    }

    /// How many suppliers there are.
    pub fn len(&self) -> usize
        ensures { result ≡ length self.now }
    {
        self.list.len()
    }

    /// Whether there is none.
    pub fn is_empty(&self) -> bool
        ensures { result ≡ (length self.now == 0) }
    {
        self.list.is_empty()
    }

    /// The suppliers in their order.
    pub fn as_slice(&self) -> &[Supplier]
        ensures { result.now ≡ self.now }
    {
        self.list.as_slice()
    }
}

/// What a cluster file says: the cluster's parameters, the integrator's key, and the suppliers with
/// their keys, in byte order of their names. There are at most 64, no name stands twice, and all keys
/// differ, the integrator's too.
#[derive(Drop)]
pub struct Config {
    params: Params,
    integrator: Key,
    suppliers: Suppliers,
}

impl Model for Config {
    ghost use Rattle.fr_base.specs.Cluster.{ClusterFile, IsWellFormed};

    ghost Value = { ClusterFile };

    ghost view = { λ c. record { cluster = record { params = c.params; integrator = c.integrator }; suppliers = c.suppliers } };

    ghost invariant = { λ c. IsWellFormed (record { cluster = record { params = c.params; integrator = c.integrator }; suppliers = c.suppliers }) };
}

impl Config {
    /// A cluster of these parameters, this integrator and these suppliers.
    pub fn new(params: Params, integrator: Key, suppliers: Suppliers) -> Config
        requires { IsWellFormed (record {
          cluster = record { params = params; integrator = integrator };
          suppliers = suppliers;
        }) }
        ensures { result ≡ record {
          cluster = record { params = params; integrator = integrator };
          suppliers = suppliers;
        } }
    {
        Config {
            params,
            integrator,
            suppliers,
        }
    }

    /// The cluster's parameters.
    pub fn params(&self) -> Params
        ensures value { result ≡ self.now.cluster.params }
        ensures formed { IsWellFormed self.now }
    {
        self.params
    }

    /// The integrator's key.
    pub fn integrator(&self) -> Key
        ensures { result ≡ self.now.cluster.integrator }
    {
        self.integrator
    }

    /// The suppliers in byte order of their names: at most 64, no name twice, and no key that another
    /// supplier or the integrator has.
    pub fn suppliers(&self) -> &[Supplier]
        ensures value { result.now ≡ self.now.suppliers }
        ensures formed { IsWellFormed self.now }
    {
        self.suppliers.as_slice()
    }

    /// Whether a supplier has this name.
    pub fn has_supplier(&self, name: Name) -> bool
        ensures { result ≡ list_any (λ s. same_text name s.name) self.now.suppliers }
    {
        self.suppliers()
            .iter()
            .any(|supplier| name == supplier.name)
    }

    /// Whether the supplier may join with this key. If not: `Exists` where a supplier has the name,
    /// `KeyTaken` where the integrator or a supplier has the key, `Limit` where 64 suppliers are there;
    /// the first of these that applies.
    #[tactic(auto, unfolding(crate::proofs::JoiningLemmas::joining_open))]
    pub fn admits(&self, supplier: Name, key: Key) -> Result<(), Refusal>
        ensures { result ≡ admits_supplier self.now supplier key }
    {
        if self.has_supplier(supplier) {
            return Err(Refusal::Exists);
        }
        if self.has_key(key) {
            return Err(Refusal::KeyTaken);
        }
        if self.suppliers().len() >= MAX_SUPPLIERS {
            return Err(Refusal::Limit);
        }
        Ok(())
    }

    // Whether the key is the integrator's or a supplier's.
    #[tactic(auto, using(crate::proofs::JoiningLemmas::any_key))]
    fn has_key(&self, key: Key) -> bool
        ensures { result ≡ list_any (same_text key)
            (keys_of self.now.cluster.integrator self.now.suppliers) }
    {
        key == self.integrator() || is_key_of(self.suppliers(), key)
    }

    /// The config with one more supplier. It is refused as [`Config::admits`] says, or is
    /// `Unavailable` where memory is refused.
    pub fn joined(&self, alloc: Global, supplier: Supplier) -> Result<Config, Refusal>
        ensures ok { IfOk result (λ new.
            (admits_supplier self.now supplier.name supplier.key ≡ Ok tt)
            × (new ≡ joined self.now supplier.name supplier.key)) }
        ensures err { IfErr result (λ e.
            ((admits_supplier self.now supplier.name supplier.key ≡ Ok tt) × (e ≡ Unavailable))
            ⊎ (admits_supplier self.now supplier.name supplier.key ≡ Err e)) }
    {
        self.admits(supplier.name, supplier.key)?;
        let mut suppliers = copy_suppliers(alloc, self.suppliers())?;
        suppliers.insert(supplier)?;
        // The contracts of these readers say that they are a name and a key, which `Config::new` asks.
        let (_name, _key) = (supplier.name.as_str(), supplier.key.as_str());
        Ok(Config::new(self.params(), self.integrator(), suppliers))
    }

    /// Whether the supplier may have this key. If not: `NoSupplier` where no supplier has the name,
    /// `KeyTaken` where the key is the integrator's or a supplier's, also where it is this
    /// supplier's own. The first of these that applies is answered.
    #[tactic(auto, unfolding(crate::proofs::JoiningLemmas::joining_open))]
    pub fn admits_key(&self, supplier: Name, key: Key) -> Result<(), Refusal>
        ensures { result ≡ admits_key self.now supplier key }
    {
        if !self.has_supplier(supplier) {
            return Err(Refusal::NoSupplier);
        }
        if self.has_key(key) {
            return Err(Refusal::KeyTaken);
        }
        Ok(())
    }

    /// The config with another key of the supplier. It is refused as [`Config::admits_key`] says,
    /// or is `Unavailable` where memory is refused.
    pub fn with_key(&self, alloc: Global, supplier: Name, key: Key) -> Result<Config, Refusal>
        ensures ok { IfOk result (λ new. (admits_key self.now supplier key ≡ Ok tt)
            × (new ≡ with_key self.now supplier key)) }
        ensures err { IfErr result (λ e.
            ((admits_key self.now supplier key ≡ Ok tt) × (e ≡ Unavailable))
            ⊎ (admits_key self.now supplier key ≡ Err e)) }
    {
        self.admits_key(supplier, key)?;
        let suppliers = copy_with_key(alloc, self.suppliers(), supplier, key)?;
        // The contract of this reader says that it is a key, which `Config::new` asks.
        let _key = key.as_str();
        Ok(Config::new(self.params(), self.integrator(), suppliers))
    }
}

// A copy of the list, in which the supplier of this name has this key.
fn copy_with_key(
    alloc: Global,
    list: &[Supplier],
    name: Name,
    key: Key,
) -> Result<Suppliers, NoMemory>
    ensures { IfOk result (λ copy. copy ≡ map (keyed name key) list.now) }
{
    let mut suppliers = Suppliers::new(alloc);
    for supplier in list {
        suppliers.push(change_key(*supplier, name, key))?;
    }
    Ok(suppliers)
}

// Gives the supplier of this name this key. Any other supplier stays as it is.
fn change_key(supplier: Supplier, name: Name, key: Key) -> Supplier
    ensures { result ≡ keyed name key supplier }
{
    if name == supplier.name {
        Supplier { name, key }
    } else {
        supplier
    }
}

// A copy of the list.
fn copy_suppliers(alloc: Global, list: &[Supplier]) -> Result<Suppliers, NoMemory>
    ensures { IfOk result (λ copy. copy ≡ list.now) }
{
    let mut suppliers = Suppliers::new(alloc);
    for supplier in list {
        suppliers.push(*supplier)?;
    }
    Ok(suppliers)
}

// The index of the first supplier whose name is after this one.
fn first_after(suppliers: &[Supplier], name: Name) -> Option<usize>
    ensures { result ≡ position (λ s. is_earlier name s.name) suppliers.now }
{
    suppliers.iter().position(|supplier| name < supplier.name)
}

// Whether the key is one of the suppliers'.
fn is_key_of(suppliers: &[Supplier], key: Key) -> bool
    ensures { result ≡ list_any (λ s. same_text key s.key) suppliers.now }
{
    suppliers.iter().any(|supplier| key == supplier.key)
}

/// Whether no two of the key and the suppliers' keys are equal.
pub fn keys_differ(key: Key, suppliers: &[Supplier]) -> bool
    ensures { result ≡ keys_differ (keys_of key suppliers.now) }
{
    match suppliers {
        [] => true,
        [next, rest @ ..] => !is_key_of(suppliers, key) && keys_differ(next.key, rest),
    }
}
