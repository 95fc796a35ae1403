//! Who asks with which key.
ghost use Rattle.std.specs.Prelude.{◌≡◌, find, IfSome, IsTrue};
ghost use Rattle.std.specs.Option.{option_copied};
ghost use Rattle.fr_base.specs.Actors.{actor_of};
ghost use Rattle.fr_base.specs.Book.{Book, file_of};
ghost use Rattle.fr_base.specs.Cluster.{Cluster};
ghost use Rattle.fr_base.specs.Names.{same_text};
ghost use Rattle.fr_base.specs.Step.{knows};

use crate::config::{Config, Supplier};
use crate::key::Key;
use crate::name::Name;

/// Who asks: the vehicle's integrator, or one of its suppliers.
#[derive(Clone, Copy, PartialEq, Eq)]
pub enum Actor {
    /// The integrator, who opens variants, adds nodes and grants slots.
    Integrator,
    /// A supplier, who places its frames in the slots granted to its nodes.
    Supplier(Name),
}

impl Config {
    /// Who asks with this key, the integrator or one of these suppliers; or nobody has it.
    #[tactic(auto, unfolding(crate::specs::Actors::actor_of))]
    pub fn actor_of(&self, key: &[u8]) -> Option<Actor>
        ensures value { (c : Cluster) (b : Book) → self.now ≡ file_of c b
            → result ≡ actor_of c b key.now }
        ensures known { (c : Cluster) (b : Book) → self.now ≡ file_of c b
            → IfSome result (λ actor. IsTrue (knows b actor)) }
    {
        if is_text_of(&self.integrator(), key) {
            return Some(Actor::Integrator);
        }
        supplier_of(self.suppliers(), key).map(|supplier| Actor::Supplier(supplier.name))
    }
}

// The supplier whose key the bytes are.
fn supplier_of<'a>(suppliers: &'a [Supplier], key: &[u8]) -> Option<&'a Supplier>
    ensures { option_copied result ≡ find (λ s. same_text s.key key.now) suppliers.now }
{
    suppliers
        .iter()
        .find(|supplier| is_text_of(&supplier.key, key))
}

// Whether the bytes are the key's.
fn is_text_of(key: &Key, bytes: &[u8]) -> bool
    ensures { result ≡ same_text key.now bytes.now }
{
    key.as_str().as_bytes() == bytes
}
