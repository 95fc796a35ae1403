//! Who answers the requests of a register.
ghost use Rattle.std.specs.Prelude.{[], ◌∷◌, ◌≡◌};

use crate::actor::Actor;
use crate::answer::Answer;
use crate::config::Config;
use crate::request::Ask;
use std::alloc::Global;

/// A register that knows who asks, and answers requests. What is said of its rows holds as long as it
/// is clean: once somebody else may have written to them, or what was read may not be what was written, nothing is known,
/// and it is never clean again.
pub trait Desk {
    ghost use Rattle.fr_base.specs.Actors.{actor_of};
    ghost use Rattle.fr_base.specs.Book.{Book, file_of};
    ghost use Rattle.fr_base.specs.Cluster.{Cluster};
    ghost use Rattle.fr_base.specs.Run.{IsRun};
    ghost use Rattle.fr_base.specs.Sound.{IsSound};

    /// Its rows stand for the book, under the cluster file.
    ghost stands: { Self → Cluster → Book → Type 0 };

    /// Nobody else has written to the rows so far, and what was read of them was what was written.
    ghost clean: { Self → Type 0 };

    /// Who asks with this key in a sound register: the integrator, a supplier, or nobody.
    fn actor_of(&self, key: &str) -> Option<Actor>
        ensures { (c : Cluster) (b : Book) → stands self.now c b → IsSound c b
            → result ≡ actor_of c b key.now };

    /// What a cluster file says of the register's cluster now: the suppliers are those that are there.
    fn config(&self) -> &Config
        ensures { (c : Cluster) (b : Book) → stands self.now c b → result.now ≡ file_of c b };

    /// Answers a request. In a sound register the answer is that of one step. Or the answer is
    /// `Unavailable`, and the rows stay: that comes only where the sender is known and the request
    /// itself gives no cause for a refusal.
    fn ask(&mut self, alloc: Global, ask: &Ask) -> Answer
        ensures falls { clean self.new → clean self.old }
        ensures answered { clean self.new → (c : Cluster) (b : Book) → stands self.old c b
            → IsSound c b
            → (last : Book) × stands self.new c last × IsRun c b (ask.now ∷ []) (result ∷ []) last };
}
