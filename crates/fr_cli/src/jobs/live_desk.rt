//! Desks that may come to an end while they are asked.

use fr_base::Desk;
use std::alloc::Global;

/// A desk of a register that may come to an end: a fault may shut it, or others may take its files away.
pub trait LiveDesk: Desk {
    ghost use Rattle.fr_base.specs.Book.{Book};
    ghost use Rattle.fr_base.specs.Cluster.{Cluster};

    /// Whether the register can still be asked. Its rows stay. When it comes to an end, no clause says.
    fn lasts(&mut self, alloc: Global) -> bool
        ensures falls { Self.clean self.new → Self.clean self.old }
        ensures stays { Self.clean self.new → (c : Cluster) (b : Book) → Self.stands self.old c b
            → Self.stands self.new c b };
}
