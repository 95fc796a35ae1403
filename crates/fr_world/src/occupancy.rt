//! Which cells are filled, and the first taken one.
use fr_base::{Channel, Name, Placement, Refusal};

/// A filled cell of a slot, and the frame that is sent there.
#[derive(Clone, Copy, PartialEq, Eq)]
pub struct TakenCell {
    /// The communication cycle, 0 to 63.
    pub cycle: u8,
    /// The channel, A or B.
    pub channel: Channel,
    /// The frame that is sent there.
    pub frame: Name,
}

/// Which cells a supplier's frames fill: a list of frames and placements. Their cells are those of
/// the cycles 0 to 63, of the static slots 1 to 1023, on both channels. `fill` asks that the
/// placement is free, so in a list that it filled no cell lies in two placements.
pub trait Occupancy {
    ghost use Rattle.std.specs.Prelude.{◌≡◌, ◌++◌, ◌∷◌, [], List, Err, IsTrue, OnOk, OnErr};
    ghost use Rattle.fr_base.specs.declared.name.Name.{Name as NameText};
    ghost use Rattle.fr_base.specs.declared.placement.Placement.{Placement as Cells};
    ghost use Rattle.fr_base.specs.declared.refusal.Refusal.TheVariants.{Unavailable};
    ghost use Rattle.fr_world.specs.Occupancies.{first_taken_cell, is_free, without};

    ghost pairs: { Self → List (NameText × Cells) };

    /// Whether none of the placement's cells is filled. It takes no memory.
    fn free(&self, placement: &Placement) -> bool
        ensures { result ≡ is_free (pairs self.now) placement.now };

    /// The first of the placement's cells that is filled, by cycle and then A before B, with the
    /// frame that is sent there. It takes no memory.
    fn first_taken(&self, placement: &Placement) -> Option<TakenCell>
        ensures { result ≡ first_taken_cell (pairs self.now) placement.now };

    /// Lets the frame fill the placement's cells from now on. `Unavailable` changes nothing.
    fn fill(&mut self, frame: Name, placement: &Placement) -> Result<(), Refusal>
        requires { IsTrue (is_free (pairs self.old) placement.now) }
        ensures ok { OnOk result (pairs self.new ≡ pairs self.old ++ (frame, placement.now) ∷ []) }
        ensures err { OnErr result ((pairs self.new ≡ pairs self.old)
            × (result ≡ Err Unavailable)) };

    /// Clears the placement's cells, if the frame filled them. The others stay in their order. It
    /// takes no memory.
    fn clear(&mut self, frame: Name, placement: &Placement)
        ensures { pairs self.new ≡ without (pairs self.old) frame placement.now };
}
