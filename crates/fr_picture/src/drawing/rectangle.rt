//! Rectangles of a drawing.
ghost use Rattle.std.specs.Prelude.{◌≡◌, ◌+◌, ◌<◌, ◌∷◌, ◌++◌, [], ◌↔◌, IsTrue};
ghost use Rattle.fr_picture.specs.Rectangles.{Meets, cells_of, later};

use fr_base::Sending;

/// Cells of one frame in one slot and channel, in cycles that follow one another. They make one
/// rectangle of the drawing.
#[derive(Clone, Copy)]
pub struct Rectangle {
    /// The cell in the least cycle.
    pub first: Sending,
    /// How many cycles there are.
    pub cycles: u32,
}

impl Rectangle {
    /// The rectangle of one cell.
    #[tactic(auto, unfolding(crate::specs::Rectangles::cells_of))]
    pub(crate) fn of(first: Sending) -> Rectangle
        ensures value { result ≡ record { first = first; cycles = 1 } }
        ensures cells { cells_of result ≡ first ∷ [] }
    {
        Rectangle { first, cycles: 1 }
    }

    /// Whether the cell follows the rectangle, in the same slot and channel and of the same frame.
    pub(crate) fn meets(&self, cell: &Sending) -> bool
        ensures value { IsTrue result ↔ Meets self.now cell.now }
        ensures small { IsTrue result → self.now.cycles < 256 }
    {
        let end = u64::from(self.first.cycle) + u64::from(self.cycles);
        let here = Sending {
            cycle: cell.cycle,
            ..self.first
        };
        end == u64::from(cell.cycle) && here == *cell
    }

    /// The rectangle with one more cycle.
    #[tactic(auto, using(crate::proofs::RectangleLemmas::longer_cells))]
    pub(crate) fn longer(self) -> Rectangle
        requires { self.cycles < 256 }
        ensures value { result ≡ record { first = self.first; cycles = self.cycles + 1 } }
        ensures cells { cells_of result ≡ cells_of self ++ later self.first self.cycles ∷ [] }
    {
        Rectangle {
            first: self.first,
            cycles: self.cycles + 1,
        }
    }
}
