//! Which frames a part of an export takes. The frames come one after another, with their records.
ghost use Rattle.std.specs.Prelude.{◌≡◌};
ghost use Rattle.fr_world.specs.Parts.{after, begun, has_begun, next_part};

use fr_base::MAX_ROWS;

/// Whether a part of an export is still to begin, is being filled, or has ended, as frame after
/// frame is counted. A part takes whole frames, with at most 512 records.
#[derive(Clone, Copy, PartialEq, Eq)]
pub enum Part {
    /// `ahead` parts are still to end before this one begins. The part that is being filled, which
    /// is this one where `ahead` is 0, has room for `room` records more.
    Filling { ahead: u32, room: usize },
    /// The part has ended.
    Ended,
}

impl Part {
    /// The part of this number, before the first frame. The first part is part 0.
    #[tactic(auto, unfolding(crate::specs::Parts::begun))]
    pub fn new(number: u32) -> Part
        ensures { result ≡ begun number }
    {
        Part::Filling {
            ahead: number,
            room: MAX_ROWS as usize,
        }
    }

    /// Whether the part takes the next frame, which has so many records.
    #[tactic(auto, unfolding(crate::specs::Parts::has_begun))]
    pub fn takes(&mut self, count: usize) -> bool
        ensures part { self.new ≡ after self.old count }
        ensures taken { result ≡ has_begun self.new }
    {
        *self = self.after(count);
        matches!(self, Part::Filling { ahead: 0, room: _ })
    }

    // The part after one more frame, which has so many records.
    #[tactic(auto, unfolding(crate::specs::Parts::after))]
    fn after(self, count: usize) -> Part
        ensures { result ≡ after self count }
    {
        match self {
            Part::Filling { ahead, room } if count <= room => Part::Filling {
                ahead,
                room: room - count,
            },
            Part::Filling { ahead, room: _ } => next_part(ahead, count),
            Part::Ended => Part::Ended,
        }
    }
}

// The part after one more frame, which has so many records, and for which the part that was being
// filled had no room.
#[tactic(auto, unfolding(crate::specs::Parts::next_part))]
fn next_part(ahead: u32, count: usize) -> Part
    ensures { result ≡ next_part ahead count }
{
    let most = MAX_ROWS as usize;
    if ahead == 0 || count > most {
        return Part::Ended;
    }
    Part::Filling {
        ahead: ahead - 1,
        room: most - count,
    }
}
