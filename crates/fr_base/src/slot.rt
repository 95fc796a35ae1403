//! Static slots.
ghost use Rattle.std.specs.Prelude.{◌≡◌, IsTrue, Some, None, if◌then◌else◌};
ghost use Rattle.fr_base.specs.Numbers.{is_slot};

use std::marker::Model;

/// The number of a static slot, 1 to 1023, which is the frame ID of the frames sent in it. On each
/// channel the slots are numbered from 1 (FlexRay Protocol Specification 2.1 Rev. A, chapter 5, media
/// access control; the range in appendix B).
#[derive(Clone, Copy, PartialEq, Eq, PartialOrd, Ord)]
pub struct Slot {
    number: u32,
}

impl Model for Slot {
    ghost use Rattle.std.specs.Prelude.{ℕ, IsTrue};
    ghost use Rattle.fr_base.specs.Numbers.{is_slot};

    ghost Value = { ℕ };

    ghost view = { λ s. s.number };

    ghost invariant = { λ s. IsTrue (is_slot s.number) };

    ghost inverse = { λ n. record { number = n } };
}

impl Slot {
    /// The slot of this number, if it is one: 1 to 1023.
    pub fn new(number: u32) -> Option<Slot>
        ensures { result ≡ (if is_slot number then Some number else None) }
    {
        if number >= 1 && number <= 1023 {
            Some(Slot { number })
        } else {
            None
        }
    }

    /// The slot's number.
    pub fn get(self) -> u32
        ensures value { result ≡ self }
        ensures is_slot { IsTrue (is_slot self) }
    {
        self.number
    }
}
