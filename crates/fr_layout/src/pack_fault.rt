//! Why values were not packed, or bytes not unpacked.
use fr_base::NoMemory;

/// Why values were not packed into a payload, or not unpacked from it.
#[derive(Clone, Copy, Debug, PartialEq, Eq)]
pub enum PackFault {
    /// There are not as many values as signals.
    WrongCount,
    /// A value has more bits than its signal; the least index of such a value.
    TooLarge { index: usize },
    /// There are not as many bytes as the payload has.
    WrongLength,
    /// Memory was refused.
    NoMemory,
}

/// Want of memory is `NoMemory`.
impl From<NoMemory> for PackFault {
    ghost use Rattle.std.specs.Prelude.{◌≡◌};
    ghost use Rattle.fr_layout.specs.declared.pack_fault.PackFault.TheVariants.{NoMemory};

    ghost from_gives = { λ _ fault. fault ≡ NoMemory };

    fn from(_refused: NoMemory) -> PackFault {
        PackFault::NoMemory
    }
}
