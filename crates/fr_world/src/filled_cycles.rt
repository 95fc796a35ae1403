//! The cycles in which one slot is filled, as a word for each channel.
ghost use Rattle.std.specs.Prelude.{◌≡◌, ◌||◌, ◌&&◌, ℕ};
ghost use Rattle.std.specs.List.{list_any};
ghost use Rattle.fr_base.specs.Channels.{channels_in, has_channel};
ghost use Rattle.fr_base.specs.Cycles.{has_cycle, is_bit_set};
ghost use Rattle.fr_base.specs.declared.channel.Channel.{Channel as OneChannel};
ghost use Rattle.fr_world.specs.Masks.{word_on};

use fr_base::{Channel, Channels, Placement};

/// The filled cycles of a slot, for each channel as the bits of a word: the bit of weight `2^c` is
/// cycle `c`.
#[derive(Clone, Copy)]
pub(crate) struct FilledCycles {
    a: u64,
    b: u64,
}

/// No cycle is filled.
pub(crate) const NONE_FILLED: FilledCycles = FilledCycles { a: 0, b: 0 };

impl FilledCycles {
    /// The word of the channel.
    pub(crate) fn on(self, channel: Channel) -> u64
        ensures { result ≡ word_on channel self }
    {
        match channel {
            Channel::A => self.a,
            Channel::B => self.b,
        }
    }

    /// The cycles that are filled on one of the channels or more.
    pub(crate) fn on_any(self, channels: Channels) -> u64
        ensures { (k : ℕ) → is_bit_set result k
            ≡ list_any (λ x. is_bit_set (word_on x self) k) (channels_in channels) }
    {
        match channels {
            Channels::A => self.a,
            Channels::AB => self.a | self.b,
            Channels::B => self.b,
        }
    }

    /// Adds the placement's cycles to those that are filled, on each of its channels.
    pub(crate) fn mark(&mut self, placement: &Placement)
        ensures { (x : OneChannel) (k : ℕ)
            → is_bit_set (word_on x self.new) k
            ≡ (is_bit_set (word_on x self.old) k
            || (has_channel placement.now.channels x && has_cycle placement.now.cycles k)) }
    {
        let mask = placement.cycles.mask();
        if placement.channels.has(Channel::A) {
            self.a |= mask;
        }
        if placement.channels.has(Channel::B) {
            self.b |= mask;
        }
    }
}
