//! One signal's value, read and written in the bytes of a payload.
ghost use Rattle.std.specs.Prelude.{◌≡◌, ◌==◌, ◌<◌, ◌*◌, ℕ, length, All, IsTrue, if◌then◌else◌};
ghost use Rattle.std.specs.Option.{option_map_or};
ghost use Rattle.std.specs.Int.{bit_at};
ghost use Rattle.fr_base.specs.Signals.{is_signal_length};
ghost use Rattle.fr_base.specs.Bits.{bits_of, entry_of, payload_bit, value_in};

use crate::bits::position;
use fr_base::Signal;

/// Whether payload bit `position` is 1.
fn has_bit(bytes: &[u8], position: usize) -> bool
    requires { position < 8 * length bytes.now }
    ensures { result ≡ (payload_bit bytes.now position == 1) }
{
    (bytes[position / 8] >> (position % 8)) & 1 == 1
}

/// Makes payload bit `position` this bit, and changes no other.
fn put_bit(bytes: &mut [u8], position: usize, bit: bool)
    requires { position < 8 * length bytes.old }
    ensures { (p : ℕ) → payload_bit bytes.new p
        ≡ (if position == p then (if bit then 1 else 0) else payload_bit bytes.old p) }
{
    let mask = 1u8 << (position % 8);
    if bit {
        bytes[position / 8] |= mask;
    } else {
        bytes[position / 8] &= !mask;
    }
}

/// The signal's value in the payload.
pub(crate) fn read(bytes: &[u8], signal: Signal) -> u64
    requires { All (λ p. p < 8 * length bytes.now) (bits_of signal) }
    ensures { result ≡ value_in bytes.now signal }
{
    let mut value = 0;
    for index in (0..signal.length()).rev() {
        let bit = has_bit(bytes, position(signal, index));
        value = value * 2 + u64::from(bit);
    }
    value
}

/// Puts the value's bits where the signal has its own, and changes no other bit.
pub(crate) fn write(bytes: &mut [u8], signal: Signal, value: u64)
    requires { All (λ p. p < 8 * length bytes.old) (bits_of signal) }
    ensures bits { (p : ℕ) → payload_bit bytes.new p
        ≡ option_map_or (bit_at value) (entry_of (bits_of signal) p) (payload_bit bytes.old p) }
    ensures length { IsTrue (is_signal_length signal.length) }
{
    for index in 0..signal.length() {
        put_bit(bytes, position(signal, index), (value >> index) & 1 == 1);
    }
}
