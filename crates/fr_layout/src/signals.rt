//! Lists of signals: look-ups by name, bit and start, and the values of all in a payload.
ghost use Rattle.std.specs.Prelude.{◌≡◌, ◌==◌, ◌<◌, ◌≤◌, ◌*◌, ◌^◌, ℕ, length, All, AllPairs, IsTrue, IfNone, IfSome, map, IfOk, Some, min, nat_le, nat_lt, position, unwrap_or};
ghost use Rattle.std.specs.Option.{option_map_or};
ghost use Rattle.std.specs.Str.{bytes_eq};
ghost use Rattle.fr_base.specs.Bits.{bits_of, image, payload_bit, uses, value_in};
ghost use Rattle.fr_base.specs.Layouts.{AreApart, lies_inside, user_of};
ghost use Rattle.fr_layout.specs.Least.{IsLeast};
ghost use Rattle.fr_layout.specs.Packing.{first_too_large};
ghost use Rattle.fr_layout.specs.Used.{IsTaken};

use crate::bits::{least_shared, uses};
use crate::payload::{read, write};
use fr_base::{Name, NoMemory, Signal};
use std::alloc::Global;

/// The signal that uses the payload bit.
pub(crate) fn user_of(signals: &[Signal], position: usize) -> Option<Signal>
    ensures { result ≡ user_of signals.now position }
{
    signals
        .iter()
        .copied()
        .find(|signal| uses(*signal, position))
}

/// The least payload bit that the signal uses and one of these does too.
pub(crate) fn least_taken(signals: &[Signal], signal: Signal) -> Option<usize>
    ensures { IsLeast (IsTaken signal signals.now) result }
{
    let mut least: Option<usize> = None;
    for other in signals {
        if let Some(bit) = least_shared(signal, *other) {
            least = Some(least.unwrap_or(bit).min(bit));
        }
    }
    least
}

/// The index of the first signal that starts after this bit.
pub(crate) fn first_after(signals: &[Signal], start: u32) -> Option<usize>
    ensures { result ≡ position (λ s. nat_lt start s.start) signals.now }
{
    signals.iter().position(|signal| start < signal.start())
}

/// The index of the signal of this name.
pub(crate) fn index_of(signals: &[Signal], name: Name) -> Option<usize>
    ensures { result ≡ position (λ s. bytes_eq s.name name) signals.now }
{
    signals.iter().position(|signal| signal.name() == name)
}

/// The least index of a value that has more bits than its signal.
pub(crate) fn first_too_large(signals: &[Signal], values: &[u64]) -> Option<usize>
    ensures { result ≡ first_too_large signals.now values.now }
{
    signals
        .iter()
        .zip(values)
        .position(|(signal, value)| is_too_large(*value, signal.length()))
}

/// Whether the value has more bits than that.
fn is_too_large(value: u64, length: u32) -> bool
    requires { length ≤ 64 }
    ensures { result ≡ nat_le (2 ^ length) value }
{
    length < 64 && value >> length > 0
}

/// Puts the values into a payload of zeros of so many words.
fn put_all(bytes: &mut [u8], words: u32, signals: &[Signal], values: &[u64])
    requires zeros { (p : ℕ) → payload_bit bytes.old p ≡ 0 }
    requires size { length bytes.old ≡ 2 * words }
    requires inside { All (λ s. IsTrue (lies_inside words s)) signals.now }
    requires apart { AllPairs AreApart signals.now }
    requires count { length values.now ≡ length signals.now }
    ensures { bytes.new ≡ image words signals.now values.now }
{
    for (index, signal) in signals.iter().enumerate() {
        write(bytes, *signal, values[index]);
    }
}

/// The payload of so many words that the values make.
pub(crate) fn image(
    alloc: Global,
    words: u32,
    signals: &[Signal],
    values: &[u64],
) -> Result<Vec<u8>, NoMemory>
    requires inside { All (λ s. IsTrue (lies_inside words s)) signals.now }
    requires apart { AllPairs AreApart signals.now }
    requires count { length values.now ≡ length signals.now }
    ensures { IfOk result (λ bytes. bytes.items ≡ image words signals.now values.now) }
{
    let mut bytes = vec![in alloc; 0; 2 * words as usize]?;
    put_all(&mut bytes, words, signals, values);
    Ok(bytes)
}

/// The values of the signals in a payload.
pub(crate) fn values_in(
    alloc: Global,
    words: u32,
    signals: &[Signal],
    bytes: &[u8],
) -> Result<Vec<u64>, NoMemory>
    requires size { length bytes.now ≡ 2 * words }
    requires inside { All (λ s. IsTrue (lies_inside words s)) signals.now }
    ensures { IfOk result (λ values. values.items ≡ map (value_in bytes.now) signals.now) }
{
    let mut values = Vec::with_capacity(alloc, signals.len())?;
    for signal in signals {
        values.push(read(bytes, *signal))?;
    }
    Ok(values)
}
