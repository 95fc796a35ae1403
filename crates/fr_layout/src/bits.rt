//! Where the bits of a signal lie in a payload, and which bits two signals share.
ghost use Rattle.std.specs.List.{find, range_with_len};
ghost use Rattle.std.specs.Prelude.{◌≡◌, ◌&&◌, ◌-◌, ◌<◌, ◌≤◌, ◌*◌, ◌^◌, ℕ, IsTrue, slice_index};
ghost use Rattle.fr_base.specs.Bits.{bits_of, uses};
ghost use Rattle.fr_base.specs.Layouts.{lies_inside};
ghost use Rattle.fr_layout.specs.Along.{along, mirror};
ghost use Rattle.fr_layout.specs.Least.{IsLeast};
ghost use Rattle.fr_layout.specs.Used.{IsShared};

use fr_base::{Order, Signal};

/// The bit's position, counted within its byte from the other end. In big order a signal's bits,
/// most significant first, are then consecutive.
fn mirror(position: usize) -> usize
    ensures { result ≡ mirror position }
{
    position / 8 * 8 + (7 - position % 8)
}

/// The bit's position, counted so that the bits of a signal in this order are consecutive.
fn along(order: Order, position: usize) -> usize
    ensures { result ≡ along order position }
{
    match order {
        Order::Little => position,
        Order::Big => mirror(position),
    }
}

/// Where bit `index` of the signal's value lies in the payload; bit 0 is the least significant one.
pub(crate) fn position(signal: Signal, index: u32) -> usize
    requires { index < signal.length }
    ensures { result ≡ slice_index (bits_of signal) index }
{
    let start = signal.start() as usize;
    let index = index as usize;
    match signal.order() {
        Order::Little => start + index,
        Order::Big => mirror(mirror(start) + (signal.length() as usize - 1 - index)),
    }
}

/// Whether the payload bit is one of the signal's.
#[tactic(auto, using(crate::proofs::BitsLemmas::uses_along))]
pub(crate) fn uses(signal: Signal, position: usize) -> bool
    ensures { result ≡ uses signal position }
{
    let first = along(signal.order(), signal.start() as usize);
    let at = along(signal.order(), position);
    first <= at && at < first + signal.length() as usize
}

/// Whether all the signal's bits lie in a payload of so many words of two bytes.
#[tactic(auto, using(crate::proofs::BitsLemmas::lies_inside_along))]
pub(crate) fn lies_inside(words: u32, signal: Signal) -> bool
    ensures { result ≡ lies_inside words signal }
{
    let first = along(signal.order(), signal.start() as usize);
    first + signal.length() as usize <= 16 * words as usize
}

/// The bytes in which the signal lies: the first one, and the one behind the last.
#[tactic(auto, using(crate::proofs::BitsLemmas::uses_along))]
fn bytes(signal: Signal) -> (usize, usize)
    ensures bits { (p : ℕ) → IsTrue (uses signal p) → (8 * result.0 ≤ p) × (p < 8 * result.1) }
    ensures small { (result.0 < 2 ^ 32) × (result.1 < 2 ^ 32) }
{
    let first = along(signal.order(), signal.start() as usize);
    (first / 8, (first + signal.length() as usize + 7) / 8)
}

/// The least payload bit that both signals use.
pub(crate) fn least_shared(signal: Signal, other: Signal) -> Option<usize>
    ensures { IsLeast (IsShared signal other) result }
{
    let (from, to) = bytes(signal);
    let (other_from, other_to) = bytes(other);
    first_shared(
        8 * from.max(other_from),
        8 * to.min(other_to),
        signal,
        other,
    )
}

/// The first bit from here on that both signals use.
fn first_shared(from: usize, to: usize, signal: Signal, other: Signal) -> Option<usize>
    ensures { result ≡ find (λ p. uses signal p && uses other p) (range_with_len from (to - from)) }
{
    (from..to).find(|bit| uses(signal, *bit) && uses(other, *bit))
}
