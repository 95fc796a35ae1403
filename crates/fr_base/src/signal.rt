//! Signals of a frame's payload, and the orders of their bits.
ghost use Rattle.std.specs.Prelude.{◌≡◌, ◌≤◌, Ok, Err, if◌then◌else◌};
ghost use Rattle.fr_base.specs.Signals.{is_signal_length, SignalData};

use crate::name::Name;
use std::marker::Model;

/// In which order a signal's bits lie in the payload, of which bit `p` is bit `p mod 8` of byte
/// `p div 8`, bit 0 being a byte's least significant one.
#[derive(Clone, Copy, PartialEq, Eq)]
pub enum Order {
    /// Intel: from the least significant bit, at the start, upwards.
    Little,
    /// Motorola: from the most significant bit, at the start, downwards within a byte, and from its
    /// least significant bit on to the most significant one of the next byte.
    Big,
}

impl Order {
    ghost use Rattle.std.specs.Prelude.{◌≡◌};
    ghost use Rattle.fr_base.specs.Signals.{order_of_text, text_of_order};

    /// The order that the text writes, `little` or `big`.
    pub fn read(text: &str) -> Option<Order>
        ensures { result ≡ order_of_text text.now }
    {
        Order::from_bytes(text.as_bytes())
    }

    /// The order that the bytes write. The bytes need not be a text.
    #[inline(always)]
    pub fn from_bytes(bytes: &[u8]) -> Option<Order>
        ensures { result ≡ order_of_text bytes.now }
    {
        match bytes {
            b"little" => Some(Order::Little),
            b"big" => Some(Order::Big),
            _ => None,
        }
    }

    /// The order as requests and reports have it.
    pub fn as_str(self) -> &'static str
        ensures { result.now ≡ text_of_order self }
    {
        match self {
            Order::Little => "little",
            Order::Big => "big",
        }
    }
}

/// The length is 0 or above 64 bits, which no signal has.
#[derive(Clone, Copy, Debug, PartialEq, Eq)]
pub struct BadSignal;

/// A named run of 1 to 64 payload bits that holds one unsigned number.
#[derive(Clone, Copy, PartialEq, Eq)]
pub struct Signal {
    name: Name,
    start: u32,
    length: u32,
    order: Order,
}

impl Model for Signal {
    ghost use Rattle.std.specs.Prelude.{IsTrue};
    ghost use Rattle.fr_base.specs.Signals.{is_signal_length, SignalData};

    ghost Value = { SignalData };

    ghost view = { λ s. record { name = s.name; start = s.start; length = s.length; order = s.order } };

    ghost invariant = { λ s. IsTrue (is_signal_length s.length) };

    ghost inverse = { λ s. record { name = s.name; start = s.start; length = s.length; order = s.order } };
}

impl Signal {
    /// The signal of this name, whose first bit lies at payload bit `start`: the least significant bit
    /// in `Little` order, the most significant one in `Big` order. A length of 0 or above 64 bits is
    /// `BadSignal`. Whether the signal lies inside a payload is another question.
    pub fn new(name: Name, start: u32, length: u32, order: Order) -> Result<Signal, BadSignal>
        ensures { result ≡ (if is_signal_length length
            then Ok (record { name = name; start = start; length = length; order = order })
            else Err (record {})) }
    {
        if length >= 1 && length <= 64 {
            Ok(Signal {
                name,
                start,
                length,
                order,
            })
        } else {
            Err(BadSignal)
        }
    }

    /// The signal's name.
    pub fn name(self) -> Name
        ensures { result ≡ self.name }
    {
        self.name
    }

    /// The payload bit at which the signal starts.
    pub fn start(self) -> u32
        ensures { result ≡ self.start }
    {
        self.start
    }

    /// How many bits the signal has, 1 to 64.
    pub fn length(self) -> u32
        ensures value { result ≡ self.length }
        ensures at_least { 1 ≤ result }
        ensures at_most { result ≤ 64 }
    {
        self.length
    }

    /// In which order the bits lie.
    pub fn order(self) -> Order
        ensures { result ≡ self.order }
    {
        self.order
    }
}
