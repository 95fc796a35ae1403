//! The layout of a frame's payload: its signals, added and removed, and their values packed and unpacked.
ghost use Rattle.std.specs.Prelude.{◌≡◌, ◌≤◌, [], Ok, Err, None, IsTrue, IfErr, IfOk, IsOk, MatchResult, OnErr, OnOk};
ghost use Rattle.fr_base.specs.Layouts.{add_signal, bit_taken, first_taken_bit, has_signal, IsLayout, lies_inside, remove_signal};
ghost use Rattle.fr_base.specs.declared.refusal.Refusal.TheVariants.{Unavailable};
ghost use Rattle.fr_layout.specs.Packing.{FailsAs, packed, unpacked};
ghost use Rattle.fr_layout.specs.declared.pack_fault.PackFault.TheVariants.{NoMemory};

use crate::bits::lies_inside;
use crate::pack_fault::PackFault;
use crate::signals::{
    first_after, first_too_large, image, index_of, least_taken, user_of, values_in,
};
use fr_base::{Name, NoMemory, Refusal, Signal};
use std::alloc::Global;
use std::marker::Model;

/// How many signals a layout has at most.
const MAX_SIGNALS: usize = 64;

/// The signals of a frame in a payload of up to 127 words of two bytes: at most 64, each inside the
/// payload, no two of one name, and no bit in two of them. They are listed in the order of their starts.
pub struct Layout {
    words: u32,
    signals: Vec<Signal>,
}

// It is written out, so that a caller does not prove again how the signals are dropped.
impl Drop for Layout {
    fn drop(self) {
        let Layout {
            words: _,
            signals: _,
        } = self;
    }
}

impl Model for Layout {
    ghost use Rattle.fr_base.specs.Layouts.{IsLayout, LayoutData};

    ghost Value = { LayoutData };

    ghost view = { λ l. record { words = l.words; signals = l.signals.items } };

    ghost invariant = { λ l. IsLayout (record { words = l.words; signals = l.signals.items }) };
}

impl Clone for Layout {
    ghost is_clone = { λ l n. n ≡ l };

    fn clone(&self) -> Result<Layout, NoMemory> {
        Ok(Layout {
            words: self.words,
            signals: self.signals.clone()?,
        })
    }
}

impl Layout {
    /// The layout of no signals in a payload of so many words. It takes no memory.
    pub fn new(alloc: Global, payload_words: u32) -> Layout
        requires { payload_words ≤ 127 }
        ensures { result ≡ record { words = payload_words; signals = [] } }
    {
        Layout {
            words: payload_words,
            signals: Vec::new(alloc),
        }
    }

    /// How many words of two bytes the payload has, at most 127.
    pub fn words(&self) -> u32
        ensures value { result ≡ self.now.words }
        ensures sound { IsLayout self.now }
    {
        self.words
    }

    /// The signals, by their starts.
    pub fn signals(&self) -> &[Signal]
        ensures value { result.now ≡ self.now.signals }
        ensures sound { IsLayout self.now }
    {
        self.signals.as_slice()
    }

    /// Whether a signal has this name.
    pub fn has_signal(&self, name: Name) -> bool
        ensures { result ≡ has_signal self.now.signals name }
    {
        self.signals.iter().any(|signal| signal.name() == name)
    }

    /// Whether `add` would take the signal. If not: `Exists` where a signal has its name, `Limit` where
    /// there are 64, `OutOfPayload` where one of its bits lies past the payload, `BitTaken` with the
    /// least bit that a signal uses and that signal's name; the first of these that applies.
    pub fn admits(&self, signal: &Signal) -> Result<(), Refusal>
        ensures { MatchResult result (λ _. IsOk (add_signal self.now signal.now))
            (λ e. add_signal self.now signal.now ≡ Err e) }
    {
        if self.has_signal(signal.name()) {
            return Err(Refusal::Exists);
        }
        if self.signals.len() >= MAX_SIGNALS {
            return Err(Refusal::Limit);
        }
        if !lies_inside(self.words, *signal) {
            return Err(Refusal::OutOfPayload);
        }
        self.first_taken(*signal)
    }

    /// Adds the signal, or refuses it as `admits` says, or as `Unavailable` where memory is refused. A
    /// refusal changes nothing.
    pub fn add(&mut self, signal: Signal) -> Result<(), Refusal>
        ensures ok { OnOk result (add_signal self.old signal ≡ Ok self.new) }
        ensures refused { IfErr result
            (λ e. MatchResult (add_signal self.old signal) (λ _. e ≡ Unavailable)
            (λ first. e ≡ first)) }
        ensures err { OnErr result (self.new ≡ self.old) }
    {
        self.admits(&signal)?;
        // Gives the proof that the signal has 1 to 64 bits.
        let _length = signal.length();
        let index = first_after(&self.signals, signal.start()).unwrap_or(self.signals.len());
        if self.signals.insert(index, signal).is_err() {
            return Err(Refusal::Unavailable);
        }
        Ok(())
    }

    /// Removes the signal of this name, or refuses with `NoSignal`, which changes nothing.
    pub fn remove(&mut self, name: Name) -> Result<(), Refusal>
        ensures ok { OnOk result (remove_signal self.old name ≡ Ok self.new) }
        ensures err { IfErr result (λ e. (remove_signal self.old name ≡ Err e)
            × (self.new ≡ self.old)) }
    {
        match index_of(&self.signals, name) {
            None => Err(Refusal::NoSignal),
            Some(index) => {
                self.signals.remove(index);
                Ok(())
            }
        }
    }

    /// The payload of these values, which stand in the order of the signals. `WrongCount` where there
    /// are not as many as signals, else `TooLarge` with the least index of a value that has more bits
    /// than its signal; `NoMemory` where memory is refused.
    pub fn pack(&self, alloc: Global, values: &[u64]) -> Result<Vec<u8>, PackFault>
        ensures bytes { IfOk result (λ bytes. packed self.now values.now ≡ Ok bytes.items) }
        ensures fault { IfErr result
            (λ fault. FailsAs NoMemory fault (packed self.now values.now)) }
    {
        if values.len() != self.signals.len() {
            return Err(PackFault::WrongCount);
        }
        match first_too_large(&self.signals, values) {
            Some(index) => Err(PackFault::TooLarge { index }),
            None => Ok(image(alloc, self.words, &self.signals, values)?),
        }
    }

    /// The values of the signals, in their order, in a payload. `WrongLength` where the payload has not
    /// the layout's number of bytes; `NoMemory` where memory is refused.
    pub fn unpack(&self, alloc: Global, bytes: &[u8]) -> Result<Vec<u64>, PackFault>
        ensures values { IfOk result (λ values. unpacked self.now bytes.now ≡ Ok values.items) }
        ensures fault { IfErr result
            (λ fault. FailsAs NoMemory fault (unpacked self.now bytes.now)) }
    {
        if bytes.len() != 2 * self.words as usize {
            return Err(PackFault::WrongLength);
        }
        Ok(values_in(alloc, self.words, &self.signals, bytes)?)
    }

    /// Refuses the signal, which lies inside the payload, where one of its bits is used.
    fn first_taken(&self, signal: Signal) -> Result<(), Refusal>
        requires { IsTrue (lies_inside self.now.words signal) }
        ensures { MatchResult result (λ _. first_taken_bit self.now signal ≡ None)
            (λ e. bit_taken (first_taken_bit self.now signal) ≡ Err e) }
    {
        match least_taken(&self.signals, signal) {
            None => Ok(()),
            Some(bit) => match user_of(&self.signals, bit) {
                Some(user) => Err(Refusal::BitTaken {
                    bit: bit as u32,
                    signal: user.name(),
                }),
                None => unreachable!(),
            },
        }
    }
}
