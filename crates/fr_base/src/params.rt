//! The parameters of a cluster, unchecked and checked, and why some make no cluster.
ghost use Rattle.std.specs.Prelude.{◌≡◌, ◌≤◌, IsTrue, Ok};
ghost use Rattle.fr_base.specs.Cycles.{is_cycle_count};
ghost use Rattle.fr_base.specs.Parameters.{check_params, segments, word_of};

use crate::channel::Channels;
use std::fmt::{self, Display, Formatter};
use std::marker::Model;

/// The parameters of a cluster's static segment as they stand in a cluster file, not checked.
///
/// A communication cycle consists of the static segment, the dynamic segment, the symbol window and
/// the network idle time, in this order (FlexRay Protocol Specification 2.1 Rev. A, 5.1; the names in
/// brackets are those of its appendix B). The ranges below are those that [`Params::check`] asks for;
/// of macroticks and payload the standard allows less.
#[derive(Clone, Copy, PartialEq, Eq)]
pub struct RawParams {
    /// The channels that the cluster has (`gChannels`).
    pub channels: Channels,
    /// How many static slots a cycle has, 2 to 1023 (`gNumberOfStaticSlots`).
    pub static_slots: u32,
    /// The length of each static slot in macroticks, at least 1 (`gdStaticSlot`).
    pub slot_macroticks: u32,
    /// All between the static segment and the symbol window in macroticks, 0 where the cycle has no
    /// dynamic segment.
    pub dynamic_macroticks: u32,
    /// The length of the symbol window in macroticks, 0 where there is none (`gdSymbolWindow`).
    pub symbol_macroticks: u32,
    /// The length of the network idle time in macroticks, at least 1 (`gdNIT`).
    pub idle_macroticks: u32,
    /// The length of a communication cycle in macroticks, at most 16000 (`gMacroPerCycle`).
    pub macroticks_per_cycle: u32,
    /// The payload length of every static frame in words of two bytes, at most 127
    /// (`gPayloadLengthStatic`).
    pub payload_words: u32,
    /// How many communication cycles the cycle counter goes through before it starts at 0 again: an even
    /// number from 8 to 64. The standard has 64 (chapter 5, media access control).
    pub cycles: u32,
}

/// Why parameters make no cluster. Where several apply, the first of this list is answered.
#[derive(Clone, Copy, Debug, PartialEq, Eq)]
pub enum ParamFault {
    /// There are not 2 to 1023 static slots.
    BadSlots,
    /// The payload has more than 127 words.
    BadPayload,
    /// A slot or the network idle time has no macrotick, or a cycle has more than 16000.
    BadMacroticks,
    /// The segments' lengths do not add up to the cycle's.
    BadSum,
    /// The count of cycles is odd, or not 8 to 64.
    BadCycleCount,
}

/// The parameters of a cluster's static segment, within their ranges and with segments that are
/// together as long as the cycle. [`RawParams`] says what each field means.
#[derive(Clone, Copy, PartialEq, Eq)]
pub struct Params {
    raw: RawParams,
}

impl ParamFault {
    /// The fault's word, as the program prints it.
    pub fn word(self) -> &'static str
        ensures { result.now ≡ word_of self }
    {
        match self {
            ParamFault::BadSlots => "BadSlots",
            ParamFault::BadPayload => "BadPayload",
            ParamFault::BadMacroticks => "BadMacroticks",
            ParamFault::BadSum => "BadSum",
            ParamFault::BadCycleCount => "BadCycleCount",
        }
    }
}

impl Display for ParamFault {
    ghost use Rattle.std.specs.Prelude.{Some};
    ghost use Rattle.fr_base.specs.Parameters.{word_of};

    ghost output = { λ fault. Some (word_of fault) };

    fn fmt<W: fmt::Write>(&self, f: &mut Formatter<W>) -> fmt::Result {
        f.pad(self.word())
    }
}

impl Model for Params {
    ghost use Rattle.std.specs.Prelude.{Ok, ◌≡◌};
    ghost use Rattle.fr_base.specs.declared.params.RawParams.{RawParams};
    ghost use Rattle.fr_base.specs.Parameters.{check_params};

    ghost Value = { RawParams };

    ghost view = { λ p. p.raw };

    ghost invariant = { λ p. check_params p.raw ≡ Ok p.raw };

    ghost inverse = { λ raw. record { raw = raw } };
}

impl Params {
    /// These parameters, if they make a cluster, or else the first fault. The segments' lengths are
    /// added without wrapping.
    #[tactic(auto, unfolding(crate::proofs::ParametersLemmas::parameters_open))]
    pub fn check(raw: RawParams) -> Result<Params, ParamFault>
        ensures { result ≡ check_params raw }
    {
        if raw.static_slots < 2 || raw.static_slots > 1023 {
            return Err(ParamFault::BadSlots);
        }
        if raw.payload_words > 127 {
            return Err(ParamFault::BadPayload);
        }
        if raw.slot_macroticks == 0
            || raw.idle_macroticks == 0
            || raw.macroticks_per_cycle > 16000
        {
            return Err(ParamFault::BadMacroticks);
        }
        if raw.segments() != u64::from(raw.macroticks_per_cycle) {
            return Err(ParamFault::BadSum);
        }
        if raw.cycles < 8 || raw.cycles > 64 || raw.cycles % 2 != 0 {
            return Err(ParamFault::BadCycleCount);
        }
        Ok(Params { raw })
    }

    /// The parameters as they would stand in a cluster file. They pass `check`.
    pub fn raw(&self) -> RawParams
        ensures value { result ≡ self.now }
        ensures checked { check_params self.now ≡ Ok self.now }
    {
        self.raw
    }

    /// The channels that the cluster has.
    pub fn channels(&self) -> Channels
        ensures { result ≡ self.now.channels }
    {
        self.raw.channels
    }

    /// How many static slots a cycle has, 2 to 1023.
    #[tactic(auto, unfolding(crate::proofs::ParametersLemmas::parameters_open))]
    pub fn static_slots(&self) -> u32
        ensures value { result ≡ self.now.static_slots }
        ensures range { (2 ≤ result) × (result ≤ 1023) }
    {
        self.raw.static_slots
    }

    /// The length of a static slot in macroticks, at least 1.
    #[tactic(auto, unfolding(crate::proofs::ParametersLemmas::parameters_open))]
    pub fn slot_macroticks(&self) -> u32
        ensures value { result ≡ self.now.slot_macroticks }
        ensures range { 1 ≤ result }
    {
        self.raw.slot_macroticks
    }

    /// All between the static segment and the symbol window in macroticks.
    pub fn dynamic_macroticks(&self) -> u32
        ensures { result ≡ self.now.dynamic_macroticks }
    {
        self.raw.dynamic_macroticks
    }

    /// The length of the symbol window in macroticks.
    pub fn symbol_macroticks(&self) -> u32
        ensures { result ≡ self.now.symbol_macroticks }
    {
        self.raw.symbol_macroticks
    }

    /// The length of the network idle time in macroticks, at least 1.
    #[tactic(auto, unfolding(crate::proofs::ParametersLemmas::parameters_open))]
    pub fn idle_macroticks(&self) -> u32
        ensures value { result ≡ self.now.idle_macroticks }
        ensures range { 1 ≤ result }
    {
        self.raw.idle_macroticks
    }

    /// The length of a communication cycle in macroticks, at most 16000.
    #[tactic(auto, unfolding(crate::proofs::ParametersLemmas::parameters_open))]
    pub fn macroticks_per_cycle(&self) -> u32
        ensures value { result ≡ self.now.macroticks_per_cycle }
        ensures range { result ≤ 16000 }
        ensures sum { segments self.now ≡ result }
    {
        self.raw.macroticks_per_cycle
    }

    /// The payload length of every static frame in words of two bytes, at most 127.
    #[tactic(auto, unfolding(crate::proofs::ParametersLemmas::parameters_open))]
    pub fn payload_words(&self) -> u32
        ensures value { result ≡ self.now.payload_words }
        ensures range { result ≤ 127 }
    {
        self.raw.payload_words
    }

    /// How many communication cycles there are: an even number from 8 to 64.
    #[tactic(auto, unfolding(crate::proofs::ParametersLemmas::parameters_open))]
    pub fn cycles(&self) -> u32
        ensures value { result ≡ self.now.cycles }
        ensures count { IsTrue (is_cycle_count result) }
        ensures range { (8 ≤ result) × (result ≤ 64) }
    {
        self.raw.cycles
    }
}

impl RawParams {
    /// The sum of the segments' macroticks.
    fn segments(&self) -> u64
        requires { self.now.static_slots ≤ 1023 }
        ensures { result ≡ segments self.now }
    {
        u64::from(self.static_slots) * u64::from(self.slot_macroticks)
            + u64::from(self.dynamic_macroticks)
            + u64::from(self.symbol_macroticks)
            + u64::from(self.idle_macroticks)
    }
}
