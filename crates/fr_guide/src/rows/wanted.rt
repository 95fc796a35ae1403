//! What may stand in a field of a row, where something else stands in it.
ghost use Rattle.std.specs.Prelude.{◌≡◌, is_none};
ghost use Rattle.std.specs.List.{list_any, range_with_len};
ghost use Rattle.std.specs.Result.{is_ok};
ghost use Rattle.csv.specs.Records.{fields_of};
ghost use Rattle.fr_base.specs.ImportRows.{number_at, text_at};
ghost use Rattle.fr_base.specs.Numbers.{is_slot};
ghost use Rattle.fr_base.specs.Signals.{is_signal_length};
ghost use Rattle.fr_guide.specs.Rows.{is_base_below, is_some_repetition, name_at, passes, repeats_in, writes_channels, writes_order};

use csv::ByteRecord;
use fr_base::{Channels, MAX_CYCLES, Name, Order, Slot};
use fr_text::{number_at, text_at};

const NAME: &str = "1 to 32 ASCII letters, digits and underscores, a letter first";

const NUMBER: &str = "1 to 10 digits, at most 4294967295";

/// A name.
#[tactic(auto, unfolding(crate::specs::Rows::name_at))]
pub fn name(fields: &ByteRecord, place: usize) -> Option<&'static str>
    ensures { is_none result ≡ is_ok (name_at (fields_of fields.now) place) }
{
    if is_name(fields, place) {
        None
    } else {
        Some(NAME)
    }
}

/// A number.
pub fn number(fields: &ByteRecord, place: usize) -> Option<&'static str>
    ensures { is_none result ≡ is_ok (number_at (fields_of fields.now) place) }
{
    match number_at(fields, place) {
        Ok(_) => None,
        Err(_) => Some(NUMBER),
    }
}

/// The number of a slot that a cluster can have.
pub fn slot(fields: &ByteRecord, place: usize) -> Option<&'static str>
    ensures { is_none result ≡ passes is_slot (number_at (fields_of fields.now) place) }
{
    match number_at(fields, place) {
        Ok(number) if Slot::new(number).is_some() => None,
        Ok(_) => Some("1 to 1023"),
        Err(_) => Some(NUMBER),
    }
}

/// Channels.
pub fn channels(fields: &ByteRecord, place: usize) -> Option<&'static str>
    ensures { is_none result ≡ passes writes_channels (text_at (fields_of fields.now) place) }
{
    match text_at(fields, place) {
        Ok(text) if Channels::read(text).is_some() => None,
        _ => Some("A, B or AB"),
    }
}

/// A base below the repetition, which stands at another place, if that is a number.
pub fn base(fields: &ByteRecord, place: usize, repetition: usize) -> Option<&'static str>
    ensures { let fields = fields_of fields.now in
        is_none result ≡ is_base_below (number_at fields place) (number_at fields repetition) }
{
    match (number_at(fields, place), number_at(fields, repetition)) {
        (Err(_), _) => Some(NUMBER),
        (Ok(base), Ok(repetition)) if base >= repetition => Some("less than the repetition"),
        _ => None,
    }
}

/// A repetition that some cluster has.
pub fn repetition(fields: &ByteRecord, place: usize) -> Option<&'static str>
    ensures { is_none result ≡ passes is_some_repetition (number_at (fields_of fields.now) place) }
{
    match number_at(fields, place) {
        Ok(number) if is_some_repetition(number) => None,
        Ok(_) => Some("what divides the cluster's cycles, an even number from 8 to 64"),
        Err(_) => Some(NUMBER),
    }
}

/// The length of a signal.
pub fn length(fields: &ByteRecord, place: usize) -> Option<&'static str>
    ensures { is_none result ≡ passes is_signal_length (number_at (fields_of fields.now) place) }
{
    match number_at(fields, place) {
        Ok(1..=64) => None,
        Ok(_) => Some("1 to 64"),
        Err(_) => Some(NUMBER),
    }
}

/// The order of a signal's bits.
pub fn order(fields: &ByteRecord, place: usize) -> Option<&'static str>
    ensures { is_none result ≡ passes writes_order (text_at (fields_of fields.now) place) }
{
    match text_at(fields, place) {
        Ok(text) if Order::read(text).is_some() => None,
        _ => Some("little or big"),
    }
}

// Whether the field at a place is a name.
#[tactic(auto, unfolding(crate::specs::Rows::name_at))]
fn is_name(fields: &ByteRecord, place: usize) -> bool
    ensures { result ≡ is_ok (name_at (fields_of fields.now) place) }
{
    match text_at(fields, place) {
        Ok(text) => Name::read(text).is_some(),
        Err(_) => false,
    }
}

// Whether some cluster has this repetition.
#[tactic(auto, unfolding(crate::specs::Rows::is_some_repetition))]
fn is_some_repetition(repetition: u32) -> bool
    ensures { result ≡ is_some_repetition repetition }
{
    is_repetition_below(repetition, MAX_CYCLES + 1)
}

// Whether a cluster with fewer cycles than these has this repetition.
fn is_repetition_below(repetition: u32, cycles: u32) -> bool
    ensures { result ≡ list_any (repeats_in repetition) (range_with_len 0 cycles) }
{
    (0..cycles).any(|count| repeats_in(repetition, count))
}

// Whether a cluster of so many cycles, if there is one, has this repetition.
fn repeats_in(repetition: u32, count: u32) -> bool
    ensures { result ≡ repeats_in repetition count }
{
    count >= 8 && count <= 64 && count % 2 == 0 && repetition >= 1 && count % repetition == 0
}
