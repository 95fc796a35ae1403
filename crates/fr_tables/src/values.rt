//! Values of the register in the columns of a row. `None` is a value that has not the form.

ghost use Rattle.std.specs.Prelude.{◌≡◌, pos, Some, IfSome, IsTrue};
ghost use Rattle.sqlite.specs.declared.types.Value.TheVariants.{Blob, Int, Text};
ghost use Rattle.sqlite.specs.Order.{column};
ghost use Rattle.fr_base.specs.Channels.{channel_of_text, channels_of_text, text_of_channels};
ghost use Rattle.fr_base.specs.Names.{is_name};
ghost use Rattle.fr_tables.specs.Rows.{of_maybe, words, flag};

use fr_base::{Body, Channel, Channels, Name, Slot};
use sqlite::Row;
use sqlite_value::value::ValueRef;
use std::alloc::Global;

/// The text.
pub(crate) fn text_at(row: &Row, at: usize) -> Option<&str>
    ensures { IfSome result (λ text. column row.now at ≡ Text text.now) }
{
    match row.get_ref(at) {
        Ok(ValueRef::Text(bytes)) => str::from_utf8(bytes).ok(),
        _ => None,
    }
}

/// The name.
pub fn name_at(row: &Row, at: usize) -> Option<Name>
    ensures value { IfSome result (λ name. column row.now at ≡ Text name) }
    ensures formed { IfSome result (λ name. IsTrue (is_name name)) }
{
    Name::read(text_at(row, at)?)
}

/// The name, if there is one. The inner `None` is NULL.
pub fn maybe_name_at(row: &Row, at: usize) -> Option<Option<Name>>
    ensures { IfSome result (λ name. column row.now at ≡ of_maybe name) }
{
    match row.get_ref(at) {
        Ok(ValueRef::Null) => Some(None),
        _ => Some(Some(name_at(row, at)?)),
    }
}

/// The number.
pub fn number_at(row: &Row, at: usize) -> Option<u32>
    ensures { IfSome result (λ number. column row.now at ≡ Int (pos number)) }
{
    match row.get_ref(at) {
        Ok(ValueRef::Int(number)) => u32::try_from(number).ok(),
        _ => None,
    }
}

/// The flag, which is 0 or 1.
pub fn flag_at(row: &Row, at: usize) -> Option<bool>
    ensures { IfSome result (λ is. column row.now at ≡ Int (flag is)) }
{
    match number_at(row, at)? {
        0 => Some(false),
        1 => Some(true),
        _ => None,
    }
}

/// The slot.
pub fn slot_at(row: &Row, at: usize) -> Option<Slot>
    ensures { IfSome result (λ slot. column row.now at ≡ Int (pos slot)) }
{
    Slot::new(number_at(row, at)?)
}

/// The channel.
pub fn channel_at(row: &Row, at: usize) -> Option<Channel>
    ensures { IfSome result (λ channel.
        channel_of_text (words (column row.now at)) ≡ Some channel) }
{
    Channel::read(text_at(row, at)?)
}

/// The channels.
pub fn channels_at(row: &Row, at: usize) -> Option<Channels>
    ensures value { IfSome result (λ channels. column row.now at ≡ Text (text_of_channels channels)) }
    ensures read { IfSome result (λ channels.
        channels_of_text (words (column row.now at)) ≡ Some channels) }
{
    Channels::read(text_at(row, at)?)
}

/// A copy of the bytes.
pub fn body_at(alloc: Global, row: &Row, at: usize) -> Option<Body>
    ensures { IfSome result (λ body. column row.now at ≡ Blob body) }
{
    match row.get_ref(at) {
        Ok(ValueRef::Blob(bytes)) => Body::copy(alloc, bytes).ok(),
        _ => None,
    }
}
