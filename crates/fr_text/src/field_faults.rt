//! Which fields of a request are unknown, missing, of another kind than its form has, or given
//! without the field that they need.
ghost use Rattle.std.specs.Prelude.{◌≡◌, ◌++◌, ◌&&◌, not, IfOk, OnOk, is_some, map, option_map};
ghost use Rattle.std.specs.List.{filter_map, list_all, list_any};
ghost use Rattle.std.specs.Str.{bytes_eq};
ghost use Rattle.serde_json.specs.View.{view};
ghost use Rattle.fr_base.specs.Forms.{field_in, fields_of};
ghost use Rattle.fr_text.specs.Fields.{fields_in, has_field, has_just, has_kind, is_among, is_given, is_of_kind, names_in, names_of, only};
ghost use Rattle.fr_text.specs.Faults.{are_none};
ghost use Rattle.fr_text.specs.Flaws.{flaw_in, flaw_of, flaws_in, stranger};

use crate::fields::{Fields, field, whole};
use fr_base::{Field, Form, Kind, NoMemory};
use serde_json::Value;
use std::alloc::Global;

/// What is wrong with a field of a request.
#[derive(Clone, Copy)]
pub enum FieldFault<'v> {
    /// The request has no field of this name.
    Unknown(&'v str),
    /// The field is missing.
    Missing(Field),
    /// The field has a value of another kind.
    OtherKind(Field, &'v Value),
    /// The field is given, and the one of this name is not, which it needs: that is missing, or it
    /// is this value, which is null or `false`.
    Alone(Field, &'static str, Option<&'v Value>),
}

/// The faults of the fields: of those that the form does not have first, then of those that it has,
/// in its order. There is none where the fields are just those of the form.
#[tactic(auto, unfolding(crate::specs::Fields::has_just))]
pub(crate) fn field_faults<'v>(
    alloc: Global,
    form: &Form,
    fields: &'v Fields,
) -> Result<Vec<FieldFault<'v>>, NoMemory>
    ensures none { IfOk result (λ faults.
        are_none faults.items ≡ has_just (fields_of form.now) (fields_in fields.now)) }
    ensures which { IfOk result (λ faults.
        map flaw_of faults.items ≡ flaws_in (fields_of form.now) (fields_in fields.now)) }
{
    let mut faults = Vec::new(alloc);
    add_unknown(&mut faults, form, fields)?;
    add_bad(&mut faults, form, fields)?;
    Ok(faults)
}

// Adds a fault for each field that the form does not have.
fn add_unknown<'v>(
    faults: &mut Vec<FieldFault<'v>>,
    form: &Form,
    fields: &'v Fields,
) -> Result<(), NoMemory>
    ensures none { OnOk result (are_none faults.new.items ≡ are_none faults.old.items
        && only (names_in (fields_of form.now)) (fields_in fields.now)) }
    ensures which { OnOk result (map flaw_of faults.new.items ≡ map flaw_of faults.old.items
        ++ filter_map (stranger (names_in (fields_of form.now))) (names_of (fields_in fields.now))) }
{
    for name in fields.keys() {
        if !has_name(form, name.as_str()) {
            faults.push(FieldFault::Unknown(name.as_str()))?;
        }
    }
    Ok(())
}

// Whether the name is `do`, or that of a field of the form.
fn has_name(form: &Form, name: &str) -> bool
    ensures { result ≡ is_among (names_in (fields_of form.now)) name.now }
{
    name == "do" || is_named(form.fields, name)
}

// Whether one of these fields has this name.
fn is_named(fields: &[Field], name: &str) -> bool
    ensures { result ≡ list_any (λ field. bytes_eq field.name.now name.now) fields.now }
{
    fields.iter().any(|field| field.name == name)
}

// Adds a fault for each field of the form that is missing, of another kind, or given alone.
fn add_bad<'v>(
    faults: &mut Vec<FieldFault<'v>>,
    form: &Form,
    fields: &'v Fields,
) -> Result<(), NoMemory>
    ensures none { OnOk result (are_none faults.new.items ≡ are_none faults.old.items
        && list_all (has_field (fields_in fields.now)) (fields_of form.now)) }
    ensures which { OnOk result (map flaw_of faults.new.items ≡ map flaw_of faults.old.items
        ++ filter_map (flaw_in (fields_in fields.now)) (fields_of form.now)) }
{
    for asked in form.fields {
        if let Some(fault) = fault_of(asked, fields) {
            faults.push(fault)?;
        }
    }
    Ok(())
}

// What is wrong with this field of the form.
#[tactic(auto, unfolding(crate::specs::Flaws::flaw_in))]
fn fault_of<'v>(asked: &Field, fields: &'v Fields) -> Option<FieldFault<'v>>
    ensures any { is_some result ≡ not (has_field (fields_in fields.now) (field_in asked.now)) }
    ensures which { option_map flaw_of result ≡ flaw_in (fields_in fields.now) (field_in asked.now) }
{
    let value = field(fields, asked.name);
    if !is_there(asked.kind, value) {
        return Some(match value {
            Some(value) => FieldFault::OtherKind(*asked, value),
            None => FieldFault::Missing(*asked),
        });
    }
    let other = asked.needs?;
    let needed = field(fields, other);
    if is_given(value) && !is_given(needed) {
        return Some(FieldFault::Alone(*asked, other, needed));
    }
    None
}

// Whether a field of this value is given.
fn is_given(value: Option<&Value>) -> bool
    ensures { result ≡ is_given (option_map (λ value. view value.now) value.entry) }
{
    match value {
        Some(value) => !value.is_null() && value.as_bool().unwrap_or(true),
        None => false,
    }
}

// Whether the value, or its absence, is allowed for a field of this kind.
fn is_there(kind: Kind, value: Option<&Value>) -> bool
    ensures { result ≡ has_kind kind (option_map (λ value. view value.now) value.entry) }
{
    match value {
        Some(value) => is_of_kind(kind, value),
        None => matches!(kind, Kind::TextOrNull | Kind::Flag),
    }
}

// Whether the value is of this kind.
fn is_of_kind(kind: Kind, value: &Value) -> bool
    ensures { result ≡ is_of_kind kind (view value.now) }
{
    match kind {
        Kind::Text => value.is_string(),
        Kind::TextOrNull => value.is_null() || value.is_string(),
        Kind::Flag => value.is_boolean(),
        Kind::Number => whole(value).is_some(),
    }
}
