//! The faults of the fields of a row.
ghost use Rattle.std.specs.Prelude.{◌≡◌, ◌&&◌, [], IfOk, OnOk, false, is_none};
ghost use Rattle.csv.specs.Records.{fields_of};
ghost use Rattle.fr_guide.specs.Faults.{are_none};
ghost use Rattle.fr_guide.specs.Rows.{is_fine_frame, is_fine_placement, is_fine_row, is_fine_signal, is_fine_wish};

use crate::line_faults::one_fault;
use crate::rows::file_kind::FileKind;
use crate::rows::wanted;
use crate::shown::shown_bytes;
use csv::ByteRecord;
use fr_base::{Header, NoMemory};
use std::alloc::Global;

/// The faults of a record of this kind.
#[tactic(auto, unfolding(crate::specs::Rows::is_fine_row))]
pub fn field_faults(
    alloc: Global,
    kind: FileKind,
    fields: &ByteRecord,
) -> Result<Vec<String>, NoMemory>
    ensures { IfOk result (λ faults.
        are_none faults.items ≡ is_fine_row kind (fields_of fields.now)) }
{
    if fields.len() != kind.names().len() {
        return count_faults(alloc, kind, fields);
    }
    let faults = match kind {
        FileKind::Rows(Header::Frames) => frame_faults(alloc, fields)?,
        FileKind::Rows(Header::Placements) => placement_faults(alloc, fields)?,
        FileKind::Rows(Header::Signals) => signal_faults(alloc, fields)?,
        FileKind::Wishes => wish_faults(alloc, fields)?,
    };
    if !faults.is_empty() && fields.iter().all(<[u8]>::is_empty) {
        return one_fault(alloc, String::from_str(alloc, "all fields are empty")?);
    }
    Ok(faults)
}

// The faults of the fields of a row of frames.
#[tactic(auto, unfolding(crate::specs::Rows::is_fine_frame))]
fn frame_faults(alloc: Global, fields: &ByteRecord) -> Result<Vec<String>, NoMemory>
    ensures { IfOk result (λ faults. are_none faults.items ≡ is_fine_frame (fields_of fields.now)) }
{
    let mut faults = RowFaults::new(alloc, fields);
    faults.add(0, "frame", wanted::name(fields, 0))?;
    faults.add(1, "node", wanted::name(fields, 1))?;
    Ok(faults.told)
}

// The faults of the fields of a row of placements.
#[tactic(auto, unfolding(crate::specs::Rows::is_fine_placement))]
fn placement_faults(alloc: Global, fields: &ByteRecord) -> Result<Vec<String>, NoMemory>
    ensures { IfOk result (λ faults.
        are_none faults.items ≡ is_fine_placement (fields_of fields.now)) }
{
    let mut faults = RowFaults::new(alloc, fields);
    faults.add(0, "frame", wanted::name(fields, 0))?;
    faults.add(1, "node", wanted::name(fields, 1))?;
    faults.add(2, "slot", wanted::slot(fields, 2))?;
    faults.add(3, "channels", wanted::channels(fields, 3))?;
    faults.add(4, "base", wanted::base(fields, 4, 5))?;
    faults.add(5, "repetition", wanted::repetition(fields, 5))?;
    Ok(faults.told)
}

// The faults of the fields of a row of signals.
#[tactic(auto, unfolding(crate::specs::Rows::is_fine_signal))]
fn signal_faults(alloc: Global, fields: &ByteRecord) -> Result<Vec<String>, NoMemory>
    ensures { IfOk result (λ faults.
        are_none faults.items ≡ is_fine_signal (fields_of fields.now)) }
{
    let mut faults = RowFaults::new(alloc, fields);
    faults.add(0, "frame", wanted::name(fields, 0))?;
    faults.add(1, "signal", wanted::name(fields, 1))?;
    faults.add(2, "start", wanted::number(fields, 2))?;
    faults.add(3, "length", wanted::length(fields, 3))?;
    faults.add(4, "order", wanted::order(fields, 4))?;
    Ok(faults.told)
}

// The faults of the fields of a wish.
#[tactic(auto, unfolding(crate::specs::Rows::is_fine_wish))]
fn wish_faults(alloc: Global, fields: &ByteRecord) -> Result<Vec<String>, NoMemory>
    ensures { IfOk result (λ faults. are_none faults.items ≡ is_fine_wish (fields_of fields.now)) }
{
    let mut faults = RowFaults::new(alloc, fields);
    faults.add(0, "frame", wanted::name(fields, 0))?;
    faults.add(1, "node", wanted::name(fields, 1))?;
    faults.add(2, "channels", wanted::channels(fields, 2))?;
    faults.add(3, "repetition", wanted::repetition(fields, 3))?;
    Ok(faults.told)
}

// The faults of a record's fields.
#[derive(Drop)]
struct RowFaults<'f> {
    alloc: Global,
    fields: &'f ByteRecord,
    told: Vec<String>,
}

impl<'f> RowFaults<'f> {
    // No fault.
    fn new(alloc: Global, fields: &'f ByteRecord) -> RowFaults<'f>
        ensures { result.told.items ≡ [] }
    {
        RowFaults {
            alloc,
            fields,
            told: Vec::new(alloc),
        }
    }

    // Adds a fault where something else is wanted in the field at a place.
    fn add(&mut self, place: usize, name: &str, wanted: Option<&str>) -> Result<(), NoMemory>
        ensures { OnOk result (are_none self.new.told.items ≡ are_none self.old.told.items
            && is_none wanted.entry) }
    {
        if let Some(range) = wanted {
            let fault = fault(self.alloc, self.fields, place, name, range)?;
            self.told.push(fault)?;
        }
        Ok(())
    }
}

// The fault of the field at a place, with what may stand there.
fn fault(
    alloc: Global,
    fields: &ByteRecord,
    place: usize,
    name: &str,
    range: &str,
) -> Result<String, NoMemory> {
    let found = shown_bytes(alloc, fields.get(place).unwrap_or(b""))?;
    format!(in alloc; "field \"{name}\" is \"{found}\", it may be {range}")
}

// The faults of a record that has not as many fields as its header.
fn count_faults(alloc: Global, kind: FileKind, fields: &ByteRecord) -> Result<Vec<String>, NoMemory>
    ensures { IfOk result (λ faults. are_none faults.items ≡ false) }
{
    let (found, wanted) = (fields.len(), kind.names().len());
    let hint = hint(fields, wanted);
    let fault = format!(in alloc;
        "the number of fields is {found}, the header has {wanted}{hint}"
    )?;
    one_fault(alloc, fault)
}

// What may be the cause.
fn hint(fields: &ByteRecord, wanted: usize) -> &'static str {
    if fields.iter().skip(wanted).all(<[u8]>::is_empty) && fields.len() > wanted {
        ": those behind are empty"
    } else if fields.iter().any(|field| field.contains(&b'\n')) {
        ": one goes over several lines, so a double quote may be open"
    } else if fields.get(0).is_some_and(has_other_separator) {
        ": fields are separated by commas"
    } else {
        ""
    }
}

/// Whether a field has what other programs write between fields.
pub fn has_other_separator(field: &[u8]) -> bool {
    field.iter().any(|byte| matches!(*byte, b';' | b'\t'))
}
