//! The faults of the rows, or the wishes, of a supplier's file.
ghost use Rattle.std.specs.Prelude.{◌≡◌, ◌∷◌, ◌++◌, ◌<◌, ◌+◌, ◌^◌, [], IfOk, OnOk, false, if◌then◌else◌, map};
ghost use Rattle.csv.specs.Records.{fields_of};
ghost use Rattle.fr_base.specs.ImportRows.{records_of};
ghost use Rattle.fr_base.specs.declared.limits.TheConstants.{MAX_ROWS};
ghost use Rattle.fr_guide.specs.Faults.{are_none, is_fine};
ghost use Rattle.fr_guide.specs.Rows.{AreInOrder, AreToldOfRows, fine_records, fine_rows, line_count, line_ends, numbers_of};

mod fields;
mod file_kind;
mod header;
mod place;
mod wanted;

use crate::line_faults::{LineFaults, one_fault};
use crate::rows::fields::field_faults;
use crate::rows::file_kind::FileKind;
use crate::rows::header::header_faults;
use crate::rows::place::Place;
use csv::ByteRecord;
use fr_base::{MAX_IMPORT_BYTES, MAX_ROWS, NoMemory};
use fr_text::Records;
use std::alloc::{AllocError, Global};

/// What is wrong with each record of a file, the header first: why it is a row, or a wish, of no cluster. A file that is too
/// long is not read, nor is what stands below what is no header, or behind one row too many. Whether something is told of a
/// record is said by clauses; in which words, and of which of the file's lines, is not, but that the lines are in order. The
/// cluster is not known, nor what the register holds: a slot may be above the cluster's, or not be granted.
#[tactic(auto, unfolding(crate::specs::Rows::fine_file))]
pub fn row_faults(alloc: Global, body: &[u8]) -> Result<Vec<LineFaults>, NoMemory>
    ensures { IfOk result (λ told. AreToldOfRows body.now told.items) }
{
    if body.len() > MAX_IMPORT_BYTES {
        let line = Place::new(body).line_behind(MAX_IMPORT_BYTES as u64);
        return one_line(alloc, line, too_long(alloc)?);
    }
    record_faults(alloc, body)
}

// The faults of each record of a file that is not too long.
#[tactic(auto, unfolding(crate::specs::Rows::fine_records))]
fn record_faults(alloc: Global, body: &[u8]) -> Result<Vec<LineFaults>, NoMemory>
    ensures rows { IfOk result (λ told.
        map is_fine told.items ≡ fine_records (records_of body.now)) }
    ensures lines { IfOk result (λ told.
        AreInOrder 1 (line_count body.now) (numbers_of told.items)) }
{
    let mut records = Records::new(alloc, body);
    let mut fields = ByteRecord::new(alloc);
    if !read(&mut records, &mut fields)? {
        return one_line(alloc, 1, no_header(alloc)?);
    }
    let mut place = Place::new(body);
    let line = place.line_behind(bytes_before(&fields));
    match FileKind::of(&fields) {
        Some(kind) => {
            let mut told = one_line(alloc, line, Vec::new(alloc))?;
            tell_rows(
                alloc,
                kind,
                &mut records,
                &mut fields,
                &mut place,
                &mut told,
            )?;
            Ok(told)
        }
        None => one_line(alloc, line, header_faults(alloc, &fields)?),
    }
}

// A line with these faults.
fn one_line(alloc: Global, line: usize, faults: Vec<String>) -> Result<Vec<LineFaults>, NoMemory>
    ensures told { IfOk result (λ told. map is_fine told.items ≡ are_none faults.items ∷ []) }
    ensures lines { IfOk result (λ told. numbers_of told.items ≡ line ∷ []) }
{
    let mut told = Vec::new(alloc);
    told.push(LineFaults { line, faults })?;
    Ok(told)
}

// Adds the faults of each record that is left, as one of this kind, up to one too many.
fn tell_rows(
    alloc: Global,
    kind: FileKind,
    records: &mut Records<'_>,
    fields: &mut ByteRecord,
    place: &mut Place<'_>,
    told: &mut Vec<LineFaults>,
) -> Result<(), NoMemory>
    requires room { place.old.line + line_ends place.old.rest.now < 2 ^ 64 }
    ensures rows { OnOk result (map is_fine told.new.items ≡ map is_fine told.old.items
        ++ fine_rows kind MAX_ROWS records.old) }
    ensures lines { OnOk result (AreInOrder 1 place.old.line (numbers_of told.old.items)
        → AreInOrder 1 place.new.line (numbers_of told.new.items)) }
    ensures all { place.new.line + line_ends place.new.rest.now
        ≡ place.old.line + line_ends place.old.rest.now }
{
    let mut room = MAX_ROWS;
    while read(records, fields)? {
        let line = place.line_behind(bytes_before(fields));
        if room == 0 {
            let faults = too_many(alloc)?;
            told.push(LineFaults { line, faults })?;
            return Ok(());
        }
        room -= 1;
        let faults = field_faults(alloc, kind, fields)?;
        told.push(LineFaults { line, faults })?;
    }
    Ok(())
}

// Reads the fields of the next record, if there is one.
fn read(records: &mut Records<'_>, fields: &mut ByteRecord) -> Result<bool, NoMemory>
    ensures { IfOk result (λ found.
        records.old ≡ (if found then fields_of fields.new ∷ records.new else [])) }
{
    match records.read(fields) {
        Ok(found) => Ok(found),
        Err(_) => Err(AllocError),
    }
}

// How many bytes of the file come before the record. Ends of lines may still follow them.
fn bytes_before(fields: &ByteRecord) -> u64 {
    fields.position().map_or(0, |position| position.byte())
}

// The fault of a file that is too long.
fn too_long(alloc: Global) -> Result<Vec<String>, NoMemory>
    ensures { IfOk result (λ faults. are_none faults.items ≡ false) }
{
    let fault = format!(in alloc;
        "here the file gets longer than {MAX_IMPORT_BYTES} bytes, an import may not be"
    )?;
    one_fault(alloc, fault)
}

// The fault of the row behind the last that a file may have.
fn too_many(alloc: Global) -> Result<Vec<String>, NoMemory>
    ensures { IfOk result (λ faults. are_none faults.items ≡ false) }
{
    let fault = format!(in alloc; "the row is one too many, an import may have {MAX_ROWS}")?;
    one_fault(alloc, fault)
}

// The fault of a file without a record.
fn no_header(alloc: Global) -> Result<Vec<String>, NoMemory>
    ensures { IfOk result (λ faults. are_none faults.items ≡ false) }
{
    one_fault(alloc, String::from_str(alloc, "the file has no header")?)
}
