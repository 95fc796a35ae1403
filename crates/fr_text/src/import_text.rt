//! Reads an import's file: comma-separated records. The first is a header, which says what the
//! others are.
ghost use Rattle.std.specs.Prelude.{◌≡◌, ◌∷◌, ◌+◌, [], map, take, MatchResult, Ok, Err, Some, None, if◌then◌else◌, ◌++◌, true, false, IfOk, OnOk};
ghost use Rattle.std.specs.Option.{MatchOption};
ghost use Rattle.std.specs.Result.{is_ok};
ghost use Rattle.std.specs.Cmp.Lexicographic.{pointwise};
ghost use Rattle.csv.specs.Records.{field_at, fields_of};
ghost use Rattle.fr_base.specs.Names.{same_text};
ghost use Rattle.fr_base.specs.declared.params.Params.{Params};
ghost use Rattle.fr_base.specs.ImportRows.{records_of, spelled, header_of, header_in, header_of_body, text_at, number, number_at, frame_in, placement_in, signal_in, row_at, row_of, rows_from, rows_below, rows_of_records, rows_of_body, all_rows_of_body, up_to_refused};
ghost use Rattle.fr_base.specs.declared.limits.TheConstants.{MAX_ROWS};

use crate::record_reader::{RecordReader, push_all, within};
use csv::{ByteRecord, Reader, ReaderBuilder};
use fr_base::{Header, MAX_ROWS, NoMemory, Params, Refusal, Row, RowRead, Rows};
use std::alloc::Global;
use std::marker::Model;

/// Reads the rows of an import's file, up to the first that its own text refuses. Each row's texts
/// and numbers are checked. Want of memory is `Unavailable`.
pub fn read_import(alloc: Global, params: &Params, body: &[u8]) -> Result<Rows<RowRead>, Refusal>
    ensures { MatchResult result (λ rows. rows ≡ rows_of_body params.now body.now)
        (λ refusal. refusal ≡ Refusal.Unavailable) }
{
    let mut records = Records::new(alloc, body);
    let mut fields = ByteRecord::new(alloc);
    let mut rows = Rows::new(alloc);
    match first_header(&mut records, &mut fields)? {
        Some(header) => push_rows(&mut rows, params, header, &mut records, &mut fields)?,
        None => rows.push(RowRead {
            line: 1,
            row: Err(Refusal::BadText),
        })?,
    }
    Ok(rows)
}

/// Reads all the rows of a file. Each is checked as a row of an import, or is its own refusal. A
/// row behind 512 others is refused, and is the last. Want of memory is `Unavailable`.
pub fn read_rows(alloc: Global, params: &Params, body: &[u8]) -> Result<Rows<RowRead>, Refusal>
    ensures { MatchResult result (λ rows. rows ≡ all_rows_of_body params.now body.now)
        (λ refusal. refusal ≡ Refusal.Unavailable) }
{
    let mut records = Records::new(alloc, body);
    let mut fields = ByteRecord::new(alloc);
    let mut rows = Rows::new(alloc);
    match first_header(&mut records, &mut fields)? {
        Some(header) => {
            let reader = RowReader {
                params: *params,
                header,
            };
            push_all(&mut rows, &reader, &mut records, &mut fields)?;
        }
        None => rows.push(RowRead {
            line: 1,
            row: Err(Refusal::BadText),
        })?,
    }
    Ok(rows)
}

/// Reads the header that a file begins with, if it begins with one. Want of memory is `Unavailable`.
#[tactic(auto, unfolding(fr_base::specs::ImportRows::header_of_body))]
pub fn read_header(alloc: Global, body: &[u8]) -> Result<Option<Header>, Refusal>
    ensures { MatchResult result (λ header. header ≡ header_of_body body.now)
        (λ refusal. refusal ≡ Refusal.Unavailable) }
{
    let mut records = Records::new(alloc, body);
    let mut fields = ByteRecord::new(alloc);
    first_header(&mut records, &mut fields)
}

// Reads the first record, and gives the header that it is, if it is one.
#[tactic(auto, unfolding(fr_base::specs::ImportRows::rows_of_records, fr_base::specs::ImportRows::rows_below))]
fn first_header(
    records: &mut Records<'_>,
    fields: &mut ByteRecord,
) -> Result<Option<Header>, Refusal>
    ensures rows { MatchResult result
        (λ header. (p : Params) → rows_of_records p records.old ≡ rows_below p header records.new)
        (λ refusal. refusal ≡ Refusal.Unavailable) }
    ensures header { IfOk result (λ header. header ≡ header_in records.old) }
{
    if records.read(fields)? {
        Ok(header_of(fields))
    } else {
        Ok(None)
    }
}

// Appends the rows that the records behind the header are, up to the first that its own text
// refuses.
fn push_rows(
    rows: &mut Rows<RowRead>,
    params: &Params,
    header: Header,
    records: &mut Records<'_>,
    fields: &mut ByteRecord,
) -> Result<(), Refusal>
    ensures { MatchResult result
        (λ _. rows.new ≡ rows.old ++ up_to_refused (rows_from params.now header 2 records.old))
        (λ refusal. refusal ≡ Refusal.Unavailable) }
{
    // The header is line 1.
    for line in 2..MAX_ROWS + 2 {
        if !records.read(fields)? {
            return Ok(());
        }
        if !push_row(rows, line, params, header, fields)? {
            return Ok(());
        }
    }
    if records.read(fields)? {
        rows.push(RowRead {
            line: MAX_ROWS + 2,
            row: Err(Refusal::Limit),
        })?;
    }
    Ok(())
}

// Reads a record below this header as a row.
#[derive(Clone, Copy)]
struct RowReader {
    params: Params,
    header: Header,
}

impl RecordReader<RowRead> for RowReader {
    ghost reads = { λ reader line fields. record { line = line; row = row_at reader.params reader.header line fields } };

    #[tactic(auto, unfolding(crate::proofs::ImportTextLemmas::lines_open))]
    fn read(&self, line: u32, fields: &ByteRecord) -> RowRead {
        let row = match within(line) {
            Ok(()) => row_of(&self.params, self.header, fields),
            Err(refusal) => Err(refusal),
        };
        RowRead { line, row }
    }
}

/// The records of a file that are still to be read.
#[derive(Drop)]
pub struct Records<'b> {
    reader: Reader<&'b [u8]>,
}

impl<'b> Model for Records<'b> {
    ghost use Rattle.std.specs.Prelude.{List, ℕ, Some};
    ghost use Rattle.fr_text.specs.ImportText.{left_of, IsPlain};

    ghost Value = { List (List (List ℕ)) };

    ghost view = { λ r. left_of (λ bytes. Some bytes.now) r.reader };

    ghost invariant = { λ r. IsPlain r.reader };
}

impl<'b> Records<'b> {
    /// The records of these bytes. The reader takes a byte order mark off.
    pub fn new(alloc: Global, body: &'b [u8]) -> Records<'b>
        ensures { result ≡ records_of body.now }
    {
        Records {
            reader: ReaderBuilder::new()
                .has_headers(false)
                .flexible(true)
                .from_reader(alloc, body),
        }
    }

    /// Reads the fields of the next record, if there is one.
    pub fn read(&mut self, fields: &mut ByteRecord) -> Result<bool, Refusal>
        ensures { MatchResult result
            (λ found. self.old ≡ (if found then fields_of fields.new ∷ self.new else []))
            (λ refusal. refusal ≡ Refusal.Unavailable) }
    {
        match self.reader.read_byte_record(fields) {
            Ok(found) => Ok(found),
            Err(_) => Err(Refusal::Unavailable),
        }
    }
}

/// The names of a header's fields.
pub fn names(header: Header) -> &'static [&'static str]
    ensures { map (λ name. name.now) result.now ≡ spelled header }
{
    match header {
        Header::Frames => &["frame", "node"],
        Header::Placements => &["frame", "node", "slot", "channels", "base", "repetition"],
        Header::Signals => &["frame", "signal", "start", "length", "order"],
    }
}

/// The header that the fields spell.
#[tactic(auto, unfolding(fr_base::specs::ImportRows::header_of))]
pub fn header_of(fields: &ByteRecord) -> Option<Header>
    ensures { result ≡ header_of (fields_of fields.now) }
{
    if has_fields(fields, names(Header::Frames)) {
        Some(Header::Frames)
    } else if has_fields(fields, names(Header::Placements)) {
        Some(Header::Placements)
    } else if has_fields(fields, names(Header::Signals)) {
        Some(Header::Signals)
    } else {
        None
    }
}

/// Whether the fields are these names, in this order.
pub(crate) fn has_fields(fields: &ByteRecord, names: &[&str]) -> bool
    ensures { result ≡ pointwise same_text (fields_of fields.now)
        (map (λ name. name.now) names.now) }
{
    if fields.len() != names.len() {
        return false;
    }
    for (place, name) in names.iter().enumerate() {
        let Some(field) = fields.get(place) else {
            return false;
        };
        if field != name.as_bytes() {
            return false;
        }
    }
    true
}

/// Appends the row that the fields below the header are, or its first refusal. The answer is `true`
/// for a row.
#[inline(always)]
fn push_row(
    rows: &mut Rows<RowRead>,
    line: u32,
    params: &Params,
    header: Header,
    fields: &ByteRecord,
) -> Result<bool, NoMemory>
    ensures rows { OnOk result (rows.new ≡ rows.old
        ++ record { line = line; row = row_of params.now header (fields_of fields.now) } ∷ []) }
    ensures read { IfOk result (λ read.
        read ≡ is_ok (row_of params.now header (fields_of fields.now))) }
{
    let row = row_of(params, header, fields);
    rows.push(RowRead { line, row })?;
    Ok(row.is_ok())
}

/// The row that the fields below the header are, or its first refusal.
#[tactic(auto, unfolding(crate::proofs::ImportTextLemmas::rows_open))]
fn row_of(params: &Params, header: Header, fields: &ByteRecord) -> Result<Row, Refusal>
    ensures { result ≡ row_of params.now header (fields_of fields.now) }
{
    if fields.len() != names(header).len() {
        return Err(Refusal::BadText);
    }
    match header {
        Header::Frames => frame_in(fields),
        Header::Placements => placement_in(params, fields),
        Header::Signals => signal_in(fields),
    }
}

/// The row of frames that the fields are.
#[tactic(auto, unfolding(crate::proofs::ImportTextLemmas::rows_open))]
fn frame_in(fields: &ByteRecord) -> Result<Row, Refusal>
    ensures { result ≡ frame_in (fields_of fields.now) }
{
    let frame = text_at(fields, 0)?.as_bytes();
    let node = text_at(fields, 1)?.as_bytes();
    Row::frame(frame, node)
}

/// The row of placements that the fields are.
#[tactic(auto, using(crate::proofs::ImportTextLemmas::placement_read), unfolding(crate::proofs::ImportTextLemmas::rows_open))]
fn placement_in(params: &Params, fields: &ByteRecord) -> Result<Row, Refusal>
    ensures { result ≡ placement_in params.now (fields_of fields.now) }
{
    let frame = field_at(fields, 0)?;
    let node = field_at(fields, 1)?;
    let slot = number_at(fields, 2)?;
    let channels = text_at(fields, 3)?;
    let base = number_at(fields, 4)?;
    let repetition = number_at(fields, 5)?;
    let row = Row::placement(params, frame, node, slot, channels, base, repetition);
    if row.is_err() {
        // A field that is no text is refused before one that is no name.
        text_at(fields, 0)?;
        text_at(fields, 1)?;
    }
    row
}

/// The row of signals that the fields are.
#[tactic(auto, using(crate::proofs::ImportTextLemmas::signal_read), unfolding(crate::proofs::ImportTextLemmas::rows_open))]
fn signal_in(fields: &ByteRecord) -> Result<Row, Refusal>
    ensures { result ≡ signal_in (fields_of fields.now) }
{
    let frame = field_at(fields, 0)?;
    let signal = field_at(fields, 1)?;
    let start = number_at(fields, 2)?;
    let length = number_at(fields, 3)?;
    let order = text_at(fields, 4)?;
    let row = Row::signal(frame, signal, start, length, order);
    if row.is_err() {
        // A field that is no text is refused before one that is no name.
        text_at(fields, 0)?;
        text_at(fields, 1)?;
    }
    row
}

/// The field at a place.
fn field_at(fields: &ByteRecord, place: usize) -> Result<&[u8], Refusal>
    ensures { MatchResult result
        (λ field. field_at (fields_of fields.now) place ≡ Some field.now)
        (λ refusal. (refusal ≡ Refusal.BadText) × (field_at (fields_of fields.now) place ≡ None)) }
{
    fields.get(place).ok_or(Refusal::BadText)
}

/// The text of the field at a place.
#[tactic(auto, unfolding(crate::proofs::ImportTextLemmas::rows_open), using(crate::proofs::FieldsLemmas::utf8_tests))]
pub fn text_at(fields: &ByteRecord, place: usize) -> Result<&str, Refusal>
    ensures { MatchResult result
        (λ text. text_at (fields_of fields.now) place ≡ Ok text.now)
        (λ refusal. text_at (fields_of fields.now) place ≡ Err refusal) }
{
    str::from_utf8(field_at(fields, place)?).map_err(|_| Refusal::BadText)
}

/// The number of the field at a place.
#[tactic(auto, using(crate::proofs::ImportTextLemmas::number_at_bytes, crate::proofs::ImportTextLemmas::number_at_none))]
pub fn number_at(fields: &ByteRecord, place: usize) -> Result<u32, Refusal>
    ensures { MatchResult result (λ value. number_at (fields_of fields.now) place ≡ Ok value)
        (λ refusal. (refusal ≡ Refusal.BadText)
        × (number_at (fields_of fields.now) place ≡ Err Refusal.BadText)) }
{
    read_number(field_at(fields, place)?).ok_or(Refusal::BadText)
}

/// The number that the bytes write in 1 to 10 digits.
#[inline(always)]
pub fn read_number(digits: &[u8]) -> Option<u32>
    ensures { MatchOption result (number digits.now ≡ Err Refusal.BadText)
        (λ value. number digits.now ≡ Ok value) }
{
    if !(1..=10).contains(&digits.len()) {
        return None;
    }
    let mut value: u32 = 0;
    for digit in digits {
        if !digit.is_ascii_digit() {
            return None;
        }
        value = value
            .checked_mul(10)?
            .checked_add(u32::from(*digit - b'0'))?;
    }
    Some(value)
}
