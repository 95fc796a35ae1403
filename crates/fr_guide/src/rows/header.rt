//! The faults of the header of an import's file.
ghost use Rattle.std.specs.Prelude.{◌≡◌, IfOk, false};
ghost use Rattle.fr_guide.specs.Faults.{are_none};

use crate::line_faults::one_fault;
use crate::rows::fields::has_other_separator;
use crate::shown::shown_bytes;
use csv::ByteRecord;
use fr_base::{Header, NoMemory};
use fr_text::names;
use std::alloc::Global;

/// The faults of a first record that is not a header.
pub fn header_faults(alloc: Global, fields: &ByteRecord) -> Result<Vec<String>, NoMemory>
    ensures { IfOk result (λ faults. are_none faults.items ≡ false) }
{
    one_fault(alloc, header_fault(alloc, fields)?)
}

// What a first record may be.
fn header_fault(alloc: Global, fields: &ByteRecord) -> Result<String, NoMemory> {
    let found = field_list(alloc, fields)?;
    let hint = hint(fields);
    format!(in alloc;
        "the header is \"{found}\", it may be \"frame,node\", \"frame,node,slot,channels,base,repetition\" or \"frame,signal,start,length,order\"{hint}"
    )
}

// The fields of a record, with commas between.
fn field_list(alloc: Global, fields: &ByteRecord) -> Result<String, NoMemory> {
    let mut list = String::new(alloc);
    for (place, field) in fields.iter().enumerate() {
        if place > 0 {
            list.push(',')?;
        }
        let field = shown_bytes(alloc, field)?;
        list.push_str(field.as_str())?;
    }
    Ok(list)
}

// What may be the cause.
fn hint(fields: &ByteRecord) -> &'static str {
    let first = fields.get(0).unwrap_or(b"");
    if first.contains(&0) {
        ", in UTF-8 and not in UTF-16"
    } else if has_other_separator(first) || is_any_meant(fields) {
        ", just so: with commas, in this order, in small letters, without spaces, and with no field behind"
    } else {
        ""
    }
}

// Whether one of the headers is meant. The header of placements has the names of that of frames
// too, so a record that means frames has no other fields.
fn is_any_meant(fields: &ByteRecord) -> bool {
    is_meant(fields, Header::Placements)
        || is_meant(fields, Header::Signals)
        || is_meant(fields, Header::Frames) && fields.iter().skip(2).all(<[u8]>::is_empty)
}

// Whether each name of the header stands somewhere among the fields, in small or capital letters.
fn is_meant(fields: &ByteRecord, header: Header) -> bool {
    names(header).iter().all(|name| {
        fields.iter().any(|field| field.trim_ascii().eq_ignore_ascii_case(name.as_bytes()))
    })
}
