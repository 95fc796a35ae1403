//! Reads a file of wishes: comma-separated records below a header of their own.
ghost use Rattle.std.specs.Prelude.{◌≡◌, map, MatchResult, IfOk};
ghost use Rattle.std.specs.Cmp.Lexicographic.{pointwise};
ghost use Rattle.csv.specs.Records.{fields_of};
ghost use Rattle.fr_base.specs.Wishes.{spelled_wishes, spells_wishes, wish_at, wish_in, wish_of, wishes_below, wishes_of_body, wishes_of_records};
ghost use Rattle.fr_base.specs.declared.params.Params.{Params};

use crate::import_text::{Records, has_fields, number_at, text_at};
use crate::record_reader::{RecordReader, push_all, within};
use csv::ByteRecord;
use fr_base::{Params, Refusal, Rows, Wish, WishRead};
use std::alloc::Global;

/// Reads all the wishes of a file. Each is checked by itself, or is its own refusal. One behind 512 others
/// is refused, and is the last. Where the header is another, line 1 is refused. Want of memory is
/// `Unavailable`.
pub fn read_wishes(alloc: Global, params: &Params, body: &[u8]) -> Result<Rows<WishRead>, Refusal>
    ensures { MatchResult result (λ wishes. wishes ≡ wishes_of_body params.now body.now)
        (λ refusal. refusal ≡ Refusal.Unavailable) }
{
    let mut records = Records::new(alloc, body);
    let mut fields = ByteRecord::new(alloc);
    let mut wishes = Rows::new(alloc);
    if has_header(&mut records, &mut fields)? {
        let reader = WishReader { params: *params };
        push_all(&mut wishes, &reader, &mut records, &mut fields)?;
    } else {
        wishes.push(WishRead {
            line: 1,
            wish: Err(Refusal::BadText),
        })?;
    }
    Ok(wishes)
}

// Reads the first record, and says whether it is the header of wishes.
#[tactic(auto, unfolding(fr_base::specs::Wishes::wishes_of_records, fr_base::specs::Wishes::wishes_below))]
fn has_header(records: &mut Records<'_>, fields: &mut ByteRecord) -> Result<bool, Refusal>
    ensures { MatchResult result
        (λ spelled. (p : Params) → wishes_of_records p records.old
        ≡ wishes_below p spelled records.new) (λ refusal. refusal ≡ Refusal.Unavailable) }
{
    Ok(records.read(fields)? && spells_wishes(fields))
}

/// The names of the fields of a wish.
pub fn wish_names() -> &'static [&'static str]
    ensures { map (λ name. name.now) result.now ≡ spelled_wishes }
{
    &["frame", "node", "channels", "repetition"]
}

/// Whether the fields spell the header of wishes.
pub fn spells_wishes(fields: &ByteRecord) -> bool
    ensures { result ≡ spells_wishes (fields_of fields.now) }
{
    has_fields(fields, wish_names())
}

// Reads a record below the header as a wish.
#[derive(Clone, Copy)]
struct WishReader {
    params: Params,
}

impl RecordReader<WishRead> for WishReader {
    ghost reads = { λ reader line fields. record { line = line; wish = wish_at reader.params line fields } };

    #[tactic(auto, unfolding(crate::proofs::WishTextLemmas::lines_open))]
    fn read(&self, line: u32, fields: &ByteRecord) -> WishRead {
        let wish = match within(line) {
            Ok(()) => wish_of(&self.params, fields),
            Err(refusal) => Err(refusal),
        };
        WishRead { line, wish }
    }
}

// The wish that the fields below the header are, or its first refusal.
#[tactic(auto, unfolding(crate::proofs::WishTextLemmas::wishes_open))]
fn wish_of(params: &Params, fields: &ByteRecord) -> Result<Wish, Refusal>
    ensures { result ≡ wish_of params.now (fields_of fields.now) }
{
    if fields.len() != wish_names().len() {
        return Err(Refusal::BadText);
    }
    wish_in(params, fields)
}

// The wish that the fields are.
#[tactic(auto, unfolding(crate::proofs::WishTextLemmas::wishes_open))]
fn wish_in(params: &Params, fields: &ByteRecord) -> Result<Wish, Refusal>
    ensures { result ≡ wish_in params.now (fields_of fields.now) }
{
    let frame = text_at(fields, 0)?.as_bytes();
    let node = text_at(fields, 1)?.as_bytes();
    let channels = text_at(fields, 2)?;
    let repetition = number_at(fields, 3)?;
    Wish::read(params, frame, node, channels, repetition)
}
