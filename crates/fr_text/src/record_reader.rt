//! Reads all the records below a header, each by its line.
ghost use Rattle.std.specs.Prelude.{◌≡◌, ◌+◌, ◌++◌, nat_lt, take, MatchResult};
ghost use Rattle.fr_base.specs.Refusing.{refuse◌when◌};
ghost use Rattle.fr_base.specs.declared.limits.TheConstants.{MAX_ROWS};
ghost use Rattle.fr_text.specs.ImportText.{lines_from};

use crate::import_text::Records;
use csv::ByteRecord;
use fr_base::{MAX_ROWS, Refusal, Rows};

/// How a record below a header is read.
pub(crate) trait RecordReader<T> {
    ghost use Rattle.std.specs.Prelude.{◌≡◌, ℕ, List};
    ghost use Rattle.csv.specs.Records.{fields_of};

    /// What a record with these fields is at this line.
    ghost reads: { Self → ℕ → List (List ℕ) → T };

    /// Reads the record at this line.
    fn read(&self, line: u32, fields: &ByteRecord) -> T
        ensures { result ≡ reads self.now line (fields_of fields.now) };
}

/// Appends what all the records behind the header are read as, and the one that is too many.
pub(crate) fn push_all<T: Drop, R: RecordReader<T>>(
    list: &mut Rows<T>,
    reader: &R,
    records: &mut Records<'_>,
    fields: &mut ByteRecord,
) -> Result<(), Refusal>
    ensures { MatchResult result
        (λ _. list.new ≡ list.old
        ++ take (MAX_ROWS + 1) (lines_from (R.reads reader.now) 2 records.old))
        (λ refusal. refusal ≡ Refusal.Unavailable) }
{
    // The header is line 1.
    for line in 2..MAX_ROWS + 3 {
        if !records.read(fields)? {
            return Ok(());
        }
        list.push(reader.read(line, fields))?;
    }
    Ok(())
}

/// Refuses a line behind as many as a file may have.
#[inline(always)]
#[tactic(auto, unfolding(crate::proofs::RecordReading::limit_open))]
pub(crate) fn within(line: u32) -> Result<(), Refusal>
    ensures { result ≡ (refuse Refusal.Limit when nat_lt (MAX_ROWS + 1) line) }
{
    if line > MAX_ROWS + 1 {
        return Err(Refusal::Limit);
    }
    Ok(())
}
