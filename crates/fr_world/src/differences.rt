//! The rows in which two lists of rows differ. Each list stands in the order of its rows' keys.
ghost use Rattle.std.specs.Prelude.{◌≡◌, [], ◌∷◌, ◌++◌, List, IfOk, OnErr, OnOk};
ghost use Rattle.fr_base.specs.Merging.{come, gone, merge, met, put_in};
ghost use Rattle.fr_base.specs.declared.answer.DifferenceRow.{DifferenceRow as Told};
ghost use Rattle.fr_world.specs.Appending.{AppendsSome};

use fr_base::{DifferenceRow, NoMemory, Rows, SeenRow};
use std::cmp::Ordering;

/// A row that has a key, and that a difference tells.
pub trait KeyedRow {
    ghost use Rattle.std.specs.Prelude.{◌≡◌, Bool};
    ghost use Rattle.std.specs.declared.cmp.Ordering.{Ordering as Order};
    ghost use Rattle.fr_base.specs.declared.answer.SeenRow.{SeenRow as Seen};

    /// The order of keys.
    ghost compare: { Self → Self → Order };

    /// Whether rows of one key are the same.
    ghost same: { Self → Self → Bool };

    /// How a difference tells the row.
    ghost told: { Self → Seen };

    /// Which of the keys comes first.
    fn compare(&self, other: &Self) -> Ordering
        ensures { result ≡ compare self.now other.now };

    /// Whether the rows, which have one key, are the same.
    fn is_same(&self, other: &Self) -> bool
        ensures { result ≡ same self.now other.now };

    /// The row as a difference tells it.
    fn seen(&self) -> SeenRow
        ensures { result ≡ told self.now };
}

/// Appends the rows in which the lists differ, by key. Where memory is refused, some of them were appended, from the first on.
pub fn push_differences<T: KeyedRow>(
    old: &[T],
    new: &[T],
    rows: &mut Rows<DifferenceRow>,
) -> Result<(), NoMemory>
    ensures ok { OnOk result (rows.new ≡ rows.old
        ++ merge T.compare T.same T.told old.now new.now) }
    ensures err { OnErr result
        (AppendsSome (merge T.compare T.same T.told old.now new.now) rows.old rows.new) }
{
    let mut left = new;
    for row in old {
        left = push_up_to(row, left, rows)?;
    }
    for next in left {
        rows.push(new_row(next))?;
    }
    Ok(())
}

// Appends the new list's rows whose keys come before this old row's. Then it appends the old row
// where the new list lacks its key, or both rows of the key where they differ. Gives the rest of the
// new list.
fn push_up_to<'a, T: KeyedRow>(
    row: &T,
    list: &'a [T],
    rows: &mut Rows<DifferenceRow>,
) -> Result<&'a [T], NoMemory>
    ensures ok { IfOk result (λ left. (rest : List T → List Told)
        → rows.new ++ rest left.now ≡ rows.old
        ++ put_in T.compare T.same T.told row.now rest list.now) }
    ensures err { OnErr result ((rest : List T → List Told)
        → AppendsSome (put_in T.compare T.same T.told row.now rest list.now) rows.old rows.new) }
{
    let mut left = list;
    while let Some((next, after)) = left.split_first() {
        match row.compare(next) {
            Ordering::Less => break,
            Ordering::Equal => {
                push_met(row, next, rows)?;
                return Ok(after);
            }
            Ordering::Greater => {
                rows.push(new_row(next))?;
                left = after;
            }
        }
    }
    rows.push(gone_row(row))?;
    Ok(left)
}

// Appends two rows of one key, the old one first, where they differ. Where they are the same it
// appends nothing.
#[tactic(auto, unfolding(fr_base::specs::Merging::met))]
fn push_met<T: KeyedRow>(old: &T, new: &T, rows: &mut Rows<DifferenceRow>) -> Result<(), NoMemory>
    ensures ok { OnOk result (rows.new ≡ rows.old
        ++ met T.compare T.same T.told old.now new.now) }
    ensures err { OnErr result
        (AppendsSome (met T.compare T.same T.told old.now new.now) rows.old rows.new) }
{
    if !old.is_same(new) {
        rows.push(gone_row(old))?;
        rows.push(new_row(new))?;
    }
    Ok(())
}

fn gone_row<T: KeyedRow>(row: &T) -> DifferenceRow
    ensures { result ≡ gone T.compare T.same T.told row.now }
{
    DifferenceRow {
        is_new: false,
        row: row.seen(),
    }
}

fn new_row<T: KeyedRow>(row: &T) -> DifferenceRow
    ensures { result ≡ come T.compare T.same T.told row.now }
{
    DifferenceRow {
        is_new: true,
        row: row.seen(),
    }
}
