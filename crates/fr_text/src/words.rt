//! Writes the words of a line, and the numbers in them.
ghost use Rattle.std.specs.Prelude.{◌≡◌, ◌++◌, ◌<◌, codes, decimal, replicate, OnOk, OnErr};
ghost use Rattle.fr_text.specs.Words.{digit_at, two_digits, four_digits, right_in, behind, comma_behind, shown_to, Extends};

use fr_base::{Name, NoMemory};

/// Appends the text.
pub(crate) fn push(text: &str, out: &mut Vec<u8>) -> Result<(), NoMemory>
    ensures ok { OnOk result (out.new.items ≡ out.old.items ++ text.now) }
    ensures err { OnErr result (out.new.items ≡ out.old.items) }
{
    out.extend_from_slice(text.as_bytes())
}

/// Appends a space and the word. An error leaves the old bytes in front.
#[tactic(auto, using(crate::proofs::WordsLemmas::extending))]
pub(crate) fn push_word(word: &[u8], out: &mut Vec<u8>) -> Result<(), NoMemory>
    ensures ok { OnOk result (out.new.items ≡ out.old.items ++ (codes " " ++ word.now)) }
    ensures err { OnErr result (Extends out.old.items out.new.items) }
{
    out.push(b' ')?;
    out.extend_from_slice(word)
}

/// Appends a space and the supplier's name, where all is shown. An error leaves the old bytes in
/// front.
#[tactic(auto, using(crate::proofs::WordsLemmas::extending))]
pub(crate) fn push_supplier(all: bool, supplier: &Name, out: &mut Vec<u8>) -> Result<(), NoMemory>
    ensures ok { OnOk result (out.new.items ≡ out.old.items ++ behind (shown_to all supplier.now)) }
    ensures err { OnErr result (Extends out.old.items out.new.items) }
{
    if all {
        push_word(supplier.as_str().as_bytes(), out)
    } else {
        Ok(())
    }
}

/// Appends a comma and the field. An error leaves the old bytes in front.
#[tactic(auto, using(crate::proofs::WordsLemmas::extending))]
pub(crate) fn push_field(field: &[u8], out: &mut Vec<u8>) -> Result<(), NoMemory>
    ensures ok { OnOk result (out.new.items ≡ out.old.items ++ (codes "," ++ field.now)) }
    ensures err { OnErr result (Extends out.old.items out.new.items) }
{
    out.push(b',')?;
    out.extend_from_slice(field)
}

/// Appends a comma and the number in decimal digits. An error leaves the old bytes in front.
#[tactic(auto, using(crate::proofs::WordsLemmas::extending))]
pub(crate) fn push_number(number: u32, out: &mut Vec<u8>) -> Result<(), NoMemory>
    ensures ok { OnOk result (out.new.items ≡ out.old.items ++ (codes "," ++ decimal number)) }
    ensures err { OnErr result (Extends out.old.items out.new.items) }
{
    out.push(b',')?;
    push_decimal(number, out)
}

/// Appends a comma and the supplier's name, where all is shown. An error leaves the old bytes in front.
#[tactic(auto, using(crate::proofs::WordsLemmas::extending))]
pub(crate) fn push_owner(all: bool, supplier: &[u8], out: &mut Vec<u8>) -> Result<(), NoMemory>
    ensures ok { OnOk result (out.new.items ≡ out.old.items
        ++ comma_behind (shown_to all supplier.now)) }
    ensures err { OnErr result (Extends out.old.items out.new.items) }
{
    if all {
        push_field(supplier, out)
    } else {
        Ok(())
    }
}

/// The number's last two digits, with leading zeros.
pub(crate) fn two_digits(number: u32) -> [u8; 2]
    ensures { result ≡ two_digits number }
{
    [digit_at(10, number), digit_at(1, number)]
}

/// The number's last four digits, with leading zeros.
pub(crate) fn four_digits(number: u32) -> [u8; 4]
    ensures { result ≡ four_digits number }
{
    [
        digit_at(1000, number),
        digit_at(100, number),
        digit_at(10, number),
        digit_at(1, number),
    ]
}

/// Appends the number in decimal digits. An error leaves the old bytes in front.
#[tactic(auto, unfolding(crate::specs::Words::right_in))]
pub(crate) fn push_decimal(number: u32, out: &mut Vec<u8>) -> Result<(), NoMemory>
    ensures ok { OnOk result (out.new.items ≡ out.old.items ++ decimal number) }
    ensures err { OnErr result (Extends out.old.items out.new.items) }
{
    push_right(number, 0, out)
}

/// Appends the number in decimal digits, at the right of so many places, with spaces before it. An
/// error leaves the old bytes in front.
#[tactic(auto, using(crate::proofs::WordsLemmas::extending))]
pub(crate) fn push_right(number: u32, places: usize, out: &mut Vec<u8>) -> Result<(), NoMemory>
    ensures ok { OnOk result (out.new.items ≡ out.old.items ++ right_in places (decimal number)) }
    ensures err { OnErr result (Extends out.old.items out.new.items) }
{
    let left = places.saturating_sub(1);
    if number >= 10 {
        push_right(number / 10, left, out)?;
    } else {
        push_spaces(left, out)?;
    }
    out.push(b'0' + (number % 10) as u8)?;
    Ok(())
}

#[tactic(auto, using(crate::proofs::WordsLemmas::extending))]
fn push_spaces(count: usize, out: &mut Vec<u8>) -> Result<(), NoMemory>
    ensures ok { OnOk result (out.new.items ≡ out.old.items ++ replicate count 32) }
    ensures err { OnErr result (Extends out.old.items out.new.items) }
{
    for _ in 0..count {
        out.push(b' ')?;
    }
    Ok(())
}

fn digit_at(place: u32, number: u32) -> u8
    requires { 0 < place }
    ensures { result ≡ digit_at place number }
{
    b'0' + (number / place % 10) as u8
}
