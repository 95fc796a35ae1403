//! The lines of a room: for each slot and its channels, the bases of the placements there.
ghost use Rattle.std.specs.Prelude.{◌≡◌, [], ◌∷◌, ◌++◌, codes, if◌then◌else◌, OnOk, OnErr};
ghost use Rattle.fr_text.specs.RoomLines.{base_word, group_line, room_lines, share_line};
ghost use Rattle.fr_text.specs.Styles.{joined, set_in};
ghost use Rattle.fr_text.specs.Words.{Extends};

use crate::style::Style;
use crate::words::{four_digits, push, push_word, two_digits};
use fr_base::{NoMemory, Placement};

/// Appends the lines of the placements. An error leaves the old bytes in front.
#[tactic(auto, using(crate::proofs::WordsLemmas::extending))]
pub(super) fn push_room(
    places: &[Placement],
    style: Style,
    out: &mut Vec<u8>,
) -> Result<(), NoMemory>
    ensures ok { OnOk result (out.new.items ≡ out.old.items
        ++ set_in style (room_lines places.now)) }
    ensures err { OnErr result (Extends out.old.items out.new.items) }
{
    let [first, rest @ ..] = places else {
        return Ok(());
    };
    push(style.before(), out)?;
    push_places(first, rest, style.between(), out)?;
    push(style.after(), out)
}

// Appends the lines of a placement and of those that follow it, with a mark between each two.
#[tactic(auto, using(crate::proofs::WordsLemmas::extending))]
fn push_places(
    first: &Placement,
    rest: &[Placement],
    mark: &str,
    out: &mut Vec<u8>,
) -> Result<(), NoMemory>
    ensures ok { OnOk result (out.new.items ≡ out.old.items
        ++ joined mark.now (room_lines (first.now ∷ rest.now))) }
    ensures err { OnErr result (Extends out.old.items out.new.items) }
{
    push_first(first, out)?;
    let mut before = first;
    for place in rest {
        push_next(before, place, mark, out)?;
        before = place;
    }
    Ok(())
}

// Appends a placement that follows another: its base where they share a line, else the mark and a
// line of its own.
#[tactic(auto, using(crate::proofs::WordsLemmas::extending))]
fn push_next(
    before: &Placement,
    place: &Placement,
    mark: &str,
    out: &mut Vec<u8>,
) -> Result<(), NoMemory>
    ensures ok { OnOk result (out.new.items ≡ out.old.items
        ++ (if share_line before.now place.now then codes " " ++ base_word place.now else mark.now
        ++ group_line (place.now ∷ []))) }
    ensures err { OnErr result (Extends out.old.items out.new.items) }
{
    if share_line(before, place) {
        push_word(&two_digits(u32::from(place.cycles.base())), out)
    } else {
        push(mark, out)?;
        push_first(place, out)
    }
}

// Appends the line of a placement that follows none.
#[tactic(auto, using(crate::proofs::WordsLemmas::extending))]
fn push_first(place: &Placement, out: &mut Vec<u8>) -> Result<(), NoMemory>
    ensures ok { OnOk result (out.new.items ≡ out.old.items ++ group_line (place.now ∷ [])) }
    ensures err { OnErr result (Extends out.old.items out.new.items) }
{
    out.extend_from_slice(&four_digits(place.slot.get()))?;
    push_word(place.channels.as_str().as_bytes(), out)?;
    push_word(&two_digits(u32::from(place.cycles.repetition())), out)?;
    push_word(&two_digits(u32::from(place.cycles.base())), out)
}

// Whether two placements share a line.
fn share_line(before: &Placement, place: &Placement) -> bool
    ensures { result ≡ share_line before.now place.now }
{
    before.slot.get() == place.slot.get()
        && before.channels == place.channels
        && before.cycles.repetition() == place.cycles.repetition()
}
