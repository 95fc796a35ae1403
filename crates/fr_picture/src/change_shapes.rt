//! The shapes of changes in a lane: what is new has a whole line and a plus, what is gone a dashed line
//! and a minus.
ghost use Rattle.std.specs.Prelude.{◌≡◌, OnOk};
ghost use Rattle.fr_picture.specs.ChangeShapes.{change_start, changes_text, grant_text, head_text, placed_text, seen_text, sign_of, sign_text, word_of};
ghost use Rattle.fr_picture.specs.Texts.{Appends};

use crate::drawing::Scale;
use crate::kinds::push_set;
use fr_base::{DifferenceRow, GrantRow, Name, NoMemory, Placement, SeenRow};

/// Appends the changes of a lane.
#[tactic(auto, unfolding(crate::specs::ChangeShapes::changes_text))]
pub(crate) fn push_changes(
    scale: Scale,
    changed: &[DifferenceRow],
    out: &mut String,
) -> Result<(), NoMemory>
    ensures { OnOk result (Appends out.old out.new (changes_text scale changed.now)) }
{
    for change in changed {
        push_seen(scale, change.is_new, &change.row, out)?;
    }
    Ok(())
}

#[tactic(auto, unfolding(crate::specs::ChangeShapes::seen_text))]
fn push_seen(scale: Scale, is_new: bool, row: &SeenRow, out: &mut String) -> Result<(), NoMemory>
    ensures { OnOk result (Appends out.old out.new (seen_text scale is_new row.now)) }
{
    match row {
        SeenRow::Grant(grant) => push_grant(scale, is_new, grant, out),
        SeenRow::Placement {
            frame,
            placement,
            supplier,
        } => push_placed(scale.width, is_new, *frame, placement, *supplier, out),
        SeenRow::Frame(_) | SeenRow::Signal(_) | SeenRow::Gap(_) => Ok(()),
    }
}

// Appends the sign of a grant: above the lane where it is new, below it where it is gone.
#[tactic(auto, unfolding(crate::specs::ChangeShapes::grant_text))]
fn push_grant(
    scale: Scale,
    is_new: bool,
    grant: &GrantRow,
    out: &mut String,
) -> Result<(), NoMemory>
    ensures { OnOk result (Appends out.old out.new (grant_text scale is_new grant.now)) }
{
    push_start(word_of(is_new), grant.node, grant.supplier, out)?;
    if is_new {
        push_head(scale.width, sign_of(is_new), out)
    } else {
        push_sign(scale.width, scale.cycles, sign_of(is_new), out)
    }
}

// Appends the cells of a placement, and its sign in the first of them.
#[tactic(auto, unfolding(crate::specs::ChangeShapes::placed_text))]
fn push_placed(
    width: u32,
    is_new: bool,
    frame: Name,
    placement: &Placement,
    supplier: Name,
    out: &mut String,
) -> Result<(), NoMemory>
    ensures { OnOk result (Appends out.old out.new
        (placed_text width is_new frame placement.now supplier)) }
{
    let cycles = placement.cycles;
    push_start(word_of(is_new), frame, supplier, out)?;
    push_set(u32::from(cycles.repetition()), cycles.base(), out)?;
    push_sign(width, u32::from(cycles.base()), sign_of(is_new), out)
}

#[tactic(auto, unfolding(crate::specs::ChangeShapes::word_of))]
fn word_of(is_new: bool) -> &'static str
    ensures { result.now ≡ word_of is_new }
{
    if is_new { "new" } else { "gone" }
}

/// The sign of what is new or gone.
#[tactic(auto, unfolding(crate::specs::ChangeShapes::sign_of))]
pub(crate) fn sign_of(is_new: bool) -> &'static str
    ensures { result.now ≡ sign_of is_new }
{
    if is_new { "+" } else { "&minus;" }
}

// Appends the beginning of a change, with its title.
#[tactic(auto, unfolding(crate::specs::ChangeShapes::change_start))]
fn push_start(word: &str, name: Name, supplier: Name, out: &mut String) -> Result<(), NoMemory>
    ensures { OnOk result (Appends out.old out.new (change_start word.now name supplier)) }
{
    write!(
        out,
        "<g class={word}><title>{word}: {name} of {supplier}</title>"
    )
}

// Appends the sign at the right edge of a lane of this width, in this cycle.
#[tactic(auto, unfolding(crate::specs::ChangeShapes::sign_text))]
fn push_sign(width: u32, cycle: u32, sign: &str, out: &mut String) -> Result<(), NoMemory>
    ensures { OnOk result (Appends out.old out.new (sign_text width cycle sign.now)) }
{
    write!(
        out,
        "<text class=sign x={width} y={cycle}>{sign}</text></g>"
    )
}

// Appends the sign at the right edge of a lane of this width, above the first cycle.
#[tactic(auto, unfolding(crate::specs::ChangeShapes::head_text))]
fn push_head(width: u32, sign: &str, out: &mut String) -> Result<(), NoMemory>
    ensures { OnOk result (Appends out.old out.new (head_text width sign.now)) }
{
    write!(out, "<text class=sign x={width} y=-1>{sign}</text></g>")
}
