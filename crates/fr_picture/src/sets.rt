//! What the page has once: patterns, the cells of each repetition, a granted lane, and a lane and a
//! gap that nobody holds.
ghost use Rattle.std.specs.Prelude.{◌+◌, ◌*◌, ◌/◌, ◌<◌, ◌≤◌, OnOk};
ghost use Rattle.fr_picture.specs.Sets.{cross_text, crossed_text, empties_text, hatch_text, hatches_text, held_text, repeated_text, rows_text, set_path, set_start, sets_text, shapes_text};
ghost use Rattle.fr_picture.specs.Texts.{Appends};

use crate::drawing::Scale;
use crate::kinds::push_box;
use crate::texts::{Fixed, push_fixed};
use fr_base::NoMemory;

/// Appends the shapes.
#[tactic(auto, unfolding(crate::specs::Sets::shapes_text))]
pub(crate) fn push_shapes(scale: Scale, out: &mut String) -> Result<(), NoMemory>
    ensures { OnOk result (Appends out.old out.new (shapes_text scale)) }
{
    push_fixed(Fixed::Patterns, out)?;
    push_empties(scale.width, scale.cycles, out)?;
    push_held(scale, out)?;
    push_sets(scale, out)
}

// Appends a lane and a gap that nobody holds.
#[tactic(auto, unfolding(crate::specs::Sets::empties_text))]
fn push_empties(width: u32, cycles: u32, out: &mut String) -> Result<(), NoMemory>
    ensures { OnOk result (Appends out.old out.new (empties_text width cycles)) }
{
    push_crossed(width, cycles, out)?;
    write!(
        out,
        "<rect id=gap width=1 height={cycles} />\n<g id=held><rect width={width} height={cycles} /><path d=\""
    )
}

// Appends a lane with a cross.
#[tactic(auto, unfolding(crate::specs::Sets::crossed_text))]
fn push_crossed(width: u32, cycles: u32, out: &mut String) -> Result<(), NoMemory>
    ensures { OnOk result (Appends out.old out.new (crossed_text width cycles)) }
{
    push_fixed(Fixed::FreeStart, out)?;
    push_box(0, width, cycles, out)?;
    push_cross(width, cycles, out)
}

// Appends two lines from corner to corner.
#[tactic(auto, unfolding(crate::specs::Sets::cross_text))]
fn push_cross(width: u32, cycles: u32, out: &mut String) -> Result<(), NoMemory>
    ensures { OnOk result (Appends out.old out.new (cross_text width cycles)) }
{
    write!(out, "l{width} {cycles}M{width} 0l-{width} {cycles}\"/>")
}

// Appends the rest of a granted lane: the hatch of each of its cells.
#[tactic(auto, unfolding(crate::specs::Sets::held_text))]
fn push_held(scale: Scale, out: &mut String) -> Result<(), NoMemory>
    ensures { OnOk result (Appends out.old out.new (held_text scale)) }
{
    push_hatches(scale.width, scale.cycles, out)?;
    push_fixed(Fixed::GroupEnd, out)
}

#[tactic(auto, unfolding(crate::specs::Sets::hatches_text))]
fn push_hatches(width: u32, cycles: u32, out: &mut String) -> Result<(), NoMemory>
    ensures { OnOk result (Appends out.old out.new (hatches_text width cycles)) }
{
    for cycle in 0..cycles {
        push_hatch(width, cycle, out)?;
    }
    Ok(())
}

#[tactic(auto, unfolding(crate::specs::Sets::hatch_text))]
fn push_hatch(width: u32, cycle: u32, out: &mut String) -> Result<(), NoMemory>
    ensures { OnOk result (Appends out.old out.new (hatch_text width cycle)) }
{
    let y = u64::from(cycle) + 1;
    write!(out, "M0 {y}l{width}-1")
}

// Appends the cells of base 0 and each repetition that divides the count of cycles.
#[tactic(auto, unfolding(crate::specs::Sets::sets_text))]
fn push_sets(scale: Scale, out: &mut String) -> Result<(), NoMemory>
    ensures { OnOk result (Appends out.old out.new (sets_text scale)) }
{
    for index in 0..scale.cycles {
        push_set(scale, index + 1, out)?;
    }
    Ok(())
}

// Appends the cells of base 0 and this repetition, and over them those of a pattern, if it divides
// the count of cycles.
#[tactic(auto, unfolding(crate::specs::Sets::set_path))]
fn push_set(scale: Scale, repetition: u32, out: &mut String) -> Result<(), NoMemory>
    requires { 1 ≤ repetition }
    ensures { OnOk result (Appends out.old out.new (set_path scale repetition)) }
{
    if scale.cycles % repetition != 0 {
        return Ok(());
    }
    push_set_start(repetition, out)?;
    push_rows(scale, repetition, out)?;
    push_fixed(Fixed::OverStart, out)?;
    push_rows(scale, repetition, out)?;
    push_fixed(Fixed::GroupEnd, out)
}

#[tactic(auto, unfolding(crate::specs::Sets::set_start))]
fn push_set_start(repetition: u32, out: &mut String) -> Result<(), NoMemory>
    ensures { OnOk result (Appends out.old out.new (set_start repetition)) }
{
    write!(out, "<g id={repetition}><path d=\"")
}

// Appends the cells of base 0 and this repetition: one rectangle of all cycles for repetition 1,
// else a rectangle for each cell.
#[tactic(auto, unfolding(crate::specs::Sets::rows_text))]
fn push_rows(scale: Scale, repetition: u32, out: &mut String) -> Result<(), NoMemory>
    requires { 1 ≤ repetition }
    ensures { OnOk result (Appends out.old out.new (rows_text scale repetition)) }
{
    if repetition == 1 {
        push_box(0, scale.width, scale.cycles, out)
    } else {
        push_repeated(scale.width, repetition, scale.cycles / repetition, out)
    }
}

#[tactic(auto, unfolding(crate::specs::Sets::repeated_text))]
fn push_repeated(width: u32, repetition: u32, count: u32, out: &mut String) -> Result<(), NoMemory>
    requires { repetition * count < 4294967296 }
    ensures { OnOk result (Appends out.old out.new (repeated_text width repetition count)) }
{
    for row in 0..count {
        push_box(row * repetition, width, 1, out)?;
    }
    Ok(())
}
