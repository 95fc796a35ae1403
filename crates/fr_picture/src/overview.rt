//! The overview: a small picture of each part of the drawing, which leads to the part.
ghost use Rattle.std.specs.Prelude.{◌≡◌, OnOk, IfOk};
ghost use Rattle.fr_picture.specs.Overviews.{overview_text, thumbnail_text, thumbnails_text, starts_of};
ghost use Rattle.fr_picture.specs.Texts.{Appends};

use crate::drawing::Lane;
use crate::texts::{Fixed, push_fixed};
use fr_base::NoMemory;
use std::alloc::Global;

/// The first slots of the drawing's parts.
#[tactic(auto, unfolding(crate::specs::Overviews::starts_of))]
pub(crate) fn starts_of(alloc: Global, lanes: &[Lane]) -> Result<Vec<u32>, NoMemory>
    ensures { IfOk result (λ starts. starts.items ≡ starts_of lanes.now) }
{
    let mut starts = Vec::new(alloc);
    for lane in lanes {
        if let Some(first) = lane.place.opens {
            starts.push(first)?;
        }
    }
    Ok(starts)
}

/// Appends the overview, where there is more than one part.
#[tactic(auto, unfolding(crate::specs::Overviews::overview_text))]
pub(crate) fn push_overview(cycles: u32, starts: &[u32], out: &mut String) -> Result<(), NoMemory>
    ensures { OnOk result (Appends out.old out.new (overview_text cycles starts.now)) }
{
    if starts.len() < 2 {
        return Ok(());
    }
    push_fixed(Fixed::OverviewStart, out)?;
    push_thumbnails(cycles, starts, out)?;
    push_fixed(Fixed::OverviewEnd, out)
}

#[tactic(auto, unfolding(crate::specs::Overviews::thumbnails_text))]
fn push_thumbnails(cycles: u32, starts: &[u32], out: &mut String) -> Result<(), NoMemory>
    ensures { OnOk result (Appends out.old out.new (thumbnails_text cycles starts.now)) }
{
    for start in starts {
        push_thumbnail(cycles, *start, out)?;
    }
    Ok(())
}

// Appends a small picture of the part that begins with this slot.
#[tactic(auto, unfolding(crate::specs::Overviews::thumbnail_text))]
fn push_thumbnail(cycles: u32, first: u32, out: &mut String) -> Result<(), NoMemory>
    ensures { OnOk result (Appends out.old out.new (thumbnail_text cycles first)) }
{
    write!(
        out,
        "<a href=#p{first}><svg role=none viewBox=\"0 0 138 {cycles}\"><use href=#g{first} /></svg>from {first}</a>\n"
    )
}
