//! Which placements of the frames that wishes name stay where they are.
ghost use Rattle.std.specs.List.{list_any};
ghost use Rattle.std.specs.Prelude.{◌≡◌, [], IfOk};
ghost use Rattle.fr_base.specs.KeptPlaces.{is_as_wished, keep, kept_for};
ghost use Rattle.fr_base.specs.Tables.{get};
ghost use Rattle.fr_base.specs.Turns.{places_given};
ghost use Rattle.fr_world.specs.Pages.{frame_data, frame_of, own_rows_of};
ghost use Rattle.fr_world.specs.Plans.{is_kept_by};
ghost use Rattle.std.specs.Prelude.{Some};

use crate::decision::rows::frame_named;
use crate::page::{Page, PageFrame};
use fr_base::{Asked, Given, Name, NoMemory, Placement, Wish};
use std::alloc::Global;

/// What wishes keep, in the order of their lines: each the first placement of its frame that has its
/// channels and repetition and is not kept yet, if there is one.
pub(super) fn kept_wishes(
    alloc: Global,
    page: &Page,
    wishes: &[Asked],
) -> Result<Vec<Given>, NoMemory>
    ensures { IfOk result (λ kept. kept.items
        ≡ keep page.now.supplier (own_rows_of page.now).frames [] wishes.now) }
{
    let mut kept = Vec::new(alloc);
    for asked in wishes {
        let place = kept_for(page, &kept, &asked.wish);
        let asked = *asked;
        kept.push(Given { asked, place })?;
    }
    Ok(kept)
}

// The placement that the wish keeps beside those before it.
fn kept_for(page: &Page, kept: &[Given], wish: &Wish) -> Option<Placement>
    ensures { result ≡ kept_for (places_given kept.now) wish.now
        (get (own_rows_of page.now).frames (page.now.supplier, wish.now.frame)) }
{
    let frame = frame_named(page, wish.frame)?;
    left_for(frame, kept, wish)
}

// The first placement of the frame that the wish may keep.
fn left_for(frame: &PageFrame, kept: &[Given], wish: &Wish) -> Option<Placement>
    ensures { result ≡ kept_for (places_given kept.now) wish.now
        (Some (frame_of (frame_data frame.now))) }
{
    for place in frame.placements.iter() {
        if is_as_wished(wish, place) && !is_kept(kept, wish.frame, place) {
            return Some(*place);
        }
    }
    None
}

// Whether the placement has the wish's channels and repetition.
fn is_as_wished(wish: &Wish, place: &Placement) -> bool
    ensures { result ≡ is_as_wished wish.now place.now }
{
    place.channels == wish.channels && place.cycles.repetition() == wish.repetition
}

// Whether a wish before keeps this placement of the frame.
fn is_kept(kept: &[Given], frame: Name, place: &Placement) -> bool
    ensures { result ≡ list_any (is_kept_by frame place.now) kept.now }
{
    kept.iter().any(|one| is_kept_by(one, frame, place))
}

// Whether the wish keeps this placement of the frame.
#[tactic(auto, using(crate::proofs::KeyLaws::placements_alike))]
fn is_kept_by(one: &Given, frame: Name, place: &Placement) -> bool
    ensures { result ≡ is_kept_by frame place.now one.now }
{
    match &one.place {
        Some(there) => one.asked.wish.frame == frame && there.cmp(place).is_eq(),
        None => false,
    }
}
