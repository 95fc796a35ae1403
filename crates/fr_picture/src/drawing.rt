//! What is drawn of a variant's plan, and where: the lane of each slot and channel, and in it the
//! grant and the rectangles of the frames that are sent.
ghost use Rattle.std.specs.Prelude.{◌≡◌, ℕ, List, ◌++◌, ◌∷◌, [], OnOk, IfOk, IsPermutation};
ghost use Rattle.std.specs.List.{All};
ghost use Rattle.std.specs.Vec.{vec_len};
ghost use Rattle.fr_picture.specs.Lanes.{HaveMore, HaveStill, HoldMore, HoldStill, IsApart, IsDrawing, IsFilled, drawn_cells, drawn_grants};
ghost use Rattle.fr_picture.specs.Places.{AreAt, AreHome};

mod columns;
mod lane;
mod marks;
mod rectangle;

use columns::Bands;
pub use columns::{Place, Scale};
use fr_base::{Channels, DifferenceRow, GrantRow, NoMemory, Params, Sending};
pub use lane::Lane;
use lane::empty_lanes;
pub(crate) use lane::lane_number;
use marks::Marks;
pub use marks::Shows;
pub use rectangle::Rectangle;
use std::alloc::Global;

/// The lanes of a plan, and how large they are.
#[derive(Drop)]
pub struct Drawing {
    /// The size of the drawing.
    pub scale: Scale,
    /// The lanes, by slot, A before B.
    pub lanes: Vec<Lane>,
}

/// Draws the grants and the cells of a schedule. The slots of these changes are shown too.
pub fn draw(
    alloc: Global,
    params: &Params,
    grants: &[GrantRow],
    cells: &[Sending],
    changes: &[DifferenceRow],
) -> Result<Drawing, NoMemory>
    ensures { IfOk result
        (λ drawing. IsDrawing params.now grants.now cells.now changes.now drawing) }
{
    let shown = Marks::of(grants, cells, changes).shown(alloc, params.static_slots())?;
    let bands = Bands::of(params, shown.as_slice());
    let scale = bands.scale(params);
    let columns = columns::columns(alloc, &bands, shown.as_slice())?;
    let mut lanes = empty_lanes(alloc, bands.channels, bands.shift, columns.as_slice())?;
    add_grants(&mut lanes, grants)?;
    add_cells(&mut lanes, cells)?;
    Ok(Drawing { scale, lanes })
}

// Draws the grants.
#[tactic(auto, using(crate::proofs::LaneLemmas::perms))]
fn add_grants(lanes: &mut Vec<Lane>, grants: &[GrantRow]) -> Result<(), NoMemory>
    requires { vec_len lanes.old ≡ 2046 }
    ensures len { vec_len lanes.new ≡ 2046 }
    ensures grants { OnOk result
        (IsPermutation (drawn_grants lanes.new.items)
        (drawn_grants lanes.old.items ++ grants.now)) }
    ensures cells { OnOk result (drawn_cells lanes.new.items ≡ drawn_cells lanes.old.items) }
    ensures held_in_turn { OnOk result (HoldMore lanes.old.items grants.now lanes.new.items) }
    ensures still { OnOk result (HaveStill lanes.old.items lanes.new.items) }
    ensures apart { OnOk result (All IsApart lanes.old.items → All IsApart lanes.new.items) }
    ensures filled { OnOk result (All IsFilled lanes.old.items → All IsFilled lanes.new.items) }
    ensures at { OnOk result ((channels : Channels) (shift : ℕ) (columns : List Place)
        → AreAt channels shift columns lanes.old.items
        → AreAt channels shift columns lanes.new.items) }
    ensures home { OnOk result (AreHome 0 lanes.old.items → AreHome 0 lanes.new.items) }
{
    for grant in grants {
        add_grant(lanes, grant)?;
    }
    Ok(())
}

// Draws one grant.
#[tactic(auto, using(crate::proofs::LaneLemmas::grant_more, crate::proofs::LaneLemmas::held_one, crate::proofs::LaneLemmas::cells_stay, crate::proofs::LaneLemmas::still_one, crate::proofs::LaneLemmas::grant_home, crate::proofs::LaneLemmas::at_stays))]
fn add_grant(lanes: &mut Vec<Lane>, grant: &GrantRow) -> Result<(), NoMemory>
    requires { vec_len lanes.old ≡ 2046 }
    ensures len { vec_len lanes.new ≡ 2046 }
    ensures grants { OnOk result
        (IsPermutation (drawn_grants lanes.new.items)
        (drawn_grants lanes.old.items ++ grant.now ∷ [])) }
    ensures cells { OnOk result (drawn_cells lanes.new.items ≡ drawn_cells lanes.old.items) }
    ensures held_in_turn { OnOk result (HoldMore lanes.old.items (grant.now ∷ []) lanes.new.items) }
    ensures still { OnOk result (HaveStill lanes.old.items lanes.new.items) }
    ensures apart { OnOk result (All IsApart lanes.old.items → All IsApart lanes.new.items) }
    ensures filled { OnOk result (All IsFilled lanes.old.items → All IsFilled lanes.new.items) }
    ensures at { OnOk result ((channels : Channels) (shift : ℕ) (columns : List Place)
        → AreAt channels shift columns lanes.old.items
        → AreAt channels shift columns lanes.new.items) }
    ensures home { OnOk result (AreHome 0 lanes.old.items → AreHome 0 lanes.new.items) }
{
    lanes[lane_number(grant.slot, grant.channel)].hold(grant)
}

// Draws the cells, in the order of cycles. A cell that follows the last rectangle of its lane, and
// is of the same frame, makes the rectangle longer.
#[tactic(auto, using(crate::proofs::LaneLemmas::perms))]
fn add_cells(lanes: &mut Vec<Lane>, cells: &[Sending]) -> Result<(), NoMemory>
    requires { vec_len lanes.old ≡ 2046 }
    ensures len { vec_len lanes.new ≡ 2046 }
    ensures cells { OnOk result (IsPermutation (drawn_cells lanes.new.items)
        (drawn_cells lanes.old.items ++ cells.now)) }
    ensures in_turn { OnOk result (HaveMore lanes.old.items cells.now lanes.new.items) }
    ensures grants { OnOk result (drawn_grants lanes.new.items ≡ drawn_grants lanes.old.items) }
    ensures still { OnOk result (HoldStill lanes.old.items lanes.new.items) }
    ensures apart { OnOk result (All IsApart lanes.old.items → All IsApart lanes.new.items) }
    ensures filled { OnOk result (All IsFilled lanes.old.items → All IsFilled lanes.new.items) }
    ensures at { OnOk result ((channels : Channels) (shift : ℕ) (columns : List Place)
        → AreAt channels shift columns lanes.old.items
        → AreAt channels shift columns lanes.new.items) }
    ensures home { OnOk result (AreHome 0 lanes.old.items → AreHome 0 lanes.new.items) }
{
    for cell in cells {
        add_cell(lanes, cell)?;
    }
    Ok(())
}

// Draws one cell.
#[tactic(auto, using(crate::proofs::LaneLemmas::cell_more, crate::proofs::LaneLemmas::turn_one, crate::proofs::LaneLemmas::held_still_one, crate::proofs::LaneLemmas::grants_stay, crate::proofs::LaneLemmas::cell_home, crate::proofs::LaneLemmas::at_stays))]
fn add_cell(lanes: &mut Vec<Lane>, cell: &Sending) -> Result<(), NoMemory>
    requires { vec_len lanes.old ≡ 2046 }
    ensures len { vec_len lanes.new ≡ 2046 }
    ensures cells { OnOk result (IsPermutation (drawn_cells lanes.new.items)
        (drawn_cells lanes.old.items ++ cell.now ∷ [])) }
    ensures in_turn { OnOk result (HaveMore lanes.old.items (cell.now ∷ []) lanes.new.items) }
    ensures grants { OnOk result (drawn_grants lanes.new.items ≡ drawn_grants lanes.old.items) }
    ensures still { OnOk result (HoldStill lanes.old.items lanes.new.items) }
    ensures apart { OnOk result (All IsApart lanes.old.items → All IsApart lanes.new.items) }
    ensures filled { OnOk result (All IsFilled lanes.old.items → All IsFilled lanes.new.items) }
    ensures at { OnOk result ((channels : Channels) (shift : ℕ) (columns : List Place)
        → AreAt channels shift columns lanes.old.items
        → AreAt channels shift columns lanes.new.items) }
    ensures home { OnOk result (AreHome 0 lanes.old.items → AreHome 0 lanes.new.items) }
{
    lanes[lane_number(cell.slot, cell.channel)].add(cell)
}
