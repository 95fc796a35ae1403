//! Where the lanes of a drawing stand.
ghost use Rattle.std.specs.Prelude.{◌≡◌, ◌+◌, ◌-◌, ◌≤◌, Some, None, IfOk, length, map};
ghost use Rattle.fr_base.specs.declared.channel.Channels.TheVariants.{AB};
ghost use Rattle.std.specs.List.{All, count_by};
ghost use Rattle.std.specs.Vec.{vec_len};
ghost use Rattle.fr_picture.specs.Places.{AreInOrder, IsBehind, IsNamed, IsWide, OpensFirst, first_of, is_gap, is_slot, lane_width, shift_of, width_of};

use crate::drawing::marks::Shows;
use fr_base::{Channels, NoMemory, Params};
use std::alloc::Global;

// The left edge of a part's first column, behind the numbers of the cycles.
const START: u32 = 4;

/// The size of a drawing, in units of a cycle's height.
#[derive(Clone, Copy)]
pub struct Scale {
    /// How many cycles there are: the height of a lane.
    pub cycles: u32,
    /// The height of a part of the drawing, with the slots' numbers.
    pub height: u32,
    /// The width of a lane.
    pub width: u32,
}

/// The place of a slot or a gap in a drawing, in units of a cycle's height.
#[derive(Clone, Copy)]
pub struct Place {
    /// If a part of the drawing begins here, the part's first slot.
    pub opens: Option<u32>,
    /// The left edge.
    pub x: u32,
    /// The width.
    pub width: u32,
    /// What is shown there.
    pub shows: Shows,
}

/// The channels of a cluster, side by side, and the width of a lane.
#[derive(Clone, Copy)]
pub(crate) struct Bands {
    /// The channels.
    pub(crate) channels: Channels,
    /// How much further right channel B stands than channel A.
    pub(crate) shift: u32,
    // The right edge of the first channel's lanes.
    end: u32,
    width: u32,
    ghost shift_in_range: { shift ≤ 68 },
    ghost end_in_range: { (16 ≤ end) × (end ≤ 136) },
    ghost width_in_range: { (2 ≤ width) × (width ≤ 12) },
}

impl Bands {
    /// The channels side by side, where this is shown on each. Lanes are wide where there are few.
    pub(crate) fn of(params: &Params, shown: &[Shows]) -> Bands
        ensures channels { result.channels ≡ params.now.channels }
        ensures shift { result.shift ≡ shift_of params.now.channels }
        ensures whole { result.end + result.shift ≡ 136 }
        ensures beside { params.now.channels ≡ AB → result.shift ≡ result.end }
        ensures room { result.width ≡ lane_width (result.end - 4) shown.now }
    {
        let channels = params.channels();
        let (end, shift) = match channels {
            Channels::AB => (68, 68),
            Channels::A | Channels::B => (136, 0),
        };
        Bands {
            channels,
            shift,
            end,
            width: lane_width(end - START, shown),
        }
    }

    /// The size of the drawing.
    pub(crate) fn scale(&self, params: &Params) -> Scale
        ensures { result ≡ record {
          cycles = params.now.cycles;
          height = params.now.cycles + 5;
          width = self.now.width;
        } }
    {
        Scale {
            cycles: params.cycles(),
            height: params.cycles() + 5,
            width: self.width,
        }
    }

    // The width of a column that shows this.
    fn width_of(&self, shows: Shows) -> u32
        ensures small { result ≤ 12 }
        ensures value { result ≡ width_of self.now.width shows }
        ensures nothing { result ≡ 0 → shows ≡ Shows.Nothing }
    {
        match shows {
            Shows::Nothing => 0,
            Shows::Slot(_) => self.width,
            Shows::Gap(_, _) => 1,
        }
    }
}

// How wide a lane is, where all that is shown shares this room: as wide as there is room for all, from 2 to 12.
#[tactic(auto, unfolding(crate::specs::Places::lane_width))]
fn lane_width(room: u32, shown: &[Shows]) -> u32
    ensures value { result ≡ lane_width room shown.now }
    ensures least { 2 ≤ result }
    ensures most { result ≤ 12 }
{
    let free = (room as usize).saturating_sub(count_gaps(shown));
    let width = free / count_slots(shown).max(1);
    width.max(2).min(12) as u32
}

// How many slots are shown.
fn count_slots(shown: &[Shows]) -> usize
    ensures { result ≡ count_by is_slot shown.now }
{
    shown.iter().filter(|shows| shows.is_slot()).count()
}

// How many gaps are shown.
fn count_gaps(shown: &[Shows]) -> usize
    ensures { result ≡ count_by is_gap shown.now }
{
    shown.iter().filter(|shows| shows.is_gap()).count()
}

// The first of the slots that are shown.
fn first_of(shows: Shows) -> u32
    ensures { result ≡ first_of shows }
{
    match shows {
        Shows::Nothing => 0,
        Shows::Slot(slot) => slot,
        Shows::Gap(first, _) => first,
    }
}

// The next column, which shows this. It stands at `end`, where the one before it ends. Where it has
// no room there, it begins a new part of the drawing.
fn column(bands: &Bands, end: u32, shows: Shows) -> Place
    requires { end ≤ bands.now.end }
    ensures shows { result.shows ≡ shows }
    ensures wide { IsWide bands.now.width result }
    ensures from { 4 ≤ end → 4 ≤ result.x }
    ensures beside { result.x + result.width ≤ bands.now.end }
    ensures within { result.x + result.width ≤ 136 }
    ensures named { IsNamed result }
    ensures behind { IsBehind bands.now.end end result }
    ensures unopened { end ≡ bands.now.end → result.opens ≡ None
        → (result.shows ≡ Shows.Nothing) × (result.x + result.width ≡ bands.now.end) }
{
    let width = bands.width_of(shows);
    if width > 0 && end + width > bands.end {
        return Place {
            opens: Some(first_of(shows)),
            x: START,
            width,
            shows,
        };
    }
    Place {
        opens: None,
        x: end,
        width,
        shows,
    }
}

/// The columns of a drawing, where this is shown in them, one for each slot number.
pub(crate) fn columns(alloc: Global, bands: &Bands, shown: &[Shows]) -> Result<Vec<Place>, NoMemory>
    ensures len { IfOk result (λ columns. vec_len columns ≡ length shown.now) }
    ensures shown { IfOk result (λ columns. map (λ p. p.shows) columns.items ≡ shown.now) }
    ensures order { IfOk result (λ columns. AreInOrder bands.now.end bands.now.end columns.items) }
    ensures opened { IfOk result (λ columns. OpensFirst columns.items) }
    ensures named { IfOk result (λ columns. All IsNamed columns.items) }
    ensures wide { IfOk result (λ columns. All (IsWide bands.now.width) columns.items) }
    ensures from { IfOk result (λ columns. All (λ p. 4 ≤ p.x) columns.items) }
    ensures beside { IfOk result
        (λ columns. All (λ p. p.x + p.width ≤ bands.now.end) columns.items) }
    ensures within { IfOk result (λ columns. All (λ p. p.x + p.width ≤ 136) columns.items) }
{
    let mut columns = Vec::new(alloc);
    let mut end = bands.end;
    for shows in shown {
        let next = column(bands, end, *shows);
        end = next.x + next.width;
        columns.push(next)?;
    }
    Ok(columns)
}
