//! Texts that are appended to others.
ghost use Rattle.std.specs.Prelude.{◌≡◌, OnOk};
ghost use Rattle.fr_picture.specs.Texts.{Appends, fixed_text};

use fr_base::NoMemory;

/// Appends the text.
pub(crate) fn push(text: &str, out: &mut String) -> Result<(), NoMemory>
    ensures { OnOk result (Appends out.old out.new text.now) }
{
    out.push_str(text)
}

/// The texts of a page that are always the same.
#[derive(Clone, Copy)]
pub(crate) enum Fixed {
    /// A variant without a parent.
    NoParent,
    /// The gap of a frame that is never sent.
    Never,
    /// The beginning of a payload's bits.
    StripStart,
    /// The end of a payload's bits.
    StripEnd,
    /// A payload without signals.
    NoStrip,
    /// The beginning of a path's description.
    PathStart,
    /// The beginning of cycles that no repetition has.
    CyclesStart,
    /// The end of a title.
    TitleEnd,
    /// The end of a path.
    PathEnd,
    /// The beginning of what leads to a frame's row.
    LinkStart,
    /// The shade of frames that begin in an odd cycle.
    OddShade,
    /// The end of a tag.
    TagEnd,
    /// The end of what leads to a frame's row.
    LinkEnd,
    /// The end of a text.
    TextEnd,
    /// The patterns that are drawn over colours.
    Patterns,
    /// The end of a shape, and the beginning of the shape of a pattern over it.
    OverStart,
    /// The beginning of a lane.
    LaneStart,
    /// The beginning of a supplier in the legend.
    KeyStart,
    /// The beginning of the shape of a lane that nobody is granted.
    FreeStart,
    /// A lane that nobody is granted.
    Free,
    /// The beginning of a gap that nobody holds.
    GapOfNobody,
    /// The beginning of a gap that other suppliers may hold.
    GapOfOthers,
    /// The end of a lane.
    LaneEnd,
    /// The end of a path and of its group.
    GroupEnd,
    /// The beginning of the legend.
    LegendStart,
    /// The end of the legend, with what the drawing's marks mean.
    LegendEnd,
    /// The end of the legend on the page of one supplier.
    LegendEndOfOne,
    /// The beginning of the overview.
    OverviewStart,
    /// The end of the overview.
    OverviewEnd,
    /// The beginning of the shapes.
    ShapesStart,
    /// The beginning of the cycles' numbers.
    NumbersStart,
    /// What stands beside and above the lanes of channel A alone.
    BandA,
    /// What stands beside and above the lanes of channel B alone.
    BandB,
    /// What stands beside and above the lanes of both channels.
    BandsAB,
    /// The beginning of a grant's row.
    SlotRow,
    /// What stands between two frames of a slot.
    Comma,
    /// The end of the table of slots.
    SlotTableEnd,
    /// The style of what is new or gone.
    ChangeStyle,
    /// The beginning of the index of frames.
    IndexStart,
    /// The end of the page.
    PageEnd,
}

impl Fixed {
    ghost use Rattle.std.specs.Prelude.{◌≡◌};
    ghost use Rattle.fr_picture.specs.Texts.{fixed_text};

    #[tactic(auto, unfolding(crate::specs::Texts::fixed_text))]
    fn text(self) -> &'static str
        ensures { result.now ≡ fixed_text self }
    {
        match self {
            Fixed::NoParent => NO_PARENT,
            Fixed::Never => NEVER,
            Fixed::StripStart => STRIP_START,
            Fixed::StripEnd => STRIP_END,
            Fixed::NoStrip => NO_STRIP,
            Fixed::PathStart => PATH_START,
            Fixed::CyclesStart => CYCLES_START,
            Fixed::TitleEnd => TITLE_END,
            Fixed::PathEnd => PATH_END,
            Fixed::LinkStart => LINK_START,
            Fixed::OddShade => ODD_SHADE,
            Fixed::TagEnd => TAG_END,
            Fixed::LinkEnd => LINK_END,
            Fixed::TextEnd => TEXT_END,
            Fixed::Patterns => PATTERNS,
            Fixed::OverStart => OVER_START,
            Fixed::LaneStart => LANE_START,
            Fixed::KeyStart => KEY_START,
            Fixed::FreeStart => FREE_START,
            Fixed::Free => FREE,
            Fixed::GapOfNobody => GAP_OF_NOBODY,
            Fixed::GapOfOthers => GAP_OF_OTHERS,
            Fixed::LaneEnd => LANE_END,
            Fixed::GroupEnd => GROUP_END,
            Fixed::LegendStart => LEGEND_START,
            Fixed::LegendEnd => LEGEND_END,
            Fixed::LegendEndOfOne => LEGEND_END_OF_ONE,
            Fixed::OverviewStart => OVERVIEW_START,
            Fixed::OverviewEnd => OVERVIEW_END,
            Fixed::ShapesStart => SHAPES_START,
            Fixed::NumbersStart => NUMBERS_START,
            Fixed::BandA => BAND_A,
            Fixed::BandB => BAND_B,
            Fixed::BandsAB => BANDS_AB,
            Fixed::SlotRow => SLOT_ROW,
            Fixed::Comma => COMMA,
            Fixed::SlotTableEnd => SLOT_TABLE_END,
            Fixed::ChangeStyle => CHANGE_STYLE,
            Fixed::IndexStart => INDEX_START,
            Fixed::PageEnd => PAGE_END,
        }
    }
}

const NO_PARENT: &str = "It has no parent,";

const NEVER: &str = "<td>never";

const STRIP_START: &str = "<td><svg role=none><path d=";

const STRIP_END: &str = " /></svg>";

const NO_STRIP: &str = "<td>";

const PATH_START: &str = "<path d=\"";

const CYCLES_START: &str = " cycles";

const TITLE_END: &str = "</title>";

const PATH_END: &str = "\"/>";

const LINK_START: &str = "<a";

const ODD_SHADE: &str = " class=o";

const TAG_END: &str = ">";

const LINK_END: &str = "</a>";

const TEXT_END: &str = "</text>";

const PATTERNS: &str =
    "<pattern id=t1 width=.5 height=.5 patternUnits=userSpaceOnUse><circle cx=.25 cy=.25 r=.13 /></pattern>\n<pattern id=t2 width=.5 height=.5 patternUnits=userSpaceOnUse><path d=\"M.2 0v1\"/><path class=k d=\"M.35 0v1\"/></pattern>\n<pattern id=t3 width=.5 height=.5 patternUnits=userSpaceOnUse><path d=\"M0 .2h1\"/><path class=k d=\"M0 .35h1\"/></pattern>\n<pattern id=t4 width=1 height=.5 patternUnits=userSpaceOnUse><path d=\"M.2 0v1M0 .2h1\"/><path class=k d=\"M.35 0v1M0 .35h1\"/></pattern>\n<pattern id=t5 width=.7 height=.7 patternUnits=userSpaceOnUse patternTransform=rotate(45)><path d=\"M.2 0v1\"/><path class=k d=\"M.35 0v1\"/></pattern>\n<pattern id=t6 width=.7 height=.7 patternUnits=userSpaceOnUse patternTransform=rotate(-45)><path d=\"M.2 0v1\"/><path class=k d=\"M.35 0v1\"/></pattern>\n<pattern id=t7 width=.9 height=.9 patternUnits=userSpaceOnUse patternTransform=rotate(45)><path d=\"M.2 0v1M0 .2h1\"/><path class=k d=\"M.35 0v1M0 .35h1\"/></pattern>\n";

const OVER_START: &str = "\"/><path class=h d=\"";

const LANE_START: &str = "<svg class=";

const KEY_START: &str = "<li><i class=";

const FREE_START: &str = "<path id=free d=\"";

const FREE: &str = "<use href=#free />";

const GAP_OF_NOBODY: &str = "<use href=#gap /><text class=n y=0>nobody holds ";

const GAP_OF_OTHERS: &str = "<use href=#gap /><text class=n y=0>not yours ";

const LANE_END: &str = "</svg>\n";

const GROUP_END: &str = "\"/></g>\n";

const LEGEND_START: &str = "<h2>Suppliers</h2>\n<ul>\n";

const LEGEND_END: &str =
    "</ul>\n<p>Cycles go down, slots go across. A lane is a slot on a channel. Above and below it stands the letter of the supplier that holds it. Nobody holds a crossed lane, nor the slots of a grey strip. A frame that begins in an odd cycle has the other shade of its supplier's colour. A hatched cell is granted, and nothing is sent in it. A rectangle leads to its frame's row in the table below, whose number stands in the first of a lane, and a placement there leads back. Hover over a rectangle to see its frame, its node and supplier, its slot and channel, and its cycles; 1/4 is base 1 and repetition 4. The tables below say the same.</p>\n";

const LEGEND_END_OF_ONE: &str =
    "</ul>\n<p>Cycles go down, slots go across. A lane is a slot on a channel. Above and below it stands the letter of the supplier that holds it. A crossed lane and the slots of a grey strip are another supplier's or nobody's. A frame that begins in an odd cycle has the other shade of its supplier's colour. A hatched cell is granted, and nothing is sent in it. A rectangle leads to its frame's row in the table below, whose number stands in the first of a lane, and a placement there leads back. Hover over a rectangle to see its frame, its node and supplier, its slot and channel, and its cycles; 1/4 is base 1 and repetition 4. The tables below say the same.</p>\n";

const OVERVIEW_START: &str =
    "<h2>Overview</h2>\n<p>Each part leads to its drawing. Below it stands the first of its slots.</p>\n<nav>\n";

const OVERVIEW_END: &str = "</nav>\n";

const SHAPES_START: &str = "<div class=defs><svg aria-hidden=true><g><defs>\n";

const NUMBERS_START: &str = "<g id=numbers>";

const BAND_A: &str =
    "</g><g id=cycles><use href=#numbers /><text class=band x=4 y=-3.6>channel A</text></g></defs>\n";

const BAND_B: &str =
    "</g><g id=cycles><use href=#numbers /><text class=band x=4 y=-3.6>channel B</text></g></defs>\n";

const BANDS_AB: &str =
    "</g><g id=cycles><use href=#numbers /><use href=#numbers x=68 /><text class=band x=4 y=-3.6>channel A</text><text class=band x=72 y=-3.6>channel B</text></g></defs>\n";

const SLOT_ROW: &str = "<tr><td>";

const COMMA: &str = ",";

const SLOT_TABLE_END: &str = "</table>\n";

const CHANGE_STYLE: &str =
    ".new,.gone{fill:none;--p:none}\n.new{--edge:#060;--line:.3px}\n.gone{--edge:#a00;--line:.2px;stroke-dasharray:.5px .3px}\n.sign{text-anchor:end;font-weight:bold;transform:translate(-.15px,.1px);paint-order:stroke;stroke:#fff;stroke-width:.2px;stroke-dasharray:none}\n";

const INDEX_START: &str =
    "<h2>Frames</h2>\n<p>By name, each with its supplier's letter and its number in the table below:</p>\n<ul class=index>\n";

const PAGE_END: &str = "</table>\n</html>\n";

/// Appends a text that is always the same.
pub(crate) fn push_fixed(fixed: Fixed, out: &mut String) -> Result<(), NoMemory>
    ensures { OnOk result (Appends out.old out.new (fixed_text fixed)) }
{
    push(fixed.text(), out)
}
