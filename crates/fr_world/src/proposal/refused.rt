//! Which wishes the supplier's rows refuse.
ghost use Rattle.std.specs.List.{list_any};
ghost use Rattle.std.specs.Prelude.{◌≡◌, ◌+◌, [], ◌∷◌, Some, None, Ok, Err, is_some, true, false, IfOk, MatchOption, MatchResult, option_map, if◌then◌else◌};
ghost use Rattle.fr_base.specs.Keys.{owned};
ghost use Rattle.fr_base.specs.RefusedWishes.{admits_wish, count_wish, counted_frames, frames_beside, has_another_node, judge, judged, one_more};
ghost use Rattle.fr_base.specs.RefusedWishes.{Counted as CountedFrame};
ghost use Rattle.fr_base.specs.Tables.{Table, get, len};
ghost use Rattle.fr_world.specs.Counts.{ShowCounts, count_of, counted_of, is_freed, is_full_at, names_frame};
ghost use Rattle.fr_world.specs.Pages.{frame_data, frame_of, own_rows_of};

use super::slots::holds_slot;
use crate::decision::rows::{frame_named, has_node};
use crate::page::{Page, PageFrame};
use fr_base::{MAX_FRAMES, MAX_PLACEMENTS, Name, NoMemory, Refusal, Wish, WishRead};
use std::alloc::Global;
use std::collections::BTreeMap;

/// Whether the frame's placements are freed: wishes that are to replace name it. A wish that its own text
/// refuses names none.
pub(super) fn is_freed(replace: bool, reads: &[WishRead], frame: Name) -> bool
    ensures { result ≡ is_freed replace reads.now frame }
{
    replace && are_naming(reads, frame)
}

// Whether one of the wishes names the frame.
fn are_naming(reads: &[WishRead], frame: Name) -> bool
    ensures { result ≡ list_any (λ read. names_frame frame read.wish) reads.now }
{
    reads.iter().any(|read| names(read, frame))
}

// Whether the wish names the frame.
fn names(read: &WishRead, frame: Name) -> bool
    ensures { result ≡ names_frame frame read.now.wish }
{
    match read.wish {
        Ok(wish) => wish.frame == frame,
        Err(_) => false,
    }
}

/// A frame's node, and how many placements count.
#[derive(Clone, Copy)]
pub(super) struct Counted {
    pub(super) node: Name,
    pub(super) placements: usize,
}

/// How many frames count, and what counts of those that wishes name which are not refused. Of the others
/// counts what they have on the page.
#[derive(Drop)]
pub(super) struct Counts {
    pub(super) frames: usize,
    pub(super) wished: BTreeMap<Name, Counted>,
}

// What counts with a wish: of its frame, and how many frames.
#[derive(Clone, Copy)]
struct Counting {
    counted: Counted,
    frames: usize,
}

impl Counts {
    // Before any wish. It takes no memory.
    fn new(alloc: Global, page: &Page) -> Counts
        ensures frames { result.frames ≡ len (own_rows_of page.now).frames }
        ensures none { result.wished.entries ≡ [] }
    {
        Counts {
            frames: page.frames().len(),
            wished: BTreeMap::new(alloc),
        }
    }

    // What counts of the frame, if it is there.
    fn of(&self, page: &Page, replace: bool, reads: &[WishRead], frame: Name) -> Option<Counted>
        ensures { (counted : Table owned CountedFrame)
            → ShowCounts page.now (is_freed replace reads.now) self.now counted
            → option_map counted_of result ≡ get counted (page.now.supplier, frame) }
    {
        if let Some(one) = self.wished.get(&frame) {
            return Some(*one);
        }
        let row = frame_named(page, frame)?;
        Some(count_of(row, is_freed(replace, reads, frame)))
    }

    // The wish, or what refuses it: its own text, or the rows. One that is not refused counts.
    fn judge(
        &mut self,
        page: &Page,
        replace: bool,
        reads: &[WishRead],
        read: &WishRead,
    ) -> Result<WishRead, NoMemory>
        ensures { (counted : Table owned CountedFrame)
            → ShowCounts page.now (is_freed replace reads.now) self.old counted
            → IfOk result (λ one. let wish = judged (own_rows_of page.now) counted read.now.wish in
            (one ≡ record { line = read.now.line; wish = wish })
            × ShowCounts page.now (is_freed replace reads.now) self.new
            (count_wish page.now.supplier counted wish)) }
    {
        let Ok(wish) = &read.wish else {
            return Ok(*read);
        };
        let there = self.of(page, replace, reads, wish.frame);
        match admit(page, wish, &there, self.frames) {
            Ok(counting) => {
                self.wished.insert(wish.frame, counting.counted)?;
                self.frames = counting.frames;
                Ok(*read)
            }
            Err(refusal) => {
                let line = read.line;
                let wish = Err(refusal);
                Ok(WishRead { line, wish })
            }
        }
    }
}

// What counts of the page's frame, freed or not.
fn count_of(row: &PageFrame, freed: bool) -> Counted
    ensures { counted_of result ≡ count_of freed (frame_of (frame_data row.now)) }
{
    let node = row.node;
    if freed {
        return Counted {
            node,
            placements: 0,
        };
    }
    Counted {
        node,
        placements: row.placements.len(),
    }
}

// What counts with the wish, where so much counts of its frame and so many frames; or the first refusal
// that applies: `NoNode`, `NodeDiffers`, `NotGranted`, `Limit`.
fn admit(
    page: &Page,
    wish: &Wish,
    there: &Option<Counted>,
    frames: usize,
) -> Result<Counting, Refusal>
    ensures { (counted : Table owned CountedFrame) → len counted ≡ frames
        → get counted (page.now.supplier, wish.now.frame) ≡ option_map counted_of there.now
        → MatchResult result
        (λ counting. (admits_wish (own_rows_of page.now) counted wish.now ≡ Ok tt)
        × (counted_of counting.counted ≡ one_more wish.now (option_map counted_of there.now))
        × (counting.frames ≡ (if is_some there.now then frames else frames + 1)))
        (λ e. admits_wish (own_rows_of page.now) counted wish.now ≡ Err e) }
{
    if !has_node(page, wish.node) {
        return Err(Refusal::NoNode);
    }
    if is_of_another(there, wish.node) {
        return Err(Refusal::NodeDiffers);
    }
    if !holds_slot(page, wish.node, wish.channels) {
        return Err(Refusal::NotGranted);
    }
    match counted_with(wish, there, frames) {
        Some(counting) => Ok(counting),
        None => Err(Refusal::Limit),
    }
}

// Whether what counts of the frame has another node.
fn is_of_another(there: &Option<Counted>, node: Name) -> bool
    ensures { result ≡ has_another_node node (option_map counted_of there.now) }
{
    match there {
        Some(one) => one.node != node,
        None => false,
    }
}

// What counts with the wish, if there may be one placement more, and one frame more where the frame is
// not there.
fn counted_with(wish: &Wish, there: &Option<Counted>, frames: usize) -> Option<Counting>
    ensures { MatchOption result (is_full_at frames (option_map counted_of there.now) ≡ true)
        (λ counting. (is_full_at frames (option_map counted_of there.now) ≡ false)
        × (counted_of counting.counted ≡ one_more wish.now (option_map counted_of there.now))
        × (counting.frames ≡ (if is_some there.now then frames else frames + 1))) }
{
    match there {
        Some(one) => {
            if one.placements >= MAX_PLACEMENTS {
                return None;
            }
            let counted = Counted {
                node: one.node,
                placements: one.placements + 1,
            };
            Some(Counting { counted, frames })
        }
        None => {
            if frames >= MAX_FRAMES {
                return None;
            }
            let counted = Counted {
                node: wish.node,
                placements: 1,
            };
            let frames = frames + 1;
            Some(Counting { counted, frames })
        }
    }
}

/// The wishes in the order of lines, each or what refuses it: its own text, or the first of `NoNode`,
/// `NodeDiffers`, `NotGranted` and `Limit` that applies, where the wishes before it count that are not
/// refused.
pub(super) fn judged(
    alloc: Global,
    page: &Page,
    replace: bool,
    reads: &[WishRead],
) -> Result<Vec<WishRead>, NoMemory>
    ensures { IfOk result (λ told. told.items ≡ judge (own_rows_of page.now)
        (counted_frames (frames_beside (own_rows_of page.now) replace reads.now)) reads.now) }
{
    let mut counts = Counts::new(alloc, page);
    let mut judged = Vec::new(alloc);
    for read in reads {
        let one = counts.judge(page, replace, reads, read)?;
        judged.push(one)?;
    }
    Ok(judged)
}
