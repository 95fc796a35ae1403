//! How many bytes a page takes in memory, and a page beside which that stands.
ghost use Rattle.std.specs.Prelude.{◌≡◌, ◌≤◌};
ghost use Rattle.fr_office.specs.KeptPages.{bytes_of, frame_bytes};
ghost use Rattle.fr_office.specs.declared.page_bytes.TheConstants.{MAX_BYTES};
ghost use Rattle.fr_world.specs.Pages.{frame_data};

use fr_world::{Page, PageFrame};
use std::marker::Model;

/// The most bytes that are reckoned for a page, 64 MiB, and for pages that were used one after another where nothing else is
/// said. No clause ties what is reckoned to what memory they have.
pub const MAX_BYTES: usize = 67_108_864;

/// The bytes that a page takes at most beside its frames and grants: its names, its nodes, and its place on a shelf.
const PAGE_BYTES: usize = 8_192;

/// The bytes that a frame takes at most beside what is reckoned for each of its placements and signals: its place in a
/// tree whose nodes may be half empty, and the one node of its set of placements.
const FRAME_BYTES: usize = 512;

/// The bytes that a placement takes at most beside its place in its frame: in a list of the page's, which may have room for
/// twice as many, and in a tree of the slots that are used, whose nodes may be half empty.
const PLACEMENT_BYTES: usize = 160;

/// The bytes that a signal takes at most, in a list that may have room for twice as many.
const SIGNAL_BYTES: usize = 112;

/// The bytes that a grant takes at most, in a tree whose nodes may be half empty.
const GRANT_BYTES: usize = 160;

/// The most placements of a frame.
const MOST_PLACEMENTS: usize = 8;

/// The most signals of a frame.
const MOST_SIGNALS: usize = 64;

/// The most grants of a page: of 1,023 slots on two channels.
const MOST_GRANTS: usize = 2_046;

/// A page, and how many bytes it takes.
#[derive(Drop)]
pub(crate) struct Weighed {
    page: Page,
    bytes: usize,
}

impl Model for Weighed {
    ghost use Rattle.std.specs.Prelude.{◌≡◌};
    ghost use Rattle.fr_office.specs.KeptPages.{bytes_of};
    ghost use Rattle.fr_world.specs.Pages.{PageData};

    ghost Value = { PageData };

    ghost view = { λ w. w.page };

    ghost invariant = { λ w. w.bytes ≡ bytes_of w.page };
}

impl Weighed {
    /// The page, once its bytes are reckoned.
    pub(crate) fn new(page: Page) -> Weighed
        ensures { result ≡ page }
    {
        let bytes = bytes_of(&page);
        Weighed { page, bytes }
    }

    /// The page.
    pub(crate) fn page(&self) -> &Page
        ensures { result.now ≡ self.now }
    {
        &self.page
    }

    /// The page alone.
    pub(crate) fn into_page(self) -> Page
        ensures { result ≡ self }
    {
        let Weighed { page, bytes: _ } = self;
        page
    }

    /// How many bytes it takes at most.
    #[tactic(auto, unfolding(crate::specs::KeptPages::bytes_of))]
    pub(crate) fn bytes(&self) -> usize
        ensures value { result ≡ bytes_of self.now }
        ensures bound { result ≤ MAX_BYTES }
    {
        self.bytes
    }
}

// How many bytes a page takes at most. One that might take more than is reckoned for a page is reckoned as that.
#[tactic(auto, using(crate::proofs::PageBytes::frames_weigh), unfolding(crate::specs::KeptPages::bytes_of))]
fn bytes_of(page: &Page) -> usize
    ensures { result ≡ bytes_of page.now }
{
    let grants = page.grants().len().min(MOST_GRANTS);
    let mut bytes = PAGE_BYTES + grants * GRANT_BYTES;
    for frame in page.frames().values() {
        bytes = (bytes + frame_bytes(frame)).min(MAX_BYTES);
    }
    bytes
}

// How many bytes a frame takes at most.
#[tactic(auto, unfolding(crate::specs::KeptPages::frame_bytes))]
fn frame_bytes(frame: &PageFrame) -> usize
    ensures value { result ≡ frame_bytes (frame_data frame.now) }
    ensures bound { result ≤ MAX_BYTES }
{
    let placements = frame.placements.len().min(MOST_PLACEMENTS);
    let signals = frame.layout.signals().len().min(MOST_SIGNALS);
    FRAME_BYTES + placements * PLACEMENT_BYTES + signals * SIGNAL_BYTES
}
