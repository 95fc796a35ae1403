//! The tags of the planner's page, which are reckoned once.
ghost use Rattle.std.specs.Prelude.{◌≡◌};
ghost use Rattle.fr_http.specs.Conditions.{tag_of};
ghost use Rattle.fr_page.specs.Page.{text_of};

use crate::conditions::tag_of;
use fr_base::NoMemory;
use fr_page::Part;
use std::alloc::Global;
use std::marker::Model;

/// The tag of each part of the page.
#[derive(Drop)]
pub(crate) struct PageTags {
    document: String,
    style: String,
    program: String,
}

/// These tags are the parts' own.
impl Model for PageTags {
    ghost use Rattle.std.specs.Prelude.{◌≡◌, ⊤};
    ghost use Rattle.std.specs.String.{string_bytes};
    ghost use Rattle.fr_http.specs.Conditions.{tag_of};
    ghost use Rattle.fr_page.specs.Page.{text_of};
    ghost use Rattle.fr_page.specs.declared.Part.TheVariants.{Document, Style, Program};

    ghost Value = { ⊤ };

    ghost view = { λ _. tt };

    ghost invariant = { λ t. (string_bytes t.document ≡ tag_of (text_of Document))
        × (string_bytes t.style ≡ tag_of (text_of Style))
        × (string_bytes t.program ≡ tag_of (text_of Program)) };
}

impl PageTags {
    /// The tags. It is an error only for want of memory.
    #[tactic(auto, unfolding(crate::specs::Conditions::tag_of))]
    pub(crate) fn new(alloc: Global) -> Result<PageTags, NoMemory> {
        Ok(PageTags {
            document: tag_of(alloc, Part::Document.digest())?,
            style: tag_of(alloc, Part::Style.digest())?,
            program: tag_of(alloc, Part::Program.digest())?,
        })
    }

    /// The tag of this part.
    pub(crate) fn of(&self, part: Part) -> &str
        ensures { result.now ≡ tag_of (text_of part) }
    {
        match part {
            Part::Document => self.document.as_str(),
            Part::Style => self.style.as_str(),
            Part::Program => self.program.as_str(),
        }
    }
}
