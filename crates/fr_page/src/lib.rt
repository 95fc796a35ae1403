//! The planner's page: its parts, each with the bytes that a browser gets, and their digest.
#![tactic(auto)]

ghost use Rattle.std.specs.Prelude.{◌≡◌, IfOk};
ghost use Rattle.sha2.specs.Sha256.{sha256};
ghost use Rattle.fr_page.specs.Page.{pieces_of, text_of, text_of_piece};

mod page;

use page::{DOCUMENT, PROGRAM_1, PROGRAM_2, PROGRAM_3, PROGRAM_4, STYLE};
use sha2::{Digest, Sha256};
use std::alloc::{AllocError, Global};

/// A part of the page, which is a reply of its own. It is in ASCII.
#[derive(Clone, Copy, PartialEq, Eq)]
pub enum Part {
    /// The HTML, which names the other two.
    Document,
    Style,
    Program,
}

impl Part {
    /// Its bytes. It is an error only for want of memory.
    #[tactic(auto, unfolding(crate::specs::Page::text_of))]
    pub fn bytes(self, alloc: Global) -> Result<Vec<u8>, AllocError>
        ensures { IfOk result (λ bytes. bytes.items ≡ text_of self) }
    {
        let mut bytes = Vec::new(alloc);
        for piece in self.pieces() {
            bytes.extend_from_slice(piece.text().as_bytes())?;
        }
        Ok(bytes)
    }

    /// The SHA-256 of its bytes.
    #[tactic(auto, unfolding(crate::specs::Page::text_of))]
    pub fn digest(self) -> [u8; 32]
        ensures { result ≡ sha256 (text_of self) }
    {
        let mut hasher = Sha256::new();
        for piece in self.pieces() {
            hasher.update(piece.text().as_bytes());
        }
        hasher.finalize()
    }

    // Its pieces, in their order.
    fn pieces(self) -> &'static [Piece]
        ensures { result.now ≡ pieces_of self }
    {
        match self {
            Part::Document => &[Piece::Document],
            Part::Style => &[Piece::Style],
            Part::Program => &[
                Piece::Program1,
                Piece::Program2,
                Piece::Program3,
                Piece::Program4,
            ],
        }
    }
}

/// A piece of a part: a constant. The program has several, since the prover takes none of its length.
#[derive(Clone, Copy, PartialEq, Eq)]
pub enum Piece {
    Document,
    Style,
    Program1,
    Program2,
    Program3,
    Program4,
}

impl Piece {
    // Its bytes.
    #[tactic(auto, unfolding(crate::specs::Page::text_of_piece))]
    fn text(self) -> &'static str
        ensures { result.now ≡ text_of_piece self }
    {
        match self {
            Piece::Document => DOCUMENT,
            Piece::Style => STYLE,
            Piece::Program1 => PROGRAM_1,
            Piece::Program2 => PROGRAM_2,
            Piece::Program3 => PROGRAM_3,
            Piece::Program4 => PROGRAM_4,
        }
    }
}
