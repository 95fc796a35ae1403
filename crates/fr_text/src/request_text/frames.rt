//! The requests that a supplier gives on a frame, made of the values of their fields.
ghost use Rattle.std.specs.Prelude.{◌≡◌, IfOk};
ghost use Rattle.fr_text.specs.Fields.{fields_in};
ghost use Rattle.fr_text.specs.RequestText.{of_frames, picked};

use crate::fields::{Fields, copy_text, number_in};
use fr_base::{NoMemory, Request};
use std::alloc::Global;

/// The request of this word, if it is one of these.
#[tactic(auto, unfolding(crate::specs::RequestText::of_frames))]
pub(super) fn pick(alloc: Global, word: &str, fields: &Fields) -> Result<Option<Request>, NoMemory>
    ensures { IfOk result (λ request. request ≡ picked of_frames word.now (fields_in fields.now)) }
{
    match word {
        "add_frame" => Ok(Some(Request::AddFrame {
            variant: copy_text(alloc, fields, "variant")?,
            frame: copy_text(alloc, fields, "frame")?,
            node: copy_text(alloc, fields, "node")?,
        })),
        "drop_frame" => Ok(Some(Request::DropFrame {
            variant: copy_text(alloc, fields, "variant")?,
            frame: copy_text(alloc, fields, "frame")?,
        })),
        "place" => Ok(Some(Request::Place {
            variant: copy_text(alloc, fields, "variant")?,
            frame: copy_text(alloc, fields, "frame")?,
            slot: number_in(fields, "slot"),
            channels: copy_text(alloc, fields, "channels")?,
            base: number_in(fields, "base"),
            repetition: number_in(fields, "repetition"),
        })),
        "unplace" => Ok(Some(Request::Unplace {
            variant: copy_text(alloc, fields, "variant")?,
            frame: copy_text(alloc, fields, "frame")?,
            slot: number_in(fields, "slot"),
            channels: copy_text(alloc, fields, "channels")?,
            base: number_in(fields, "base"),
            repetition: number_in(fields, "repetition"),
        })),
        "add_signal" => Ok(Some(Request::AddSignal {
            variant: copy_text(alloc, fields, "variant")?,
            frame: copy_text(alloc, fields, "frame")?,
            signal: copy_text(alloc, fields, "signal")?,
            start: number_in(fields, "start"),
            length: number_in(fields, "length"),
            order: copy_text(alloc, fields, "order")?,
        })),
        "drop_signal" => Ok(Some(Request::DropSignal {
            variant: copy_text(alloc, fields, "variant")?,
            frame: copy_text(alloc, fields, "frame")?,
            signal: copy_text(alloc, fields, "signal")?,
        })),
        _ => Ok(None),
    }
}
