//! The requests that a supplier gives by a file, made of the values of their fields.
ghost use Rattle.std.specs.Prelude.{◌≡◌, Some, codes, IfOk};
ghost use Rattle.fr_text.specs.Fields.{fields_in, flag, text};
ghost use Rattle.fr_text.specs.RequestText.{manner_of, of_files, picked};

use crate::fields::{Fields, copy_body, copy_text, flag_in};
use fr_base::{Manner, NoMemory, Purpose, Request, Text};
use std::alloc::Global;

/// The request of this word, if it is one of these.
#[tactic(auto, unfolding(crate::specs::RequestText::of_files))]
pub(super) fn pick(alloc: Global, word: &str, fields: &Fields) -> Result<Option<Request>, NoMemory>
    ensures { IfOk result (λ request. request ≡ picked of_files word.now (fields_in fields.now)) }
{
    match word {
        "import" => {
            let label = copy_text(alloc, fields, "label")?;
            delivery(alloc, fields, Purpose::Import { label })
        }
        "replace" => {
            let whole = flag_in(fields, "whole");
            delivery(alloc, fields, Purpose::Replacement { whole })
        }
        "try" => {
            let manner = manner_in(fields);
            delivery(alloc, fields, Purpose::Trial { manner })
        }
        "propose" => {
            let replace = flag_in(fields, "replace");
            delivery(alloc, fields, Purpose::Proposal { replace })
        }
        _ => Ok(None),
    }
}

// The request that delivers the file of the fields.
fn delivery(alloc: Global, fields: &Fields, how: Purpose<Text>) -> Result<Option<Request>, NoMemory>
    ensures { IfOk result (λ request. request ≡ Some (Request.Deliver
        (text (fields_in fields.now) (codes "variant")) how
        (text (fields_in fields.now) (codes "body")))) }
{
    Ok(Some(Request::Deliver {
        variant: copy_text(alloc, fields, "variant")?,
        how,
        body: copy_body(alloc, fields, "body")?,
    }))
}

// How the rows of a file that is tried act: as a replacement, which may be whole, or else as an import.
fn manner_in(fields: &Fields) -> Manner
    ensures { result ≡ manner_of (flag (fields_in fields.now) (codes "replace"))
        (flag (fields_in fields.now) (codes "whole")) }
{
    if flag_in(fields, "replace") {
        let whole = flag_in(fields, "whole");
        Manner::Replace { whole }
    } else {
        Manner::Import
    }
}
