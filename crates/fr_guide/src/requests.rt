//! The faults of a request's text.
ghost use Rattle.std.specs.Prelude.{◌≡◌, IfOk};
ghost use Rattle.fr_guide.specs.Faults.{are_none};
ghost use Rattle.fr_guide.specs.Requests.{is_fine_request};

mod fields;
mod json;
mod names;

use crate::line_faults::one_fault;
use crate::requests::fields::{field_faults, no_request};
use crate::requests::json::{no_json, no_object};
use crate::requests::names::name_faults;
use fr_base::NoMemory;
use fr_text::{JsonFault, RequestFault, read_json, read_request};
use std::alloc::{AllocError, Global};

/// What is wrong with the text of a request, which begins behind so many bytes of its line: why it is none, or
/// which of its names are no names. The register is not asked, so a name may be that of nothing. Whether something is told
/// is said by a clause; what is, and in which words, by none.
#[tactic(auto, unfolding(crate::specs::Requests::is_fine_request, fr_text::specs::RequestText::request_of))]
pub fn request_faults(alloc: Global, text: &[u8], before: usize) -> Result<Vec<String>, NoMemory>
    ensures { IfOk result (λ faults. are_none faults.items ≡ is_fine_request text.now) }
{
    let value = match read_json(alloc, text) {
        Ok(value) => value,
        Err(JsonFault::NoMemory) => return Err(AllocError),
        Err(JsonFault::NotUtf8) => {
            return one_fault(alloc, String::from_str(alloc, "the text is not UTF-8")?);
        }
        Err(JsonFault::NotJson(error)) => {
            return one_fault(alloc, no_json(alloc, text, before, &error)?);
        }
    };
    match read_request(alloc, &value) {
        Ok(request) => name_faults(alloc, &request),
        Err(RequestFault::NoMemory) => Err(AllocError),
        Err(RequestFault::NoObject) => one_fault(alloc, no_object(alloc, &value)?),
        Err(RequestFault::NoRequest(found)) => one_fault(alloc, no_request(alloc, found)?),
        Err(RequestFault::OfFields(form, faults)) => field_faults(alloc, form, &faults),
    }
}
