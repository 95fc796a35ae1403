//! The requests that the integrator alone gives, made of the values of their fields.
ghost use Rattle.std.specs.Prelude.{◌≡◌, IfOk, codes};
ghost use Rattle.fr_text.specs.Fields.{fields_in, flag, text_or_null};
ghost use Rattle.fr_text.specs.RequestText.{beginning, integrators, picked};

use crate::fields::{Fields, copy_text, copy_text_or_null, flag_in, number_in};
use fr_base::{Beginning, NoMemory, Request, Text};
use std::alloc::Global;

/// The request of this word, if it is one of these.
#[tactic(auto, unfolding(crate::specs::RequestText::integrators))]
pub(super) fn pick(alloc: Global, word: &str, fields: &Fields) -> Result<Option<Request>, NoMemory>
    ensures { IfOk result (λ request. request ≡ picked integrators word.now (fields_in fields.now)) }
{
    match word {
        "open_variant" => Ok(Some(Request::OpenVariant {
            variant: copy_text(alloc, fields, "variant")?,
            beginning: beginning(alloc, fields)?,
        })),
        "release" => Ok(Some(Request::Release {
            variant: copy_text(alloc, fields, "variant")?,
        })),
        "add_supplier" => Ok(Some(Request::AddSupplier {
            supplier: copy_text(alloc, fields, "supplier")?,
            key: copy_text(alloc, fields, "key")?,
        })),
        "set_key" => Ok(Some(Request::SetKey {
            supplier: copy_text(alloc, fields, "supplier")?,
            key: copy_text(alloc, fields, "key")?,
        })),
        "add_node" => Ok(Some(Request::AddNode {
            supplier: copy_text(alloc, fields, "supplier")?,
            node: copy_text(alloc, fields, "node")?,
        })),
        "grant" => Ok(Some(Request::Grant {
            variant: copy_text(alloc, fields, "variant")?,
            slot: number_in(fields, "slot"),
            channel: copy_text(alloc, fields, "channel")?,
            supplier: copy_text(alloc, fields, "supplier")?,
            node: copy_text(alloc, fields, "node")?,
        })),
        "revoke" => Ok(Some(Request::Revoke {
            variant: copy_text(alloc, fields, "variant")?,
            slot: number_in(fields, "slot"),
            channel: copy_text(alloc, fields, "channel")?,
            supplier: copy_text(alloc, fields, "supplier")?,
        })),
        _ => Ok(None),
    }
}

// What a new variant begins with.
fn beginning(alloc: Global, fields: &Fields) -> Result<Beginning<Text>, NoMemory>
    ensures { let fields = fields_in fields.now in IfOk result (λ begins. begins
        ≡ beginning (text_or_null fields (codes "from")) (flag fields (codes "flat"))) }
{
    let Some(from) = copy_text_or_null(alloc, fields, "from")? else {
        return Ok(Beginning::Empty);
    };
    if flag_in(fields, "flat") {
        Ok(Beginning::Flat(from))
    } else {
        Ok(Beginning::From(from))
    }
}
