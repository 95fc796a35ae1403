//! What a page sends in a cycle.
ghost use Rattle.std.specs.Prelude.{◌≡◌, IfErr, IfOk};
ghost use Rattle.fr_base.specs.declared.refusal.Refusal.TheVariants.{Unavailable};
ghost use Rattle.fr_world.specs.Pages.{own_rows_of};
ghost use Rattle.fr_world.specs.Sendings.{page_sendings};

use crate::page::Page;
use crate::triggerings::Triggerings;
use fr_base::{Refusal, Rows, Sending};
use std::alloc::Global;

/// What the page's supplier sends in the cycle, 0 to 63: by slot, and then A before B. `Unavailable`
/// where memory is refused.
pub fn sent(alloc: Global, page: &Page, cycle: u8) -> Result<Rows<Sending>, Refusal>
    ensures rows { IfOk result (λ rows. rows ≡ page_sendings (own_rows_of page.now) cycle) }
    ensures unavailable { IfErr result (λ e. e ≡ Unavailable) }
{
    let mut triggerings = Triggerings::new(alloc);
    triggerings.push_page(page)?;
    let mut rows = Rows::new(alloc);
    triggerings.push_sendings(alloc, &page.params(), cycle, &mut rows)?;
    Ok(rows)
}
