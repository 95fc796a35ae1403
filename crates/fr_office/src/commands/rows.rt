//! Changes of a supplier's rows in a variant, each as the supplier's page decides it.
ghost use Rattle.std.specs.Prelude.{IsTrue};
ghost use Rattle.fr_base.specs.Step.{change_rows};
ghost use Rattle.fr_base.specs.Tables.{contains};
ghost use Rattle.fr_office.specs.Carried.{CarriesStep};
ghost use Rattle.fr_office.specs.Decided.{IsGrant, IsOfFrame, IsRevoke};
ghost use Rattle.fr_world.specs.Decisions.{IsChecked};

use crate::lender::{Lender, open_page};
use fr_base::{Channel, Refusal, RowsChange, Slot};
use fr_world::{Records, decide};
use std::alloc::Global;

/// Grants the slot on the channel to a node of the supplier. Refusals: `NoVariant`, `Released`,
/// `NoSupplier`; then what the supplier's page refuses; then `Taken`, where another supplier holds
/// the slot on the channel.
pub(crate) fn grant<R: Lender>(
    alloc: Global,
    records: &mut R,
    rows: &RowsChange,
    slot: Slot,
    channel: Channel,
) -> Result<(), Refusal>
    requires grants { IsGrant slot channel rows.now.change }
    ensures { CarriesStep R.Records
        (λ c b. change_rows c.params b rows.now.supplier rows.now.variant rows.now.change)
        records.old records.new result }
{
    // This is asked before the page is lent, since the call does not say that the page stays lent.
    let is_taken = records.is_held(rows.variant, slot, channel)?;
    open_page(alloc, records, rows.supplier, rows.variant)?;
    if !records.config().has_supplier(rows.supplier) {
        return Err(Refusal::NoSupplier);
    }
    let edits = decide(alloc, records.lent(), &rows.change)?;
    if is_taken {
        return Err(Refusal::Taken);
    }
    records.change(alloc, &edits)
}

/// Takes a grant of the supplier back. Refusals: `NoVariant`, `Released`, `NoSupplier`; then what
/// the supplier's page refuses.
pub(crate) fn revoke<R: Lender>(
    alloc: Global,
    records: &mut R,
    rows: &RowsChange,
) -> Result<(), Refusal>
    requires revokes { IsRevoke rows.now.change }
    ensures { CarriesStep R.Records
        (λ c b. change_rows c.params b rows.now.supplier rows.now.variant rows.now.change)
        records.old records.new result }
{
    open_page(alloc, records, rows.supplier, rows.variant)?;
    if !records.config().has_supplier(rows.supplier) {
        return Err(Refusal::NoSupplier);
    }
    let edits = decide(alloc, records.lent(), &rows.change)?;
    records.change(alloc, &edits)
}

/// Changes a frame of the supplier, which asks for itself, and so is there. The change was checked
/// under the cluster's parameters. Refusals: `NoVariant`, `Released`; then what the supplier's page
/// refuses.
pub(crate) fn change_frame<R: Lender>(
    alloc: Global,
    records: &mut R,
    rows: &RowsChange,
) -> Result<(), Refusal>
    requires frame { IsOfFrame rows.now.change }
    requires checked { IsChecked (R.params records.old) rows.now.change }
    requires known { (c : _) (b : _) → R.stands records.old c b
        → IsTrue (contains b.suppliers rows.now.supplier) }
    ensures { CarriesStep R.Records
        (λ c b. change_rows c.params b rows.now.supplier rows.now.variant rows.now.change)
        records.old records.new result }
{
    open_page(alloc, records, rows.supplier, rows.variant)?;
    let edits = decide(alloc, records.lent(), &rows.change)?;
    records.change(alloc, &edits)
}
