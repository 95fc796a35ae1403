//! Reads the plan of a variant from a register's desk: who holds which slot, what is sent in which
//! cell, the frames, and the variant's state; and what is new in it since another variant.
ghost use Rattle.std.specs.Prelude.{◌≡◌, [], ◌∷◌, IfOk, IfSome, Contains, Some, map};
ghost use Rattle.fr_picture.specs.Frames.{MayRefusePlan};
ghost use Rattle.fr_picture.specs.Plans.{AreChanges, IsListed, IsPicture, IsPlan, MayRefusePicture, since_of, supplier_of, suppliers_seen};
ghost use Rattle.fr_base.specs.Desks.{AsksDesk};
ghost use Rattle.fr_picture.specs.Reports.{GivesRead, Reads};

use crate::changes::Changes;
use crate::drawn_frames::frames;
use crate::plan::Plan;
use crate::reports::{View, differences, grants, schedule, variants};
use fr_base::{Actor, Config, Desk, Name, NoMemory, Refusal, Supplier, VariantRow};
use std::alloc::Global;

/// The variant's plan, as the reader sees it, with what is new in it since another variant and what is
/// gone, where the view names one. A difference that is refused refuses it first.
pub fn read_plan<D: Desk>(alloc: Global, desk: &mut D, view: &View<'_>) -> Result<Plan, Refusal>
    ensures falls { D.clean desk.new → D.clean desk.old }
    ensures reads { D.clean desk.new → Reads (D.stands desk.old) (D.stands desk.new) result
        (λ c b plan. IsPicture c b view.now.reader view.now.variant.now (since_of view.now.since) plan)
        (λ c b e. MayRefusePicture c b view.now.reader view.now.variant.now
        (since_of view.now.since) e) }
{
    let changes = changes(alloc, desk, view)?;
    let mut plan = plan_alone(alloc, desk, view)?;
    plan.changes = changes;
    Ok(plan)
}

// What is new in the variant since the one that the view names, and what is gone; none where it names
// none.
fn changes<D: Desk>(
    alloc: Global,
    desk: &mut D,
    view: &View<'_>,
) -> Result<Option<Changes>, Refusal>
    ensures { AsksDesk D.Desk (GivesRead
        (λ c b changes.
        AreChanges c b view.now.reader view.now.variant.now (since_of view.now.since) changes)
        (λ c b e. MayRefusePicture c b view.now.reader view.now.variant.now
        (since_of view.now.since) e))
        desk.old desk.new result }
{
    match view.since {
        Some(from) => changes_since(alloc, desk, view, from),
        None => Ok(None),
    }
}

// What is new in the variant since the one of this name, and what is gone. The name of a variant of
// which a difference was told is one.
fn changes_since<D: Desk>(
    alloc: Global,
    desk: &mut D,
    view: &View<'_>,
    from: &str,
) -> Result<Option<Changes>, Refusal>
    ensures { AsksDesk D.Desk (GivesRead
        (λ c b changes.
        AreChanges c b view.now.reader view.now.variant.now (Some from.now) changes)
        (λ c b e. MayRefusePicture c b view.now.reader view.now.variant.now (Some from.now) e))
        desk.old desk.new result }
{
    let rows = differences(alloc, desk, view, from)?;
    match Name::read(from) {
        Some(name) => Ok(Some(Changes { from: name, rows })),
        None => Err(Refusal::Unavailable),
    }
}

// The variant's plan without changes.
fn plan_alone<D: Desk>(alloc: Global, desk: &mut D, view: &View<'_>) -> Result<Plan, Refusal>
    ensures falls { D.clean desk.new → D.clean desk.old }
    ensures reads { D.clean desk.new → Reads (D.stands desk.old) (D.stands desk.new) result
        (λ c b plan. IsPlan c b view.now.reader view.now.variant.now plan)
        (λ c b e. MayRefusePlan c b view.now.reader view.now.variant.now e) }
{
    let grants = grants(alloc, desk, view)?;
    let cells = schedule(alloc, desk, view)?;
    let frames = frames(alloc, desk, view)?;
    let row = variant_row(alloc, desk, view)?;
    let config = desk.config();
    let suppliers = suppliers_seen(alloc, config, view.reader)?;
    Ok(Plan {
        params: config.params(),
        variant: row.variant,
        parent: row.parent,
        released: row.released,
        supplier: supplier_of(view.reader),
        suppliers,
        grants,
        cells,
        frames,
        changes: None,
    })
}

// The variant's row in the report of variants. A variant that has reports has such a row.
fn variant_row<D: Desk>(alloc: Global, desk: &mut D, view: &View<'_>) -> Result<VariantRow, Refusal>
    ensures { AsksDesk D.Desk (GivesRead
        (λ c b row. IsListed c b view.now.reader row × (row.variant ≡ view.now.variant.now))
        (λ c b e. MayRefusePlan c b view.now.reader view.now.variant.now e))
        desk.old desk.new result }
{
    let rows = variants(alloc, desk, view.reader)?;
    match find(rows.as_slice(), view.variant) {
        Some(row) => Ok(*row),
        None => Err(Refusal::Unavailable),
    }
}

// The variant of this name.
fn find<'a>(rows: &'a [VariantRow], variant: &str) -> Option<&'a VariantRow>
    ensures { IfSome result (λ row. Contains rows.now row.now × (row.now.variant ≡ variant.now)) }
{
    rows.iter().find(|row| row.variant.as_str() == variant)
}

// The supplier whose rows alone the reader sees; none for the integrator.
fn supplier_of(reader: Actor) -> Option<Name>
    ensures { result ≡ supplier_of reader }
{
    match reader {
        Actor::Integrator => None,
        Actor::Supplier(supplier) => Some(supplier),
    }
}

// The suppliers that may have rows that the reader sees: all of the register, or the reader alone.
fn suppliers_seen(alloc: Global, config: &Config, reader: Actor) -> Result<Vec<Name>, NoMemory>
    ensures { IfOk result (λ names. names.items ≡ suppliers_seen reader config.now.suppliers) }
{
    match reader {
        Actor::Integrator => names(alloc, config.suppliers()),
        Actor::Supplier(supplier) => only(alloc, supplier),
    }
}

fn names(alloc: Global, suppliers: &[Supplier]) -> Result<Vec<Name>, NoMemory>
    ensures { IfOk result (λ names. names.items ≡ map (λ s. s.name) suppliers.now) }
{
    let mut names = Vec::new(alloc);
    for supplier in suppliers {
        names.push(supplier.name)?;
    }
    Ok(names)
}

fn only(alloc: Global, name: Name) -> Result<Vec<Name>, NoMemory>
    ensures { IfOk result (λ names. names.items ≡ name ∷ []) }
{
    let mut names = Vec::new(alloc);
    names.push(name)?;
    Ok(names)
}
