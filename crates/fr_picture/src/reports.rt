//! The rows of each report, asked of a desk.
ghost use Rattle.std.specs.Prelude.{◌≡◌, IfOk};
ghost use Rattle.fr_base.specs.Desks.{AsksDesk};
ghost use Rattle.fr_base.specs.declared.answer.Answer.TheVariants.{Report as Told};
ghost use Rattle.fr_base.specs.declared.report.Report.TheVariants.{Grants, Frames, Schedule, Gaps, Layout};
ghost use Rattle.fr_base.specs.declared.actor.Actor.TheVariants.{Supplier};
ghost use Rattle.fr_base.specs.declared.request.Request.TheVariants.{Query as Queries};
ghost use Rattle.fr_picture.specs.Reports.{GivesRows, asks, asks_difference, asks_variants, with_cells, with_difference, with_frames, with_gaps, with_grants, with_signals, with_variants};

use fr_base::{
    Actor, Ask, Desk, DifferenceRow, FrameRow, GapRow, GrantRow, Inventory, Name, NoMemory, Query,
    Refusal, Report, ReportRows, Request, Rows, Sending, SignalRow, Text, VariantRow,
};
use std::alloc::Global;

/// The reader of a variant's plan.
#[derive(Clone, Copy)]
pub struct View<'a> {
    /// The reader, who asks for the rows.
    pub reader: Actor,
    /// The variant's name, as the reader gave it.
    pub variant: &'a str,
    /// The name of another variant, as the reader gave it, where the reader asked for what is new since that one.
    pub since: Option<&'a str>,
}

/// The variants, as the reader sees them.
pub(crate) fn variants<D: Desk>(
    alloc: Global,
    desk: &mut D,
    reader: Actor,
) -> Result<Rows<VariantRow>, Refusal>
    ensures { AsksDesk D.Desk (GivesRows reader asks_variants with_variants)
        desk.old desk.new result }
{
    match rows_of_query(alloc, desk, reader, Query::Register(Inventory::Variants))? {
        ReportRows::Variants(rows) => Ok(rows),
        _ => Err(Refusal::Unavailable),
    }
}

/// Who holds which slot and channel, as the reader sees it.
pub(crate) fn grants<D: Desk>(
    alloc: Global,
    desk: &mut D,
    view: &View<'_>,
) -> Result<Rows<GrantRow>, Refusal>
    ensures { AsksDesk D.Desk
        (GivesRows view.now.reader (asks view.now.variant.now Grants) with_grants)
        desk.old desk.new result }
{
    match report(alloc, desk, view.reader, view.variant, Report::Grants)? {
        ReportRows::Grants(rows) => Ok(rows),
        _ => Err(Refusal::Unavailable),
    }
}

/// What is sent in which cell, as the reader sees it.
pub(crate) fn schedule<D: Desk>(
    alloc: Global,
    desk: &mut D,
    view: &View<'_>,
) -> Result<Rows<Sending>, Refusal>
    ensures { AsksDesk D.Desk
        (GivesRows view.now.reader (asks view.now.variant.now Schedule) with_cells)
        desk.old desk.new result }
{
    match report(alloc, desk, view.reader, view.variant, Report::Schedule)? {
        ReportRows::Schedule(rows) => Ok(rows),
        _ => Err(Refusal::Unavailable),
    }
}

/// The frames' greatest gaps, as the reader sees them.
pub(crate) fn gaps<D: Desk>(
    alloc: Global,
    desk: &mut D,
    view: &View<'_>,
) -> Result<Rows<GapRow>, Refusal>
    ensures { AsksDesk D.Desk
        (GivesRows view.now.reader (asks view.now.variant.now Gaps) with_gaps)
        desk.old desk.new result }
{
    match report(alloc, desk, view.reader, view.variant, Report::Gaps)? {
        ReportRows::Gaps(rows) => Ok(rows),
        _ => Err(Refusal::Unavailable),
    }
}

/// The frames, as the reader sees them.
pub(crate) fn frame_rows<D: Desk>(
    alloc: Global,
    desk: &mut D,
    view: &View<'_>,
) -> Result<Rows<FrameRow>, Refusal>
    ensures { AsksDesk D.Desk
        (GivesRows view.now.reader (asks view.now.variant.now Frames) with_frames)
        desk.old desk.new result }
{
    match report(alloc, desk, view.reader, view.variant, Report::Frames)? {
        ReportRows::Frames(rows) => Ok(rows),
        _ => Err(Refusal::Unavailable),
    }
}

/// The signals of a frame, as the supplier sees them.
pub(crate) fn signal_rows<D: Desk>(
    alloc: Global,
    desk: &mut D,
    supplier: Name,
    variant: &str,
    frame: Text,
) -> Result<Rows<SignalRow>, Refusal>
    ensures { AsksDesk D.Desk
        (GivesRows (Supplier supplier) (asks variant.now (Layout frame)) with_signals)
        desk.old desk.new result }
{
    match report(
        alloc,
        desk,
        Actor::Supplier(supplier),
        variant,
        Report::Layout { frame },
    )? {
        ReportRows::Layout(rows) => Ok(rows),
        _ => Err(Refusal::Unavailable),
    }
}

/// The rows in which the variant differs from another one, as the reader sees them.
pub(crate) fn differences<D: Desk>(
    alloc: Global,
    desk: &mut D,
    view: &View<'_>,
    from: &str,
) -> Result<Rows<DifferenceRow>, Refusal>
    ensures { AsksDesk D.Desk (GivesRows view.now.reader
        (asks_difference view.now.variant.now from.now) with_difference)
        desk.old desk.new result }
{
    match difference(alloc, desk, view.reader, view.variant, from)? {
        ReportRows::Difference(rows) => Ok(rows),
        _ => Err(Refusal::Unavailable),
    }
}

// The rows of the difference of two variants, as the reader sees them.
fn difference<D: Desk>(
    alloc: Global,
    desk: &mut D,
    actor: Actor,
    variant: &str,
    from: &str,
) -> Result<ReportRows, Refusal>
    ensures { AsksDesk D.Desk (GivesRows actor (asks_difference variant.now from.now) Told)
        desk.old desk.new result }
{
    let variant = Text::copy(alloc, variant)?;
    let from = Text::copy(alloc, from)?;
    rows_of_query(alloc, desk, actor, Query::Difference { variant, from })
}

// The rows of a report of the variant, as the reader sees them.
fn report<D: Desk>(
    alloc: Global,
    desk: &mut D,
    actor: Actor,
    variant: &str,
    report: Report<Text>,
) -> Result<ReportRows, Refusal>
    ensures { AsksDesk D.Desk (GivesRows actor (asks variant.now report) Told)
        desk.old desk.new result }
{
    let variant = Text::copy(alloc, variant)?;
    rows_of_query(alloc, desk, actor, Query::Variant { variant, report })
}

// The rows of the answer to a query, as the reader sees them.
fn rows_of_query<D: Desk>(
    alloc: Global,
    desk: &mut D,
    actor: Actor,
    query: Query<Text>,
) -> Result<ReportRows, Refusal>
    ensures { AsksDesk D.Desk (GivesRows actor (Queries query) Told) desk.old desk.new result }
{
    let request = Request::Query(query);
    desk.ask(alloc, &Ask { actor, request }).into_rows()
}

/// A copy of the rows.
pub(crate) fn copy<T: Copy + Drop>(alloc: Global, rows: &[T]) -> Result<Rows<T>, NoMemory>
    ensures { IfOk result (λ copied. copied ≡ rows.now) }
{
    let mut copied = Rows::new(alloc);
    for row in rows {
        copied.push(*row)?;
    }
    Ok(copied)
}
