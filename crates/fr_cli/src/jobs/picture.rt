//! Draws the plan of a variant.
ghost use Rattle.std.specs.Prelude.{◌≡◌};
ghost use Rattle.fr_picture.specs.Pages.{IsPage};
ghost use Rattle.fr_picture.specs.Plans.{since_of};
ghost use Rattle.fr_base.specs.Desks.{AsksDesk};
ghost use Rattle.fr_cli.specs.Picturing.{plans_for};
ghost use Rattle.fr_cli.specs.Queries.{reader_named};
ghost use Rattle.fr_cli.specs.Reading.{IsRead, PrintsRead, Stays};
ghost use Rattle.fr_cli.specs.declared.fault.Fault.TheVariants.{NoMemory as Lacking};

use crate::failure::Failure;
use crate::jobs::single_request::refused_reader;
use crate::words::inquiry::reader_named;
use fr_base::{Actor, Desk, Refusal};
use fr_picture::{Plan, View, read_plan, write_page};
use std::alloc::Global;

/// The page of the variant's plan, as the integrator sees it, or the supplier that is named; with what is new since
/// another variant and what is gone, where one is named.
pub fn picture<D: Desk>(
    alloc: Global,
    desk: &mut D,
    variant: &str,
    since: Option<&str>,
    supplier: Option<&str>,
) -> Result<Vec<u8>, Failure>
    ensures falls { D.clean desk.new → D.clean desk.old }
    ensures prints { PrintsRead (λ fault. fault ≡ Lacking)
        (IsRead (plans_for (reader_named supplier.entry) variant.now (since_of since.entry))
        (D.clean desk.new) (D.stands desk.old) (D.stands desk.new)) IsPage result }
    ensures stays { Stays (D.clean desk.new) (D.stands desk.old) (D.stands desk.new) }
{
    match plan_for(alloc, desk, variant, since, reader_named(supplier)) {
        Ok(plan) => Ok(write_page(alloc, &plan)?.into_bytes()),
        Err(refusal) => Err(refused_reader(alloc, refusal)),
    }
}

// The variant's plan, as the reader sees it; `UnknownKey` where there is no reader.
fn plan_for<D: Desk>(
    alloc: Global,
    desk: &mut D,
    variant: &str,
    since: Option<&str>,
    reader: Option<Actor>,
) -> Result<Plan, Refusal>
    ensures { AsksDesk D.Desk (IsRead (plans_for reader variant.now (since_of since.entry)))
        desk.old desk.new result }
{
    match reader {
        Some(reader) => {
            let view = View {
                reader,
                variant,
                since,
            };
            read_plan(alloc, desk, &view)
        }
        None => Err(Refusal::UnknownKey),
    }
}
