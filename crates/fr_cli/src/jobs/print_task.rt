//! A task whose answer is printed: a report, a picture or a delivery.

use crate::failure::Failure;
use crate::fault::Fault;
use crate::files::registers::Registers;
use crate::jobs::picture::picture;
use crate::jobs::register_task::RegisterTask;
use crate::jobs::single_request::{change, report_on};
use crate::words::delivery::Delivery;
use crate::words::inquiry::Inquiry;
use fr_base::NoMemory;
use fr_office::Office;
use std::alloc::Global;

/// What is told of a register.
#[derive(Drop)]
pub(crate) enum PrintTask<'a> {
    /// A report.
    Report(Inquiry<'a>),
    /// The page of a variant's plan, as the integrator sees it, or the supplier that is named; with what is new since
    /// another variant, where one is named.
    Picture {
        variant: &'a str,
        since: Option<&'a str>,
        supplier: Option<&'a str>,
    },
    /// The answer to a delivery of a file with these bytes, by whoever has the key.
    Answer {
        key: &'a [u8],
        delivery: Delivery<'a>,
        body: &'a [u8],
    },
}

impl RegisterTask for PrintTask<'_> {
    ghost use Rattle.fr_cli.specs.RegisterTasks.{tells};

    type Done = Vec<u8>;

    type Fault = Failure;

    ghost does = { λ task _. tells task };

    fn carry_out<G: Registers>(
        &mut self,
        alloc: Global,
        _registers: &G,
        _db: &str,
        mut office: Office<G::Records>,
    ) -> (Result<Vec<u8>, Failure>, Office<G::Records>) {
        match *self {
            PrintTask::Report(query) => {
                let done = report_on(alloc, &mut office, query);
                (done, office)
            }
            PrintTask::Picture {
                variant,
                since,
                supplier,
            } => {
                let done = picture(alloc, &mut office, variant, since, supplier);
                (done, office)
            }
            PrintTask::Answer {
                key,
                delivery,
                body,
            } => match delivery.request(alloc, body) {
                Ok(request) => {
                    let done = change(alloc, &mut office, key, request);
                    (done, office)
                }
                Err(NoMemory) => (Err(Failure::Fault(Fault::NoMemory)), office),
            },
        }
    }
}
