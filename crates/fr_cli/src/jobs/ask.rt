//! Requests on standard input, asked of a register in a file.
ghost use Rattle.fr_cli.specs.Handlings.{IsOpenedAt, handlings};
ghost use Rattle.fr_cli.specs.Outlets.{outlet};
ghost use Rattle.fr_cli.specs.RequestStream.{IsAsked};

use crate::fault::{Fault, of_script};
use crate::files::registers::Registers;
use crate::jobs::guarded::Guarded;
use crate::jobs::register_task::{RegisterTask, run_task};
use crate::jobs::request_stream::answer_input;
use crate::script_fault::ScriptFault;
use fr_base::Desk;
use fr_desks::Left;
use fr_office::Office;
use fr_text::Sink;
use std::alloc::Global;
use std::io::Read;

/// The requests on an input, and the output on which they are answered, with the numbers of their lines or without. Where
/// another file stands in the place of the register's, a request is answered `Unavailable`, and the run ends with that fault.
#[derive(Drop)]
pub(crate) struct AskTask<'a, I, O> {
    pub input: &'a mut I,
    pub out: &'a mut O,
    pub numbered: bool,
}

impl<I: Read, O: Sink> RegisterTask for AskTask<'_, I, O> {
    ghost use Rattle.std.specs.Prelude.{◌≡◌};
    ghost use Rattle.fr_cli.specs.Outlets.{outlet};
    ghost use Rattle.fr_cli.specs.RegisterTasks.{AnswersInput};

    type Done = ();

    type Fault = Fault;

    ghost does = { λ it then desks desk old new done.
        AnswersInput it.numbered (I.remaining it.input.now) (I.remaining then.input.now)
        (outlet O.Sink it.out.now then.out.now) desks desk old new done
        × ((then.input.ghost_name ≡ it.input.ghost_name)
        × (then.out.ghost_name ≡ it.out.ghost_name)) };

    fn carry_out<G: Registers>(
        &mut self,
        alloc: Global,
        registers: &G,
        db: &str,
        office: Office<G::Records>,
    ) -> (Result<(), Fault>, Office<G::Records>) {
        match registers.watch(db) {
            Ok(watch) => {
                let mut guarded = Guarded::new(office, watch);
                let asked = answer_input(alloc, &mut guarded, self.input, self.out, self.numbered);
                (of_script(asked), guarded.into_office())
            }
            Err(fault) => (of_script(Err(ScriptFault::from(fault))), office),
        }
    }
}

/// Answers the requests on the input of the register in the file at `db`, as [`AskTask`] says. Closes the file, and gives what
/// is left of it.
pub(crate) fn ask<G: Registers, I: Read, O: Sink>(
    alloc: Global,
    registers: &mut G,
    db: &str,
    input: &mut I,
    out: &mut O,
    numbered: bool,
) -> (Result<(), Fault>, Left<G::File>)
    ensures asked { IsAsked numbered ⟦<Office<G::Records> as Desk>⟧ (G.holds registers.old db.now)
        result.1 (I.remaining input.old) (I.remaining input.new) (outlet O.Sink out.old out.new)
        result.0 }
    ensures files { IsOpenedAt (handlings G.Registers registers.old registers.new) result.1 db.now }
{
    let mut task = AskTask {
        input,
        out,
        numbered,
    };
    run_task(alloc, registers, db, &mut task)
}
