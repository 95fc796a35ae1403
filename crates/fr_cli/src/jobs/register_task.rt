//! A register's file, opened for a task and closed behind it.
ghost use Rattle.std.specs.Prelude.{◌≡◌};
ghost use Rattle.fr_cli.specs.Handlings.{IsOpenedAt, handlings};
ghost use Rattle.fr_cli.specs.RegisterTasks.{IsDoneOver};

use crate::fault::Fault;
use crate::files::registers::Registers;
use fr_base::Desk;
use fr_desks::Left;
use fr_office::Office;
use std::alloc::Global;

/// What is done with an open register.
pub(crate) trait RegisterTask {
    ghost use Rattle.fr_cli.specs.RegisterTasks.{Doing};

    /// What it gives, where it is done.
    type Done;

    /// Why it is not done.
    type Fault: From<Fault>;

    /// What is done with the register, by the task as it was before and as it is behind that. It is said of registers, and not of
    /// their books alone, so that it can name the one behind each answer.
    ghost does: { Self → Self → Doing Self.Done Self.Fault };

    /// Does it with the register, whose file is at `db`, and gives the register back.
    fn carry_out<G: Registers>(
        &mut self,
        alloc: Global,
        registers: &G,
        db: &str,
        office: Office<G::Records>,
    ) -> (Result<Self::Done, Self::Fault>, Office<G::Records>)
        ensures falls { ⟦<Office<G::Records> as Desk>⟧.clean result.1
            → ⟦<Office<G::Records> as Desk>⟧.clean office }
        ensures does { does self.old self.new _ ⟦<Office<G::Records> as Desk>⟧ office result.1
            result.0 };
}

/// Opens the register in the file at `db`, does the task with it and closes it. Gives what is left of the file beside what
/// came of the task.
pub(crate) fn run_task<G: Registers, E: RegisterTask>(
    alloc: Global,
    registers: &mut G,
    db: &str,
    task: &mut E,
) -> (Result<E::Done, E::Fault>, Left<G::File>)
    ensures done { IsDoneOver (G.holds registers.old db.now) result.1
        ⟦<Office<G::Records> as Desk>⟧ E.Fault.from_gives (task.new ≡ task.old)
        (E.does task.old task.new) result.0 }
    ensures files { IsOpenedAt (handlings G.Registers registers.old registers.new) result.1 db.now }
{
    match registers.open(db) {
        Ok(office) => {
            let (done, after) = task.carry_out(alloc, registers, db, office);
            (done, Some(registers.close(after.into_records())))
        }
        Err((fault, left)) => (Err(E::Fault::from(Fault::Register(fault))), left),
    }
}
