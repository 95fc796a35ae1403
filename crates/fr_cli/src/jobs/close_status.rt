//! What is told where the register file of a job fails to close.
ghost use Rattle.std.specs.Prelude.{◌≡◌, ◌≢◌, ◌⊎◌};
ghost use Rattle.fr_cli.specs.Endings.{FailedToClose, NamesFault};
ghost use Rattle.fr_cli.specs.Faults.{store_word};

use crate::fault::Fault;
use crate::streams::printing::end;
use fr_desks::Left;
use fr_store::StoreFault;
use fr_text::Sink;
use sqlite::Leftover;
use sqlite_disk::Disk;

/// The process's status, by the job's status and what the job left of its register file. Where the job was done and the file
/// failed to close, the process's status is 1, and the fault's word is printed; what the job printed stands.
pub fn end_closed<D: Disk, E: Sink>(status: u8, left: &Left<D>, err: &mut E) -> u8
    ensures failed { status ≡ 0 → FailedToClose left.now
        → (result ≡ 1) × NamesFault E.Sink (store_word StoreFault.Unavailable) err.old err.new }
    ensures closed { (status ≢ 0) ⊎ (¬ FailedToClose left.now)
        → (result ≡ status) × (err.new ≡ err.old) }
{
    match left {
        Some(Leftover::Store(_)) if status == 0 => {
            let fault = Fault::Register(StoreFault::Unavailable);
            end(Err(fault), err)
        }
        _ => status,
    }
}
