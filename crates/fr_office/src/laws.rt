//! A law: what a crash leaves of records that answered requests one after another.
ghost use Rattle.fr_office.specs.Crashed.{KeepsAnswered};

use fr_world::Records;

/// Whatever is asked of a sound register, and whenever a crash falls, it leaves the register after
/// all that was answered, or after one more request, which was answered `Unavailable`.
pub fn answers_are_kept<R: Records>()
    ensures { KeepsAnswered R.stands R.leaves }
{}
