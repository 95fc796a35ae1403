//! A register whose files are watched: where others stand in their place, nothing is read from it or written to it.
ghost use Rattle.std.specs.Prelude.{◌≡◌};
ghost use Rattle.fr_base.specs.Book.{Book};
ghost use Rattle.fr_base.specs.Cluster.{Cluster};
ghost use Rattle.fr_cli.specs.Guarding.{office_of};

use crate::files::watch::Watch;
use crate::jobs::live_desk::LiveDesk;
use fr_base::{Actor, Answer, Ask, Config, Desk, Refusal};
use fr_office::Office;
use fr_world::Records;
use std::alloc::Global;

/// The office of a register whose files are watched. While the files at its path are those that it left there, it
/// answers as the office does. Else it answers `Unavailable` where nothing in the request itself refuses it.
pub(crate) struct Guarded<R: Records, W: Watch> {
    office: Office<R>,
    watch: W,
    // Whether other files were found in the place of its own.
    is_gone: bool,
    // Whether the last answer was `Unavailable`.
    has_failed: bool,
}

impl<R: Records, W: Watch> Guarded<R, W> {
    /// Guards the office by this watch of its files.
    pub fn new(office: Office<R>, watch: W) -> Guarded<R, W>
        ensures { office_of result ≡ office }
    {
        Guarded {
            office,
            watch,
            is_gone: false,
            has_failed: false,
        }
    }

    /// The office.
    pub fn into_office(self) -> Office<R>
        ensures { result ≡ office_of self }
    {
        let Guarded {
            office,
            watch: _,
            is_gone: _,
            has_failed: _,
        } = self;
        office
    }

    // Whether the register can still list its variants. One that a fault has shut cannot.
    fn tells(&mut self, alloc: Global) -> bool
        ensures falls { ⟦<Guarded<R, W> as Desk>⟧.clean self.new
            → ⟦<Guarded<R, W> as Desk>⟧.clean self.old }
        ensures stays { ⟦<Guarded<R, W> as Desk>⟧.clean self.new → (c : Cluster) (b : Book)
            → ⟦<Guarded<R, W> as Desk>⟧.stands self.old c b
            → ⟦<Guarded<R, W> as Desk>⟧.stands self.new c b }
    {
        self.office.variants(alloc, &Actor::Integrator).is_ok()
    }
}

impl<R: Records, W: Watch> Desk for Guarded<R, W> {
    ghost stands = { λ guarded. ⟦<Office<R> as Desk>⟧.stands (office_of guarded) };

    ghost clean = { λ guarded. ⟦<Office<R> as Desk>⟧.clean (office_of guarded) };

    fn actor_of(&self, key: &str) -> Option<Actor> {
        self.office.actor_of(key)
    }

    fn config(&self) -> &Config {
        self.office.config()
    }

    fn ask(&mut self, alloc: Global, ask: &Ask) -> Answer {
        if !self.watch.holds() {
            self.is_gone = true;
            return self.office.decline(ask);
        }
        let answer = self.office.ask(alloc, ask);
        self.is_gone = !self.watch.note_own_writes();
        self.has_failed = matches!(&answer, Answer::Refused(Refusal::Unavailable));
        answer
    }
}

// The register comes to an end where a request found other files in the place of its own; or where its last answer was
// `Unavailable` and it cannot list its variants, since a fault has shut it.
impl<R: Records, W: Watch> LiveDesk for Guarded<R, W> {
    fn lasts(&mut self, alloc: Global) -> bool {
        if self.is_gone {
            return false;
        }
        if !self.has_failed {
            return true;
        }
        self.tells(alloc)
    }
}
