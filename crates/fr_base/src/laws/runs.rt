//! From one book the same requests come to one end, but for where `Unavailable` comes.
ghost use Rattle.fr_base.specs.RunLaws.{AvailableRunIsSteps, RunsAreOne};

/// A run none of whose answers is `Unavailable` is one step after another.
pub fn available_run_is_steps()
    ensures { AvailableRunIsSteps }
{}

/// Two runs of the same requests from the same book, which are `Unavailable` at the same places or nowhere, have the same
/// answers, and end with the same book.
pub fn runs_are_one()
    ensures { RunsAreOne }
{}
