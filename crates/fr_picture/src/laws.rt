//! A picture of a released variant stays right.
ghost use Rattle.fr_picture.specs.ReleasedPlans.{ReleasedPlanStays};

/// Once a reader is known, the plans that show it a released variant are the same ever after, as
/// long as the reader sees the same suppliers. A supplier sees itself alone. The integrator sees all,
/// and more may join.
pub fn released_plan_stays()
    ensures { ReleasedPlanStays }
{}
