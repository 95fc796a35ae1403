//! Which lanes a load shows to whom, and what it counts in them.
ghost use Rattle.fr_base.specs.LoadLaws.{LoadCountsTheSchedule, LoadShowsEachLane, LoadShowsOwnLanes};

/// In a sound book the load that a supplier sees has a row for each of its grants, in their order, and no other row.
pub fn load_shows_own_lanes()
    ensures { LoadShowsOwnLanes }
{}

/// The load that the integrator sees has a row for each lane of the cluster, in order, with its holder.
pub fn load_shows_each_lane()
    ensures { LoadShowsEachLane }
{}

/// In a sound book the used cycles of a row are the rows of the variant's whole schedule in its lane, whoever asks.
pub fn load_counts_the_schedule()
    ensures { LoadCountsTheSchedule }
{}
