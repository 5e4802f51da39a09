// Laws of the definitions. Each is a function that does nothing: its contract is the law.

ghost use Rattle.pict_pick.specs.Laws.{PickedRunsAreFree, PickedRunsAreOne, SeedsPickRuns};

/// What a seed picks is a free run.
pub fn law_picked_runs_are_free()
    ensures { PickedRunsAreFree }
{}

/// What a seed picks is one run: it has one end, one list of places and one list of labels.
pub fn law_picked_runs_are_one()
    ensures { PickedRunsAreOne }
{}

/// Where no free run of a closed process is wrong each seed picks a run, for each fuel, and that doesn't end by a wrong
/// step.
pub fn law_seeds_pick_runs()
    ensures { SeedsPickRuns }
{}
