// Laws of runs. Each is a function that does nothing: its contract is the law.

ghost use Rattle.pict_sites.specs.Laws.{RunsAreRight};

/// Where no free run of a closed process is wrong no event is, on any number of sites, whichever a seed chooses: so much `run` asks.
pub fn law_runs_are_right()
    ensures { RunsAreRight }
{}
