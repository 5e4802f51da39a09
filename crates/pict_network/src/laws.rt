// Laws of the definitions. Each is a function that does nothing: its contract is the law.

ghost use Rattle.pict_network.specs.Laws.{UnionsAreConfigurations, OpeningsAreNetworks, MovesKeepUnions, ActsAreFree, EventsKeepNetworks, RunsAreFree, NoEventIsWrong, SeedsRunNetworks, NextIsPossible, SeedRunsAreOne, SeedsChooseRuns, OneSiteIsOldestFirst, OneSiteRunsOldestFirst};
ghost use Rattle.pict_network.specs.SiteView.{ActsAreViewed, OneSiteIsTheMachine};

/// The union of a network is a configuration: its processes are closed over its channels, no label stands twice in a record,
/// and its stamps are distinct and below the next one.
pub fn law_unions_are_configurations()
    ensures { UnionsAreConfigurations }
{}

/// A closed process opens a network, with any number of sites, whose union is the opening configuration.
pub fn law_openings_are_networks()
    ensures { OpeningsAreNetworks }
{}

/// What moves, to the home of its channel or by a delivery, leaves the union as it is.
pub fn law_moves_keep_unions()
    ensures { MovesKeepUnions }
{}

/// What acts at a site is a choice of the union, with its least partner, and what happens is the free step of that choice:
/// label and trap included, and wrong exactly where that is.
pub fn law_acts_are_free()
    ensures { ActsAreFree }
{}

/// Events keep what holds of networks.
pub fn law_events_keep_networks()
    ensures { EventsKeepNetworks }
{}

/// The steps of a run of a network, in any order of events, are a free run of the process in which each meets its least
/// partner, with the same labels, which leads to the union of the last network.
pub fn law_runs_are_free()
    ensures { RunsAreFree }
{}

/// Where no free run of a process is wrong no event of a run of a network is.
pub fn law_no_event_is_wrong()
    ensures { NoEventIsWrong }
{}

/// The run that a seed chooses is a run of the network, of as many events.
pub fn law_seeds_run_networks()
    ensures { SeedsRunNetworks }
{}

/// Nothing happens next exactly where no event is possible: so a run is done there, and nowhere else.
pub fn law_next_is_possible()
    ensures { NextIsPossible }
{}

/// What a seed chooses is one run: it has one end, one list of labels, one number of events and of steps, and one last
/// network.
pub fn law_seed_runs_are_one()
    ensures { SeedRunsAreOne }
{}

/// Where no free run of a closed process is wrong each seed chooses a run, with any number of sites and each fuel, and that
/// doesn't end by a wrong step.
pub fn law_seeds_choose_runs()
    ensures { SeedsChooseRuns }
{}

/// On one site, where the ready processes stand by rising stamps and no packet is, each act is the oldest-first step of the
/// union, which leaves it so; where nothing is ready that is finished.
pub fn law_one_site_is_oldest_first()
    ensures { OneSiteIsOldestFirst }
{}

/// On one site the run of each seed is the oldest-first run: the same end, the same labels with the same numbers, each event
/// a step, and the union of the last network is the last configuration.
pub fn law_one_site_runs_oldest_first()
    ensures { OneSiteRunsOldestFirst }
{}

/// What a process that forks nothing does at a site is the oldest-first step of the site's view.
pub fn law_acts_are_viewed()
    ensures { ActsAreViewed }
{}

/// A network of one site steps as a machine: what happens there is the oldest-first step of its view, and nothing moves.
pub fn law_one_site_is_the_machine()
    ensures { OneSiteIsTheMachine }
{}
