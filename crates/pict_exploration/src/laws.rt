// Laws of the definitions. Each is a function that does nothing: its contract is the law.

ghost use Rattle.pict_exploration.specs.Laws.{AloneCommutes, ExplorationsCoverReductions, ExplorationsCoverRuns, FinishedRunsAreFound, FoundIsReduced, PrintingsHavePlaces, RunsGoOnToFound, TrapsAreFound};

/// Free steps of a closed process lead to a configuration and print certain bytes exactly where choices by place do.
pub fn law_printings_have_places()
    ensures { PrintingsHavePlaces }
{}

/// What an exploration of a closed process finds is what the process reduces to, up to congruence, by reductions that print the
/// bytes with which it is found.
pub fn law_found_is_reduced()
    ensures { FoundIsReduced }
{}

/// A reduction of one process by itself that prints nothing, a conditional or an output to a primitive, commutes with each
/// other reduction of the process beside which it stands.
pub fn law_alone_commutes()
    ensures { AloneCommutes }
{}

/// Whatever free steps of a closed process reach, in any order, settles to what an exploration of it finds with the bytes that
/// they print: conditionals and outputs to primitives, each by itself and none printing, lead from the one to the other, up to
/// congruence.
pub fn law_explorations_cover_runs()
    ensures { ExplorationsCoverRuns }
{}

/// Each run of free steps of a closed process goes on, by free steps that print nothing, to a configuration that an
/// exploration of it finds, up to congruence, with the bytes that the run printed.
pub fn law_runs_go_on_to_found()
    ensures { RunsGoOnToFound }
{}

/// Whatever a closed process reduces to settles to what an exploration of it finds with the bytes that the reductions print.
pub fn law_explorations_cover_reductions()
    ensures { ExplorationsCoverReductions }
{}

/// A finished configuration that free steps of a closed process reach is found by an exploration of it, up to congruence, as
/// one that is finished.
pub fn law_finished_runs_are_found()
    ensures { FinishedRunsAreFound }
{}

/// Each division by zero that some order of a closed process' steps comes to is found by an exploration of it.
pub fn law_traps_are_found()
    ensures { TrapsAreFound }
{}
