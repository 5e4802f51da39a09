// Laws of the definitions. Each is a function that does nothing: its contract is the law.

ghost use Rattle.pict_core.specs.Laws.{FreeStepsKeepConfigurations, OldestFirstStepsAreFree, StepsGoOn, RunsAreOne, OpeningsAreConfigurations, WrongStepsAreWrong, PlacesAreFree, ChoicesHavePlaces, WrongPlacesAreWrong, FreeRunsAreOne};
ghost use Rattle.pict_core.specs.Placing.{ActsArePlaced};
ghost use Rattle.pict_core.specs.Table.{StepsAreRows};

/// A free step of a configuration gives a configuration: its processes are closed over its channels, no label stands
/// twice in a record, and its stamps are distinct and below the next one.
pub fn law_free_steps_keep_configurations()
    ensures { FreeStepsKeepConfigurations }
{}

/// An oldest-first step of a configuration is a free step.
pub fn law_oldest_first_steps_are_free()
    ensures { OldestFirstStepsAreFree }
{}

/// Oldest-first steps after oldest-first steps are as many such steps as both, and show what both show, in order: the numbers of
/// the later ones go on after those of the first.
pub fn law_steps_go_on()
    ensures { StepsGoOn }
{}

/// A run has one end, one list of labels and one number of steps.
pub fn law_runs_are_one()
    ensures { RunsAreOne }
{}

/// What a process does in a step is a row of the table of steps, and each row is what a process does.
pub fn law_steps_are_rows()
    ensures { StepsAreRows }
{}

/// The opening configuration of a closed process is a configuration.
pub fn law_openings_are_configurations()
    ensures { OpeningsAreConfigurations }
{}

/// Where the oldest-first step is wrong the configuration is wrong.
pub fn law_wrong_steps_are_wrong()
    ensures { WrongStepsAreWrong }
{}

/// What becomes of a configuration in a step is the deed of the process that acts, placed at its stamp and at its
/// partner's.
pub fn law_acts_are_placed()
    ensures { ActsArePlaced }
{}

/// A step at a place of a configuration is a free step.
pub fn law_places_are_free()
    ensures { PlacesAreFree }
{}

/// Each choice of a ready process, and of a parked partner where it has one, is that of a place.
pub fn law_choices_have_places()
    ensures { ChoicesHavePlaces }
{}

/// Where the step at a place of a configuration is wrong the configuration is wrong.
pub fn law_wrong_places_are_wrong()
    ensures { WrongPlacesAreWrong }
{}

/// The free run of a list of places has one list of labels and one last configuration.
pub fn law_free_runs_are_one()
    ensures { FreeRunsAreOne }
{}
