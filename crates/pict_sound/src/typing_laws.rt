// Laws of well typed configurations. Each is a function that does nothing: its contract is the law.

ghost use Rattle.pict_sound.specs.TypingLaws.{FreeStepsKeepTyping, NoChoicesGoWrong, TypedIsNeverWrong, TypedRunsAreNotWrong, TypedStepsAreNotWrong, WellTypedIsNotWrong};

/// Each free step of a well typed configuration gives a well typed one.
pub fn law_free_step_keeps()
    ensures { FreeStepsKeepTyping }
{}

/// A well typed configuration isn't wrong: whichever ready process acts, with whichever parked partner, no value of
/// another shape is sent on, received from, tested, given to a primitive or matched.
pub fn law_not_wrong()
    ensures { WellTypedIsNotWrong }
{}

/// No list of choices leads from a well typed configuration to a wrong one. So no configuration that free steps reach
/// from the opening one of a typed process is wrong.
pub fn law_no_choices_go_wrong()
    ensures choices { NoChoicesGoWrong }
    ensures opening { TypedIsNeverWrong }
{}

/// In an oldest-first run of a typed process no step is wrong, and no run of it ends by a wrong step.
pub fn law_typed_runs_are_right()
    ensures steps { TypedStepsAreNotWrong }
    ensures ends { TypedRunsAreNotWrong }
{}
