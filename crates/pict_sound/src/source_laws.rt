// Laws of typed programs. Each is a function that does nothing: its contract is the law.

ghost use Rattle.pict_sound.specs.SourceLaws.{ProgramIsNeverWrong, ProgramRunsAreNotWrong, ProgramStepsAreNotWrong};

/// A typed program is never wrong: in no configuration that free steps reach from the opening one of its core process,
/// whichever ready process acts each time, is a value of another shape sent on, received from, tested, given to a
/// primitive or matched. So in its oldest-first run no step is wrong, and no run of it ends by a wrong step.
pub fn law_never_wrong()
    ensures any_order { ProgramIsNeverWrong }
    ensures steps { ProgramStepsAreNotWrong }
    ensures ends { ProgramRunsAreNotWrong }
{}
