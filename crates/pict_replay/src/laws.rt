// Laws of the definitions. Each is a function that does nothing: its contract is the law.

ghost use Rattle.pict_replay.specs.Laws.{ChoicesAreReadOnce, FilesAreReadOnce, OneFile, PickedAgrees, PickedIsAnswered, ReplayedAgrees, SomeChoices, SomeFile, SomeVerdict, VerdictsAreOne};

/// Choices and lines that agree have no fault, and where they have a fault they have one.
pub fn law_verdicts_are_one()
    ensures { VerdictsAreOne }
{}

/// Where no free run of a process is wrong, choices and lines agree, or have a fault.
pub fn law_some_verdict()
    ensures { SomeVerdict }
{}

/// Choices and lines agree exactly where all choices are replayed and no line is left.
pub fn law_replayed_agrees()
    ensures { ReplayedAgrees }
{}

/// What a seed picks agrees with its labels.
pub fn law_picked_agrees()
    ensures { PickedAgrees }
{}

/// A text is the lines of at most one list of choices, has at most one first line that isn't that of a choice, and never
/// both.
pub fn law_choices_are_read_once()
    ensures { ChoicesAreReadOnce }
{}

/// Each text is the lines of choices, or has a first line that isn't that of a choice.
pub fn law_some_choices()
    ensures { SomeChoices }
{}

/// A text is the file of at most one list of choices and one list of lines, by names without repeats; it is none at one place
/// at most, and never both.
pub fn law_files_are_read_once()
    ensures { FilesAreReadOnce }
{}

/// Each text is a file for each program, or is none at some place.
pub fn law_some_file()
    ensures { SomeFile }
{}

/// A text is the file of one list of choices and one list of lines, by one list of names, for a program whose names don't repeat.
pub fn law_one_file()
    ensures { OneFile }
{}

/// What is written of a run that a seed picks, by names in whose order the process' labels are, is a file of its choices and its
/// labels alone, as far as the labels' numbers and their nesting fit, and these agree.
pub fn law_picked_is_answered()
    ensures { PickedIsAnswered }
{}
