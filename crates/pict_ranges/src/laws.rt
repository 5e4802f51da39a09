// The laws of ranges, each as the contract of a function that does nothing.

ghost use Rattle.pict_ranges.specs.Laws.{AcceptedIsInRange, AcceptedRunsAreReadBack, AcceptedTraceIsReadBack, FreeRunsAreInRange, FreeRunsFitLines, FreeStepsKeepRanges};

/// A free step shows what is within ranges, and keeps each value within them, unless it sends a string whose length is no integer
/// of the machine.
pub fn law_free_steps_keep_ranges()
    ensures { FreeStepsKeepRanges }
{}

/// What the steps of a free run show is within ranges, where no string is sent whose length is no integer of the machine.
pub fn law_free_runs_are_in_range()
    ensures { FreeRunsAreInRange }
{}

/// What the steps of such a run show fits lines that are read, where values nest no deeper than in such a line.
pub fn law_free_runs_fit_lines()
    ensures { FreeRunsFitLines }
{}

/// Each value of the core process of an accepted file is within ranges.
pub fn law_accepted_is_in_range()
    ensures { AcceptedIsInRange }
{}

/// What a free run of an accepted file writes is read back, where values nest no deeper than in a line that is read.
pub fn law_accepted_runs_are_read_back()
    ensures { AcceptedRunsAreReadBack }
{}

/// What the run of an accepted file by oldest-first steps writes is read back, where values nest no deeper than in a line that is
/// read.
pub fn law_accepted_trace_is_read_back()
    ensures { AcceptedTraceIsReadBack }
{}
