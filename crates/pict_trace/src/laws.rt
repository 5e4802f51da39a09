// Laws of lines.
ghost use Rattle.pict_trace.specs.Laws.{FirstBadIsOne, FreeRunsAreReadBack, FreeStepsKeepOrder, LinesAreReadOnce, RunsAreReadBack, ValuesEndOnce};

/// A text is the lines of at most one list of numbered labels.
pub fn law_lines_are_read_once()
    ensures { LinesAreReadOnce }
{}

/// A text has at most one first line that isn't one, with the same bytes before it whatever the names, and has none where it is
/// the lines of a list.
pub fn law_first_bad_is_one()
    ensures { FirstBadIsOne }
{}

/// No value's text is a proper beginning of another's where a space, a newline or `]` follows each, whatever the names.
pub fn law_values_end_once()
    ensures { ValuesEndOnce }
{}

/// Free steps keep that records have identifiers as labels, in the order of their bytes, and show values of which this holds.
pub fn law_free_steps_keep_order()
    ensures { FreeStepsKeepOrder }
{}

/// Where it holds of a process, what a run of it writes is read back as its labels, as far as their numbers and their
/// nesting fit, and as nothing else.
pub fn law_runs_are_read_back()
    ensures { RunsAreReadBack }
{}

/// The same of any free run.
pub fn law_free_runs_are_read_back()
    ensures { FreeRunsAreReadBack }
{}
