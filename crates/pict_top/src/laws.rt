// The laws of what words come to, each as the contract of a function that does nothing.

ghost use Rattle.pict_top.specs.Laws.{BuiltRunsAsText, LoadNeedsNoShelf, OneOutcome, OneSiteRunsAsText, PickedIsAnswered};

/// Over a shelf that tells its texts the words come to exactly one outcome.
pub fn law_one_outcome()
    ensures { OneOutcome }
{}

/// Over any shelf, whether or not it tells its texts, `load N` comes to exactly one outcome, and no file is read.
pub fn law_load_needs_no_shelf()
    ensures { LoadNeedsNoShelf }
{}

/// What `picked` writes is answered `yes` by `replay`, over the same program, unless it is longer than a text may be or values nest
/// deeper than in a line that is read.
pub fn law_picked_is_answered()
    ensures { PickedIsAnswered }
{}

/// What `build` writes of a program is run by `exec` as `run` runs the program: with the same status and the same bytes.
pub fn law_built_runs_as_text()
    ensures { BuiltRunsAsText }
{}

/// On one site a program runs as `run` runs it, whatever the seed: it ends so, and prints the same bytes.
pub fn law_one_site_runs_as_text()
    ensures { OneSiteRunsAsText }
{}
