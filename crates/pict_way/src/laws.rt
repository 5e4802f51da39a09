// Laws of the definitions. Each is a function that does nothing: its contract is the law.

ghost use Rattle.pict_way.specs.Way.{WaysAreAnswered};

/// What is written of choices that a process can make, by names in whose order the process' labels are, is a replay file of these
/// choices and of what their steps show alone, as far as the numbers and their nesting fit, and these agree.
pub fn law_ways_are_answered()
    ensures { WaysAreAnswered }
{}
