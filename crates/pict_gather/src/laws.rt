// The laws of gathering, each as the contract of a function that does nothing.

ghost use Rattle.pict_gather.specs.Laws.{OneReached, OneReading, OneVisit, ReachedIsPlaced, VisitIsPlaced};

/// A text, behind texts that have these names, comes to exactly one thing: its program, or one refusal by the rules of tokens
/// or of the grammar.
pub fn law_one_reading()
    ensures { OneReading }
{}

/// Over a shelf that tells its texts the visit of a text comes to exactly one thing: what is gathered then, or one refusal.
pub fn law_one_visit()
    ensures { OneVisit }
{}

/// Over a shelf that tells its texts a file, behind a prelude or without one, comes to exactly one thing: it is missing, or
/// refused at one place, or its declarations, names and texts are gathered.
pub fn law_one_reached()
    ensures { OneReached }
{}

/// A refusal of a visit stands in one of the texts that were read, over any shelf.
pub fn law_visit_is_placed()
    ensures { VisitIsPlaced }
{}

/// A refusal of a file stands in the file, in a text that it reaches, or in the prelude, over any shelf.
pub fn law_reached_is_placed()
    ensures { ReachedIsPlaced }
{}
