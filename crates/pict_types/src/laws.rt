// The laws of renaming, filling and replacing, and of what a type mentions.

ghost use Rattle.pict_types.specs.Laws.{ArgumentsChangePlaces, ArgumentsOneByOne, ClosedIsRenamedToItself, ClosedIsReplacedByItself, FilledThenRenamed, FilledThenReplaced, FilledTwice, FilledWithItself, LoweredThenMoved, MentionsRenamed, MovedMentionsNone, MovedThenLowered, RenamedByMentioned, RenamedThenFilled, RenamedThenReplaced, RenamedToItself, RenamedTwice, ReplacedByItself, ReplacedByMentioned, ReplacedThenFilled, ReplacedThenRenamed, ReplacedTwice, WellFormedIsNormal};

/// Of renamings, fillings and replacements, one after the other is one.
pub fn law_one_after_the_other_is_one()
    ensures renamed_twice { RenamedTwice }
    ensures renamed_then_filled { RenamedThenFilled }
    ensures filled_then_renamed { FilledThenRenamed }
    ensures filled_twice { FilledTwice }
    ensures renamed_then_replaced { RenamedThenReplaced }
    ensures replaced_then_renamed { ReplacedThenRenamed }
    ensures filled_then_replaced { FilledThenReplaced }
    ensures replaced_then_filled { ReplacedThenFilled }
    ensures replaced_twice { ReplacedTwice }
{}

/// To put each variable for itself changes no well formed type.
pub fn law_itself_changes_nothing()
    ensures renamed { RenamedToItself }
    ensures filled { FilledWithItself }
    ensures replaced { ReplacedByItself }
    ensures normal { WellFormedIsNormal }
{}

/// Arguments put in one at a time are arguments put in at once.
pub fn law_arguments_one_by_one()
    ensures last { ArgumentsOneByOne }
    ensures places { ArgumentsChangePlaces }
{}

/// A type depends only on the variables that it mentions, and one that mentions none of the innermost ones can be
/// written without them.
pub fn law_only_what_is_mentioned_counts()
    ensures renamed { RenamedByMentioned }
    ensures replaced { ReplacedByMentioned }
    ensures closed_renamed { ClosedIsRenamedToItself }
    ensures closed_replaced { ClosedIsReplacedByItself }
    ensures mentions { MentionsRenamed }
    ensures lowered { LoweredThenMoved }
    ensures moved { MovedThenLowered }
    ensures none { MovedMentionsNone }
{}
