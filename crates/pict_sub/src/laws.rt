// The laws of subtyping, each as the contract of a function that does nothing.

ghost use Rattle.pict_sub.specs.Laws.{AboveApplied, AboveChannels, AboveRecursive, AppliedByArguments, BelowApplied, BelowChannels, BelowRecursive, ChannelsByMessages, ExposesAbove, ExposesBelow, ExposesToOne, RecordsByParts, Substitution, SubtypingIsDecided, Weakening};

/// Subtyping is kept where more variables are in scope.
pub fn law_weakening()
    ensures { Weakening }
{}

/// Subtyping is kept where types within their bounds, and operators that vary as the marks of their variables say, are
/// put for variables.
pub fn law_substitution()
    ensures { Substitution }
{}

/// Of any two types it is decided whether the first is a subtype of the second, whether they are well formed or not.
pub fn law_subtyping_is_decided()
    ensures { SubtypingIsDecided }
{}

/// A channel type is a subtype of another exactly where both are the same, or their capabilities let messages go up (`?`
/// over `?` and `^`) and the messages do, or let them go down (`!` over `!`, `/` and `^`, and `/` over `/`) and they do.
/// Otherwise only `Top` is above a channel type, and only variables whose bound is below it are below one.
pub fn law_channels_by_messages()
    ensures between { ChannelsByMessages }
    ensures above { AboveChannels }
    ensures below { BelowChannels }
{}

/// Records are subtypes exactly part by part: the type fields are the same, the positional fields are subtypes in
/// order, and each label of the greater is in the smaller with a subtype.
pub fn law_records_by_parts()
    ensures { RecordsByParts }
{}

/// An operator variable applied twice compares argument by argument: upward where marked `+`, downward where marked `-`,
/// equal where unmarked. Otherwise only `Top` is above an applied operator variable, and only variables whose bound is below
/// it are below one.
pub fn law_applied_by_arguments()
    ensures between { AppliedByArguments }
    ensures above { AboveApplied }
    ensures below { BelowApplied }
{}

/// Above a recursive type are only `Top` and the type itself, and below it only the type itself and variables whose
/// bound is below it. So recursive types are subtypes of one another only where they are equal.
pub fn law_recursive_only_equal()
    ensures above { AboveRecursive }
    ensures below { BelowRecursive }
{}

/// A type is a subtype of what it exposes to.
pub fn law_exposes_above()
    ensures { ExposesAbove }
{}

/// What a type exposes to is a subtype of each type above it that is no variable.
pub fn law_exposes_below()
    ensures { ExposesBelow }
{}

/// Each type exposes to exactly one type, and `exposure` is the function that gives it.
pub fn law_exposes_to_one()
    ensures { ExposesToOne }
{}
