// The laws of the typing rules, each as the contract of a function that does nothing.

ghost use Rattle.pict_rules.specs.Laws.{AtMostOneAnswer, SomeAnswer, TypedOrRefused, TypedOrStuck};
ghost use Rattle.pict_rules.specs.Regular.{ReachedIsRegular, Regularity};
ghost use Rattle.pict_rules.specs.SameNames.{NoStopIsReached, SameNames, UsesAreKnown};
ghost use Rattle.pict_rules.specs.Worked.{WorkedTexts};

/// A judgement has at most one answer: one result, or one refusal with its code and its place.
pub fn law_one_answer()
    ensures { AtMostOneAnswer }
{}

/// A judgement has an answer, in every environment and of every phrase, whether the scopes hold there or not.
pub fn law_some_answer()
    ensures { SomeAnswer }
{}

/// A program in which no rule of scopes fails is typed, or refused by the typing rules with exactly one code at exactly
/// one place, and never both.
pub fn law_typed_or_stuck()
    ensures { TypedOrStuck }
{}

/// Every program is typed, or refused with exactly one code at exactly one place, and never both: by the first rule of
/// scopes that fails, else by the typing rules.
pub fn law_typed_or_refused()
    ensures { TypedOrRefused }
{}

/// Whatever the rules judge on the way through a program, the names of the environment are those that the scopes bind
/// around it: the names of types at each judgement, and the names of values at each but within patterns, which use none.
pub fn law_same_names()
    ensures { SameNames }
{}

/// In a program in which no rule of scopes fails, none fails in what the rules judge, and each value that is used has a
/// binder in the environment or is a primitive.
pub fn law_scoped()
    ensures stops { NoStopIsReached }
    ensures uses { UsesAreKnown }
{}

/// What is judged in an environment in which all is well formed, of types that are well formed and of a phrase in which
/// no label stands twice, gives what is well formed; and so is all that the rules judge on the way through a program in
/// which no rule of scopes fails.
pub fn law_regularity()
    ensures given { Regularity }
    ensures reached { ReachedIsRegular }
{}

/// What the rules say of three short texts: a number may be sent on a channel of numbers, a string may not, and nothing
/// may be sent on a channel that is known as one to receive from.
pub fn law_worked_texts()
    ensures { WorkedTexts }
{}
