// Targets of uses. Each is a function that does nothing: its contract is the law.

ghost use Rattle.pict_named.specs.Laws.{TypeTargetsAreNearest, ValueTargetsAreNearest};
ghost use Rattle.pict_named.specs.Worked.{WorkedScopes};

/// In a program in which no rule of scopes fails, the target of each use of a type is the place, among the program's binders of types
/// in reading order, from 0, of a binder of the used name whose scope holds the use; and the scope of no nearer binder of the name
/// does. Scopes are those of the program's tree.
pub fn law_type_targets_are_nearest()
    ensures { TypeTargetsAreNearest }
{}

/// And the target of each use of a value is such a binder of values, by its place among these; or the primitive of the name's text,
/// where the scope of no binder of the name holds the use.
pub fn law_value_targets_are_nearest()
    ensures { ValueTargetsAreNearest }
{}

/// The scopes of five small programs, by the form of their trees.
pub fn law_worked_scopes()
    ensures { WorkedScopes }
{}
