// The laws of scopes, each as the contract of a function that does nothing.

ghost use Rattle.pict_scope.specs.Laws.{NoLabelTwice, OneScopeStop, PartsAreScoped, StandsOnce, TargetsAreBinders, TypesByLookUp, UsesAreBound, ValuesByLookUp};

/// A program has at most one scope stop.
pub fn law_one_scope_stop()
    ensures { OneScopeStop }
{}

/// In a program without scope stop each use of a value has a binder or is a primitive, each use of a type has a binder,
/// and no name stands twice where it may stand once. A target that is no primitive is the place of one of the program's
/// binders of values.
pub fn law_uses_are_bound()
    ensures uses { UsesAreBound }
    ensures targets { TargetsAreBinders }
{}

/// Where an outline after another has no stop, neither has one.
pub fn law_parts_are_scoped()
    ensures { PartsAreScoped }
{}

/// A name that may stand once, and is not refused, stands for the first time in its group.
pub fn law_stands_once()
    ensures { StandsOnce }
{}

/// In a program without scope stop no label stands twice: in no record, record pattern, function, application or record
/// type.
pub fn law_no_label_twice()
    ensures { NoLabelTwice }
{}

/// What the uses mean, in reading order, is what look-up finds at each in the binders around it, the nearest first: so
/// whoever goes over a program with the binders around each place may take the one for the other.
pub fn law_look_up()
    ensures values { ValuesByLookUp }
    ensures types { TypesByLookUp }
{}
