// The laws of hints, each as the contract of a function that does nothing.

ghost use Rattle.pict_unused.specs.Laws.{OnlyCertainIsSaid};
ghost use Rattle.pict_unused.specs.Sights.{ItemsAreMarks};

/// What is said of a binder is exactly what is certain of it, by its form and the roles of its uses.
pub fn law_only_certain_is_said()
    ensures { OnlyCertainIsSaid }
{}

/// The items of a program stand where scopes have its marks: each use at the place of one, each binder where one is.
pub fn law_items_are_marks()
    ensures { ItemsAreMarks }
{}
