// Names in the translation. It is a function that does nothing: its contract is the law.

ghost use Rattle.pict_apart.specs.Laws.{ApartIsSame};

/// A program in which no rule of scopes fails may be renamed apart, each binder of a value under a name of its own and each use
/// under the name of the binder that the scopes tell, and has the same core process. So the translation, which looks names up,
/// takes at each use the nearest binder around it by the scopes.
pub fn law_renamed_apart()
    ensures { ApartIsSame }
{}
