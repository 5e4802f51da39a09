// Equal types. It is a function that does nothing: its contract is the law.

ghost use Rattle.pict_alike.specs.Laws.{AlikeIsEqual};

/// Two written types that differ in the names that they bind, in the order of their labels and in their places alone, where no
/// label stands twice in a record, have one normal form, wherever they stand: so the rules take the one for the other.
pub fn law_alike_is_equal()
    ensures { AlikeIsEqual }
{}
