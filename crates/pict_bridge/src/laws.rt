// The laws from source to core. Each is a function that does nothing: its contract is the law.

ghost use Rattle.pict_bridge.specs.Laws.{ErasedIsType, ErasedKeepsSubtyping, GrownValuesKeepTypes, PackedAtOnce, PatternsOpen, OpensWellTyped, SourceToCore};

/// A type with `!` for each `/` is a type where the bounds are erased too, and erasing keeps subtyping.
pub fn law_erased_types()
    ensures types_ { ErasedIsType }
    ensures subtypes { ErasedKeepsSubtyping }
{}

/// A value keeps its type in a world that has more type variables and more variables.
pub fn law_grown_values()
    ensures { GrownValuesKeepTypes }
{}

/// A value has a package type where it has the fields' types with all arguments put in, and each argument may stand for
/// its type field once the earlier ones are put in.
pub fn law_packed_at_once()
    ensures { PackedAtOnce }
{}

/// Where the rules find what a pattern adds against a type, in a program in which no rule of scopes fails, its core
/// pattern opens the type's meaning, in each core context into which the type variables around it go. What is opened is
/// what is added: the same type variables, and the pattern's names with the meanings of their types.
pub fn law_patterns_open()
    ensures { PatternsOpen }
{}

/// A program in which no rule of scopes fails and which the typing rules accept has a typed core process, and the configuration
/// in which that begins to run is well typed.
pub fn law_source_to_core()
    ensures core { SourceToCore }
    ensures opening { OpensWellTyped }
{}
