// Codes of refusals. Each is a function that does nothing: its contract is the law.

ghost use Rattle.pict_codes.specs.Laws.{KindCodes, OwnCodes, PatternCodes, RefusedByLine, ScopeCodes, TypeCodes, VarianceCode};

/// The scopes of a program are refused with S1 to S4, and nothing else.
pub fn law_scope_codes()
    ensures { ScopeCodes }
{}

/// A written type is refused with K1 to K4, and nothing else: where it stands as a type, as an argument, or as the bound of a
/// type binder of a pattern.
pub fn law_kind_codes()
    ensures { KindCodes }
{}

/// A pattern, and the fields of a function, are refused with K1 to K4, Y4 to Y7, Y13 and Y16, and nothing else, whether they give
/// a type or go against one.
pub fn law_pattern_codes()
    ensures { PatternCodes }
{}

/// Whatever the typing rules judge is refused with K1 to K5 and Y1 to Y16, and nothing else.
pub fn law_type_codes()
    ensures { TypeCodes }
{}

/// A line of a rule that is false, where the rule's judgements on parts are not refused, has one of the codes that the table
/// tells for this judgement.
pub fn law_own_codes()
    ensures { OwnCodes }
{}

/// A program that the typing rules refuse is refused by a line of a judgement that they reach.
pub fn law_refused_by_line()
    ensures { RefusedByLine }
{}

/// K5 stands at a written type argument that varies otherwise than the marks of its type field say, behind others that are
/// right, and nowhere else.
pub fn law_variance_code()
    ensures { VarianceCode }
{}
