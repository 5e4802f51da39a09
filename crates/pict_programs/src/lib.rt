//! The laws of programs, which begin with imports, from those of declarations alone. Nothing here runs.
#![tactic(auto)]

ghost use Rattle.pict_syntax.specs.Place.{OneTree};
ghost use Rattle.pict_syntax.specs.Programs.{programs};
ghost use Rattle.pict_syntax.specs.Verdicts.{OneVerdict, SomeVerdict};

/// A list of tokens is that of at most one program.
pub fn law_one_tree()
    ensures { OneTree programs }
{}

/// A list of tokens has at most one verdict by the grammar of programs: its program, its first unexpected token, the end,
/// or the first token that is nested too deep.
pub fn law_one_verdict()
    ensures { OneVerdict programs }
{}

/// Every list of tokens has a verdict by the grammar of programs.
pub fn law_some_verdict()
    ensures { SomeVerdict programs }
{}
