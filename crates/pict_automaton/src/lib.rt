//! A device of the proof alone: the parser as a function on states, and what its runs say of the grammar. Nothing here runs.
#![tactic(auto)]

ghost use Rattle.pict_syntax.specs.Place.{OneTree};
ghost use Rattle.pict_syntax.specs.Programs.{declarations};
ghost use Rattle.pict_syntax.specs.Verdicts.{OneVerdict};

/// A list of tokens is that of at most one list of declarations.
pub fn law_one_tree()
    ensures { OneTree declarations }
{}

/// A list of tokens has at most one verdict by the grammar of declarations: its declarations, its first unexpected token,
/// the end, or the first token that is nested too deep.
pub fn law_one_verdict()
    ensures { OneVerdict declarations }
{}
