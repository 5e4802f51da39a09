//! Every text has a whole cut or a stop, and every list of tokens has a verdict.
#![tactic(auto)]

ghost use Rattle.pict_syntax.specs.Programs.{declarations};
ghost use Rattle.pict_syntax.specs.Verdicts.{SomeVerdict};
ghost use Rattle.pict_total.specs.Laws.{SomeWholeCut};

/// Every text has a whole cut, or reading it stops. By the laws of cuts none has both, and none two of either.
pub fn law_some_whole_cut()
    ensures { SomeWholeCut }
{}

/// Every list of tokens has a verdict by the grammar of declarations: its declarations, its first unexpected token, the
/// end, or the first token that is nested too deep.
pub fn law_some_verdict()
    ensures { SomeVerdict declarations }
{}
