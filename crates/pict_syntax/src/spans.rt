// Where trees stand.

ghost use Rattle.std.specs.Prelude.{◌≡◌};
ghost use Rattle.pict_syntax.specs.Phrases.{join};
ghost use Rattle.pict_syntax.specs.PlainTrees.{type_of, pat_of, abs_of, chan_of, val_of, proc_of};
ghost use Rattle.pict_syntax.specs.Grammar.{type_span, pat_span, abs_span, chan_span, val_span, proc_span};

use crate::{Abs, Chan, Pat, Proc, Span, TypeTree, Val};

/// From the start of the first place to the end of the second.
pub fn join(from: Span, to: Span) -> Span
    ensures { result ≡ join from to }
{
    Span {
        text: from.text,
        start: from.start,
        end: to.end,
    }
}

/// Where a type stands.
#[tactic(auto, unfolding(crate::specs::PlainTrees::type_of))]
pub fn type_span(tree: &TypeTree) -> Span
    ensures { result ≡ type_span (type_of tree.now) }
{
    match tree {
        TypeTree::Top(span)
        | TypeTree::Int(span)
        | TypeTree::Char(span)
        | TypeTree::String(span)
        | TypeTree::Bool(span)
        | TypeTree::Use(span, ..)
        | TypeTree::Both(span, ..)
        | TypeTree::Read(span, ..)
        | TypeTree::Write(span, ..)
        | TypeTree::Respond(span, ..)
        | TypeTree::Fields(span, ..)
        | TypeTree::Apply(span, ..)
        | TypeTree::Rec(span, ..) => *span,
    }
}

/// Where a pattern stands.
#[tactic(auto, unfolding(crate::specs::PlainTrees::pat_of))]
pub fn pat_span(pat: &Pat) -> Span
    ensures { result ≡ pat_span (pat_of pat.now) }
{
    match pat {
        Pat::Bind(span, ..) | Pat::Any(span, ..) | Pat::Fields(span, ..) | Pat::Fold(span, ..) =>
            *span,
    }
}

/// Where an abstraction stands.
#[tactic(auto, unfolding(crate::specs::PlainTrees::dec_of))]
pub fn abs_span(abs: &Abs) -> Span
    ensures { result ≡ abs_span (abs_of abs.now) }
{
    match abs {
        Abs::Process(span, ..) | Abs::Function(span, ..) => *span,
    }
}

/// Where a value that may be a channel stands.
#[tactic(auto, unfolding(crate::specs::PlainTrees::dec_of))]
pub fn chan_span(chan: &Chan) -> Span
    ensures { result ≡ chan_span (chan_of chan.now) }
{
    match chan {
        Chan::Use(span, ..)
        | Chan::Fold(span, ..)
        | Chan::Block(span, ..)
        | Chan::Apply(span, ..)
        | Chan::Right(span, ..)
        | Chan::Left(span, ..) => *span,
    }
}

/// Where a value stands.
#[tactic(auto, unfolding(crate::specs::PlainTrees::dec_of))]
pub fn val_span(val: &Val) -> Span
    ensures { result ≡ val_span (val_of val.now) }
{
    match val {
        Val::OfChan(chan) => chan_span(chan),
        Val::Number(span, ..)
        | Val::Character(span, ..)
        | Val::String(span, ..)
        | Val::True(span)
        | Val::False(span)
        | Val::Fields(span, ..)
        | Val::If(span, ..)
        | Val::Lambda(span, ..) => *span,
    }
}

/// Where a process stands.
#[tactic(auto, unfolding(crate::specs::PlainTrees::dec_of))]
pub fn proc_span(proc: &Proc) -> Span
    ensures { result ≡ proc_span (proc_of proc.now) }
{
    match proc {
        Proc::Send(span, ..)
        | Proc::Receive(span, ..)
        | Proc::Serve(span, ..)
        | Proc::If(span, ..)
        | Proc::Inert(span)
        | Proc::Group(span, ..) => *span,
    }
}
