// Normal forms of written types.

ghost use Rattle.std.specs.Prelude.{◌≡◌, [], IfErr, IfOk};
ghost use Rattle.std.specs.Result.{IsOkAnd};
ghost use Rattle.pict_syntax.specs.PlainTrees.{type_of};
ghost use Rattle.pict_scope.specs.DistinctLabels.{HasDistinctLabels};
ghost use Rattle.pict_types.specs.Kinds.{IsWellFormed};
ghost use Rattle.pict_normal.specs.Made.{IsMade, IsReason};
ghost use Rattle.pict_normal.specs.Meanings.{entry_kinds, meanings};
ghost use Rattle.pict_types.specs.Measures.{heights, weight_of, weights};
ghost use Rattle.pict_normal.specs.Normal.{kind_stops};
ghost use Rattle.pict_syntax.specs.Grammar.{type_span};
ghost use Rattle.pict_types.specs.Plain.{plain};
ghost use Rattle.pict_types.specs.PlainContext.{IsWrittenIn, names_of, plain_context, type_context};
ghost use Rattle.pict_types.specs.Places.{entry_names};
ghost use Rattle.pict_normal.specs.Raw.{raw};
ghost use Rattle.pict_normal.specs.Refusals.{IsFirst, IsRefusal, kind_error};
ghost use Rattle.pict_types.specs.Replacing.{replace};
ghost use Rattle.pict_types.specs.WithinLimits.{IsWithinLimits};
ghost use Rattle.pict_normal.specs.Written.{normal_in, stop_in};

use crate::binders::Binders;
use crate::made::{Made, MakeError};
use crate::puts::{Puts, Source};
use crate::raw::raw_type;
use crate::replacement::made_type;
use crate::stops::KindError;
use pict_syntax::{Code, Span, TypeTree};
use pict_types::{Context, Measures, Ty};
use std::alloc::Global;

/// The place of a written type.
#[tactic(auto, unfolding(pict_syntax::specs::PlainTrees::type_of))]
fn span_of(t: &TypeTree) -> Span
    ensures { result ≡ type_span (type_of t.now) }
{
    match t {
        TypeTree::Top(span)
        | TypeTree::Int(span)
        | TypeTree::Char(span)
        | TypeTree::String(span)
        | TypeTree::Bool(span)
        | TypeTree::Use(span, ..)
        | TypeTree::Both(span, ..)
        | TypeTree::Read(span, ..)
        | TypeTree::Write(span, ..)
        | TypeTree::Respond(span, ..)
        | TypeTree::Fields(span, ..)
        | TypeTree::Apply(span, ..)
        | TypeTree::Rec(span, ..) => *span,
    }
}

/// The type of a tree, where each name is the variable of its entry.
fn raw_of(alloc: Global, c: &Context, t: &TypeTree) -> Result<Ty, KindError>
    ensures raw { IfOk result (λ u. plain u ≡ raw (names_of c.now) (entry_names (plain_context c.now)) (type_of t.now)) }
    ensures kinds { IfOk result (λ _. kind_stops (names_of c.now) (plain_context c.now) (type_of t.now) ≡ []) }
    ensures first { IfErr result (λ e. IsFirst (kind_stops (names_of c.now) (plain_context c.now) (type_of t.now)) e) }
{
    let mut binders = Binders::new(alloc);
    raw_type(alloc, t, c, &mut binders)
}

/// The type that was made. K4 at this place where it passes a limit.
fn kept(made: Result<Made, MakeError>, span: Span) -> Result<Ty, KindError>
    ensures ok { IfOk result (λ u. IsOkAnd made (λ m. m.ty ≡ Some u)) }
    ensures missing { IfErr result (λ e. IfOk made (λ m. (m.ty ≡ None) × (e ≡ KindError.Named Code.K4 span))) }
    ensures reason { IfErr result (λ e. IfErr made (λ reason. e ≡ kind_error span reason)) }
{
    match made {
        Ok(Made { ty: Some(u), .. }) => Ok(u),
        Ok(Made { ty: None, .. }) => Err(KindError::Named(Code::K4, span)),
        Err(MakeError::TooHeavy) => Err(KindError::Named(Code::K4, span)),
        Err(MakeError::Memory) => Err(KindError::Memory),
    }
}

/// Puts what the entries of the context mean for the variables of `t`, of which variable `i` is entry `i`.
fn made_entries(alloc: Global, t: &Ty, c: &Context) -> Result<Made, MakeError>
    requires formed { IsWellFormed (names_of c.now) (entry_kinds (plain_context c.now)) (plain t.now) }
    ensures made { IfOk result (λ m. IsMade (weights (type_context c.now)) (heights (type_context c.now)) m
        (replace (meanings (plain_context c.now)) (plain t.now))) }
    ensures reason { IfErr result (λ e. IsReason (weight_of (type_context c.now) (replace (meanings (plain_context c.now)) (plain t.now))) e) }
{
    let puts = Puts {
        source: Source::Entries,
        context: c,
    };
    let mut inner: Vec<Measures> = Vec::new(alloc);
    made_type(alloc, t, &puts, &mut inner)
}

/// The normal form of a written type: definitions are replaced by their bodies, and operators are applied.
///
/// A type is refused at the first place in reading order where a rule of kinds fails (K1 to K3), or else as a whole
/// where it passes a limit (K4). The work goes with the size of the written type and the weight of the answer: making
/// stops at the first part that takes the weight past its limit, and an argument that an operator drops isn't made.
///
/// The one condition is that no record of the written type has a label twice: scopes are checked before kinds, and a
/// label twice is refused there. Contexts are well formed by themselves. `Memory` also comes where a `u32` can't number
/// the entries and the binders around a place.
pub fn expand(alloc: Global, c: &Context, t: &TypeTree) -> Result<Ty, KindError>
    requires labels { HasDistinctLabels (type_of t.now) }
    ensures normal { IfOk result (λ u. plain u ≡ normal_in c.now (type_of t.now)) }
    ensures allowed { IfOk result (λ _. stop_in c.now (type_of t.now) ≡ None) }
    ensures formed { IfOk result (λ u. IsWrittenIn c.now (plain u)) }
    ensures within { IfOk result (λ u. IsWithinLimits (type_context c.now) (plain u)) }
    ensures refused { IfErr result (λ e. IsRefusal (stop_in c.now (type_of t.now)) e) }
{
    let raw = raw_of(alloc, c, t)?;
    kept(made_entries(alloc, &raw, c), span_of(t))
}
