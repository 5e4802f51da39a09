// The steps of the rules that form types: written types expanded, bounds followed, unfoldings, subtypes and limits.

ghost use Rattle.std.specs.Prelude.{◌≡◌, IfOk, IfNone, IfSome};
ghost use Rattle.pict_syntax.specs.PlainTrees.{annotation_of, type_of};
ghost use Rattle.pict_types.specs.Plain.{plain, plain_record};
ghost use Rattle.pict_types.specs.PlainContext.{IsWrittenIn, type_context};
ghost use Rattle.pict_types.specs.Recursion.{IsRecursive};
ghost use Rattle.pict_scope.specs.DistinctLabels.{AnnotationHasDistinctLabels, HasDistinctLabels};
ghost use Rattle.pict_sub.specs.Exposing.{exposure};
ghost use Rattle.pict_infer.specs.Answering.{AreToldBy, IsAnswer, nothing};
ghost use Rattle.pict_infer.specs.Shaping.{is_recursive, is_variable, IsNoRecord};
ghost use Rattle.pict_infer.specs.Steps.{annotated, below, expanded, limited, recursive, changed_or_same, unfolded};
ghost use Rattle.pict_infer.specs.Places.{environment_in};

use crate::error::{InferError, Told, refusal, size_refusal};
use pict_normal::expand;
use pict_sub::{expose, is_subtype};
use pict_syntax::{Code, RType, Span, TypeTree};
use pict_types::{Context, Record, Ty, too_big, unfold};
use std::alloc::{AllocError, Global};

/// A written type, expanded. The refusals are K1 to K4.
pub fn expanded(alloc: Global, c: &Context, t: &TypeTree) -> Result<Ty, InferError>
    requires labels { HasDistinctLabels (type_of t.now) }
    ensures answer { IsAnswer (expanded (environment_in c.now) (type_of t.now)) plain result }
    ensures formed { IfOk result (λ u. IsWrittenIn c.now (plain u)) }
{
    match expand(alloc, c, t) {
        Ok(u) => Ok(u),
        Err(e) => Err(refusal(e)),
    }
}

/// An annotation, expanded. Y7 at the place where there is none, and K1 to K4.
pub fn annotated(
    alloc: Global,
    c: &Context,
    annotation: &RType,
    span: Span,
) -> Result<Ty, InferError>
    requires labels { AnnotationHasDistinctLabels (annotation_of annotation.now) }
    ensures answer { IsAnswer (annotated (environment_in c.now) (annotation_of annotation.now) span) plain result }
    ensures formed { IfOk result (λ u. IsWrittenIn c.now (plain u)) }
{
    match &annotation.of {
        None => Err(InferError::Named(Code::Y7, span, Told::Nothing)),
        Some(t) => expanded(alloc, c, t),
    }
}

/// K4 at the place where the type passes a limit. Takes no memory.
pub fn within_limits(c: &Context, t: &Ty, span: Span) -> Result<(), InferError>
    ensures { IsAnswer (limited (environment_in c.now) (plain t.now) span) nothing result }
{
    match too_big(c.measures(t)) {
        None => Ok(()),
        Some(_) => Err(InferError::Named(Code::K4, span, Told::Nothing)),
    }
}

/// This refusal where `s` is no subtype of `t`.
pub fn below(
    alloc: Global,
    c: &Context,
    s: &Ty,
    t: &Ty,
    code: Code,
    span: Span,
) -> Result<(), InferError>
    requires s { IsWrittenIn c.now (plain s.now) }
    requires t { IsWrittenIn c.now (plain t.now) }
    ensures { IsAnswer (below (environment_in c.now) (plain s.now) (plain t.now) code span) nothing result }
{
    let below = is_subtype(alloc, c, s, t)?;
    if below {
        return Ok(());
    }
    let told = types_told(alloc, s, t)?;
    Err(InferError::Named(code, span, told))
}

// These two types, to be told. The only error is want of memory.
fn types_told(alloc: Global, s: &Ty, t: &Ty) -> Result<Told, AllocError>
    ensures { IfOk result (AreToldBy (plain s.now) (plain t.now)) }
{
    Ok(Told::Types(s.copy(alloc)?, t.copy(alloc)?))
}

/// Whether it is a recursive type. Takes no memory.
fn is_recursive(t: &Ty) -> bool
    ensures { result ≡ is_recursive (plain t.now) }
{
    match t {
        Ty::Rec(_) => true,
        Ty::Top
        | Ty::Int
        | Ty::Char
        | Ty::Str
        | Ty::Bool
        | Ty::Var(_)
        | Ty::Apply(..)
        | Ty::Chan(..)
        | Ty::Fields(_) => false,
    }
}

/// Whether it is a type variable. Takes no memory.
fn is_variable(t: &Ty) -> bool
    ensures { result ≡ is_variable (plain t.now) }
{
    match t {
        Ty::Var(_) => true,
        Ty::Top
        | Ty::Int
        | Ty::Char
        | Ty::Str
        | Ty::Bool
        | Ty::Apply(..)
        | Ty::Chan(..)
        | Ty::Fields(_)
        | Ty::Rec(_) => false,
    }
}

/// The record of a record type; nothing where it is none. Takes no memory.
#[tactic(auto, using(pict_types::proofs::Rows::plain_fields))]
pub fn as_record(t: &Ty) -> Option<&Record>
    ensures none { IfNone result (IsNoRecord (plain t.now)) }
    ensures some { IfSome result (λ r. plain t.now ≡ plain_record r.now) }
{
    match t {
        Ty::Fields(r) => Some(r),
        Ty::Top
        | Ty::Int
        | Ty::Char
        | Ty::Str
        | Ty::Bool
        | Ty::Var(_)
        | Ty::Apply(..)
        | Ty::Chan(..)
        | Ty::Rec(_) => None,
    }
}

/// Y13 at the place where the type isn't a recursive one. Takes no memory.
pub fn recursive(t: &Ty, span: Span) -> Result<(), InferError>
    ensures { IsAnswer (recursive (plain t.now) span) nothing result }
{
    if is_recursive(t) {
        return Ok(());
    }
    Err(InferError::Named(Code::Y13, span, Told::Nothing))
}

/// The unfolding of a recursive type. K4 at the place where it passes a limit.
pub fn unfolded(alloc: Global, c: &Context, t: &Ty, span: Span) -> Result<Ty, InferError>
    requires recursive { IsRecursive (plain t.now) }
    requires t { IsWrittenIn c.now (plain t.now) }
    ensures answer { IsAnswer (unfolded (environment_in c.now) (plain t.now) span) plain result }
    ensures formed { IfOk result (λ u. IsWrittenIn c.now (plain u)) }
{
    match unfold(alloc, c, t) {
        Ok(u) => Ok(u),
        Err(e) => Err(size_refusal(e, span)),
    }
}

/// What a type variable exposes to; nothing where the type is no variable, and is its own exposure.
pub fn followed(alloc: Global, c: &Context, t: &Ty) -> Result<Option<Ty>, AllocError>
    ensures none { IfOk result (λ o. IfNone o (exposure (type_context c.now) (plain t.now) ≡ plain t.now)) }
    ensures some { IfOk result (λ o. IfSome o (λ u. plain u ≡ exposure (type_context c.now) (plain t.now))) }
    ensures formed { IfOk result (λ o. IfSome o (λ u. IsWrittenIn c.now (plain t.now) → IsWrittenIn c.now (plain u))) }
{
    if is_variable(t) {
        return Ok(Some(expose(alloc, c, t)?));
    }
    Ok(None)
}

/// The exposure of a type, from what `followed` answered.
pub fn changed_or_same<'a>(followed: &'a Option<Ty>, t: &'a Ty) -> &'a Ty
    ensures { plain result.now ≡ changed_or_same followed.now t.now }
{
    match followed {
        Some(u) => u,
        None => t,
    }
}
