// The type of the answer of a function: where an abstraction is to have it, and within a record.

ghost use Rattle.std.specs.Prelude.{◌≡◌, ◌-◌, ◌<◌, length, IfErr, IfOk, IfNone, IfSome, None, Some};
ghost use Rattle.pict_syntax.specs.PlainTrees.{annotation_of, type_of};
ghost use Rattle.pict_types.specs.Plain.{plain, plain_bounds, plain_record};
ghost use Rattle.pict_types.specs.PlainContext.{type_context};
ghost use Rattle.pict_types.specs.Types.{under};
ghost use Rattle.pict_scope.specs.DistinctLabels.{AnnotationHasDistinctLabels, HasDistinctLabels};
ghost use Rattle.pict_sub.specs.Exposing.{exposure};
ghost use Rattle.pict_rules.specs.Environments.{context_of, opened, shifted_by};
ghost use Rattle.pict_rules.specs.Regular.{IsTypeIn};
ghost use Rattle.pict_rules.specs.Shapes.{sendable};
ghost use Rattle.pict_infer.specs.Adding.{extension_of};
ghost use Rattle.pict_infer.specs.Answering.{IsAnswer};
ghost use Rattle.pict_infer.specs.Environments.{environment_of};
ghost use Rattle.pict_infer.specs.Steps.{changed_or_same};
ghost use Rattle.pict_lines.specs.Definitions.{answering_record, body_type, function_with, record_answers};
ghost use Rattle.pict_lines.specs.Functions.{IsNoFunction};
ghost use Rattle.pict_lines.specs.Lines.{formed};

use crate::parts::limited;
use crate::steps::{below, expanded};
use pict_infer::{Added, Env, InferError, Told};
use pict_sub::{TypeScope, expose_in};
use pict_syntax::{Code, RType, Span, TypeTree, type_span};
use pict_types::{Bound, Cap, Context, Record, Ty, shift_type};
use std::alloc::{AllocError, Global};
use std::rc::Rc;

/// The messages of `/U`, `!U` or `^U`; nothing where the type is none of these. Takes no memory.
fn sendable(t: &Ty) -> Option<&Ty>
    ensures none { IfNone result (sendable (plain t.now) ≡ None) }
    ensures some { IfSome result (λ u. sendable (plain t.now) ≡ Some (plain u.now)) }
{
    match t {
        Ty::Chan(Cap::Respond | Cap::Write | Cap::Both, u) => Some(u),
        _ => None,
    }
}

/// What may be sent on a type under these type fields; nothing where that isn't so. Both are written under them.
fn sent_under(alloc: Global, c: &Context, bs: &[Bound], last: &Ty) -> Result<Option<Ty>, AllocError>
    ensures none { IfOk result (λ o. IfNone o (sendable (exposure (under (type_context c.now) (plain_bounds bs.now)) (plain last.now)) ≡ None)) }
    ensures some { IfOk result (λ o. IfSome o (λ u. sendable (exposure (under (type_context c.now) (plain_bounds bs.now)) (plain last.now)) ≡ Some (plain u))) }
{
    let outer = TypeScope::Outer(c);
    let scope = TypeScope::Inner(bs, &outer);
    let exposed = expose_in(alloc, &scope, last)?;
    match sendable(&exposed) {
        None => Ok(None),
        Some(u) => Ok(Some(u.copy(alloc)?)),
    }
}

/// The type of the answer of a function that takes this record, under the type fields of the record: what may be sent on
/// its last positional field. Y8 at the place where there is none.
pub fn answer_in(alloc: Global, env: &Env, r: &Record, at: Span) -> Result<Ty, InferError>
    ensures some { IfOk result (λ _. 0 < length r.now.positional.items) }
    ensures ok { IfOk result (λ u. record_answers (environment_of env.now) r.now ≡ Some (function_with r.now (plain u))) }
    ensures refused { IfErr result (λ y. IsNoFunction (record_answers (environment_of env.now) r.now) at y) }
{
    let count = r.positional.len();
    if count == 0 {
        return Err(InferError::Named(Code::Y8, at, Told::Nothing));
    }
    let last = &r.positional[count - 1];
    match sent_under(alloc, env.context(), &r.binders, last)? {
        Some(u) => Ok(u),
        None => Err(InferError::Named(Code::Y8, at, Told::Nothing)),
    }
}

/// How many type variables are added. An error where a `u32` can't hold the number.
pub fn opened(x: &Added) -> Result<u32, AllocError>
    ensures { IfOk result (λ n. n ≡ opened (extension_of x.now)) }
{
    match u32::try_from(x.binders.len()) {
        Ok(n) => Ok(n),
        Err(_) => Err(AllocError),
    }
}

/// The type past the type variables that are added; nothing where none are, and the type stays as it is.
pub fn past_added(alloc: Global, x: &Added, t: &Ty) -> Result<Option<Ty>, AllocError>
    ensures { IfOk result (λ o. changed_or_same o t.now ≡ shifted_by (opened (extension_of x.now)) (plain t.now)) }
{
    let by = opened(x)?;
    if by == 0 {
        return Ok(None);
    }
    Ok(Some(shift_type(alloc, t, by, 0)?))
}

/// The record of a function's fields, with the channel of the answer in the last positional place. K4 at the place where
/// it passes a limit.
pub fn argument(
    alloc: Global,
    env: &Env,
    fields: Record,
    answer: Ty,
    span: Span,
) -> Result<Ty, InferError>
    ensures { IsAnswer (formed (environment_of env.now) (answering_record fields (plain answer)) span) plain result }
{
    let mut fields = fields;
    let channel = Ty::Chan(Cap::Respond, Rc::new(alloc, answer)?);
    fields.positional.push(channel)?;
    limited(env, Ty::Fields(Rc::new(alloc, fields)?), span)
}

/// A written result type, which is below the answer's type. The refusals are K1 to K4, and Y4 at it.
fn written_below(alloc: Global, env: &Env, a: &TypeTree, answer: &Ty) -> Result<Ty, InferError>
    requires labels { HasDistinctLabels (type_of a.now) }
    requires answer { IsTypeIn (environment_of env.now) (plain answer.now) }
    ensures { IsAnswer (body_type (environment_of env.now) (Some (type_of a.now)) (plain answer.now)) plain result }
{
    let t = expanded(alloc, env, a)?;
    below(alloc, env, &t, answer, Code::Y4, type_span(a))?;
    Ok(t)
}

/// The type that the body of a function has: the result type that is written, which is below the answer's type, or else
/// this. The refusals are K1 to K4 and Y4.
pub fn body_type(alloc: Global, env: &Env, annotation: &RType, answer: Ty) -> Result<Ty, InferError>
    requires labels { AnnotationHasDistinctLabels (annotation_of annotation.now) }
    requires answer { IsTypeIn (environment_of env.now) (plain answer) }
    ensures { IsAnswer (body_type (environment_of env.now) (annotation_of annotation.now) (plain answer)) plain result }
{
    match &annotation.of {
        None => Ok(answer),
        Some(a) => written_below(alloc, env, a, &answer),
    }
}
