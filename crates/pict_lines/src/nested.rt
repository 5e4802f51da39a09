// The steps of nested applications of an operator to two values: the operator, its two fields, and the answer.

ghost use Rattle.std.specs.Prelude.{◌≡◌, length, None, Some, IfErr, IfOk, OnOk};
ghost use Rattle.pict_syntax.specs.Grammar.{val_span};
ghost use Rattle.pict_syntax.specs.Trees.{Val as Val', true_val};
ghost use Rattle.pict_types.specs.Instances.{ArgsAreWellFormed};
ghost use Rattle.pict_types.specs.Kinds.{IsWellFormed, kinds_under};
ghost use Rattle.pict_types.specs.Replacing.{FitTheirFields};
ghost use Rattle.pict_types.specs.Plain.{plain, plain_args};
ghost use Rattle.pict_rules.specs.Environments.{Environment};
ghost use Rattle.pict_rules.specs.Regular.{IsExpected, IsRegular, IsTypeIn, kinds_in};
ghost use Rattle.pict_infer.specs.Answering.{IsAnswer, IsStopped};
ghost use Rattle.pict_infer.specs.Environments.{environment_of};
ghost use Rattle.pict_lines.specs.Chains.{IsHead, IsNoOperator, IsUnfit, field_lines, before_fields, room_stop, wanted_at, wanted_in};
ghost use Rattle.pict_lines.specs.Functions.{function_of};
ghost use Rattle.pict_lines.specs.Judging.{IsAnswerFor};
ghost use Rattle.pict_lines.specs.Lines.{application_end, fields_end};
ghost use Rattle.pict_lines.specs.Operators.{AreFoundFor, HaveRoom, IsFoundFor, IsOperatorIn, found_by, frames_by, operator_of, type_if};

use crate::fields::{
    application_end, fields_end, found_first, given_fits, mentions_missing, wanted,
};
use crate::functions::{Function, head};
use crate::operators::Applied;
use crate::steps::below;
use pict_infer::{Env, InferError, Told};
use pict_match::{Found, match_type};
use pict_syntax::{Code, Id, Span};
use pict_types::{Arg, Ty};
use std::alloc::{AllocError, Global};

/// The first of the two fields. Takes no memory.
pub fn first(o: &Applied) -> &Ty
    ensures { plain result.now ≡ (operator_of o.now).first }
{
    &o.function.fields.positional[0]
}

/// The second of the two fields. Takes no memory.
pub fn second(o: &Applied) -> &Ty
    ensures { plain result.now ≡ (operator_of o.now).second }
{
    &o.function.fields.positional[1]
}

/// A copy of a type, if there is one.
pub fn copied(alloc: Global, t: &Option<Ty>) -> Result<Option<Ty>, AllocError>
    ensures { IfOk result (λ u. type_if u ≡ type_if t.now) }
{
    match t {
        None => Ok(None),
        Some(t) => Ok(Some(t.copy(alloc)?)),
    }
}

/// What the true literal at this place gives, or that it has the type that is expected. Y4 there.
pub fn true_for(
    alloc: Global,
    env: &Env,
    span: Span,
    expected: &Option<Ty>,
) -> Result<Option<Ty>, InferError>
    requires expected { IsExpected (environment_of env.now) (type_if expected.now) }
    ensures { IsAnswerFor (environment_of env.now) (true_val span) (type_if expected.now) type_if result }
{
    match expected {
        None => Ok(Some(Ty::Bool)),
        Some(t) => {
            below(alloc, env, &Ty::Bool, t, Code::Y4, span)?;
            Ok(None)
        }
    }
}

/// The operator that takes two positional fields and no labelled one; else Y5 and Y6 at the form.
fn two_fields(function: Function, name: Id, span: Span) -> Result<Applied, InferError>
    ensures name { IfOk result (λ o. o.name ≡ name) }
    ensures place { IfOk result (λ o. o.span ≡ span) }
    ensures function { IfOk result (λ o. o.function ≡ function) }
    ensures refused { IfErr result (λ y. (e : Environment) → IsUnfit e (function_of function) span y) }
{
    if function.fields.positional.len() != 2 {
        return Err(InferError::Named(Code::Y5, span, Told::Nothing));
    }
    if !function.fields.labelled.is_empty() {
        return Err(InferError::Named(Code::Y6, span, Told::Nothing));
    }
    Ok(Applied {
        span,
        name,
        function,
    })
}

/// The operator of this name, in the form at this place. Y8 at the name where it may not be applied; Y5 and Y6 at the
/// form where it doesn't take two positional fields and no labelled one.
pub fn operator(alloc: Global, env: &Env, name: Id, span: Span) -> Result<Applied, InferError>
    ensures name { IfOk result (λ o. o.name ≡ name) }
    ensures place { IfOk result (λ o. o.span ≡ span) }
    ensures head { IfOk result (λ o. IsHead (environment_of env.now) name (operator_of o)) }
    ensures refused { IfErr result (λ y. IsNoOperator (environment_of env.now) span name y) }
{
    let t = env.type_of_use(alloc, name.name)?;
    match head(alloc, env, t, name.span) {
        Ok(function) => two_fields(function, name, span),
        Err(error) => Err(error),
    }
}

/// What is found before the fields, where this type is wanted of the application.
pub fn start(
    alloc: Global,
    env: &Env,
    o: &Applied,
    wanted: &Option<Ty>,
) -> Result<Found, InferError>
    requires regular { IsRegular (environment_of env.now) }
    requires formed { IsOperatorIn (environment_of env.now) o.now }
    requires wanted { IsExpected (environment_of env.now) (type_if wanted.now) }
    ensures found { IfOk result (λ g. found_by o.now g ≡ before_fields (environment_of env.now) (operator_of o.now) (type_if wanted.now)) }
    ensures count { IfOk result (λ g. length g.list.items ≡ length o.now.function.fields.binders.items) }
    ensures memory { IfErr result (λ y. y ≡ InferError.Memory) }
{
    match wanted {
        None => Ok(found_first(alloc, env, &o.function, true, None)?),
        Some(t) => Ok(found_first(alloc, env, &o.function, true, Some(t))?),
    }
}

/// The type that the value of a field is wanted to have; nothing where it hangs on what isn't found yet. K4 at the form
/// where it passes a limit.
pub fn field_wanted(
    alloc: Global,
    env: &Env,
    o: &Applied,
    t: &Ty,
    found: &Found,
) -> Result<Option<Ty>, InferError>
    requires field { IsWellFormed (environment_of env.now).names (kinds_under (kinds_in (environment_of env.now)) (operator_of o.now).binders) (plain t.now) }
    requires found { IsFoundFor (environment_of env.now) (operator_of o.now).binders (found_by o.now found.now) }
    ensures wanted { IfOk result (λ w. type_if w ≡ wanted_at (plain t.now) (found_by o.now found.now)) }
    ensures room { IfOk result (λ _. room_stop (environment_of env.now) o.now.span (wanted_at (plain t.now) (found_by o.now found.now)) ≡ None) }
    ensures refused { IfErr result (λ y. IsStopped (room_stop (environment_of env.now) o.now.span (wanted_at (plain t.now) (found_by o.now found.now))) y) }
{
    if mentions_missing(alloc, t, found)? {
        return Ok(None);
    }
    match wanted(alloc, env, t, &o.function.fields.binders, found, o.span)? {
        None => Ok(Some(t.copy(alloc)?)),
        Some(u) => Ok(Some(u)),
    }
}

/// What a field finds, once its value, at a place, has the type that was wanted, or gave one. Y10, K4 and Y4.
pub fn field_given(
    alloc: Global,
    env: &Env,
    at: Span,
    o: &Applied,
    t: &Ty,
    given: &Option<Ty>,
    found: &mut Found,
) -> Result<(), InferError>
    requires regular { IsRegular (environment_of env.now) }
    requires field { IsWellFormed (environment_of env.now).names (kinds_under (kinds_in (environment_of env.now)) (operator_of o.now).binders) (plain t.now) }
    requires found { IsFoundFor (environment_of env.now) (operator_of o.now).binders (found_by o.now found.old) }
    requires given { IsExpected (environment_of env.now) (type_if given.now) }
    ensures lines { (v : Val') → val_span v ≡ at
        → IsAnswer (field_lines (environment_of env.now) o.now.span v (plain t.now) (found_by o.now found.old) (type_if given.now))
        (λ _. found_by o.now found.new) result }
    ensures found { OnOk result (IsFoundFor (environment_of env.now) (operator_of o.now).binders (found_by o.now found.new)) }
{
    let Some(g) = given else {
        return Ok(());
    };
    if !mentions_missing(alloc, t, found)? {
        return Ok(());
    }
    match_type(alloc, env.context(), t, g, found)?;
    given_fits(
        alloc,
        env,
        t,
        g,
        &o.function.fields.binders,
        found,
        at,
        o.span,
    )
}

/// The type arguments of an application, from what its fields found. Y10, K4 and Y9 at the form.
pub fn end_fields(
    alloc: Global,
    env: &Env,
    o: &Applied,
    found: &Found,
) -> Result<Vec<Arg>, InferError>
    requires regular { IsRegular (environment_of env.now) }
    requires formed { IsOperatorIn (environment_of env.now) o.now }
    requires found { IsFoundFor (environment_of env.now) (operator_of o.now).binders (found_by o.now found.now) }
    ensures answer { IsAnswer (fields_end (environment_of env.now) o.now.span (operator_of o.now).binders (found_by o.now found.now))
        (λ args. plain_args args.items) result }
    ensures formed { IfOk result (λ args. ArgsAreWellFormed (environment_of env.now).names (kinds_in (environment_of env.now)) (plain_args args.items)) }
    ensures fit { IfOk result (λ args. FitTheirFields (plain_args args.items) (operator_of o.now).binders) }
{
    fields_end(alloc, env, &o.function.fields.binders, found, o.span)
}

/// The type that an application gives. K4 and Y4 at the form.
pub fn end_application(
    alloc: Global,
    env: &Env,
    o: &Applied,
    args: &[Arg],
    wanted: &Option<Ty>,
) -> Result<Ty, InferError>
    requires regular { IsRegular (environment_of env.now) }
    requires formed { IsOperatorIn (environment_of env.now) o.now }
    requires args { ArgsAreWellFormed (environment_of env.now).names (kinds_in (environment_of env.now)) (plain_args args.now) }
    requires fit { FitTheirFields (plain_args args.now) (operator_of o.now).binders }
    requires wanted { IsExpected (environment_of env.now) (type_if wanted.now) }
    ensures answer { IsAnswer (application_end (environment_of env.now) o.now.span (operator_of o.now).answer (plain_args args.now) (type_if wanted.now))
        plain result }
    ensures formed { IfOk result (λ t. IsTypeIn (environment_of env.now) (plain t)) }
{
    match wanted {
        None => application_end(alloc, env, &o.function.answer, args, None, o.span),
        Some(t) => application_end(alloc, env, &o.function.answer, args, Some(t), o.span),
    }
}

/// What is wanted inside the applications that are entered, where the next one inside stands in a field of this type.
pub fn wanted_around(
    alloc: Global,
    env: &Env,
    o: &Applied,
    t: &Ty,
    frames: &[Found],
    expected: &Option<Ty>,
) -> Result<Option<Ty>, InferError>
    requires field { IsWellFormed (environment_of env.now).names (kinds_under (kinds_in (environment_of env.now)) (operator_of o.now).binders) (plain t.now) }
    requires found { AreFoundFor (environment_of env.now) (operator_of o.now).binders (frames_by o.now frames.now) }
    requires room { HaveRoom (environment_of env.now) o.now.span (plain t.now) (frames_by o.now frames.now) }
    ensures wanted { IfOk result (λ w. type_if w ≡ wanted_in (plain t.now) (type_if expected.now) (frames_by o.now frames.now)) }
    ensures memory { IfErr result (λ y. y ≡ InferError.Memory) }
{
    if frames.is_empty() {
        return Ok(copied(alloc, expected)?);
    }
    field_wanted(alloc, env, o, t, &frames[frames.len() - 1])
}
