// The forms from the right and from the left: applications as deep as there are values, by a frame for each.

ghost use Rattle.std.specs.Prelude.{◌≤◌, length, IfErr, IfOk, OnOk};
ghost use Rattle.pict_syntax.specs.PlainTrees.{val_of, vals_on};
ghost use Rattle.pict_syntax.specs.Trees.{left_chan, no_vals, of_chan, right_chan};
ghost use Rattle.pict_types.specs.Plain.{plain};
ghost use Rattle.pict_rules.specs.Regular.{IsExpected};
ghost use Rattle.pict_rules.specs.Rules.{nothing_, type_, gives, has};
ghost use Rattle.pict_rules.specs.Typing.{rule};
ghost use Rattle.pict_infer.specs.Answering.{IsAnswer, nothing};
ghost use Rattle.pict_infer.specs.Asking.{IsWellAsked};
ghost use Rattle.pict_infer.specs.Environments.{environment_of, IsAsBefore};
ghost use Rattle.pict_lines.specs.Chains.{alone, nested, nested_left};
ghost use Rattle.pict_lines.specs.Judging.{IsAnswerFor, IsAskedFor, IsFor, IsRefusedFor};
ghost use Rattle.pict_lines.specs.Nesting.{AreAllBegun, AreAllEntered, IsLeftForm, IsRightForm, left_first, left_form, right_form, wanted_left};
ghost use Rattle.pict_lines.specs.Operators.{type_if, vals_of};

use crate::fitting::value_fits;
use crate::values::{gives, has};
use pict_infer::{Env, InferError};
use pict_lines::left::begin;
use pict_lines::nested::{
    copied, end_application, end_fields, field_given, field_wanted, first, operator, second, start,
    true_for, wanted_around,
};
use pict_lines::operators::Applied;
use pict_lines::right::leave;
use pict_match::Found;
use pict_syntax::{Id, Span, Val, val_span};
use pict_types::Ty;
use std::alloc::Global;

/// What `(f > vs)` gives.
#[cycle(values)]
pub fn right_gives(
    alloc: Global,
    env: &mut Env,
    vs: &[Val],
    name: Id,
    span: Span,
) -> Result<Ty, InferError>
    requires right { IsWellAsked type_ (environment_of env.old) (gives (of_chan (right_chan span name (vals_on no_vals vs.now)))) }
    ensures answer { IsAnswer (rule (environment_of env.old) (gives (of_chan (right_chan span name (vals_on no_vals vs.now))))) plain result }
    ensures same { OnOk result (IsAsBefore env.old env.new) }
{
    match right(alloc, env, vs, name, span, &None)? {
        Some(t) => Ok(t),
        None => unreachable!(),
    }
}

/// `(f > vs)` has a type.
#[cycle(values)]
pub fn right_has(
    alloc: Global,
    env: &mut Env,
    vs: &[Val],
    name: Id,
    span: Span,
    t: &Ty,
) -> Result<(), InferError>
    requires right { IsWellAsked nothing_ (environment_of env.old) (has (of_chan (right_chan span name (vals_on no_vals vs.now))) (plain t.now)) }
    ensures answer { IsAnswer (rule (environment_of env.old) (has (of_chan (right_chan span name (vals_on no_vals vs.now))) (plain t.now))) nothing result }
    ensures same { OnOk result (IsAsBefore env.old env.new) }
{
    let expected = Some(t.copy(alloc)?);
    let _given = right(alloc, env, vs, name, span, &expected)?;
    Ok(())
}

/// What `(f < vs)` gives.
#[cycle(values)]
pub fn left_gives(
    alloc: Global,
    env: &mut Env,
    vs: &[Val],
    name: Id,
    span: Span,
) -> Result<Ty, InferError>
    requires right { IsWellAsked type_ (environment_of env.old) (gives (of_chan (left_chan span name (vals_on no_vals vs.now)))) }
    ensures answer { IsAnswer (rule (environment_of env.old) (gives (of_chan (left_chan span name (vals_on no_vals vs.now))))) plain result }
    ensures same { OnOk result (IsAsBefore env.old env.new) }
{
    match left(alloc, env, vs, name, span, &None)? {
        Some(t) => Ok(t),
        None => unreachable!(),
    }
}

/// `(f < vs)` has a type.
#[cycle(values)]
pub fn left_has(
    alloc: Global,
    env: &mut Env,
    vs: &[Val],
    name: Id,
    span: Span,
    t: &Ty,
) -> Result<(), InferError>
    requires right { IsWellAsked nothing_ (environment_of env.old) (has (of_chan (left_chan span name (vals_on no_vals vs.now))) (plain t.now)) }
    ensures answer { IsAnswer (rule (environment_of env.old) (has (of_chan (left_chan span name (vals_on no_vals vs.now))) (plain t.now))) nothing result }
    ensures same { OnOk result (IsAsBefore env.old env.new) }
{
    let expected = Some(t.copy(alloc)?);
    let _given = left(alloc, env, vs, name, span, &expected)?;
    Ok(())
}

/// A value has the type that is wanted, or gives one where none is.
#[cycle(values)]
fn judged(
    alloc: Global,
    env: &mut Env,
    v: &Val,
    wanted: &Option<Ty>,
) -> Result<Option<Ty>, InferError>
    requires asked { IsAskedFor (environment_of env.old) (val_of v.now) (type_if wanted.now) }
    ensures answer { IsAnswerFor (environment_of env.old) (val_of v.now) (type_if wanted.now) type_if result }
    ensures formed { IfOk result (λ t. IsExpected (environment_of env.old) (type_if t)) }
    ensures same { OnOk result (IsAsBefore env.old env.new) }
{
    match wanted {
        None => Ok(Some(gives(alloc, env, v)?)),
        Some(t) => {
            has(alloc, env, v, t)?;
            Ok(None)
        }
    }
}

/// What the first value gives, or that it has the type that is expected; the same of the true literal, at this place,
/// where there is no value.
#[cycle(values)]
fn alone(
    alloc: Global,
    env: &mut Env,
    vs: &[Val],
    span: Span,
    expected: &Option<Ty>,
) -> Result<Option<Ty>, InferError>
    requires asked { IsAskedFor (environment_of env.old) (alone span (vals_of vs.now)) (type_if expected.now) }
    ensures answer { IsAnswerFor (environment_of env.old) (alone span (vals_of vs.now)) (type_if expected.now) type_if result }
    ensures same { OnOk result (IsAsBefore env.old env.new) }
{
    if vs.is_empty() {
        return true_for(alloc, env, span, expected);
    }
    judged(alloc, env, &vs[0], expected)
}

/// What `(f > vs)` gives, or that it has the type that is expected.
#[cycle(values)]
fn right(
    alloc: Global,
    env: &mut Env,
    vs: &[Val],
    name: Id,
    span: Span,
    expected: &Option<Ty>,
) -> Result<Option<Ty>, InferError>
    requires asked { IsAskedFor (environment_of env.old) (nested span name (vals_of vs.now)) (type_if expected.now) }
    ensures answer { IsAnswerFor (environment_of env.old) (nested span name (vals_of vs.now)) (type_if expected.now) type_if result }
    ensures same { OnOk result (IsAsBefore env.old env.new) }
{
    if vs.len() < 2 {
        return alone(alloc, env, vs, span, expected);
    }
    let o = operator(alloc, env, name, span)?;
    right_by(alloc, env, vs, &o, expected)
}

/// The same of at least two values, with this operator before the `>`.
#[cycle(values)]
fn right_by(
    alloc: Global,
    env: &mut Env,
    vs: &[Val],
    o: &Applied,
    expected: &Option<Ty>,
) -> Result<Option<Ty>, InferError>
    requires some { 2 ≤ length vs.now }
    requires form { IsRightForm (environment_of env.old) o.now vs.now expected.now }
    ensures answer { IsAnswerFor (environment_of env.old) (right_form o.now vs.now) (type_if expected.now) type_if result }
    ensures same { OnOk result (IsAsBefore env.old env.new) }
{
    let frames = enter(alloc, env, vs, o, expected)?;
    let inside = wanted_around(alloc, env, o, second(o), &frames, expected)?;
    let given = judged(alloc, env, &vs[vs.len() - 1], &inside)?;
    leave(alloc, env, vs, o, frames, expected, given)
}

/// What the first field finds in each application of `(f > vs)`, from the outermost in.
#[cycle(values)]
fn enter(
    alloc: Global,
    env: &mut Env,
    vs: &[Val],
    o: &Applied,
    expected: &Option<Ty>,
) -> Result<Vec<Found>, InferError>
    requires some { 1 ≤ length vs.now }
    requires form { IsRightForm (environment_of env.old) o.now vs.now expected.now }
    ensures entered { IfOk result (λ fs. AreAllEntered (environment_of env.old) o.now vs.now expected.now fs.items) }
    ensures refused { IfErr result (λ y. IsRefusedFor (environment_of env.old) (right_form o.now vs.now) (type_if expected.now) y) }
    ensures same { OnOk result (IsAsBefore env.old env.new) }
{
    let last = vs.len() - 1;
    let mut frames = Vec::new(alloc);
    let mut inside = copied(alloc, expected)?;
    for i in 0..last {
        let mut found = start(alloc, env, o, &inside)?;
        value_fits(
            alloc,
            env,
            &vs[i],
            first(o),
            &o.function.fields.binders,
            &mut found,
            o.span,
        )?;
        inside = field_wanted(alloc, env, o, second(o), &found)?;
        frames.push(found)?;
    }
    Ok(frames)
}

/// What `(f < vs)` gives, or that it has the type that is expected.
#[cycle(values)]
fn left(
    alloc: Global,
    env: &mut Env,
    vs: &[Val],
    name: Id,
    span: Span,
    expected: &Option<Ty>,
) -> Result<Option<Ty>, InferError>
    requires asked { IsAskedFor (environment_of env.old) (nested_left span name (vals_of vs.now)) (type_if expected.now) }
    ensures answer { IsAnswerFor (environment_of env.old) (nested_left span name (vals_of vs.now)) (type_if expected.now) type_if result }
    ensures same { OnOk result (IsAsBefore env.old env.new) }
{
    if vs.len() < 2 {
        return alone(alloc, env, vs, span, expected);
    }
    let o = operator(alloc, env, name, span)?;
    left_by(alloc, env, vs, &o, expected)
}

/// The same of at least two values, with this operator before the `<`.
#[cycle(values)]
fn left_by(
    alloc: Global,
    env: &mut Env,
    vs: &[Val],
    o: &Applied,
    expected: &Option<Ty>,
) -> Result<Option<Ty>, InferError>
    requires some { 2 ≤ length vs.now }
    requires form { IsLeftForm (environment_of env.old) o.now vs.now expected.now }
    ensures answer { IsAnswerFor (environment_of env.old) (left_form o.now vs.now) (type_if expected.now) type_if result }
    ensures same { OnOk result (IsAsBefore env.old env.new) }
{
    let frames = begin(alloc, env, vs, o, expected)?;
    let inside = wanted_around(alloc, env, o, first(o), &frames, expected)?;
    let given = judged(alloc, env, &vs[0], &inside)?;
    finish(alloc, env, vs, o, frames, expected, given)
}

/// What `(f < vs)` gives, or that it has the type that is expected, once all its applications are begun and the first
/// value has the type that is wanted there, or gave one.
#[cycle(values)]
fn finish(
    alloc: Global,
    env: &mut Env,
    vs: &[Val],
    o: &Applied,
    begun: Vec<Found>,
    expected: &Option<Ty>,
    innermost: Option<Ty>,
) -> Result<Option<Ty>, InferError>
    requires form { IsLeftForm (environment_of env.old) o.now vs.now expected.now }
    requires begun { AreAllBegun (environment_of env.old) o.now vs.now expected.now begun.items }
    requires first { IsFor (environment_of env.old) (left_first o.now vs.now) (wanted_left o.now expected.now begun.items) (type_if innermost) }
    requires given { IsExpected (environment_of env.old) (type_if innermost) }
    ensures answer { IsAnswerFor (environment_of env.old) (left_form o.now vs.now) (type_if expected.now) type_if result }
    ensures same { OnOk result (IsAsBefore env.old env.new) }
{
    let mut frames = begun;
    let mut given = innermost;
    let mut at = val_span(&vs[0]);
    'up: while let Some(before) = frames.pop() {
        let mut found = before;
        field_given(alloc, env, at, o, first(o), &given, &mut found)?;
        let v = &vs[vs.len() - 1 - frames.len()];
        value_fits(
            alloc,
            env,
            v,
            second(o),
            &o.function.fields.binders,
            &mut found,
            o.span,
        )?;
        let args = end_fields(alloc, env, o, &found)?;
        let around = wanted_around(alloc, env, o, first(o), &frames, expected)?;
        given = Some(end_application(alloc, env, o, &args, &around)?);
        at = o.span;
    }
    Ok(given)
}
