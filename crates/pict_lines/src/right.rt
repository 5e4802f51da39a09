// Nested applications from the right, on the way out.

ghost use Rattle.std.specs.Prelude.{◌≤◌, length};
ghost use Rattle.pict_rules.specs.Regular.{IsExpected};
ghost use Rattle.pict_infer.specs.Environments.{environment_of};
ghost use Rattle.pict_lines.specs.Judging.{IsAnswerFor, IsFor};
ghost use Rattle.pict_lines.specs.Nesting.{AreAllEntered, IsRightForm, right_form, right_inside, wanted_right};
ghost use Rattle.pict_lines.specs.Operators.{type_if};

use crate::nested::{end_application, end_fields, field_given, second, wanted_around};
use crate::operators::Applied;
use pict_infer::{Env, InferError};
use pict_match::Found;
use pict_syntax::{Val, val_span};
use pict_types::Ty;
use std::alloc::Global;

/// What `(f > vs)` gives, or that it has the type that is expected, once all its applications are entered and the last
/// value has the type that is wanted there, or gave one.
pub fn leave(
    alloc: Global,
    env: &Env,
    vs: &[Val],
    o: &Applied,
    entered: Vec<Found>,
    expected: &Option<Ty>,
    last: Option<Ty>,
) -> Result<Option<Ty>, InferError>
    requires some { 1 ≤ length vs.now }
    requires form { IsRightForm (environment_of env.now) o.now vs.now expected.now }
    requires entered { AreAllEntered (environment_of env.now) o.now vs.now expected.now entered.items }
    requires last { IsFor (environment_of env.now) (right_inside o.now vs.now entered.items) (wanted_right o.now expected.now entered.items) (type_if last) }
    requires given { IsExpected (environment_of env.now) (type_if last) }
    ensures { IsAnswerFor (environment_of env.now) (right_form o.now vs.now) (type_if expected.now) type_if result }
{
    let mut frames = entered;
    let mut given = last;
    let mut at = val_span(&vs[vs.len() - 1]);
    'up: while let Some(inner) = frames.pop() {
        let mut found = inner;
        field_given(alloc, env, at, o, second(o), &given, &mut found)?;
        let args = end_fields(alloc, env, o, &found)?;
        let around = wanted_around(alloc, env, o, second(o), &frames, expected)?;
        given = Some(end_application(alloc, env, o, &args, &around)?);
        at = o.span;
    }
    Ok(given)
}
