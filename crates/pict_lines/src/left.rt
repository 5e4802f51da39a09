// Nested applications from the left, on the way in.

ghost use Rattle.std.specs.Prelude.{◌≤◌, length, IfErr, IfOk};
ghost use Rattle.pict_infer.specs.Environments.{environment_of};
ghost use Rattle.pict_lines.specs.Judging.{IsRefusedFor};
ghost use Rattle.pict_lines.specs.Nesting.{AreAllBegun, IsLeftForm, left_form};
ghost use Rattle.pict_lines.specs.Operators.{type_if};

use crate::nested::{copied, field_wanted, first, start};
use crate::operators::Applied;
use pict_infer::{Env, InferError};
use pict_match::Found;
use pict_syntax::Val;
use pict_types::Ty;
use std::alloc::Global;

/// What is found before the fields of each application of `(f < vs)`, from the outermost in. K4 at the form where what
/// a first field is wanted to have passes a limit.
pub fn begin(
    alloc: Global,
    env: &Env,
    vs: &[Val],
    o: &Applied,
    expected: &Option<Ty>,
) -> Result<Vec<Found>, InferError>
    requires some { 1 ≤ length vs.now }
    requires form { IsLeftForm (environment_of env.now) o.now vs.now expected.now }
    ensures begun { IfOk result (λ fs. AreAllBegun (environment_of env.now) o.now vs.now expected.now fs.items) }
    ensures refused { IfErr result (λ y. IsRefusedFor (environment_of env.now) (left_form o.now vs.now) (type_if expected.now) y) }
{
    let mut frames = Vec::new(alloc);
    let mut inside = copied(alloc, expected)?;
    'down: while frames.len() < vs.len() - 1 {
        let before = start(alloc, env, o, &inside)?;
        inside = field_wanted(alloc, env, o, first(o), &before)?;
        frames.push(before)?;
    }
    Ok(frames)
}
