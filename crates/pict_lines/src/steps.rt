// The steps of the rules in what is known at a place.

ghost use Rattle.std.specs.Prelude.{◌≡◌, IfOk};
ghost use Rattle.pict_syntax.specs.PlainTrees.{type_of};
ghost use Rattle.pict_types.specs.Plain.{plain};
ghost use Rattle.pict_types.specs.Recursion.{IsRecursive};
ghost use Rattle.pict_scope.specs.DistinctLabels.{HasDistinctLabels};
ghost use Rattle.pict_sub.specs.Exposing.{exposure};
ghost use Rattle.pict_rules.specs.Environments.{context_of};
ghost use Rattle.pict_rules.specs.Regular.{IsTypeIn};
ghost use Rattle.pict_infer.specs.Answering.{IsAnswer, nothing};
ghost use Rattle.pict_infer.specs.Environments.{environment_of};
ghost use Rattle.pict_infer.specs.Steps.{below, expanded, limited, unfolded};
ghost use Rattle.pict_lines.specs.Lines.{outside};

use pict_infer::{Env, InferError, Told};
use pict_syntax::{Code, Span, TypeTree};
use pict_types::{Ty, Variables, lower_type, mentions};
use std::alloc::{AllocError, Global};

/// A written type, expanded. The refusals are K1 to K4.
pub fn expanded(alloc: Global, env: &Env, t: &TypeTree) -> Result<Ty, InferError>
    requires labels { HasDistinctLabels (type_of t.now) }
    ensures answer { IsAnswer (expanded (environment_of env.now) (type_of t.now)) plain result }
    ensures formed { IfOk result (λ u. IsTypeIn (environment_of env.now) (plain u)) }
{
    pict_infer::expanded(alloc, env.context(), t)
}

/// K4 at the place where the type passes a limit. Takes no memory.
pub fn within_limits(env: &Env, t: &Ty, span: Span) -> Result<(), InferError>
    ensures { IsAnswer (limited (environment_of env.now) (plain t.now) span) nothing result }
{
    pict_infer::within_limits(env.context(), t, span)
}

/// This refusal where `s` is no subtype of `t`.
pub fn below(
    alloc: Global,
    env: &Env,
    s: &Ty,
    t: &Ty,
    code: Code,
    span: Span,
) -> Result<(), InferError>
    requires s { IsTypeIn (environment_of env.now) (plain s.now) }
    requires t { IsTypeIn (environment_of env.now) (plain t.now) }
    ensures { IsAnswer (below (environment_of env.now) (plain s.now) (plain t.now) code span) nothing result }
{
    pict_infer::below(alloc, env.context(), s, t, code, span)
}

/// The unfolding of a recursive type. K4 at the place where it passes a limit.
pub fn unfolded(alloc: Global, env: &Env, t: &Ty, span: Span) -> Result<Ty, InferError>
    requires recursive { IsRecursive (plain t.now) }
    requires t { IsTypeIn (environment_of env.now) (plain t.now) }
    ensures answer { IsAnswer (unfolded (environment_of env.now) (plain t.now) span) plain result }
    ensures formed { IfOk result (λ u. IsTypeIn (environment_of env.now) (plain u)) }
{
    pict_infer::unfolded(alloc, env.context(), t, span)
}

/// The type with the bounds of variables followed. A type that is no variable is handed back as it is.
pub fn exposed(alloc: Global, env: &Env, t: Ty) -> Result<Ty, AllocError>
    ensures { IfOk result (λ u. plain u ≡ exposure (context_of (environment_of env.now)) (plain t)) }
{
    match pict_infer::followed(alloc, env.context(), &t)? {
        Some(u) => Ok(u),
        None => Ok(t),
    }
}

/// The type outside the `count` innermost type variables. Y14 at the place where it mentions one of them.
pub fn outside(alloc: Global, t: Ty, count: u32, span: Span) -> Result<Ty, InferError>
    ensures { IsAnswer (outside count (plain t) span) plain result }
{
    if mentions(&t, &Variables::Innermost(count))? {
        return Err(InferError::Named(Code::Y14, span, Told::Nothing));
    }
    if count == 0 {
        return Ok(t);
    }
    Ok(lower_type(alloc, &t, count)?)
}
