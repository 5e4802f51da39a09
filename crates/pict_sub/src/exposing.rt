// Types with the bounds of variables followed.

ghost use Rattle.std.specs.Prelude.{◌≡◌, ◌≤◌, IfOk};
ghost use Rattle.pict_types.specs.Measures.{weight_of};
ghost use Rattle.pict_types.specs.Plain.{plain};
ghost use Rattle.pict_types.specs.PlainContext.{IsWrittenIn, type_context};
ghost use Rattle.pict_types.specs.Types.{Var};
ghost use Rattle.pict_sub.specs.Exposing.{exposure};
ghost use Rattle.pict_sub.specs.Scopes.{scope_context};

use crate::scope::{TypeScope, bound_in};
use crate::shape::as_variable;
use pict_types::{Context, Ty, shift_type};
use std::alloc::{AllocError, Global};

/// `expose` of a type that is written at a place within a type.
#[cycle(exposed)]
#[tactic(auto, using(pict_types::proofs::Sizes::weight_positive, crate::proofs::Followed::not_variable))]
pub fn expose_in(alloc: Global, scope: &TypeScope, t: &Ty) -> Result<Ty, AllocError>
    ensures { IfOk result (λ u. plain u ≡ exposure (scope_context scope.now) (plain t.now)) }
{
    match as_variable(t) {
        Some(i) => expose_variable(alloc, scope, i),
        None => t.copy(alloc),
    }
}

#[cycle(exposed)]
#[tactic(auto, using(pict_types::proofs::Sizes::weight_positive, pict_types::proofs::Contexts::weigh_bound_1, crate::proofs::Followed::exposing_rules))]
fn expose_variable(alloc: Global, scope: &TypeScope, i: u32) -> Result<Ty, AllocError>
    ensures { IfOk result (λ u. plain u ≡ exposure (scope_context scope.now) (Var i)) }
{
    match bound_in(i, scope) {
        None => Ok(Ty::Var(i)),
        Some(b) => {
            let further = i.checked_add(1).ok_or(AllocError)?;
            let b = shift_type(alloc, b, further, 0)?;
            expose_in(alloc, scope, &b)
        }
    }
}

/// The type with bounds of variables followed until it is no variable with a bound; a variable without one is its
/// own answer. The only error is want of memory, and a variable past the greatest `u32` is one.
///
/// The answer weighs no more than `t`, and is well formed where `t` is, so it can be handed to `subtype` in the place
/// of `t`.
#[tactic(auto, using(crate::proofs::Followed::exposure_lighter))]
pub fn expose(alloc: Global, c: &Context, t: &Ty) -> Result<Ty, AllocError>
    ensures exposed { IfOk result (λ u. plain u ≡ exposure (type_context c.now) (plain t.now)) }
    ensures formed { IfOk result (λ u. IsWrittenIn c.now (plain t.now) → IsWrittenIn c.now (plain u)) }
    ensures lighter { IfOk result (λ u. weight_of (type_context c.now) (plain u) ≤ weight_of (type_context c.now) (plain t.now)) }
{
    let scope = TypeScope::Outer(c);
    expose_in(alloc, &scope, t)
}
