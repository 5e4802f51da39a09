// Recursive types, unfolded once.

ghost use Rattle.std.specs.Prelude.{◌≡◌, ◌<◌, Err, IfOk};
ghost use Rattle.pict_types.specs.declared.limits.Measure.{Measure};
ghost use Rattle.pict_types.specs.WithinLimits.{IsTooHeavy, IsTooHigh, IsWithinLimits};
ghost use Rattle.pict_types.specs.Measures.{held, height_of, weight_of};
ghost use Rattle.pict_types.specs.Plain.{plain};
ghost use Rattle.pict_types.specs.PlainContext.{IsWrittenIn, type_context};
ghost use Rattle.pict_types.specs.Recursion.{IsRecursive, unfolded};
ghost use Rattle.pict_types.specs.Replacing.{unfolding_of};
ghost use Rattle.pict_types.specs.Types.{Rec};

use crate::context::Context;
use crate::fill::fill_type;
use crate::limits::{SizeError, too_big};
use crate::measure::Measures;
use crate::types::Ty;
use std::alloc::{AllocError, Global};
use std::slice;

/// The measures of the unfolding of `t`, whose body is `body`. What is built for them is no greater than the body.
fn unfolded_measures(alloc: Global, c: &Context, t: &Ty, body: &Ty) -> Result<Measures, AllocError>
    requires body { plain t.now ≡ Rec (plain body.now) }
    ensures weight { IfOk result (λ m. m.weight ≡ held (weight_of (type_context c.now) (unfolding_of (plain body.now)))) }
    ensures height { IfOk result (λ m. m.height ≡ held (height_of (type_context c.now) (unfolding_of (plain body.now)))) }
{
    let itself = Ty::Var(0);
    let kept = fill_type(alloc, body, slice::from_ref(&itself), 1, 0)?;
    Ok(c.measures_with(c.measures(t), &kept))
}

/// The unfolding of a recursive type: its body with the whole put for the body's variable.
///
/// `TooBig` comes where a measure of the unfolding passes its limit, and nothing so big is built.
pub fn unfold(alloc: Global, c: &Context, t: &Ty) -> Result<Ty, SizeError>
    requires recursive { IsRecursive (plain t.now) }
    requires t { IsWrittenIn c.now (plain t.now) }
    ensures unfolding { IfOk result (λ u. plain u ≡ unfolded (plain t.now)) }
    ensures formed { IfOk result (λ u. IsWrittenIn c.now (plain u)) }
    ensures within { IfOk result (λ u. IsWithinLimits (type_context c.now) (unfolded (plain t.now))) }
    ensures too_heavy { result ≡ Err (SizeError.TooBig Measure.Weight) → IsTooHeavy (type_context c.now) (unfolded (plain t.now)) }
    ensures too_high { result ≡ Err (SizeError.TooBig Measure.Height) → IsTooHigh (type_context c.now) (unfolded (plain t.now)) }
{
    let Ty::Rec(body) = t else { unreachable!() };
    let measures = unfolded_measures(alloc, c, t, body)?;
    if let Some(measure) = too_big(measures) {
        return Err(SizeError::TooBig(measure));
    }
    Ok(fill_type(alloc, body, slice::from_ref(t), 0, 0)?)
}
