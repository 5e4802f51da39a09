// The measures of types in a context.

ghost use Rattle.std.specs.Prelude.{◌≡◌};
ghost use Rattle.pict_types.specs.Measures.{held, height_of, weight_of};
ghost use Rattle.pict_types.specs.Plain.{plain};
ghost use Rattle.pict_types.specs.PlainContext.{type_context};
ghost use Rattle.pict_types.specs.Types.{types};

use crate::context::Context;
use crate::types::Ty;

/// The weight of a type, held at the greatest `u64`.
///
/// Every node counts 1, a type field 1 and the weight of its bound, a variable without a bound 1, and one with a
/// bound 1 more than the bound; a variable that isn't in scope counts 1. Takes no memory, and time in proportion to the
/// written size of `t`, whatever the bounds of its variables; a use of a variable takes at most some twice the logarithm
/// of the number of binders around it more.
pub fn weight(c: &Context, t: &Ty) -> u64
    ensures weight { result ≡ held (weight_of (type_context c.now) (plain t.now)) }
{
    c.measures(t).weight
}

/// The height of a type, held at the greatest `u64`.
///
/// A leaf counts 1 and a node one more than its highest part; a type field and a variable count 1, and with a bound
/// 1 more than the bound; a variable that isn't in scope counts 1. Memory and time as for `weight`.
pub fn height(c: &Context, t: &Ty) -> u64
    ensures height { result ≡ held (height_of (type_context c.now) (plain t.now)) }
{
    c.measures(t).height
}
