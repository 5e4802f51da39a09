// The shapes of types that subtyping tells apart.

ghost use Rattle.std.specs.Prelude.{◌≡◌, ◌≢◌, IfNone, IfSome};
ghost use Rattle.pict_types.specs.Plain.{plain, plain_cap, plain_record, plain_types};
ghost use Rattle.pict_types.specs.Types.{Apply, Chan, Var};
ghost use Rattle.pict_sub.specs.Shapes.{applied_, channel, record_, shape_of, variable};

use pict_types::{Cap, Record, Ty};

/// The variable that the type is.
pub fn as_variable(t: &Ty) -> Option<u32>
    ensures none { IfNone result (shape_of (plain t.now) ≢ variable) }
    ensures some { IfSome result (λ i. plain t.now ≡ Var i) }
{
    match t {
        Ty::Var(i) => Some(*i),
        _ => None,
    }
}

/// The capability and the messages of a channel type.
pub fn as_channel(t: &Ty) -> Option<(Cap, &Ty)>
    ensures none { IfNone result (shape_of (plain t.now) ≢ channel) }
    ensures some { IfSome result (λ x. plain t.now ≡ Chan (plain_cap x.0) (plain x.1.now)) }
{
    match t {
        Ty::Chan(cap, a) => Some((*cap, a)),
        _ => None,
    }
}

/// The record of a record type.
#[tactic(auto, using(pict_types::proofs::Rows::plain_fields))]
pub fn as_record(t: &Ty) -> Option<&Record>
    ensures none { IfNone result (shape_of (plain t.now) ≢ record_) }
    ensures some { IfSome result (λ r. plain t.now ≡ plain_record r.now) }
{
    match t {
        Ty::Fields(r) => Some(r),
        _ => None,
    }
}

/// The operator variable and the arguments of an applied one.
#[tactic(auto, using(pict_types::proofs::Rows::plain_apply))]
pub fn as_applied(t: &Ty) -> Option<(u32, &[Ty])>
    ensures none { IfNone result (shape_of (plain t.now) ≢ applied_) }
    ensures some { IfSome result (λ x. plain t.now ≡ Apply x.0 (plain_types x.1.now)) }
{
    match t {
        Ty::Apply(i, ts) => Some((*i, ts)),
        _ => None,
    }
}
