// Weight and height of types, computed together, each variable's once.

ghost use Rattle.std.specs.Prelude.{◌≡◌, ◌+◌, ◌<◌, max, length, IfSome};
ghost use Rattle.pict_types.specs.Measures.{held, measure_at, rise, rise_labels, rise_types, rise_variable, weigh, weigh_labels, weigh_types, weigh_variable};
ghost use Rattle.pict_types.specs.Plain.{plain, plain_bound, plain_labels, plain_types};
ghost use Rattle.pict_types.specs.Around.{IsLinked, Skips, around_heights, around_weights, heights_inside, rise_rest, weigh_rest, weights_inside};

use crate::types::{Bound, Record, Ty};
use pict_syntax::Name;

/// The weight and the height of a type or of a variable, each held at the greatest `u64`.
#[derive(Clone, Copy)]
pub struct Measures {
    pub weight: u64,
    pub height: u64,
}

/// A type variable of a context: its place among the entries, and its measures.
#[derive(Clone, Copy)]
pub struct Known {
    pub place: usize,
    pub measures: Measures,
}

/// The measures of the variables around a place: in each part the innermost last, and inner parts first.
#[derive(Clone, Copy)]
pub enum Around<'a> {
    /// The variables of a context.
    Outer(&'a [Known]),
    /// Binders within others.
    Inner {
        known: &'a [Measures],
        outer: &'a Around<'a>,
        /// A part further out, and how many variables come before its own.
        far: &'a Around<'a>,
        skipped: usize,
        /// How many parts there are within the context.
        depth: usize,
    },
}

/// How many type fields of a record are measured in one frame.
const BLOCK: usize = 64;

impl Measures {
    pub const NONE: Measures = Measures {
        weight: 0,
        height: 0,
    };

    pub const LEAF: Measures = Measures {
        weight: 1,
        height: 1,
    };

    /// The measures of a node over these.
    pub fn above(self) -> Measures
        ensures weight { result.weight ≡ held (self.weight + 1) }
        ensures height { result.height ≡ held (self.height + 1) }
    {
        Measures {
            weight: self.weight.saturating_add(1),
            height: self.height.saturating_add(1),
        }
    }

    /// The measures of two parts side by side.
    pub fn beside(self, other: Measures) -> Measures
        ensures weight { result.weight ≡ held (self.weight + other.weight) }
        ensures height { result.height ≡ max self.height other.height }
    {
        Measures {
            weight: self.weight.saturating_add(other.weight),
            height: self.height.max(other.height),
        }
    }
}

/// A part further out, and how many variables come before its own.
#[derive(Clone, Copy)]
struct Far<'a> {
    far: &'a Around<'a>,
    skipped: usize,
}

/// How many parts there are within the context.
fn depth_of(around: &Around) -> usize {
    match around {
        Around::Outer(_) => 0,
        Around::Inner { depth, .. } => *depth,
    }
}

/// The part that is reached by two steps as long as each other; nothing where the two aren't.
fn twice<'a>(around: &'a Around<'a>) -> Option<Far<'a>>
    requires linked { IsLinked around.now }
    ensures weights { IfSome result (λ f. Skips f.skipped (around_weights around.now) (around_weights f.far.now)) }
    ensures heights { IfSome result (λ f. Skips f.skipped (around_heights around.now) (around_heights f.far.now)) }
    ensures linked { IfSome result (λ f. IsLinked f.far.now) }
{
    let Around::Inner {
        far,
        skipped,
        depth,
        ..
    } = around
    else {
        return None;
    };
    let Around::Inner {
        far: second,
        skipped: more,
        depth: middle,
        ..
    } = far
    else {
        return None;
    };
    if depth.wrapping_sub(*middle) != middle.wrapping_sub(depth_of(second)) {
        return None;
    }
    let skipped = skipped.checked_add(*more)?;
    Some(Far {
        far: second,
        skipped,
    })
}

/// Binders with these measures, the innermost last, within others.
///
/// Steps to parts further out are kept so long that from each part to another there are no more than some twice the
/// logarithm of the number of parts.
pub fn inside<'a>(known: &'a [Measures], outer: &'a Around<'a>) -> Around<'a>
    requires linked { IsLinked outer.now }
    ensures weights { around_weights result ≡ weights_inside known.now (around_weights outer.now) }
    ensures heights { around_heights result ≡ heights_inside known.now (around_heights outer.now) }
    ensures linked { IsLinked result }
{
    let count = known.len();
    let depth = depth_of(outer).saturating_add(1);
    let near = Around::Inner {
        known,
        outer,
        far: outer,
        skipped: count,
        depth,
    };
    let Some(Far { far, skipped }) = twice(outer) else {
        return near;
    };
    match count.checked_add(skipped) {
        None => near,
        Some(skipped) => Around::Inner {
            known,
            outer,
            far,
            skipped,
            depth,
        },
    }
}

/// The measures of a variable. One that is not in scope is a leaf.
#[tactic(auto, using(crate::proofs::Around::scope_rules))]
fn measure_variable(i: u32, around: &Around) -> Measures
    requires linked { IsLinked around.now }
    ensures weight { result.weight ≡ measure_at (around_weights around.now) i }
    ensures height { result.height ≡ measure_at (around_heights around.now) i }
{
    match around {
        Around::Outer(known) => {
            if (i as usize) < known.len() {
                known[known.len() - 1 - i as usize].measures
            } else {
                Measures::LEAF
            }
        }
        Around::Inner {
            known,
            outer,
            far,
            skipped,
            ..
        } => {
            if (i as usize) < known.len() {
                known[known.len() - 1 - i as usize]
            } else if (i as usize) >= *skipped {
                measure_variable(i - *skipped as u32, far)
            } else {
                measure_variable(i - known.len() as u32, outer)
            }
        }
    }
}

/// The measures of a type.
#[cycle(measure)]
#[tactic(auto, using(crate::proofs::Rows::plain_apply, crate::proofs::Rows::plain_fields))]
pub fn measure(t: &Ty, around: &Around) -> Measures
    requires linked { IsLinked around.now }
    ensures weight { result.weight ≡ held (weigh (around_weights around.now) (plain t.now)) }
    ensures height { result.height ≡ held (rise (around_heights around.now) (plain t.now)) }
{
    match t {
        Ty::Top => Measures::LEAF,
        Ty::Int => Measures::LEAF,
        Ty::Char => Measures::LEAF,
        Ty::Str => Measures::LEAF,
        Ty::Bool => Measures::LEAF,
        Ty::Var(i) => measure_variable(*i, around),
        Ty::Apply(_, ts) => measure_types(ts, around).above(),
        Ty::Chan(_, t) => measure(t, around).above(),
        Ty::Fields(r) => measure_record(r, &r.binders, around).above(),
        Ty::Rec(t) => {
            let known = [Measures::LEAF];
            measure(t, &inside(&known, &*around)).above()
        }
    }
}

/// The measures of a variable with this bound, and of a type field with it.
#[cycle(measure)]
pub fn measure_bound(b: &Bound, around: &Around) -> Measures
    requires linked { IsLinked around.now }
    ensures weight { result.weight ≡ held (weigh_variable (around_weights around.now) (plain_bound b.now)) }
    ensures height { result.height ≡ held (rise_variable (around_heights around.now) (plain_bound b.now)) }
{
    match b {
        Bound::Free => Measures::LEAF,
        Bound::Below(t) => measure(t, around).above(),
        Bound::Operator(_) => Measures::LEAF,
    }
}

/// All types side by side.
#[cycle(measure)]
#[tactic(auto, using(crate::proofs::Rows::types_drop, crate::proofs::Rows::types_end, crate::proofs::Rows::size_types_item))]
fn measure_types(ts: &[Ty], around: &Around) -> Measures
    requires linked { IsLinked around.now }
    ensures weight { result.weight ≡ held (weigh_types (around_weights around.now) (plain_types ts.now)) }
    ensures height { result.height ≡ held (rise_types (around_heights around.now) (plain_types ts.now)) }
{
    let mut all = Measures::NONE;
    for t in ts {
        all = all.beside(measure(t, around));
    }
    all
}

/// All labelled fields side by side.
#[cycle(measure)]
#[tactic(auto, using(crate::proofs::Rows::labels_drop, crate::proofs::Rows::labels_end, crate::proofs::Rows::size_labels_item))]
fn measure_labels(ls: &[(Name, Ty)], around: &Around) -> Measures
    requires linked { IsLinked around.now }
    ensures weight { result.weight ≡ held (weigh_labels (around_weights around.now) (plain_labels ls.now)) }
    ensures height { result.height ≡ held (rise_labels (around_heights around.now) (plain_labels ls.now)) }
{
    let mut all = Measures::NONE;
    for l in ls {
        all = all.beside(measure(&l.1, around));
    }
    all
}

/// The type fields `binders`, which are the last ones of the record, and its fields under them, side by side.
#[cycle(measure)]
fn measure_record(r: &Record, binders: &[Bound], around: &Around) -> Measures
    requires linked { IsLinked around.now }
    ensures weight { result.weight ≡ held (weigh_rest (around_weights around.now) binders.now r.now) }
    ensures height { result.height ≡ held (rise_rest (around_heights around.now) binders.now r.now) }
{
    if binders.is_empty() {
        measure_types(&r.positional, around).beside(measure_labels(&r.labelled, around))
    } else {
        measure_block(r, binders, around)
    }
}

/// The same where there is a type field.
#[cycle(measure)]
#[tactic(auto, using(crate::proofs::Rows::bounds_drop, crate::proofs::Rows::size_bounds_drop, crate::proofs::Rows::size_bounds_item))]
fn measure_block(r: &Record, binders: &[Bound], around: &Around) -> Measures
    requires some { 0 < length binders.now }
    requires linked { IsLinked around.now }
    ensures weight { result.weight ≡ held (weigh_rest (around_weights around.now) binders.now r.now) }
    ensures height { result.height ≡ held (rise_rest (around_heights around.now) binders.now r.now) }
{
    let count = binders.len().min(BLOCK);
    let mut known = [Measures::LEAF; BLOCK];
    let mut all = Measures::NONE;
    for k in 0..count {
        let field = measure_bound(&binders[k], &inside(&known[..k], &*around));
        known[k] = field;
        all = all.beside(field);
    }
    let rest = measure_record(r, &binders[count..], &inside(&known[..count], &*around));
    all.beside(rest)
}
