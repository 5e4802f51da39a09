// Types and operators put for type variables, exactly, and not beyond what is too heavy.

ghost use Rattle.std.specs.Prelude.{◌≡◌, ◌+◌, ◌≤◌, ◌<◌, ◌^◌, List, ℕ, IfErr, IfOk, IfSome, IsTrue, None, Some, OnOk, length, map};
ghost use Rattle.pict_types.specs.Kinds.{AreWellFormed, BoundIsWellFormed, BoundsAreWellFormed, IsWellFormed, LabelsAreWellFormed, kind_at, proper};
ghost use Rattle.pict_normal.specs.Made.{IsReason, IsRow, counted, only_used, used_as, weight_used};
ghost use Rattle.pict_types.specs.Mentions.{IsClosed};
ghost use Rattle.pict_types.specs.Renaming.{moved, rename};
ghost use Rattle.pict_types.specs.Measures.{heights_under, held, rise, rise_bounds, rise_labels, rise_types, rise_variable, weigh, weigh_bounds, weigh_labels, weigh_types, weigh_variable, weights_under};
ghost use Rattle.pict_types.specs.Plain.{plain, plain_bound, plain_bounds, plain_labels, plain_record, plain_types};
ghost use Rattle.pict_normal.specs.Putting.{FitsKinds, IsUnder, heights_in, context_names, variables_in, weights_in};
ghost use Rattle.pict_normal.specs.Placed.{AreArgumentsIn, IsMadeBoundIn, IsMadeIn, replaced, replaced_bound, replaced_bounds, replaced_labels, replaced_types};
ghost use Rattle.pict_types.specs.Types.{Apply, Var, count_bounds};

use crate::arguments::{Arguments, applied};
use crate::made::{
    Made, MadeBound, MakeError, Row, applied_variable, bound_of, channel, fields, is_within, light,
    recursive,
};
use crate::put::Put;
use crate::puts::Puts;
use crate::uses::used_parameters;
use pict_syntax::Name;
use pict_types::{Bound, Measures, Record, Ty, shift_type};
use std::alloc::{AllocError, Global};

/// The measures of a type that stands for the variable `i` under the binders of `inner`. Those of a definition are known.
fn put_measures(puts: &Puts, i: u32, inner: &[Measures], t: &Ty, by: u32) -> Measures
    requires put { rename (moved by 0) (plain t.now) ≡ replaced puts.now inner.now (Var i) }
    requires inside { length inner.now ≤ by }
    requires outside { by ≤ length (variables_in puts.now) + length inner.now }
    ensures weight { result.weight ≡ held (weigh (weights_in puts.now inner.now) (replaced puts.now inner.now (Var i))) }
    ensures height { result.height ≡ held (rise (heights_in puts.now inner.now) (replaced puts.now inner.now (Var i))) }
{
    match puts.definition(i, inner.len()) {
        Some(place) => puts.context.definition_measures(place),
        None => puts
            .context
            .measures_inside(&[], by - inner.len() as u32, t),
    }
}

/// Whether what stands for the variable `i` under the binders of `inner` is known to mention no variable. Takes no memory.
fn is_closed_put(puts: &Puts, i: u32, inner: &[Measures]) -> bool
    ensures { IsTrue result → IsClosed (replaced puts.now inner.now (Var i)) }
{
    match puts.definition(i, inner.len()) {
        Some(place) => puts.context.definition_is_closed(place),
        None => false,
    }
}

/// A type that stands for the variable `i` under the binders of `inner`, moved past `by` variables. It is shared where it is known
/// to mention none.
fn moved_put(
    alloc: Global,
    puts: &Puts,
    i: u32,
    inner: &[Measures],
    t: &Ty,
    by: u32,
) -> Result<Ty, AllocError>
    requires put { rename (moved by 0) (plain t.now) ≡ replaced puts.now inner.now (Var i) }
    ensures { IfOk result (λ u. plain u ≡ replaced puts.now inner.now (Var i)) }
{
    if is_closed_put(puts, i, inner) {
        return t.copy(alloc);
    }
    shift_type(alloc, t, by, 0)
}

/// What stands for the variable `i` under the binders of `inner`.
fn made_variable(alloc: Global, i: u32, puts: &Puts, inner: &[Measures]) -> Result<Made, MakeError>
    requires placed { FitsKinds puts.now inner.now (λ ks. kind_at ks i ≡ Some proper) }
    ensures made { IfOk result (λ m. IsMadeIn puts.now inner.now m (replaced puts.now inner.now (Var i))) }
    ensures reason { IfErr result (λ e. IsReason (weigh (weights_in puts.now inner.now) (replaced puts.now inner.now (Var i))) e) }
{
    let c = puts.context;
    let depth = inner.len();
    let put = puts.put_under(i, depth)?;
    match put {
        Put::Variable(k) => {
            let t = Ty::Var(k);
            let measures = light(c.measures_inside(inner, 0, &t))?;
            Ok(Made::new(measures, t))
        }
        Put::Proper(t, by) => {
            let measures = light(put_measures(puts, i, inner, t, by))?;
            if is_within(measures) {
                return Ok(Made::new(measures, moved_put(alloc, puts, i, inner, t, by)?));
            }
            Ok(Made { measures, ty: None })
        }
        Put::Operator { .. } => Ok(Made::leaf(Ty::Top)),
    }
}

/// Puts what stands for the variables of `t`. The variables of `inner` are binders around it, the innermost last.
///
/// `TooHeavy` comes as soon as parts that weigh too much together were met, and never where the type isn't too heavy. The
/// type is there where it isn't too high either.
#[cycle(made)]
pub fn made_type(
    alloc: Global,
    t: &Ty,
    puts: &Puts,
    inner: &mut Vec<Measures>,
) -> Result<Made, MakeError>
    requires placed { FitsKinds puts.now inner.old.items (λ ks. IsWellFormed (context_names puts.now) ks (plain t.now)) }
    ensures made { IfOk result (λ m. IsMadeIn puts.now inner.old.items m (replaced puts.now inner.old.items (plain t.now))) }
    ensures reason { IfErr result (λ e. IsReason (weigh (weights_in puts.now inner.old.items) (replaced puts.now inner.old.items (plain t.now))) e) }
    ensures inner { OnOk result (inner.new.items ≡ inner.old.items) }
{
    match t {
        Ty::Top => Ok(Made::leaf(Ty::Top)),
        Ty::Int => Ok(Made::leaf(Ty::Int)),
        Ty::Char => Ok(Made::leaf(Ty::Char)),
        Ty::Str => Ok(Made::leaf(Ty::Str)),
        Ty::Bool => Ok(Made::leaf(Ty::Bool)),
        Ty::Var(i) => made_variable(alloc, *i, puts, inner),
        Ty::Apply(i, ts) => made_apply(alloc, *i, ts, puts, inner),
        Ty::Chan(cap, t) => channel(alloc, *cap, made_type(alloc, t, puts, inner)?),
        Ty::Fields(r) => made_record(alloc, r, puts, inner),
        Ty::Rec(t) => {
            inner.push(Measures::LEAF)?;
            let body = made_type(alloc, t, puts, inner)?;
            let _ = inner.pop();
            recursive(alloc, body)
        }
    }
}

/// What stands for the variable `i`, applied.
#[cycle(made)]
fn made_apply(
    alloc: Global,
    i: u32,
    ts: &[Ty],
    puts: &Puts,
    inner: &mut Vec<Measures>,
) -> Result<Made, MakeError>
    requires placed { FitsKinds puts.now inner.old.items (λ ks. IsWellFormed (context_names puts.now) ks (Apply i (plain_types ts.now))) }
    ensures made { IfOk result (λ m. IsMadeIn puts.now inner.old.items m (replaced puts.now inner.old.items (Apply i (plain_types ts.now)))) }
    ensures reason { IfErr result (λ e. IsReason
        (weigh (weights_in puts.now inner.old.items) (replaced puts.now inner.old.items (Apply i (plain_types ts.now)))) e) }
    ensures inner { OnOk result (inner.new.items ≡ inner.old.items) }
{
    let put = puts.put_under(i, inner.as_slice().len())?;
    match put {
        Put::Variable(k) => applied_variable(alloc, k, made_types(alloc, ts, puts, inner)?),
        Put::Proper(_, _) => Ok(Made::leaf(Ty::Top)),
        Put::Operator { params, body, by } => {
            let used = used_parameters(alloc, body, params)?;
            let args = made_arguments(alloc, ts, &used, puts, inner)?;
            applied(alloc, puts.context, body, &args, by, inner)
        }
    }
}

/// An argument of an operator, and `Top` in the place of one that isn't used.
#[cycle(made)]
fn made_argument(
    alloc: Global,
    t: &Ty,
    used: bool,
    puts: &Puts,
    inner: &mut Vec<Measures>,
) -> Result<Made, MakeError>
    requires placed { FitsKinds puts.now inner.old.items (λ ks. IsWellFormed (context_names puts.now) ks (plain t.now)) }
    ensures made { IfOk result (λ m. IsMadeIn puts.now inner.old.items m (used_as used (replaced puts.now inner.old.items (plain t.now)))) }
    ensures reason { IfErr result (λ e. IsReason
        (weigh (weights_in puts.now inner.old.items) (used_as used (replaced puts.now inner.old.items (plain t.now)))) e) }
    ensures inner { OnOk result (inner.new.items ≡ inner.old.items) }
{
    if used {
        made_type(alloc, t, puts, inner)
    } else {
        Ok(Made::leaf(Ty::Top))
    }
}

/// The measures of the arguments that are used, together with those of one more.
fn with_argument(together: Measures, part: Measures, used: bool) -> Result<Measures, MakeError>
    ensures weight { IfOk result (λ m. m.weight ≡ together.weight + counted used part.weight) }
    ensures reason { IfErr result (λ e. IsReason (together.weight + counted used part.weight) e) }
{
    if used {
        light(together.beside(part))
    } else {
        Ok(together)
    }
}

/// The arguments of an operator. Those that it doesn't use are passed over, whatever they weigh. Those that it uses all
/// stand in the result.
#[cycle(made)]
fn made_arguments(
    alloc: Global,
    ts: &[Ty],
    used: &[bool],
    puts: &Puts,
    inner: &mut Vec<Measures>,
) -> Result<Arguments, MakeError>
    requires placed { FitsKinds puts.now inner.old.items (λ ks. AreWellFormed (context_names puts.now) ks (plain_types ts.now)) }
    requires used { length used.now ≡ length ts.now }
    requires few { length ts.now < 2 ^ 32 }
    ensures made { IfOk result (λ a. AreArgumentsIn puts.now inner.old.items a
        (only_used used.now (replaced_types puts.now inner.old.items (plain_types ts.now)))) }
    ensures reason { IfErr result (λ e. IsReason
        (weight_used (weights_in puts.now inner.old.items) used.now (replaced_types puts.now inner.old.items (plain_types ts.now))) e) }
    ensures inner { OnOk result (inner.new.items ≡ inner.old.items) }
{
    let mut args = Arguments::new(alloc);
    let mut together = Measures::NONE;
    for (k, t) in ts.iter().enumerate() {
        let place = ts.len() - 1 - k;
        let part = made_argument(alloc, t, used[place], puts, inner)?;
        together = with_argument(together, part.measures, used[place])?;
        args.push(part, place as u32)?;
    }
    Ok(args)
}

/// All types side by side; none where one is too high.
#[cycle(made)]
pub fn made_types(
    alloc: Global,
    ts: &[Ty],
    puts: &Puts,
    inner: &mut Vec<Measures>,
) -> Result<Row<Ty>, MakeError>
    requires placed { FitsKinds puts.now inner.old.items (λ ks. AreWellFormed (context_names puts.now) ks (plain_types ts.now)) }
    ensures made { IfOk result (λ r. IsRow plain_types r
        (weigh_types (weights_in puts.now inner.old.items) (replaced_types puts.now inner.old.items (plain_types ts.now))) 0
        (rise_types (heights_in puts.now inner.old.items) (replaced_types puts.now inner.old.items (plain_types ts.now))) 0
        (replaced_types puts.now inner.old.items (plain_types ts.now))) }
    ensures reason { IfErr result (λ e. IsReason
        (weigh_types (weights_in puts.now inner.old.items) (replaced_types puts.now inner.old.items (plain_types ts.now))) e) }
    ensures inner { OnOk result (inner.new.items ≡ inner.old.items) }
{
    let mut row = Row::new(alloc);
    for t in ts {
        let part = made_type(alloc, t, puts, inner)?;
        row = row.with(part.measures, part.ty)?;
    }
    Ok(row)
}

/// A labelled field, where its type is there.
fn labelled_part(label: Name, ty: Option<Ty>) -> Option<(Name, Ty)>
    ensures some { IfSome ty (λ t. result ≡ Some (label, t)) }
    ensures none { ty ≡ None → result ≡ None }
{
    match ty {
        Some(t) => Some((label, t)),
        None => None,
    }
}

/// All labelled fields side by side; none where one is too high.
#[cycle(made)]
pub fn made_labels(
    alloc: Global,
    ls: &[(Name, Ty)],
    puts: &Puts,
    inner: &mut Vec<Measures>,
) -> Result<Row<(Name, Ty)>, MakeError>
    requires placed { FitsKinds puts.now inner.old.items (λ ks. LabelsAreWellFormed (context_names puts.now) ks (plain_labels ls.now)) }
    ensures made { IfOk result (λ r. IsRow plain_labels r
        (weigh_labels (weights_in puts.now inner.old.items) (replaced_labels puts.now inner.old.items (plain_labels ls.now))) 0
        (rise_labels (heights_in puts.now inner.old.items) (replaced_labels puts.now inner.old.items (plain_labels ls.now))) 0
        (replaced_labels puts.now inner.old.items (plain_labels ls.now))) }
    ensures reason { IfErr result (λ e. IsReason
        (weigh_labels (weights_in puts.now inner.old.items) (replaced_labels puts.now inner.old.items (plain_labels ls.now))) e) }
    ensures inner { OnOk result (inner.new.items ≡ inner.old.items) }
{
    let mut row = Row::new(alloc);
    for l in ls {
        let Made { measures, ty } = made_type(alloc, &l.1, puts, inner)?;
        row = row.with(measures, labelled_part(l.0, ty))?;
    }
    Ok(row)
}

/// What is known of a type field.
#[cycle(made)]
fn made_bound(
    alloc: Global,
    b: &Bound,
    puts: &Puts,
    inner: &mut Vec<Measures>,
) -> Result<MadeBound, MakeError>
    requires placed { FitsKinds puts.now inner.old.items (λ ks. BoundIsWellFormed (context_names puts.now) ks (plain_bound b.now)) }
    ensures made { IfOk result (λ m. IsMadeBoundIn puts.now inner.old.items m (replaced_bound puts.now inner.old.items (plain_bound b.now))) }
    ensures reason { IfErr result (λ e. IsReason
        (weigh_variable (weights_in puts.now inner.old.items) (replaced_bound puts.now inner.old.items (plain_bound b.now))) e) }
    ensures inner { OnOk result (inner.new.items ≡ inner.old.items) }
{
    match b {
        Bound::Free => Ok(MadeBound::leaf(Bound::Free)),
        Bound::Below(t) => bound_of(made_type(alloc, t, puts, inner)?),
        Bound::Operator(marks) => Ok(MadeBound::leaf(Bound::Operator(Vec::from_slice(
            alloc, marks,
        )?))),
    }
}

/// All type fields side by side; none where one is too high. They are put into `inner`.
#[cycle(made)]
fn made_bounds(
    alloc: Global,
    bs: &[Bound],
    puts: &Puts,
    inner: &mut Vec<Measures>,
) -> Result<Row<Bound>, MakeError>
    requires placed { FitsKinds puts.now inner.old.items (λ ks. BoundsAreWellFormed (context_names puts.now) ks (plain_bounds bs.now)) }
    ensures made { IfOk result (λ r. IsRow plain_bounds r
        (weigh_bounds (weights_in puts.now inner.old.items) (replaced_bounds puts.now inner.old.items (plain_bounds bs.now))) 0
        (rise_bounds (heights_in puts.now inner.old.items) (replaced_bounds puts.now inner.old.items (plain_bounds bs.now))) 0
        (replaced_bounds puts.now inner.old.items (plain_bounds bs.now))) }
    ensures reason { IfErr result (λ e. IsReason
        (weigh_bounds (weights_in puts.now inner.old.items) (replaced_bounds puts.now inner.old.items (plain_bounds bs.now))) e) }
    ensures inner { OnOk result (IsUnder puts.now inner.old.items inner.new.items (plain_bounds bs.now)) }
{
    let mut row = Row::new(alloc);
    for b in bs {
        let part = made_bound(alloc, b, puts, inner)?;
        row = row.with(part.measures, part.bound)?;
        inner.push(part.measures)?;
    }
    Ok(row)
}

/// A record type.
#[cycle(made)]
fn made_record(
    alloc: Global,
    r: &Record,
    puts: &Puts,
    inner: &mut Vec<Measures>,
) -> Result<Made, MakeError>
    requires placed { FitsKinds puts.now inner.old.items (λ ks. IsWellFormed (context_names puts.now) ks (plain_record r.now)) }
    ensures made { IfOk result (λ m. IsMadeIn puts.now inner.old.items m (replaced puts.now inner.old.items (plain_record r.now))) }
    ensures reason { IfErr result (λ e. IsReason (weigh (weights_in puts.now inner.old.items) (replaced puts.now inner.old.items (plain_record r.now))) e) }
    ensures inner { OnOk result (inner.new.items ≡ inner.old.items) }
{
    let depth = inner.as_slice().len();
    let binders = made_bounds(alloc, &r.binders, puts, inner)?;
    let positional = made_types(alloc, &r.positional, puts, inner)?;
    let labelled = made_labels(alloc, &r.labelled, puts, inner)?;
    inner.truncate(depth);
    fields(alloc, binders, positional, labelled)
}
