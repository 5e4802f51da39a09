// Whether a type is another one with types put for its innermost variables. Takes no memory.

ghost use Rattle.std.specs.Prelude.{◌≡◌, IfOk, IsTrue};
ghost use Rattle.pict_types.specs.Filling.{filling_past, put_for};
ghost use Rattle.pict_types.specs.Plain.{plain, plain_bound, plain_bounds, plain_labels, plain_record, plain_types};
ghost use Rattle.pict_types.specs.Replacing.{fill, fill_bound, fill_bounds, fill_labels, fill_types};

use crate::fill::{fill_head, is_head, is_variable};
use crate::marking::equal_marks;
use crate::renumber::{Renumbering, deeper};
use crate::same_renumbered::is_renumbered;
use crate::types::{Bound, Record, Ty};
use pict_syntax::Name;
use std::alloc::AllocError;

/// Whether variable `i` becomes `u`, as `fill_variable` says.
#[tactic(auto, using(crate::proofs::Filled::fill_rules))]
fn is_variable_filled(i: u32, u: &Ty, us: &[Ty], by: u32, under: usize) -> Result<bool, AllocError>
    ensures { IfOk result (λ b. IsTrue b → plain u.now ≡ (filling_past under (put_for (plain_types us.now) by)).type_for i) }
{
    if (i as usize) < under {
        return Ok(is_variable(u, i));
    }
    let beyond = i as usize - under;
    if beyond < us.len() {
        let put = &us[us.len() - 1 - beyond];
        return is_renumbered(put, u, Renumbering::Up(under as u32), 0);
    }
    let beyond = (i as usize - us.len()) as u32;
    Ok(is_variable(u, beyond.checked_add(by).ok_or(AllocError)?))
}

/// Whether `u` is `t` filled as `fill_type` says. It may answer that it isn't where a type field's bound becomes `Top`.
/// The only error is a variable past the greatest `u32`, or more binders than a `usize` can count.
#[cycle(is_filled)]
#[tactic(auto, using(crate::proofs::Rows::plain_apply, crate::proofs::Rows::plain_fields))]
pub fn is_filled(t: &Ty, u: &Ty, us: &[Ty], by: u32, under: usize) -> Result<bool, AllocError>
    ensures { IfOk result (λ b. IsTrue b → plain u.now ≡ fill (filling_past under (put_for (plain_types us.now) by)) (plain t.now)) }
{
    match (t, u) {
        (Ty::Top, Ty::Top) => Ok(true),
        (Ty::Int, Ty::Int) => Ok(true),
        (Ty::Char, Ty::Char) => Ok(true),
        (Ty::Str, Ty::Str) => Ok(true),
        (Ty::Bool, Ty::Bool) => Ok(true),
        (Ty::Var(i), u) => is_variable_filled(*i, u, us, by, under),
        (Ty::Apply(i, ts), Ty::Apply(j, vs)) => {
            let head = fill_head(*i, us, by, under)?;
            Ok(is_head(head, *j) && are_filled(ts, vs, us, by, under)?)
        }
        (Ty::Chan(m, t), Ty::Chan(n, u)) => { Ok(*m == *n && is_filled(t, u, us, by, under)?) }
        (Ty::Fields(r), Ty::Fields(q)) => is_record_filled(r, q, us, by, under),
        (Ty::Rec(t), Ty::Rec(u)) => {
            let inside = deeper(under, 1)?;
            let same = is_filled(t, u, us, by, inside)?;
            Ok(same)
        }
        _ => Ok(false),
    }
}

#[cycle(is_filled)]
#[tactic(auto, using(crate::proofs::Filled::past_all, crate::proofs::Rows::count_bounds_length, crate::proofs::Rows::count_size_bounds))]
fn is_record_filled(
    r: &Record,
    q: &Record,
    us: &[Ty],
    by: u32,
    under: usize,
) -> Result<bool, AllocError>
    ensures { IfOk result (λ b. IsTrue b → plain_record q.now ≡ fill (filling_past under (put_for (plain_types us.now) by)) (plain_record r.now)) }
{
    let inside = deeper(under, r.binders.as_slice().len())?;
    Ok(
        are_bounds_filled(&r.binders, &q.binders, us, by, under)?
            && are_filled(&r.positional, &q.positional, us, by, inside)?
            && are_labels_filled(&r.labelled, &q.labelled, us, by, inside)?,
    )
}

#[cycle(is_filled)]
#[tactic(auto, using(crate::proofs::Filled::bound_by_other))]
fn is_bound_filled(
    b: &Bound,
    d: &Bound,
    us: &[Ty],
    by: u32,
    under: usize,
) -> Result<bool, AllocError>
    ensures { IfOk result (λ r. IsTrue r → plain_bound d.now ≡ fill_bound (filling_past under (put_for (plain_types us.now) by)) (plain_bound b.now)) }
{
    match (b, d) {
        (Bound::Free, Bound::Free) => Ok(true),
        (Bound::Below(t), Bound::Below(u)) => { Ok(!u.is_top() && is_filled(t, u, us, by, under)?) }
        (Bound::Operator(ms), Bound::Operator(ns)) => Ok(equal_marks(ms, ns)),
        _ => Ok(false),
    }
}

#[cycle(is_filled)]
#[tactic(auto, using(crate::proofs::Rows::types_rules))]
fn are_filled(ts: &[Ty], vs: &[Ty], us: &[Ty], by: u32, under: usize) -> Result<bool, AllocError>
    ensures { IfOk result (λ b. IsTrue b → plain_types vs.now ≡ fill_types (filling_past under (put_for (plain_types us.now) by)) (plain_types ts.now)) }
{
    if ts.len() != vs.len() {
        return Ok(false);
    }
    for i in 0..ts.len() {
        if !is_filled(&ts[i], &vs[i], us, by, under)? {
            return Ok(false);
        }
    }
    Ok(true)
}

#[cycle(is_filled)]
#[tactic(auto, using(crate::proofs::Rows::labels_rules))]
fn are_labels_filled(
    ls: &[(Name, Ty)],
    ms: &[(Name, Ty)],
    us: &[Ty],
    by: u32,
    under: usize,
) -> Result<bool, AllocError>
    ensures { IfOk result (λ b. IsTrue b → plain_labels ms.now ≡ fill_labels (filling_past under (put_for (plain_types us.now) by)) (plain_labels ls.now)) }
{
    if ls.len() != ms.len() {
        return Ok(false);
    }
    for i in 0..ls.len() {
        let l = &ls[i];
        let m = &ms[i];
        if l.0.0 != m.0.0 || !is_filled(&l.1, &m.1, us, by, under)? {
            return Ok(false);
        }
    }
    Ok(true)
}

#[cycle(is_filled)]
#[tactic(auto, using(crate::proofs::Rows::bounds_rules))]
fn are_bounds_filled(
    bs: &[Bound],
    ds: &[Bound],
    us: &[Ty],
    by: u32,
    under: usize,
) -> Result<bool, AllocError>
    ensures { IfOk result (λ b. IsTrue b → plain_bounds ds.now ≡ fill_bounds (filling_past under (put_for (plain_types us.now) by)) (plain_bounds bs.now)) }
{
    if bs.len() != ds.len() {
        return Ok(false);
    }
    for i in 0..bs.len() {
        if !is_bound_filled(&bs[i], &ds[i], us, by, deeper(under, i)?)? {
            return Ok(false);
        }
    }
    Ok(true)
}
