// Whether a type is another one renumbered. Takes no memory.

ghost use Rattle.std.specs.Prelude.{◌≡◌, IfOk, IsTrue};
ghost use Rattle.pict_types.specs.Plain.{plain, plain_bound, plain_bounds, plain_labels, plain_record, plain_types};
ghost use Rattle.pict_types.specs.Renaming.{beyond_times, rename, rename_bound, rename_bounds, rename_labels, rename_types};
ghost use Rattle.pict_types.specs.Renumbering.{renumbered};

use crate::marking::equal_marks;
use crate::renumber::{Renumbering, deeper, renumber_variable};
use crate::types::{Bound, Record, Ty};
use pict_syntax::Name;
use std::alloc::AllocError;

/// Whether `u` is `t` with its free variables renumbered, where the `from` innermost ones stay. The only error is a
/// variable past the greatest `u32`, or more binders than a `usize` can count.
#[cycle(is_renumbered)]
#[tactic(auto, using(crate::proofs::Rows::plain_apply, crate::proofs::Rows::plain_fields))]
pub fn is_renumbered(t: &Ty, u: &Ty, how: Renumbering, from: usize) -> Result<bool, AllocError>
    ensures { IfOk result (λ b. IsTrue b → plain u.now ≡ rename (beyond_times from (renumbered how)) (plain t.now)) }
{
    match (t, u) {
        (Ty::Top, Ty::Top) => Ok(true),
        (Ty::Int, Ty::Int) => Ok(true),
        (Ty::Char, Ty::Char) => Ok(true),
        (Ty::Str, Ty::Str) => Ok(true),
        (Ty::Bool, Ty::Bool) => Ok(true),
        (Ty::Var(i), Ty::Var(j)) => Ok(renumber_variable(*i, how, from)? == *j),
        (Ty::Apply(i, ts), Ty::Apply(j, us)) => {
            Ok(renumber_variable(*i, how, from)? == *j && are_renumbered(ts, us, how, from)?)
        }
        (Ty::Chan(m, t), Ty::Chan(n, u)) => { Ok(*m == *n && is_renumbered(t, u, how, from)?) }
        (Ty::Fields(r), Ty::Fields(q)) => is_record_renumbered(r, q, how, from),
        (Ty::Rec(t), Ty::Rec(u)) => {
            let inside = deeper(from, 1)?;
            let same = is_renumbered(t, u, how, inside)?;
            Ok(same)
        }
        _ => Ok(false),
    }
}

#[cycle(is_renumbered)]
#[tactic(auto, using(crate::proofs::Moving::times_all, crate::proofs::Rows::count_bounds_length, crate::proofs::Rows::count_size_bounds))]
fn is_record_renumbered(
    r: &Record,
    q: &Record,
    how: Renumbering,
    from: usize,
) -> Result<bool, AllocError>
    ensures { IfOk result (λ b. IsTrue b → plain_record q.now ≡ rename (beyond_times from (renumbered how)) (plain_record r.now)) }
{
    let under = deeper(from, r.binders.as_slice().len())?;
    Ok(
        are_bounds_renumbered(&r.binders, &q.binders, how, from)?
            && are_renumbered(&r.positional, &q.positional, how, under)?
            && are_labels_renumbered(&r.labelled, &q.labelled, how, under)?,
    )
}

#[cycle(is_renumbered)]
fn is_bound_renumbered(
    b: &Bound,
    d: &Bound,
    how: Renumbering,
    from: usize,
) -> Result<bool, AllocError>
    ensures { IfOk result (λ r. IsTrue r → plain_bound d.now ≡ rename_bound (beyond_times from (renumbered how)) (plain_bound b.now)) }
{
    match (b, d) {
        (Bound::Free, Bound::Free) => Ok(true),
        (Bound::Below(t), Bound::Below(u)) => is_renumbered(t, u, how, from),
        (Bound::Operator(ms), Bound::Operator(ns)) => Ok(equal_marks(ms, ns)),
        _ => Ok(false),
    }
}

#[cycle(is_renumbered)]
#[tactic(auto, using(crate::proofs::Rows::types_rules))]
fn are_renumbered(ts: &[Ty], us: &[Ty], how: Renumbering, from: usize) -> Result<bool, AllocError>
    ensures { IfOk result (λ b. IsTrue b → plain_types us.now ≡ rename_types (beyond_times from (renumbered how)) (plain_types ts.now)) }
{
    if ts.len() != us.len() {
        return Ok(false);
    }
    for i in 0..ts.len() {
        if !is_renumbered(&ts[i], &us[i], how, from)? {
            return Ok(false);
        }
    }
    Ok(true)
}

#[cycle(is_renumbered)]
#[tactic(auto, using(crate::proofs::Rows::labels_rules))]
fn are_labels_renumbered(
    ls: &[(Name, Ty)],
    ms: &[(Name, Ty)],
    how: Renumbering,
    from: usize,
) -> Result<bool, AllocError>
    ensures { IfOk result (λ b. IsTrue b → plain_labels ms.now ≡ rename_labels (beyond_times from (renumbered how)) (plain_labels ls.now)) }
{
    if ls.len() != ms.len() {
        return Ok(false);
    }
    for i in 0..ls.len() {
        let l = &ls[i];
        let m = &ms[i];
        if l.0.0 != m.0.0 || !is_renumbered(&l.1, &m.1, how, from)? {
            return Ok(false);
        }
    }
    Ok(true)
}

#[cycle(is_renumbered)]
#[tactic(auto, using(crate::proofs::Rows::bounds_rules))]
fn are_bounds_renumbered(
    bs: &[Bound],
    ds: &[Bound],
    how: Renumbering,
    from: usize,
) -> Result<bool, AllocError>
    ensures { IfOk result (λ b. IsTrue b → plain_bounds ds.now ≡ rename_bounds (beyond_times from (renumbered how)) (plain_bounds bs.now)) }
{
    if bs.len() != ds.len() {
        return Ok(false);
    }
    for i in 0..bs.len() {
        if !is_bound_renumbered(&bs[i], &ds[i], how, deeper(from, i)?)? {
            return Ok(false);
        }
    }
    Ok(true)
}
