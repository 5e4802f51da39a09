// Types put for the innermost type variables.

ghost use Rattle.std.specs.Prelude.{◌≡◌, IfOk, IfSome, IsTrue, Some};
ghost use Rattle.pict_types.specs.Renumbering.{changed, changed_bound, changed_record};
ghost use Rattle.pict_types.specs.Filling.{filling_past, put_for};
ghost use Rattle.pict_types.specs.Plain.{plain, plain_bound, plain_bounds, plain_labels, plain_record, plain_types};
ghost use Rattle.pict_types.specs.Types.{Var};
ghost use Rattle.pict_types.specs.Replacing.{apply_variable, bound_by, fill, fill_bound, fill_bounds, fill_labels, fill_types};

use crate::parts::Parts;
use crate::prints::{Fingerprint, is_part};
use crate::renumber::{Renumbered, both, bound_or_copy, deeper, is_left, type_or_copy};
use crate::same_filled::is_filled;
use crate::shift::shift_type;
use crate::types::{Bound, Record, Ty};
use pict_syntax::Name;
use std::alloc::{AllocError, Global};
use std::rc::Rc;

/// The bound that a type makes: `Top` is none.
#[tactic(auto, using(crate::proofs::Filled::bound_by_other))]
pub fn bound_by(t: Ty) -> Bound
    ensures { plain_bound result ≡ bound_by (plain t) }
{
    match t {
        Ty::Top { .. } => Bound::Free,
        t => Bound::Below(t),
    }
}

/// What variable `i` becomes under the `under` innermost binders, where `us` are put for the innermost variables
/// beyond them and there are `by` more binders for the others.
#[tactic(auto, using(crate::proofs::Filled::fill_rules))]
fn fill_variable(alloc: Global, i: u32, us: &[Ty], by: u32, under: usize) -> Result<Ty, AllocError>
    ensures { IfOk result (λ u. plain u ≡ (filling_past under (put_for (plain_types us.now) by)).type_for i) }
{
    if (i as usize) < under {
        return Ok(Ty::Var(i));
    }
    let beyond = i as usize - under;
    if beyond < us.len() {
        return shift_type(alloc, &us[us.len() - 1 - beyond], under as u32, 0);
    }
    let beyond = (i as usize - us.len()) as u32;
    Ok(Ty::Var(beyond.checked_add(by).ok_or(AllocError)?))
}

/// What an applied variable `i` becomes; nothing where a type is put for it.
#[tactic(auto, using(crate::proofs::Filled::head_rules))]
pub fn fill_head(i: u32, us: &[Ty], by: u32, under: usize) -> Result<Option<u32>, AllocError>
    ensures { IfOk result (λ o. o ≡ (filling_past under (put_for (plain_types us.now) by)).head_for i) }
{
    if (i as usize) < under {
        return Ok(Some(i));
    }
    if (i as usize) - under < us.len() {
        return Ok(None);
    }
    let beyond = (i as usize - us.len()) as u32;
    Ok(Some(beyond.checked_add(by).ok_or(AllocError)?))
}

/// What was made of a part that is like this one; nothing where none is known.
fn filled_before(
    alloc: Global,
    t: &Ty,
    us: &[Ty],
    by: u32,
    under: usize,
    parts: &mut Parts,
    part: Fingerprint,
) -> Result<Option<Ty>, AllocError>
    ensures { IfOk result (λ o. IfSome o (λ u. plain u ≡ fill (filling_past under (put_for (plain_types us.now) by)) (plain t.now))) }
{
    let Some(u) = parts.made_of(part) else {
        return Ok(None);
    };
    if !is_filled(t, u, us, by, under)? {
        return Ok(None);
    }
    let u = u.copy(alloc)?;
    parts.pass(part);
    Ok(Some(u))
}

/// Whether a part is as it was. It is looked through where its fingerprint says that its variables stay, and else is taken for one
/// that changes.
fn stays(
    t: &Ty,
    us: &[Ty],
    by: u32,
    under: usize,
    parts: &mut Parts,
    part: Fingerprint,
) -> Result<bool, AllocError>
    ensures { IfOk result (λ b. IsTrue b → plain t.now ≡ fill (filling_past under (put_for (plain_types us.now) by)) (plain t.now)) }
{
    if under < part.print.reach as usize || !is_filled(t, t, us, by, under)? {
        return Ok(false);
    }
    parts.pass(part);
    Ok(true)
}

/// The type filled as `fill_type` says; nothing where it is as it was. What was made of a like part is taken.
#[cycle(fill)]
fn filled_type(
    alloc: Global,
    t: &Ty,
    us: &[Ty],
    by: u32,
    under: usize,
    parts: &mut Parts,
) -> Result<Option<Ty>, AllocError>
    ensures { IfOk result (λ o. changed o (plain t.now) ≡ fill (filling_past under (put_for (plain_types us.now) by)) (plain t.now)) }
{
    if !is_part(t) {
        return filled_anew(alloc, t, us, by, under, parts);
    }
    let part = parts.enter(under);
    if stays(t, us, by, under, parts, part)? {
        return Ok(None);
    }
    if let Some(u) = filled_before(alloc, t, us, by, under, parts, part)? {
        return Ok(Some(u));
    }
    let made = filled_anew(alloc, t, us, by, under, parts)?;
    parts.keep(alloc, part, &made)?;
    Ok(made)
}

/// The same, where what was made of the type itself isn't taken.
#[cycle(fill)]
#[tactic(auto, using(crate::proofs::Rows::plain_apply, crate::proofs::Rows::plain_fields))]
fn filled_anew(
    alloc: Global,
    t: &Ty,
    us: &[Ty],
    by: u32,
    under: usize,
    parts: &mut Parts,
) -> Result<Option<Ty>, AllocError>
    ensures { IfOk result (λ o. changed o (plain t.now) ≡ fill (filling_past under (put_for (plain_types us.now) by)) (plain t.now)) }
{
    match t {
        Ty::Top => Ok(None),
        Ty::Int => Ok(None),
        Ty::Char => Ok(None),
        Ty::Str => Ok(None),
        Ty::Bool => Ok(None),
        Ty::Var(i) => {
            let u = fill_variable(alloc, *i, us, by, under)?;
            if is_variable(&u, *i) {
                return Ok(None);
            }
            Ok(Some(u))
        }
        Ty::Apply(i, ts) => {
            let head = fill_head(*i, us, by, under)?;
            let row = filled_types(alloc, ts, us, by, under, parts)?;
            if row.same && is_head(head, *i) {
                return Ok(None);
            }
            let applied = apply_head(alloc, head, row.items)?;
            Ok(Some(applied))
        }
        Ty::Chan(cap, t) => match filled_type(alloc, t, us, by, under, parts)? {
            None => Ok(None),
            Some(u) => Ok(Some(Ty::Chan(*cap, Rc::new(alloc, u)?))),
        },
        Ty::Fields(r) => match filled_record(alloc, r, us, by, under, parts)? {
            None => Ok(None),
            Some(q) => Ok(Some(Ty::Fields(Rc::new(alloc, q)?))),
        },
        Ty::Rec(t) => {
            let inside = deeper(under, 1)?;
            match filled_type(alloc, t, us, by, inside, parts)? {
                None => Ok(None),
                Some(u) => Ok(Some(Ty::Rec(Rc::new(alloc, u)?))),
            }
        }
    }
}

/// Whether it is this variable.
pub fn is_variable(u: &Ty, i: u32) -> bool
    ensures { IsTrue result → plain u.now ≡ Var i }
{
    match u {
        Ty::Var(j) => *j == i,
        _ => false,
    }
}

/// Whether it is this variable.
pub fn is_head(head: Option<u32>, i: u32) -> bool
    ensures { IsTrue result → head ≡ Some i }
{
    match head {
        None => false,
        Some(j) => j == i,
    }
}

/// An applied variable; `Top` where there is none.
#[tactic(auto, using(crate::proofs::Rows::plain_apply))]
pub fn apply_head(alloc: Global, head: Option<u32>, ts: Vec<Ty>) -> Result<Ty, AllocError>
    ensures { IfOk result (λ u. plain u ≡ apply_variable head (plain_types ts.items)) }
{
    match head {
        Some(i) => Ok(Ty::Apply(i, Rc::new(alloc, ts)?)),
        None => Ok(Ty::Top),
    }
}

#[cycle(fill)]
#[tactic(auto, using(crate::proofs::Filled::past_all, crate::proofs::Rows::count_bounds_length, crate::proofs::Rows::count_size_bounds))]
fn filled_record(
    alloc: Global,
    r: &Record,
    us: &[Ty],
    by: u32,
    under: usize,
    parts: &mut Parts,
) -> Result<Option<Record>, AllocError>
    ensures { IfOk result (λ o. changed_record o (plain_record r.now) ≡ fill (filling_past under (put_for (plain_types us.now) by)) (plain_record r.now)) }
{
    let inside = deeper(under, r.binders.as_slice().len())?;
    let binders = filled_bounds(alloc, &r.binders, us, by, under, parts)?;
    let positional = filled_types(alloc, &r.positional, us, by, inside, parts)?;
    let labelled = filled_labels(alloc, &r.labelled, us, by, inside, parts)?;
    if binders.same && positional.same && labelled.same {
        return Ok(None);
    }
    Ok(Some(Record {
        binders: binders.items,
        positional: positional.items,
        labelled: labelled.items,
    }))
}

#[cycle(fill)]
fn filled_bound(
    alloc: Global,
    b: &Bound,
    us: &[Ty],
    by: u32,
    under: usize,
    parts: &mut Parts,
) -> Result<Option<Bound>, AllocError>
    ensures { IfOk result (λ o. changed_bound o (plain_bound b.now) ≡ fill_bound (filling_past under (put_for (plain_types us.now) by)) (plain_bound b.now)) }
{
    match b {
        Bound::Free => Ok(None),
        Bound::Below(t) => {
            let made = filled_type(alloc, t, us, by, under, parts)?;
            let u = type_or_copy(alloc, made, t)?;
            Ok(Some(bound_by(u)))
        }
        Bound::Operator(_) => Ok(None),
    }
}

#[cycle(fill)]
#[tactic(auto, using(crate::proofs::Rows::types_rules))]
fn filled_types(
    alloc: Global,
    ts: &[Ty],
    us: &[Ty],
    by: u32,
    under: usize,
    parts: &mut Parts,
) -> Result<Renumbered<Ty>, AllocError>
    ensures row { IfOk result (λ m. plain_types m.items.items ≡ fill_types (filling_past under (put_for (plain_types us.now) by)) (plain_types ts.now)) }
    ensures same { IfOk result (λ m. IsTrue m.same
        → fill_types (filling_past under (put_for (plain_types us.now) by)) (plain_types ts.now) ≡ plain_types ts.now) }
{
    let mut items = Vec::with_capacity(alloc, ts.len())?;
    let mut same = true;
    for t in ts {
        let u = match filled_type(alloc, t, us, by, under, parts)? {
            None => t.copy(alloc)?,
            Some(u) => {
                same = false;
                u
            }
        };
        items.push(u)?;
    }
    Ok(Renumbered { items, same })
}

#[cycle(fill)]
#[tactic(auto, using(crate::proofs::Rows::labels_rules))]
fn filled_labels(
    alloc: Global,
    ls: &[(Name, Ty)],
    us: &[Ty],
    by: u32,
    under: usize,
    parts: &mut Parts,
) -> Result<Renumbered<(Name, Ty)>, AllocError>
    ensures row { IfOk result (λ m. plain_labels m.items.items ≡ fill_labels (filling_past under (put_for (plain_types us.now) by)) (plain_labels ls.now)) }
    ensures same { IfOk result (λ m. IsTrue m.same
        → fill_labels (filling_past under (put_for (plain_types us.now) by)) (plain_labels ls.now) ≡ plain_labels ls.now) }
{
    let mut items = Vec::with_capacity(alloc, ls.len())?;
    let mut same = true;
    for l in ls {
        let made = filled_type(alloc, &l.1, us, by, under, parts)?;
        same = both(same, is_left(&made));
        let u = type_or_copy(alloc, made, &l.1)?;
        items.push((l.0, u))?;
    }
    Ok(Renumbered { items, same })
}

#[cycle(fill)]
#[tactic(auto, using(crate::proofs::Rows::bounds_rules))]
fn filled_bounds(
    alloc: Global,
    bs: &[Bound],
    us: &[Ty],
    by: u32,
    under: usize,
    parts: &mut Parts,
) -> Result<Renumbered<Bound>, AllocError>
    ensures row { IfOk result (λ m. plain_bounds m.items.items ≡ fill_bounds (filling_past under (put_for (plain_types us.now) by)) (plain_bounds bs.now)) }
    ensures same { IfOk result (λ m. IsTrue m.same
        → fill_bounds (filling_past under (put_for (plain_types us.now) by)) (plain_bounds bs.now) ≡ plain_bounds bs.now) }
{
    let mut items = Vec::with_capacity(alloc, bs.len())?;
    let mut same = true;
    for (i, b) in bs.iter().enumerate() {
        let made = filled_bound(alloc, b, us, by, deeper(under, i)?, parts)?;
        same = both(same, is_left(&made));
        let d = bound_or_copy(alloc, made, b)?;
        items.push(d)?;
    }
    Ok(Renumbered { items, same })
}

/// The type with `us` put for the innermost variables, the last one for variable 0, and `by` more binders between it
/// and its context; the `under` innermost variables stay.
///
/// The only error is want of memory, and a variable past the greatest `u32` is one.
pub fn fill_type(alloc: Global, t: &Ty, us: &[Ty], by: u32, under: usize) -> Result<Ty, AllocError>
    ensures { IfOk result (λ u. plain u ≡ fill (filling_past under (put_for (plain_types us.now) by)) (plain t.now)) }
{
    let mut parts = Parts::of(alloc, t)?;
    let made = filled_type(alloc, t, us, by, under, &mut parts)?;
    type_or_copy(alloc, made, t)
}
