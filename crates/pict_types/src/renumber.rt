// Types with their free variables renumbered. What doesn't change is shared, and not made anew.

ghost use Rattle.std.specs.Prelude.{◌≡◌, ◌+◌, IfOk, IfSome, IsTrue, None};
ghost use Rattle.pict_types.specs.Plain.{plain, plain_bound, plain_bounds, plain_labels, plain_record, plain_types};
ghost use Rattle.pict_types.specs.Renaming.{beyond_times, rename, rename_bound, rename_bounds, rename_labels, rename_types};
ghost use Rattle.pict_types.specs.Renumbering.{changed, changed_bound, changed_record, renumbered};

use crate::mentioning::{Variables, mentions};
use crate::parts::Parts;
use crate::prints::{Fingerprint, is_part};
use crate::same_renumbered::is_renumbered;
use crate::types::{Bound, Record, Ty};
use pict_syntax::Name;
use std::alloc::{AllocError, Global};
use std::rc::Rc;

/// What becomes of the variables beyond the innermost ones that stay.
#[derive(Clone, Copy)]
pub enum Renumbering {
    /// So many more variables come before each.
    Up(u32),
    /// So many come before each no more; the innermost of them all become the first.
    Down(u32),
}

/// So many binders and some more. An error where a `usize` can't hold the number.
pub fn deeper(binders: usize, more: usize) -> Result<usize, AllocError>
    ensures { IfOk result (λ n. n ≡ binders + more) }
{
    binders.checked_add(more).ok_or(AllocError)
}

/// Variable `i` renumbered, where the `from` innermost ones stay. An error where a `u32` can't hold it.
#[tactic(auto, using(crate::proofs::Moving::times_low, crate::proofs::Moving::times_up, crate::proofs::Moving::times_down))]
pub fn renumber_variable(i: u32, how: Renumbering, from: usize) -> Result<u32, AllocError>
    ensures { IfOk result (λ j. j ≡ beyond_times from (renumbered how) i) }
{
    if (i as usize) < from {
        return Ok(i);
    }
    match how {
        Renumbering::Up(by) => i.checked_add(by).ok_or(AllocError),
        Renumbering::Down(by) => Ok((i - from as u32).saturating_sub(by) + from as u32),
    }
}

/// A row that was renumbered, and whether it is as it was.
#[derive(Drop)]
pub struct Renumbered<T> {
    pub items: Vec<T>,
    pub same: bool,
}

/// Whether both hold.
pub fn both(a: bool, b: bool) -> bool
    ensures left { IsTrue result → IsTrue a }
    ensures right { IsTrue result → IsTrue b }
{
    a && b
}

/// Whether nothing was made.
pub fn is_left<T>(made: &Option<T>) -> bool
    ensures { IsTrue result → made.now ≡ None }
{
    match made {
        None => true,
        Some(_) => false,
    }
}

/// What was made, or the same type once more where nothing was.
pub fn type_or_copy(alloc: Global, made: Option<Ty>, t: &Ty) -> Result<Ty, AllocError>
    ensures { IfOk result (λ u. plain u ≡ changed made (plain t.now)) }
{
    match made {
        None => t.copy(alloc),
        Some(u) => Ok(u),
    }
}

/// What was made, or the same bound once more where nothing was.
pub fn bound_or_copy(alloc: Global, made: Option<Bound>, b: &Bound) -> Result<Bound, AllocError>
    ensures { IfOk result (λ u. plain_bound u ≡ changed_bound made (plain_bound b.now)) }
{
    match made {
        None => b.copy(alloc),
        Some(u) => Ok(u),
    }
}

/// What was made of a part that is like this one; nothing where none is known.
fn changed_before(
    alloc: Global,
    t: &Ty,
    how: Renumbering,
    from: usize,
    parts: &mut Parts,
    part: Fingerprint,
) -> Result<Option<Ty>, AllocError>
    ensures { IfOk result (λ o. IfSome o (λ u. plain u ≡ rename (beyond_times from (renumbered how)) (plain t.now))) }
{
    let Some(u) = parts.made_of(part) else {
        return Ok(None);
    };
    if !is_renumbered(t, u, how, from)? {
        return Ok(None);
    }
    let u = u.copy(alloc)?;
    parts.pass(part);
    Ok(Some(u))
}

/// Whether a part is as it was. It is looked through where its fingerprint says that its variables stay, and else is taken for one
/// that changes.
fn stays(
    t: &Ty,
    how: Renumbering,
    from: usize,
    parts: &mut Parts,
    part: Fingerprint,
) -> Result<bool, AllocError>
    ensures { IfOk result (λ b. IsTrue b → plain t.now ≡ rename (beyond_times from (renumbered how)) (plain t.now)) }
{
    if from < part.print.reach as usize || !is_renumbered(t, t, how, from)? {
        return Ok(false);
    }
    parts.pass(part);
    Ok(true)
}

/// The type with its free variables renumbered, where the `from` innermost ones stay; nothing where it is as it was.
/// What was made of a like part is taken.
#[cycle(renumber)]
fn changed_type(
    alloc: Global,
    t: &Ty,
    how: Renumbering,
    from: usize,
    parts: &mut Parts,
) -> Result<Option<Ty>, AllocError>
    ensures { IfOk result (λ o. changed o (plain t.now) ≡ rename (beyond_times from (renumbered how)) (plain t.now)) }
{
    if !is_part(t) {
        return changed_anew(alloc, t, how, from, parts);
    }
    let part = parts.enter(from);
    if stays(t, how, from, parts, part)? {
        return Ok(None);
    }
    if let Some(u) = changed_before(alloc, t, how, from, parts, part)? {
        return Ok(Some(u));
    }
    let made = changed_anew(alloc, t, how, from, parts)?;
    parts.keep(alloc, part, &made)?;
    Ok(made)
}

/// The same, where what was made of the type itself isn't taken.
#[cycle(renumber)]
#[tactic(auto, using(crate::proofs::Rows::plain_apply, crate::proofs::Rows::plain_fields))]
fn changed_anew(
    alloc: Global,
    t: &Ty,
    how: Renumbering,
    from: usize,
    parts: &mut Parts,
) -> Result<Option<Ty>, AllocError>
    ensures { IfOk result (λ o. changed o (plain t.now) ≡ rename (beyond_times from (renumbered how)) (plain t.now)) }
{
    match t {
        Ty::Top => Ok(None),
        Ty::Int => Ok(None),
        Ty::Char => Ok(None),
        Ty::Str => Ok(None),
        Ty::Bool => Ok(None),
        Ty::Var(i) => {
            let j = renumber_variable(*i, how, from)?;
            if j == *i {
                return Ok(None);
            }
            Ok(Some(Ty::Var(j)))
        }
        Ty::Apply(i, ts) => {
            let j = renumber_variable(*i, how, from)?;
            let row = changed_types(alloc, ts, how, from, parts)?;
            if j == *i && row.same {
                return Ok(None);
            }
            Ok(Some(Ty::Apply(j, Rc::new(alloc, row.items)?)))
        }
        Ty::Chan(cap, t) => match changed_type(alloc, t, how, from, parts)? {
            None => Ok(None),
            Some(u) => Ok(Some(Ty::Chan(*cap, Rc::new(alloc, u)?))),
        },
        Ty::Fields(r) => match changed_record(alloc, r, how, from, parts)? {
            None => Ok(None),
            Some(q) => Ok(Some(Ty::Fields(Rc::new(alloc, q)?))),
        },
        Ty::Rec(t) => {
            let inside = deeper(from, 1)?;
            match changed_type(alloc, t, how, inside, parts)? {
                None => Ok(None),
                Some(u) => Ok(Some(Ty::Rec(Rc::new(alloc, u)?))),
            }
        }
    }
}

#[cycle(renumber)]
#[tactic(auto, using(crate::proofs::Moving::times_all, crate::proofs::Rows::count_bounds_length, crate::proofs::Rows::count_size_bounds))]
fn changed_record(
    alloc: Global,
    r: &Record,
    how: Renumbering,
    from: usize,
    parts: &mut Parts,
) -> Result<Option<Record>, AllocError>
    ensures { IfOk result (λ o. changed_record o (plain_record r.now) ≡ rename (beyond_times from (renumbered how)) (plain_record r.now)) }
{
    let under = deeper(from, r.binders.as_slice().len())?;
    let binders = changed_bounds(alloc, &r.binders, how, from, parts)?;
    let positional = changed_types(alloc, &r.positional, how, under, parts)?;
    let labelled = changed_labels(alloc, &r.labelled, how, under, parts)?;
    if binders.same && positional.same && labelled.same {
        return Ok(None);
    }
    Ok(Some(Record {
        binders: binders.items,
        positional: positional.items,
        labelled: labelled.items,
    }))
}

#[cycle(renumber)]
fn changed_bound(
    alloc: Global,
    b: &Bound,
    how: Renumbering,
    from: usize,
    parts: &mut Parts,
) -> Result<Option<Bound>, AllocError>
    ensures { IfOk result (λ o. changed_bound o (plain_bound b.now) ≡ rename_bound (beyond_times from (renumbered how)) (plain_bound b.now)) }
{
    match b {
        Bound::Free => Ok(None),
        Bound::Below(t) => match changed_type(alloc, t, how, from, parts)? {
            None => Ok(None),
            Some(u) => Ok(Some(Bound::Below(u))),
        },
        Bound::Operator(_) => Ok(None),
    }
}

#[cycle(renumber)]
#[tactic(auto, using(crate::proofs::Rows::types_rules))]
fn changed_types(
    alloc: Global,
    ts: &[Ty],
    how: Renumbering,
    from: usize,
    parts: &mut Parts,
) -> Result<Renumbered<Ty>, AllocError>
    ensures row { IfOk result (λ m. plain_types m.items.items ≡ rename_types (beyond_times from (renumbered how)) (plain_types ts.now)) }
    ensures same { IfOk result (λ m. IsTrue m.same → rename_types (beyond_times from (renumbered how)) (plain_types ts.now) ≡ plain_types ts.now) }
{
    let mut items = Vec::with_capacity(alloc, ts.len())?;
    let mut same = true;
    for t in ts {
        let u = match changed_type(alloc, t, how, from, parts)? {
            None => t.copy(alloc)?,
            Some(u) => {
                same = false;
                u
            }
        };
        items.push(u)?;
    }
    Ok(Renumbered { items, same })
}

#[cycle(renumber)]
#[tactic(auto, using(crate::proofs::Rows::labels_rules))]
fn changed_labels(
    alloc: Global,
    ls: &[(Name, Ty)],
    how: Renumbering,
    from: usize,
    parts: &mut Parts,
) -> Result<Renumbered<(Name, Ty)>, AllocError>
    ensures row { IfOk result (λ m. plain_labels m.items.items ≡ rename_labels (beyond_times from (renumbered how)) (plain_labels ls.now)) }
    ensures same { IfOk result (λ m. IsTrue m.same → rename_labels (beyond_times from (renumbered how)) (plain_labels ls.now) ≡ plain_labels ls.now) }
{
    let mut items = Vec::with_capacity(alloc, ls.len())?;
    let mut same = true;
    for l in ls {
        let made = changed_type(alloc, &l.1, how, from, parts)?;
        same = both(same, is_left(&made));
        let u = type_or_copy(alloc, made, &l.1)?;
        items.push((l.0, u))?;
    }
    Ok(Renumbered { items, same })
}

#[cycle(renumber)]
#[tactic(auto, using(crate::proofs::Rows::bounds_rules))]
fn changed_bounds(
    alloc: Global,
    bs: &[Bound],
    how: Renumbering,
    from: usize,
    parts: &mut Parts,
) -> Result<Renumbered<Bound>, AllocError>
    ensures row { IfOk result (λ m. plain_bounds m.items.items ≡ rename_bounds (beyond_times from (renumbered how)) (plain_bounds bs.now)) }
    ensures same { IfOk result (λ m. IsTrue m.same → rename_bounds (beyond_times from (renumbered how)) (plain_bounds bs.now) ≡ plain_bounds bs.now) }
{
    let mut items = Vec::with_capacity(alloc, bs.len())?;
    let mut same = true;
    for (i, b) in bs.iter().enumerate() {
        let made = changed_bound(alloc, b, how, deeper(from, i)?, parts)?;
        same = both(same, is_left(&made));
        let d = bound_or_copy(alloc, made, b)?;
        items.push(d)?;
    }
    Ok(Renumbered { items, same })
}

/// The type with its free variables renumbered, where the `from` innermost ones stay.
///
/// The only error is want of memory, and a variable past the greatest `u32` is one.
pub fn renumber_type(alloc: Global, t: &Ty, how: Renumbering, from: usize) -> Result<Ty, AllocError>
    ensures { IfOk result (λ u. plain u ≡ rename (beyond_times from (renumbered how)) (plain t.now)) }
{
    let changes = mentions(t, &Variables::Outer(from))?;
    if changes {
        let mut parts = Parts::of(alloc, t)?;
        let made = changed_type(alloc, t, how, from, &mut parts)?;
        return type_or_copy(alloc, made, t);
    }
    t.copy(alloc)
}
