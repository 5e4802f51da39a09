// The parameters that the body of an operator uses.

ghost use Rattle.std.specs.Prelude.{◌≡◌, ◌+◌, ◌<◌, ◌^◌, ℕ, IfOk, OnOk, false, get_or, length, nat_eq};
ghost use Rattle.pict_normal.specs.Uses.{AreMarked, takes_arguments, uses, uses_bound, uses_bounds, uses_labels, uses_types};
ghost use Rattle.pict_types.specs.Plain.{plain, plain_bound, plain_bounds, plain_labels, plain_record, plain_types};

use pict_syntax::Name;
use pict_types::{Bound, Record, Ty, deeper};
use std::alloc::{AllocError, Global};

/// Of each of the `count` parameters of an operator whether it stands in the body.
pub fn used_parameters(alloc: Global, body: &Ty, count: u32) -> Result<Vec<bool>, AllocError>
    ensures few { IfOk result (λ _. count < 2 ^ 32) }
    ensures count { IfOk result (λ v. length v.items ≡ count) }
    ensures used { IfOk result (λ v. (i : ℕ) → i < count → get_or v.items i false ≡ uses count 0 i (plain body.now)) }
{
    let mut used = vec![in alloc; false; count as usize]?;
    mark_type(body, 0, &mut used)?;
    Ok(used)
}

/// Marks the parameter behind `depth` binders that variable `j` is.
fn mark_variable(j: u32, depth: usize, used: &mut [bool])
    ensures { AreMarked (λ i. nat_eq j (depth + i)) used.old used.new }
{
    let j = j as usize;
    if depth <= j && j - depth < used.len() {
        used[j - depth] = true;
    }
}

/// Whether variable `j` takes arguments: the parameters behind `depth` binders don't.
fn takes_arguments(j: u32, depth: usize, count: usize) -> bool
    ensures { result ≡ takes_arguments count depth j }
{
    let j = j as usize;
    j < depth || j - depth >= count
}

/// Marks the parameters that stand in a type, behind `depth` binders.
#[cycle(uses)]
fn mark_type(t: &Ty, depth: usize, used: &mut [bool]) -> Result<(), AllocError>
    ensures { OnOk result (AreMarked (λ i. uses (length used.old) depth i (plain t.now)) used.old used.new) }
{
    match t {
        Ty::Top | Ty::Int | Ty::Char | Ty::Str | Ty::Bool => Ok(()),
        Ty::Var(j) => {
            mark_variable(*j, depth, used);
            Ok(())
        }
        Ty::Apply(j, ts) => {
            if takes_arguments(*j, depth, used.len()) {
                mark_types(ts, depth, used)
            } else {
                Ok(())
            }
        }
        Ty::Chan(_, t) => mark_type(t, depth, used),
        Ty::Fields(r) => mark_record(r, depth, used),
        Ty::Rec(t) => mark_type(t, deeper(depth, 1)?, used),
    }
}

#[cycle(uses)]
fn mark_types(ts: &[Ty], depth: usize, used: &mut [bool]) -> Result<(), AllocError>
    ensures { OnOk result (AreMarked (λ i. uses_types (length used.old) depth i (plain_types ts.now)) used.old used.new) }
{
    for t in ts {
        mark_type(t, depth, used)?;
    }
    Ok(())
}

#[cycle(uses)]
fn mark_labels(ls: &[(Name, Ty)], depth: usize, used: &mut [bool]) -> Result<(), AllocError>
    ensures { OnOk result (AreMarked (λ i. uses_labels (length used.old) depth i (plain_labels ls.now)) used.old used.new) }
{
    for l in ls {
        mark_type(&l.1, depth, used)?;
    }
    Ok(())
}

#[cycle(uses)]
fn mark_bound(b: &Bound, depth: usize, used: &mut [bool]) -> Result<(), AllocError>
    ensures { OnOk result (AreMarked (λ i. uses_bound (length used.old) depth i (plain_bound b.now)) used.old used.new) }
{
    match b {
        Bound::Free | Bound::Operator(_) => Ok(()),
        Bound::Below(t) => mark_type(t, depth, used),
    }
}

#[cycle(uses)]
fn mark_bounds(bs: &[Bound], depth: usize, used: &mut [bool]) -> Result<(), AllocError>
    ensures { OnOk result (AreMarked (λ i. uses_bounds (length used.old) depth i (plain_bounds bs.now)) used.old used.new) }
{
    for (k, b) in bs.iter().enumerate() {
        mark_bound(b, deeper(depth, k)?, used)?;
    }
    Ok(())
}

#[cycle(uses)]
fn mark_record(r: &Record, depth: usize, used: &mut [bool]) -> Result<(), AllocError>
    ensures { OnOk result (AreMarked (λ i. uses (length used.old) depth i (plain_record r.now)) used.old used.new) }
{
    let inside = deeper(depth, r.binders.as_slice().len())?;
    mark_bounds(&r.binders, depth, used)?;
    mark_types(&r.positional, inside, used)?;
    mark_labels(&r.labelled, inside, used)
}
