// Types that are moved or filled are those written out, and their like parts are shared.

use pict_sub::equal;
use pict_types::{Bound, Record, Ty, fill_type, shift_type};
use std::alloc::{AllocError, Global};
use std::rc::Rc;
use std::slice;

/// A record type of these positional fields, under one type field or none.
fn fields(alloc: Global, under_one: bool, first: Ty, second: Ty) -> Result<Ty, AllocError> {
    let mut binders = Vec::new(alloc);
    if under_one {
        binders.push(Bound::Free)?;
    }
    let record = Record {
        binders,
        positional: vec![in alloc; first, second]?,
        labelled: Vec::new(alloc),
    };
    Ok(Ty::Fields(Rc::new(alloc, record)?))
}

/// Pairs of pairs, and so on, of one type, with so many parts that what is made of them is kept.
fn pairs(alloc: Global, of: Ty) -> Result<Ty, AllocError> {
    let mut t = of;
    for _ in 0..5 {
        t = fields(alloc, false, t.copy(alloc)?, t)?;
    }
    Ok(t)
}

/// Whether the first positional field of a record type stands in two places.
fn is_first_shared(t: &Ty) -> bool {
    let Ty::Fields(r) = t else { return false };
    match r.positional.first() {
        Some(Ty::Fields(part)) => Rc::strong_count(part) == 2,
        _ => false,
    }
}

/// Whether what is made of pairs are these pairs, and their like parts are shared.
fn are_pairs(alloc: Global, made: &Ty, of: Ty) -> Result<bool, AllocError> {
    Ok(equal(made, &pairs(alloc, of)?) && is_first_shared(made))
}

fn are_moved(alloc: Global) -> Result<bool, AllocError> {
    let moved = shift_type(alloc, &pairs(alloc, Ty::Var(0))?, 1, 0)?;
    are_pairs(alloc, &moved, Ty::Var(1))
}

/// A type, filled with one other.
fn filled(alloc: Global, t: &Ty, put: &Ty) -> Result<Ty, AllocError> {
    fill_type(alloc, t, slice::from_ref(put), 0, 0)
}

fn are_filled(alloc: Global) -> Result<bool, AllocError> {
    let filled = filled(alloc, &pairs(alloc, Ty::Var(0))?, &Ty::Int)?;
    are_pairs(alloc, &filled, Ty::Int)
}

/// Pairs of this type outside a type field, and pairs of the type field under it.
fn mixed(alloc: Global, outside: Ty) -> Result<Ty, AllocError> {
    let under = fields(alloc, true, pairs(alloc, Ty::Var(0))?, Ty::Int)?;
    fields(alloc, false, pairs(alloc, outside)?, under)
}

/// The same pairs stand outside a type field, where their variable is the context's, and under it, where it is the
/// type field.
fn are_apart(alloc: Global) -> Result<bool, AllocError> {
    let t = mixed(alloc, Ty::Var(0))?;
    Ok(
        equal(&shift_type(alloc, &t, 3, 0)?, &mixed(alloc, Ty::Var(3))?)
            && equal(&filled(alloc, &t, &Ty::Bool)?, &mixed(alloc, Ty::Bool)?),
    )
}

#[test]
fn like_parts_are_shared(rt: HostRuntime) -> Result<(), AllocError> {
    assert!(rt; are_moved(rt.alloc())?);
    assert!(rt; are_filled(rt.alloc())?);
    assert!(rt; are_apart(rt.alloc())?);
    Ok(())
}
