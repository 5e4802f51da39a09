// Calls of what the rules of types stand on, one by one: what no rule asks for.

use pict_infer::type_of;
use pict_sub::{TypeScope, equal, expose, expose_in};
use pict_syntax::{Name, Names, Prim};
use pict_types::{Bound, Context, Entry, Ty, What, height, weight};
use std::alloc::{AllocError, Global};

/// `/[Int Int /Int]`, the type of `+`.
fn is_sum_measured(alloc: Global, c: &Context) -> Result<bool, AllocError> {
    let t = type_of(alloc, Prim::Add)?;
    Ok(
        weight(c, &t) == 6
            && height(c, &t) == 4
            && equal(&t, &t.copy(alloc)?)
            && !equal(&t, &Ty::Int),
    )
}

/// A variable below `Int`, which within a recursive type is the second.
fn is_variable_exposed(alloc: Global, c: &Context) -> Result<bool, AllocError> {
    let outer = TypeScope::Outer(c);
    let inner = TypeScope::Recursive(&outer);
    Ok(
        equal(&expose(alloc, c, &Ty::Var(0))?, &Ty::Int)
            && equal(&expose_in(alloc, &inner, &Ty::Var(0))?, &Ty::Var(0))
            && equal(&expose_in(alloc, &inner, &Ty::Var(1))?, &Ty::Int),
    )
}

fn are_measured_and_exposed(alloc: Global) -> Result<bool, AllocError> {
    let names = Names::new(alloc);
    let mut c = Context::new(alloc, &names);
    let is_measured = is_sum_measured(alloc, &c)?;
    c.push(Entry {
        name: Name(0),
        what: What::Variable(Bound::Below(Ty::Int)),
    })?;
    Ok(
        is_measured
            && weight(&c, &Ty::Var(0)) == 2
            && height(&c, &Ty::Var(0)) == 2
            && is_variable_exposed(alloc, &c)?,
    )
}

#[test]
fn types_are_measured_and_exposed(rt: HostRuntime) -> Result<(), AllocError> {
    assert!(rt; are_measured_and_exposed(rt.alloc())?);
    Ok(())
}
