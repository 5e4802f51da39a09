// A wanted type matched against the type that is given.

ghost use Rattle.std.specs.Prelude.{◌≡◌, length, IfOk};
ghost use Rattle.pict_types.specs.Kinds.{AreWellFormed, BoundIsWellFormed, BoundsAreWellFormed, ContextIsWellFormed, IsWellFormed, LabelsAreWellFormed, kinds};
ghost use Rattle.pict_types.specs.Plain.{plain, plain_bound, plain_bounds, plain_labels, plain_record, plain_types};
ghost use Rattle.pict_types.specs.PlainContext.{IsWrittenIn, names_of, type_context};
ghost use Rattle.pict_types.specs.Types.{PlainBounds};
ghost use Rattle.pict_sub.specs.Exposing.{exposure};
ghost use Rattle.pict_sub.specs.Scopes.{scope_context};
ghost use Rattle.pict_rules.specs.Found.{matched, matched_bound, matched_bounds, matched_labels, matched_types};
ghost use Rattle.pict_match.specs.Formed.{AreFormed, BoundIsFormed, BoundsAreFormed, IsFormed, LabelsAreFormed};
ghost use Rattle.pict_match.specs.Parts.{by_arguments, by_body, by_channel, by_record, by_records, followed_or};
ghost use Rattle.pict_match.specs.PlainFound.{Finds, found_in, found_of};

use crate::found::{Found, find, is_same_head};
use pict_sub::{TypeScope, expose_in};
use pict_syntax::{Name, Names, compare_labels};
use pict_types::{Bound, Context, Record, Ty, deeper};
use std::alloc::{AllocError, Global};
use std::cmp::Ordering;

/// What a variable exposes to; nothing where the type is no variable, which exposes to itself and needs no copy.
#[tactic(auto, using(crate::proofs::Shown::shown_rules))]
fn followed(alloc: Global, scope: &TypeScope, t: &Ty) -> Result<Option<Ty>, AllocError>
    ensures { IfOk result (λ u. followed_or u (plain t.now) ≡ exposure (scope_context scope.now) (plain t.now)) }
{
    match t {
        Ty::Var(_) => Ok(Some(expose_in(alloc, scope, t)?)),
        _ => Ok(None),
    }
}

/// The type that was followed, or else the one that is given.
fn changed_or_same<'a>(followed: &'a Option<Ty>, t: &'a Ty) -> &'a Ty
    ensures { plain result.now ≡ followed_or followed.now (plain t.now) }
{
    match followed {
        Some(u) => u,
        None => t,
    }
}

/// Adds to `found` what the wanted type finds in the given one. The wanted type is written under the type fields and so
/// many inner variables, the given one in the scope, whose innermost variables these are.
#[cycle(matching)]
#[tactic(auto, using(crate::proofs::Shown::forms))]
fn match_at(
    alloc: Global,
    names: &Names,
    scope: &TypeScope,
    inner: usize,
    wanted: &Ty,
    given: &Ty,
    found: &mut Found,
) -> Result<(), AllocError>
    requires context { ContextIsWellFormed names.now (scope_context scope.now) }
    requires wanted { IsFormed names.now (plain wanted.now) }
    requires given { IsWellFormed names.now (kinds (scope_context scope.now)) (plain given.now) }
    ensures { Finds result (matched (scope_context scope.now) inner (plain wanted.now) (plain given.now)) (found_in found.old) (found_in found.new) }
{
    match wanted {
        Ty::Top => Ok(()),
        Ty::Int => Ok(()),
        Ty::Char => Ok(()),
        Ty::Str => Ok(()),
        Ty::Bool => Ok(()),
        Ty::Var(i) => find(alloc, inner, *i, given, found),
        Ty::Apply(i, ws) => match_arguments(alloc, names, scope, inner, *i, ws, given, found),
        Ty::Chan(_, w) => match_contents(alloc, names, scope, inner, w, given, found),
        Ty::Fields(r) => match_record(alloc, names, scope, inner, r, given, found),
        Ty::Rec(w) => match_body(alloc, names, scope, inner, w, given, found),
    }
}

/// Two channel types of any capabilities match their contents.
#[cycle(matching)]
#[tactic(auto, using(crate::proofs::Shown::parts))]
fn match_contents(
    alloc: Global,
    names: &Names,
    scope: &TypeScope,
    inner: usize,
    wanted: &Ty,
    given: &Ty,
    found: &mut Found,
) -> Result<(), AllocError>
    requires context { ContextIsWellFormed names.now (scope_context scope.now) }
    requires wanted { IsFormed names.now (plain wanted.now) }
    requires given { IsWellFormed names.now (kinds (scope_context scope.now)) (plain given.now) }
    ensures { Finds result (by_channel (scope_context scope.now) inner (plain wanted.now) (plain given.now)) (found_in found.old) (found_in found.new) }
{
    let followed = followed(alloc, scope, given)?;
    match changed_or_same(&followed, given) {
        Ty::Chan(_, g) => match_at(alloc, names, scope, inner, wanted, g, found),
        _ => Ok(()),
    }
}

/// Two recursive types match their bodies.
#[cycle(matching)]
#[tactic(auto, using(crate::proofs::Shown::parts))]
fn match_body(
    alloc: Global,
    names: &Names,
    scope: &TypeScope,
    inner: usize,
    wanted: &Ty,
    given: &Ty,
    found: &mut Found,
) -> Result<(), AllocError>
    requires context { ContextIsWellFormed names.now (scope_context scope.now) }
    requires wanted { IsFormed names.now (plain wanted.now) }
    requires given { IsWellFormed names.now (kinds (scope_context scope.now)) (plain given.now) }
    ensures { Finds result (by_body (scope_context scope.now) inner (plain wanted.now) (plain given.now)) (found_in found.old) (found_in found.new) }
{
    let followed = followed(alloc, scope, given)?;
    match changed_or_same(&followed, given) {
        Ty::Rec(g) => {
            let inside = TypeScope::Recursive(&*scope);
            match_at(alloc, names, &inside, deeper(inner, 1)?, wanted, g, found)
        }
        _ => Ok(()),
    }
}

/// Two applications of the same operator variable match their arguments.
#[cycle(matching)]
#[tactic(auto, using(crate::proofs::Shown::parts))]
fn match_arguments(
    alloc: Global,
    names: &Names,
    scope: &TypeScope,
    inner: usize,
    i: u32,
    wanted: &[Ty],
    given: &Ty,
    found: &mut Found,
) -> Result<(), AllocError>
    requires context { ContextIsWellFormed names.now (scope_context scope.now) }
    requires wanted { AreFormed names.now (plain_types wanted.now) }
    requires given { IsWellFormed names.now (kinds (scope_context scope.now)) (plain given.now) }
    ensures { Finds result (by_arguments (scope_context scope.now) inner i (plain_types wanted.now) (plain given.now))
        (found_in found.old) (found_in found.new) }
{
    let followed = followed(alloc, scope, given)?;
    match changed_or_same(&followed, given) {
        Ty::Apply(j, us) => {
            if is_same_head(inner, i, *j, found) {
                match_types(alloc, names, scope, inner, wanted, us, found)
            } else {
                Ok(())
            }
        }
        _ => Ok(()),
    }
}

/// Two records match where they have as many type fields and as many positional fields.
#[cycle(matching)]
#[tactic(auto, using(crate::proofs::Shown::parts))]
fn match_record(
    alloc: Global,
    names: &Names,
    scope: &TypeScope,
    inner: usize,
    wanted: &Record,
    given: &Ty,
    found: &mut Found,
) -> Result<(), AllocError>
    requires context { ContextIsWellFormed names.now (scope_context scope.now) }
    requires wanted { IsFormed names.now (plain_record wanted.now) }
    requires given { IsWellFormed names.now (kinds (scope_context scope.now)) (plain given.now) }
    ensures { Finds result (by_record (scope_context scope.now) inner wanted.now (plain given.now)) (found_in found.old) (found_in found.new) }
{
    let followed = followed(alloc, scope, given)?;
    match changed_or_same(&followed, given) {
        Ty::Fields(q) => match_records(alloc, names, scope, inner, wanted, q, found),
        _ => Ok(()),
    }
}

/// Their type fields match by their bounds, then the positional fields, then the labels that both have.
#[cycle(matching)]
#[tactic(auto, using(crate::proofs::Records::record_rules))]
fn match_records(
    alloc: Global,
    names: &Names,
    scope: &TypeScope,
    inner: usize,
    wanted: &Record,
    given: &Record,
    found: &mut Found,
) -> Result<(), AllocError>
    requires context { ContextIsWellFormed names.now (scope_context scope.now) }
    requires wanted { IsFormed names.now (plain_record wanted.now) }
    requires given { IsWellFormed names.now (kinds (scope_context scope.now)) (plain_record given.now) }
    ensures { Finds result (by_records (scope_context scope.now) inner wanted.now given.now) (found_in found.old) (found_in found.new) }
{
    if wanted.binders.len() != given.binders.len() {
        return Ok(());
    }
    if wanted.positional.len() != given.positional.len() {
        return Ok(());
    }
    let under = deeper(inner, wanted.binders.len())?;
    match_bounds(
        alloc,
        names,
        scope,
        inner,
        &wanted.binders,
        &given.binders,
        found,
    )?;
    let inside = TypeScope::Inner(&given.binders, &*scope);
    match_types(
        alloc,
        names,
        &inside,
        under,
        &wanted.positional,
        &given.positional,
        found,
    )?;
    match_labels(
        alloc,
        names,
        &inside,
        under,
        &wanted.labelled,
        &given.labelled,
        found,
    )
}

/// As many types, in order.
#[cycle(matching)]
#[tactic(auto, using(crate::proofs::Lists::type_rules))]
fn match_types(
    alloc: Global,
    names: &Names,
    scope: &TypeScope,
    inner: usize,
    wanted: &[Ty],
    given: &[Ty],
    found: &mut Found,
) -> Result<(), AllocError>
    requires context { ContextIsWellFormed names.now (scope_context scope.now) }
    requires wanted { AreFormed names.now (plain_types wanted.now) }
    requires given { AreWellFormed names.now (kinds (scope_context scope.now)) (plain_types given.now) }
    ensures { Finds result (matched_types (scope_context scope.now) inner (plain_types wanted.now) (plain_types given.now))
        (found_in found.old) (found_in found.new) }
{
    for i in 0..wanted.len() {
        if i == given.len() {
            return Ok(());
        }
        match_at(alloc, names, scope, inner, &wanted[i], &given[i], found)?;
    }
    Ok(())
}

/// The labels that both have. Both are in order, so that the lesser of the next two is none of the other's.
#[cycle(matching)]
#[tactic(auto, using(crate::proofs::Lists::label_rules))]
fn match_labels(
    alloc: Global,
    names: &Names,
    scope: &TypeScope,
    inner: usize,
    wanted: &[(Name, Ty)],
    given: &[(Name, Ty)],
    found: &mut Found,
) -> Result<(), AllocError>
    requires context { ContextIsWellFormed names.now (scope_context scope.now) }
    requires wanted { LabelsAreFormed names.now (plain_labels wanted.now) }
    requires given { LabelsAreWellFormed names.now (kinds (scope_context scope.now)) (plain_labels given.now) }
    ensures { Finds result (matched_labels (scope_context scope.now) inner (plain_labels wanted.now) (plain_labels given.now))
        (found_in found.old) (found_in found.new) }
{
    let mut i = 0;
    let mut j = 0;
    while i < wanted.len() && j < given.len() {
        let w = &wanted[i];
        let g = &given[j];
        match compare_labels(names, w.0, g.0) {
            Ordering::Less => i += 1,
            Ordering::Greater => j += 1,
            Ordering::Equal => {
                match_at(alloc, names, scope, inner, &w.1, &g.1, found)?;
                i += 1;
                j += 1;
            }
        }
    }
    Ok(())
}

/// The bounds of as many type fields, each in the scope of the given ones before it.
#[cycle(matching)]
#[tactic(auto, using(crate::proofs::Lists::bound_rules))]
fn match_bounds(
    alloc: Global,
    names: &Names,
    scope: &TypeScope,
    inner: usize,
    wanted: &[Bound],
    given: &[Bound],
    found: &mut Found,
) -> Result<(), AllocError>
    requires count { length wanted.now ≡ length given.now }
    requires context { ContextIsWellFormed names.now (scope_context scope.now) }
    requires wanted { BoundsAreFormed names.now (plain_bounds wanted.now) }
    requires given { BoundsAreWellFormed names.now (kinds (scope_context scope.now)) (plain_bounds given.now) }
    ensures { Finds result (matched_bounds (scope_context scope.now) inner (plain_bounds wanted.now) (plain_bounds given.now))
        (found_in found.old) (found_in found.new) }
{
    for i in 0..wanted.len() {
        let before = TypeScope::Inner(&given[..i], &*scope);
        match_bound(
            alloc,
            names,
            &before,
            deeper(inner, i)?,
            &wanted[i],
            &given[i],
            found,
        )?;
    }
    Ok(())
}

/// Two bounds match each other, and all else finds nothing.
#[cycle(matching)]
fn match_bound(
    alloc: Global,
    names: &Names,
    scope: &TypeScope,
    inner: usize,
    wanted: &Bound,
    given: &Bound,
    found: &mut Found,
) -> Result<(), AllocError>
    requires context { ContextIsWellFormed names.now (scope_context scope.now) }
    requires wanted { BoundIsFormed names.now (plain_bound wanted.now) }
    requires given { BoundIsWellFormed names.now (kinds (scope_context scope.now)) (plain_bound given.now) }
    ensures { Finds result (matched_bound (scope_context scope.now) inner (plain_bound wanted.now) (plain_bound given.now))
        (found_in found.old) (found_in found.new) }
{
    match (wanted, given) {
        (Bound::Below(w), Bound::Below(g)) => match_at(alloc, names, scope, inner, w, g, found),
        _ => Ok(()),
    }
}

/// Adds to `found` what the wanted type finds in the given one, and changes nothing that was found before.
///
/// In `wanted` the type fields are the innermost variables, the last one at 0, and the variables of `c` come after them;
/// `given` and the types that are found are written in `c`. A type field that isn't found yet becomes what stands in its
/// place in `given`, where that mentions no variable bound within the two types; otherwise the two are taken apart side by
/// side, variables of `given` by their bounds. The first place counts, in this order: bounds, positional fields, then
/// labels in the order of their bytes. `found` has one entry a type field. The only error is want of memory, after which
/// `found` may have gained some of these.
pub fn match_type(
    alloc: Global,
    c: &Context,
    wanted: &Ty,
    given: &Ty,
    found: &mut Found,
) -> Result<(), AllocError>
    requires wanted { IsFormed (names_of c.now) (plain wanted.now) }
    requires given { IsWrittenIn c.now (plain given.now) }
    ensures { (bs : PlainBounds) → Finds result (matched (type_context c.now) 0 (plain wanted.now) (plain given.now))
        (found_of bs found.old) (found_of bs found.new) }
{
    let scope = TypeScope::Outer(c);
    match_at(alloc, c.names(), &scope, 0, wanted, given, found)
}
