// By which definition a type is said, and for which arguments.

use crate::known::{Definition, Known, is_word};
use pict_sub::equal;
use pict_syntax::Name;
use pict_types::{Bound, Record, Ty, Variables, mentions};
use std::alloc::{AllocError, Global};

/// What a walk through a whole part costs, in pairs of nodes that are compared.
const WALK: u32 = 100;

/// A definition that is deeper than this says no type.
const DEEPEST: u32 = 64;

/// A part of a type, under so many binders of that type.
#[derive(Clone, Copy)]
pub struct Part<'a> {
    pub of: &'a Ty,
    pub under: usize,
}

/// What was found for the parameters of a definition, the first parameter first.
#[derive(Drop)]
struct Found<'a> {
    parts: Vec<Option<Part<'a>>>,
}

/// Counts so many pairs, and answers whether that many were left.
pub fn count(left: &mut u32, pairs: u32) -> bool {
    if *left < pairs {
        *left = 0;
        return false;
    }
    *left -= pairs;
    true
}

/// Whether what is found for a parameter agrees with what was found before.
fn agrees<'a>(param: usize, part: Part<'a>, found: &mut Found<'a>, left: &mut u32) -> bool {
    if param >= found.parts.len() {
        return false;
    }
    match found.parts[param] {
        None => {
            found.parts[param] = Some(part);
            true
        }
        Some(before) => {
            before.under == part.under && count(left, WALK) && equal(before.of, part.of)
        }
    }
}

/// Whether variable `i` of a definition's body, under so many binders of the body, may stand for this part.
fn variable_fits<'a>(
    i: usize,
    part: Part<'a>,
    inner: usize,
    found: &mut Found<'a>,
    left: &mut u32,
) -> Result<bool, AllocError> {
    if i < inner {
        return Ok(match part.of {
            Ty::Var(j) => *j as usize == i,
            _ => false,
        });
    }
    let params = found.parts.len();
    let outer = i - inner;
    if outer >= params {
        return Ok(false);
    }
    if inner > 0 {
        if !count(left, WALK) || inner > u32::MAX as usize {
            return Ok(false);
        }
        if mentions(part.of, &Variables::Innermost(inner as u32))? {
            return Ok(false);
        }
    }
    Ok(agrees(params - 1 - outer, part, found, left))
}

/// Whether a type is a definition's body with types in the places of its parameters, which are found.
#[cycle(fits)]
fn type_fits<'a>(
    body: &Ty,
    part: Part<'a>,
    inner: usize,
    found: &mut Found<'a>,
    left: &mut u32,
    deep: u32,
) -> Result<bool, AllocError> {
    if deep == 0 || !count(left, 1) {
        return Ok(false);
    }
    let deep = deep - 1;
    match (body, part.of) {
        (Ty::Var(i), _) => variable_fits(*i as usize, part, inner, found, left),
        (Ty::Top, Ty::Top) => Ok(true),
        (Ty::Int, Ty::Int) => Ok(true),
        (Ty::Char, Ty::Char) => Ok(true),
        (Ty::Str, Ty::Str) => Ok(true),
        (Ty::Bool, Ty::Bool) => Ok(true),
        (Ty::Apply(i, bodies), Ty::Apply(j, ts)) => {
            if i != j {
                return Ok(false);
            }
            types_fit(bodies, ts, part.under, inner, found, left, deep)
        }
        (Ty::Chan(m, body), Ty::Chan(n, of)) => {
            if *m != *n {
                return Ok(false);
            }
            let under = part.under;
            type_fits(body, Part { of, under }, inner, found, left, deep)
        }
        (Ty::Fields(body), Ty::Fields(of)) => {
            record_fits(body, of, part.under, inner, found, left, deep)
        }
        (Ty::Rec(body), Ty::Rec(of)) => {
            let under = part.under.saturating_add(1);
            type_fits(
                body,
                Part { of, under },
                inner.saturating_add(1),
                found,
                left,
                deep,
            )
        }
        _ => Ok(false),
    }
}

#[cycle(fits)]
fn record_fits<'a>(
    body: &Record,
    of: &'a Record,
    under: usize,
    inner: usize,
    found: &mut Found<'a>,
    left: &mut u32,
    deep: u32,
) -> Result<bool, AllocError> {
    let binders = body.binders.len();
    if !bounds_fit(&body.binders, &of.binders, under, inner, found, left, deep)? {
        return Ok(false);
    }
    let under = under.saturating_add(binders);
    let inner = inner.saturating_add(binders);
    if !types_fit(
        &body.positional,
        &of.positional,
        under,
        inner,
        found,
        left,
        deep,
    )? {
        return Ok(false);
    }
    labels_fit(
        &body.labelled,
        &of.labelled,
        under,
        inner,
        found,
        left,
        deep,
    )
}

#[cycle(fits)]
fn types_fit<'a>(
    bodies: &[Ty],
    ts: &'a [Ty],
    under: usize,
    inner: usize,
    found: &mut Found<'a>,
    left: &mut u32,
    deep: u32,
) -> Result<bool, AllocError> {
    if bodies.len() != ts.len() {
        return Ok(false);
    }
    for i in 0..bodies.len() {
        let part = Part { of: &ts[i], under };
        if !type_fits(&bodies[i], part, inner, found, left, deep)? {
            return Ok(false);
        }
    }
    Ok(true)
}

#[cycle(fits)]
fn labels_fit<'a>(
    bodies: &[(Name, Ty)],
    ts: &'a [(Name, Ty)],
    under: usize,
    inner: usize,
    found: &mut Found<'a>,
    left: &mut u32,
    deep: u32,
) -> Result<bool, AllocError> {
    if bodies.len() != ts.len() {
        return Ok(false);
    }
    for i in 0..bodies.len() {
        if bodies[i].0.0 != ts[i].0.0 {
            return Ok(false);
        }
        let part = Part {
            of: &ts[i].1,
            under,
        };
        if !type_fits(&bodies[i].1, part, inner, found, left, deep)? {
            return Ok(false);
        }
    }
    Ok(true)
}

#[cycle(fits)]
fn bounds_fit<'a>(
    bodies: &[Bound],
    bounds: &'a [Bound],
    under: usize,
    inner: usize,
    found: &mut Found<'a>,
    left: &mut u32,
    deep: u32,
) -> Result<bool, AllocError> {
    if bodies.len() != bounds.len() {
        return Ok(false);
    }
    for i in 0..bodies.len() {
        let fits = match (&bodies[i], &bounds[i]) {
            (Bound::Free, Bound::Free) => true,
            (Bound::Operator(m), Bound::Operator(n)) => m.as_slice() == n.as_slice(),
            (Bound::Below(body), Bound::Below(of)) => {
                let part = Part {
                    of,
                    under: under.saturating_add(i),
                };
                type_fits(body, part, inner.saturating_add(i), found, left, deep)?
            }
            _ => false,
        };
        if !fits {
            return Ok(false);
        }
    }
    Ok(true)
}

/// The arguments for which a type is what a definition says, the first parameter first; nothing where it isn't that, or a
/// parameter has no place in the definition.
fn arguments<'a>(
    alloc: Global,
    definition: &Definition,
    part: Part<'a>,
    left: &mut u32,
) -> Result<Option<Vec<Part<'a>>>, AllocError> {
    let mut parts = Vec::new(alloc);
    for _ in 0..definition.params {
        parts.push(None)?;
    }
    let mut found = Found { parts };
    if !type_fits(&definition.body, part, 0, &mut found, left, DEEPEST)? {
        return Ok(None);
    }
    let mut arguments = Vec::new(alloc);
    for part in &found.parts {
        match part {
            None => return Ok(None),
            Some(part) => arguments.push(*part)?,
        }
    }
    Ok(Some(arguments))
}

/// The name by which a type is said with its arguments, the nearest first; nothing where it is a word of its own or no definition
/// says it.
pub fn said<'a>(
    alloc: Global,
    known: &Known,
    part: Part<'a>,
    left: &mut u32,
) -> Result<Option<(Name, Vec<Part<'a>>)>, AllocError> {
    if is_word(part.of) {
        return Ok(None);
    }
    for definition in &known.definitions {
        if let Some(arguments) = arguments(alloc, definition, part, left)? {
            return Ok(Some((definition.name, arguments)));
        }
    }
    Ok(None)
}
