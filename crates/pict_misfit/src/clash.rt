// The first part in which a type isn't below the one that is wanted.

use crate::known::Known;
use crate::said::{Part, count};
use pict_sub::equal;
use pict_syntax::Name;
use pict_types::{Bound, Cap, Record, Ty};
use std::alloc::{AllocError, Global};

/// How many pairs of nodes are compared at most.
const MOST_PAIRS: u32 = 100_000;

/// A difference that lies deeper than this isn't told.
const DEEPEST: u32 = 200;

/// A step from a type to a part of it.
#[derive(Clone, Copy)]
pub enum Step {
    /// To what a channel carries.
    Content,
    /// To a positional field, counted from 1.
    Field(usize),
    /// To the field of this label.
    Labelled(Name),
    /// To the body of a recursive type.
    Body,
}

/// In what two types differ.
#[derive(Clone, Copy)]
pub enum Why {
    /// They have different forms.
    Form,
    /// What may be done with a channel, in the given type and in the wanted one.
    Cap(Cap, Cap),
    /// The type fields of records.
    TypeFields,
    /// The number of positional fields, in the given type and in the wanted one.
    Fields(usize, usize),
    /// A label that the wanted type has, and the given one lacks.
    Label(Name),
}

/// The types of a refusal at the part where they first differ. They are turned where the given one has to be above the wanted.
#[derive(Clone, Copy)]
pub struct Clash<'a> {
    pub given: Part<'a>,
    pub wanted: Part<'a>,
    pub turned: bool,
    pub why: Why,
}

/// What a walk through two types knows and counts.
#[derive(Drop)]
struct Walk<'k> {
    known: &'k Known,
    left: u32,
}

/// Whether one may say for sure that a type which is this variable isn't below another one.
fn is_free(known: &Known, i: usize, under: usize) -> bool {
    if i < under {
        return false;
    }
    match known.variables.get(i - under) {
        None => false,
        Some(variable) => !variable.bounded,
    }
}

/// Whether a channel type is below others by what may be done with it, its messages apart.
fn is_cap_below(low: Cap, high: Cap) -> bool {
    match (low, high) {
        (Cap::Both, Cap::Both | Cap::Read | Cap::Write) => true,
        (Cap::Read, Cap::Read) => true,
        (Cap::Write, Cap::Write) => true,
        (Cap::Respond, Cap::Respond | Cap::Write) => true,
        _ => false,
    }
}

/// The first part in which the given type isn't below the wanted one, or, where they are turned, above it. The path to it is put
/// behind what stands in `path`, which stays as it was where there is none.
#[cycle(first)]
fn first_clash<'a>(
    walk: &mut Walk<'_>,
    path: &mut Vec<Step>,
    given: Part<'a>,
    wanted: Part<'a>,
    turned: bool,
    deep: u32,
) -> Result<Option<Clash<'a>>, AllocError> {
    if deep == 0 || !count(&mut walk.left, 1) {
        return Ok(None);
    }
    let deep = deep - 1;
    let here = Clash {
        given,
        wanted,
        turned,
        why: Why::Form,
    };
    match (given.of, wanted.of) {
        (Ty::Chan(m, s), Ty::Chan(n, t)) => {
            let (low, high) = if turned { (*n, *m) } else { (*m, *n) };
            if !is_cap_below(low, high) {
                let why = Why::Cap(*m, *n);
                return Ok(Some(Clash { why, ..here }));
            }
            let s = Part {
                of: s,
                under: given.under,
            };
            let t = Part {
                of: t,
                under: wanted.under,
            };
            path.push(Step::Content)?;
            let found = content_clash(walk, path, s, t, turned, high, deep)?;
            if found.is_none() {
                let _ = path.pop();
            }
            Ok(found)
        }
        (Ty::Fields(r), Ty::Fields(q)) => record_clash(walk, path, r, q, here, deep),
        (Ty::Rec(s), Ty::Rec(t)) => {
            if !count(&mut walk.left, 100) || equal(given.of, wanted.of) {
                return Ok(None);
            }
            path.push(Step::Body)?;
            let s = Part {
                of: s,
                under: given.under.saturating_add(1),
            };
            let t = Part {
                of: t,
                under: wanted.under.saturating_add(1),
            };
            let found = content_clash(walk, path, s, t, turned, Cap::Both, deep)?;
            if found.is_some() {
                return Ok(found);
            }
            let _ = path.pop();
            Ok(Some(here))
        }
        _ => {
            if may_be_below(walk.known, given, wanted, turned) {
                Ok(None)
            } else {
                Ok(Some(here))
            }
        }
    }
}

/// Whether two types, of which one is no channel type, no record and not recursive, or which have different forms, may be below one
/// another, for all that is told by their form.
fn may_be_below(known: &Known, given: Part<'_>, wanted: Part<'_>, turned: bool) -> bool {
    let (low, high) = if turned {
        (wanted, given)
    } else {
        (given, wanted)
    };
    match (low.of, high.of) {
        (_, Ty::Top) => true,
        (Ty::Int, Ty::Int) => true,
        (Ty::Char, Ty::Char) => true,
        (Ty::Str, Ty::Str) => true,
        (Ty::Bool, Ty::Bool) => true,
        (Ty::Var(i), Ty::Var(j)) => i == j || !is_free(known, *i as usize, low.under),
        (Ty::Var(i), _) => !is_free(known, *i as usize, low.under),
        (Ty::Apply(i, _), Ty::Apply(j, _)) => i == j,
        _ => false,
    }
}

/// The same of what two channels carry, by what may be done with the greater one: what is received goes up with the type, what is
/// sent goes down.
#[cycle(first)]
fn content_clash<'a>(
    walk: &mut Walk<'_>,
    path: &mut Vec<Step>,
    given: Part<'a>,
    wanted: Part<'a>,
    turned: bool,
    high: Cap,
    deep: u32,
) -> Result<Option<Clash<'a>>, AllocError> {
    match high {
        Cap::Read => first_clash(walk, path, given, wanted, turned, deep),
        Cap::Write | Cap::Respond => first_clash(walk, path, given, wanted, !turned, deep),
        Cap::Both => {
            let found = first_clash(walk, path, given, wanted, turned, deep)?;
            if found.is_some() {
                return Ok(found);
            }
            first_clash(walk, path, given, wanted, !turned, deep)
        }
    }
}

/// Whether the type fields of two records are the same, for all that is told by their form.
fn are_same_binders(bs: &[Bound], cs: &[Bound]) -> bool {
    if bs.len() != cs.len() {
        return false;
    }
    for i in 0..bs.len() {
        let same = match (&bs[i], &cs[i]) {
            (Bound::Free, Bound::Free) => true,
            (Bound::Below(_), Bound::Below(_)) => true,
            (Bound::Operator(m), Bound::Operator(n)) => m.as_slice() == n.as_slice(),
            _ => false,
        };
        if !same {
            return false;
        }
    }
    true
}

/// The type of a record's field with this label.
fn labelled(r: &Record, label: Name) -> Option<&Ty> {
    for field in &r.labelled {
        if field.0.0 == label.0 {
            return Some(&field.1);
        }
    }
    None
}

/// The same of two records.
#[cycle(first)]
fn record_clash<'a>(
    walk: &mut Walk<'_>,
    path: &mut Vec<Step>,
    r: &'a Record,
    q: &'a Record,
    here: Clash<'a>,
    deep: u32,
) -> Result<Option<Clash<'a>>, AllocError> {
    if !are_same_binders(&r.binders, &q.binders) {
        let why = Why::TypeFields;
        return Ok(Some(Clash { why, ..here }));
    }
    if r.positional.len() != q.positional.len() {
        let why = Why::Fields(r.positional.len(), q.positional.len());
        return Ok(Some(Clash { why, ..here }));
    }
    let given_under = here.given.under.saturating_add(r.binders.len());
    let wanted_under = here.wanted.under.saturating_add(q.binders.len());
    for i in 0..r.positional.len() {
        let s = Part {
            of: &r.positional[i],
            under: given_under,
        };
        let t = Part {
            of: &q.positional[i],
            under: wanted_under,
        };
        path.push(Step::Field(i + 1))?;
        let found = first_clash(walk, path, s, t, here.turned, deep)?;
        if found.is_some() {
            return Ok(found);
        }
        let _ = path.pop();
    }
    labels_clash(walk, path, r, q, here, deep)
}

/// The same of the labelled fields of two records: each label of the greater one has to be in the smaller.
#[cycle(first)]
fn labels_clash<'a>(
    walk: &mut Walk<'_>,
    path: &mut Vec<Step>,
    r: &'a Record,
    q: &'a Record,
    here: Clash<'a>,
    deep: u32,
) -> Result<Option<Clash<'a>>, AllocError> {
    let given_under = here.given.under.saturating_add(r.binders.len());
    let wanted_under = here.wanted.under.saturating_add(q.binders.len());
    let high = if here.turned { r } else { q };
    for field in &high.labelled {
        let label = field.0;
        let (Some(s), Some(t)) = (labelled(r, label), labelled(q, label)) else {
            let why = Why::Label(label);
            return Ok(Some(Clash { why, ..here }));
        };
        let s = Part {
            of: s,
            under: given_under,
        };
        let t = Part {
            of: t,
            under: wanted_under,
        };
        path.push(Step::Labelled(label))?;
        let found = first_clash(walk, path, s, t, here.turned, deep)?;
        if found.is_some() {
            return Ok(found);
        }
        let _ = path.pop();
    }
    Ok(None)
}

/// The first part in which the given type isn't below the wanted one, with the path to it; nothing where that isn't told by their
/// forms. The only error is want of memory.
pub fn difference<'a>(
    alloc: Global,
    known: &Known,
    given: &'a Ty,
    wanted: &'a Ty,
) -> Result<Option<(Vec<Step>, Clash<'a>)>, AllocError> {
    let mut path = Vec::new(alloc);
    let mut walk = Walk {
        known,
        left: MOST_PAIRS,
    };
    let given = Part {
        of: given,
        under: 0,
    };
    let wanted = Part {
        of: wanted,
        under: 0,
    };
    match first_clash(&mut walk, &mut path, given, wanted, false, DEEPEST)? {
        None => Ok(None),
        Some(clash) => Ok(Some((path, clash))),
    }
}
