// Fingerprints of the parts of a type: numbers that are the same for like parts, and mostly others for unlike ones, and how far
// the variables of a part reach.

use crate::types::{Bound, Cap, Record, Ty};
use pict_syntax::Name;
use std::alloc::AllocError;

/// What is told of a type, or of a row of types. Nothing is promised of it.
#[derive(Clone, Copy)]
pub struct Print {
    /// The same for like types.
    pub number: u64,
    /// How many of the innermost variables outside it have those that it mentions among them; none where it mentions none.
    pub reach: u32,
}

/// What is told of a part of a type, which is a node that has others in it.
#[derive(Clone, Copy)]
pub struct Fingerprint {
    /// What is told of the type that it is.
    pub print: Print,
    /// How many parts it has, itself among them.
    pub parts: usize,
}

/// One more number in a running one, so that sequences that differ mostly differ in it.
pub fn mixed(running: u64, more: u64) -> u64 {
    let turned = (running ^ more).wrapping_mul(0xD6E8_FEB8_6659_FD93);
    (turned ^ (turned >> 32)).wrapping_mul(0xD6E8_FEB8_6659_FD93)
}

/// Whether it is a part, and no leaf.
pub fn is_part(t: &Ty) -> bool {
    match t {
        Ty::Top | Ty::Int | Ty::Char | Ty::Str | Ty::Bool | Ty::Var(_) => false,
        Ty::Apply(..) | Ty::Chan(..) | Ty::Fields(_) | Ty::Rec(_) => true,
    }
}

fn cap_number(cap: Cap) -> u64 {
    match cap {
        Cap::Both => 7,
        Cap::Read => 8,
        Cap::Write => 9,
        Cap::Respond => 10,
    }
}

/// What is told of what mentions no variable.
fn closed(number: u64) -> Print {
    Print { number, reach: 0 }
}

/// What is told of a type behind this binder or these binders, of what is told of it under them.
fn outside(print: Print, binders: usize) -> Print {
    let reach = (print.reach as usize).saturating_sub(binders) as u32;
    Print {
        number: print.number,
        reach,
    }
}

/// What is told of something and of what comes behind it in a row.
fn followed(print: Print, next: Print) -> Print {
    Print {
        number: mixed(print.number, next.number),
        reach: print.reach.max(next.reach),
    }
}

/// The place of a part that begins here.
fn begun(prints: &mut Vec<Fingerprint>) -> Result<usize, AllocError> {
    let place = prints.len();
    prints.push(Fingerprint {
        print: closed(0),
        parts: 1,
    })?;
    Ok(place)
}

/// What is told of a part that began at this place and ends here, which is kept there.
fn ended(print: Print, place: usize, prints: &mut Vec<Fingerprint>) -> Print {
    let parts = prints.len().saturating_sub(place);
    if let Some(kept) = prints.get_mut(place) {
        *kept = Fingerprint { print, parts };
    }
    print
}

/// What is told of a variable.
fn print_variable(number: u64, i: u32) -> Print {
    Print {
        number: mixed(number, u64::from(i)),
        reach: i.saturating_add(1),
    }
}

/// What is told of a type. The fingerprints of its parts come behind those that are there, each before those in it.
#[cycle(prints)]
#[tactic(auto, using(crate::proofs::Rows::plain_apply, crate::proofs::Rows::plain_fields))]
pub fn print_type(t: &Ty, prints: &mut Vec<Fingerprint>) -> Result<Print, AllocError> {
    match t {
        Ty::Top => Ok(closed(1)),
        Ty::Int => Ok(closed(2)),
        Ty::Char => Ok(closed(3)),
        Ty::Str => Ok(closed(4)),
        Ty::Bool => Ok(closed(5)),
        Ty::Var(i) => Ok(print_variable(6, *i)),
        Ty::Apply(i, ts) => {
            let place = begun(prints)?;
            let print = print_types(ts, print_variable(11, *i), prints)?;
            Ok(ended(print, place, prints))
        }
        Ty::Chan(cap, t) => {
            let place = begun(prints)?;
            let print = print_type(t, prints)?;
            let print = followed(print, closed(cap_number(*cap)));
            Ok(ended(print, place, prints))
        }
        Ty::Fields(r) => {
            let place = begun(prints)?;
            let print = print_record(r, prints)?;
            Ok(ended(print, place, prints))
        }
        Ty::Rec(t) => {
            let place = begun(prints)?;
            let print = print_type(t, prints)?;
            let print = outside(followed(print, closed(12)), 1);
            Ok(ended(print, place, prints))
        }
    }
}

#[cycle(prints)]
fn print_record(r: &Record, prints: &mut Vec<Fingerprint>) -> Result<Print, AllocError> {
    let bounds = print_bounds(&r.binders, prints)?;
    let positional = print_types(&r.positional, closed(bounds.number), prints)?;
    let fields = print_labels(&r.labelled, positional, prints)?;
    let fields = outside(fields, r.binders.len());
    Ok(Print {
        number: fields.number,
        reach: bounds.reach.max(fields.reach),
    })
}

#[cycle(prints)]
fn print_bound(b: &Bound, prints: &mut Vec<Fingerprint>) -> Result<Print, AllocError> {
    match b {
        Bound::Free => Ok(closed(13)),
        Bound::Below(t) => print_type(t, prints),
        Bound::Operator(marks) => Ok(closed(mixed(14, marks.as_slice().len() as u64))),
    }
}

/// What is told of a row of types and of what is before it.
#[cycle(prints)]
#[tactic(auto, using(crate::proofs::Rows::size_types_item))]
fn print_types(
    ts: &[Ty],
    before: Print,
    prints: &mut Vec<Fingerprint>,
) -> Result<Print, AllocError> {
    let mut print = followed(before, closed(ts.len() as u64));
    for t in ts {
        print = followed(print, print_type(t, prints)?);
    }
    Ok(print)
}

#[cycle(prints)]
fn print_labels(
    ls: &[(Name, Ty)],
    before: Print,
    prints: &mut Vec<Fingerprint>,
) -> Result<Print, AllocError> {
    let mut print = followed(before, closed(ls.len() as u64));
    for l in ls {
        let field = print_type(&l.1, prints)?;
        print = followed(followed(print, closed(u64::from(l.0.0))), field);
    }
    Ok(print)
}

#[cycle(prints)]
#[tactic(auto, using(crate::proofs::Rows::size_bounds_item))]
fn print_bounds(bs: &[Bound], prints: &mut Vec<Fingerprint>) -> Result<Print, AllocError> {
    let mut print = closed(mixed(15, bs.len() as u64));
    for (i, b) in bs.iter().enumerate() {
        let bound = print_bound(b, prints)?;
        print = followed(print, outside(bound, i));
    }
    Ok(print)
}
