// Types in the language's own syntax.

use crate::known::Known;
use crate::said::{Part, said};
use itoa::Buffer;
use pict_syntax::{Mark, Name, Names};
use pict_types::{Bound, Cap, Record, Ty};
use std::alloc::{AllocError, Global};

/// How long the text of a type may be. What lies deeper than fits is written as two dots.
const LONGEST: usize = 60;

/// How deep a type is written at most.
const DEEPEST: u32 = 8;

/// How many pairs of nodes are compared at most to say a type by definitions.
const MOST_PAIRS: u32 = 100_000;

/// The names of variables that a type binds itself, by their level.
const OWN: [u8; 6] = *b"XYZUVW";

/// What types are written by: the names of a text, and what is known at the place.
#[derive(Clone, Copy)]
pub struct Speech<'a> {
    pub names: &'a Names,
    pub known: &'a Known,
}

/// Writes the name of the variable that a type binds at this level, the outermost at 0.
fn put_own(out: &mut Vec<u8>, level: usize) -> Result<(), AllocError> {
    out.push(OWN[level % 6])?;
    if level >= 6 {
        let mut buffer = Buffer::new();
        out.extend_from_slice(buffer.format(level / 6).as_bytes())?;
    }
    Ok(())
}

/// Writes the name of variable `i` at a part under so many binders of its type.
fn put_variable(
    out: &mut Vec<u8>,
    speech: Speech<'_>,
    i: usize,
    under: usize,
) -> Result<(), AllocError> {
    if i < under {
        return put_own(out, under - 1 - i);
    }
    match speech.known.variables.get(i - under) {
        None => out.extend_from_slice(b".."),
        Some(variable) => {
            out.extend_from_slice(speech.names.text(variable.name))?;
            if variable.hidden {
                out.push(b'\'')?;
            }
            Ok(())
        }
    }
}

/// Writes the kind of an operator with these marks.
fn put_kind(out: &mut Vec<u8>, marks: &[Mark]) -> Result<(), AllocError> {
    out.push(b'(')?;
    for mark in marks {
        match mark {
            Mark::Plain => out.extend_from_slice(b"Type ")?,
            Mark::Plus => out.extend_from_slice(b"+Type ")?,
            Mark::Minus => out.extend_from_slice(b"-Type ")?,
        }
    }
    out.extend_from_slice(b"-> Type)")
}

/// The sign before the type of a channel's messages.
pub fn sign_of(cap: Cap) -> u8 {
    match cap {
        Cap::Both => b'^',
        Cap::Read => b'?',
        Cap::Write => b'!',
        Cap::Respond => b'/',
    }
}

/// Writes a type down to this depth, unless the text is too long already.
#[cycle(put)]
fn put_type(
    alloc: Global,
    out: &mut Vec<u8>,
    speech: Speech<'_>,
    part: Part<'_>,
    deep: u32,
    left: &mut u32,
) -> Result<(), AllocError> {
    if out.len() > LONGEST {
        return Ok(());
    }
    match part.of {
        Ty::Top => out.extend_from_slice(b"Top"),
        Ty::Int => out.extend_from_slice(b"Int"),
        Ty::Char => out.extend_from_slice(b"Char"),
        Ty::Str => out.extend_from_slice(b"String"),
        Ty::Bool => out.extend_from_slice(b"Bool"),
        Ty::Var(i) => put_variable(out, speech, *i as usize, part.under),
        Ty::Apply(..) | Ty::Chan(..) | Ty::Fields(_) | Ty::Rec(_) => {
            if deep == 0 {
                return out.extend_from_slice(b"..");
            }
            match said(alloc, speech.known, part, left)? {
                None => put_form(alloc, out, speech, part, deep - 1, left),
                Some((name, arguments)) => {
                    put_said(alloc, out, speech, name, &arguments, deep - 1, left)
                }
            }
        }
    }
}

/// Writes a definition's name, in brackets with its arguments if it has some.
#[cycle(put)]
fn put_said(
    alloc: Global,
    out: &mut Vec<u8>,
    speech: Speech<'_>,
    name: Name,
    arguments: &[Part<'_>],
    deep: u32,
    left: &mut u32,
) -> Result<(), AllocError> {
    if arguments.is_empty() {
        return out.extend_from_slice(speech.names.text(name));
    }
    out.push(b'(')?;
    out.extend_from_slice(speech.names.text(name))?;
    for argument in arguments {
        out.push(b' ')?;
        put_type(alloc, out, speech, *argument, deep, left)?;
    }
    out.push(b')')?;
    Ok(())
}

/// Writes a type that no definition says, and that is no single word.
#[cycle(put)]
fn put_form(
    alloc: Global,
    out: &mut Vec<u8>,
    speech: Speech<'_>,
    part: Part<'_>,
    deep: u32,
    left: &mut u32,
) -> Result<(), AllocError> {
    let under = part.under;
    match part.of {
        Ty::Apply(i, ts) => {
            out.push(b'(')?;
            put_variable(out, speech, *i as usize, under)?;
            for of in ts.iter() {
                out.push(b' ')?;
                put_type(alloc, out, speech, Part { of, under }, deep, left)?;
            }
            out.push(b')')?;
            Ok(())
        }
        Ty::Chan(cap, of) => {
            out.push(sign_of(*cap))?;
            put_type(alloc, out, speech, Part { of, under }, deep, left)
        }
        Ty::Fields(r) => {
            out.push(b'[')?;
            put_record(alloc, out, speech, r, under, deep, left)?;
            out.push(b']')?;
            Ok(())
        }
        Ty::Rec(of) => {
            out.extend_from_slice(b"(rec ")?;
            put_own(out, under)?;
            out.extend_from_slice(b" = ")?;
            let under = under.saturating_add(1);
            put_type(alloc, out, speech, Part { of, under }, deep, left)?;
            out.push(b')')?;
            Ok(())
        }
        Ty::Top | Ty::Int | Ty::Char | Ty::Str | Ty::Bool | Ty::Var(_) => Ok(()),
    }
}

/// Writes a blank unless nothing stands here yet.
fn put_blank(out: &mut Vec<u8>, first: &mut bool) -> Result<(), AllocError> {
    if !*first {
        out.push(b' ')?;
    }
    *first = false;
    Ok(())
}

/// Writes what stands between a record's brackets.
#[cycle(put)]
fn put_record(
    alloc: Global,
    out: &mut Vec<u8>,
    speech: Speech<'_>,
    r: &Record,
    under: usize,
    deep: u32,
    left: &mut u32,
) -> Result<(), AllocError> {
    let mut first = true;
    for (i, bound) in r.binders.iter().enumerate() {
        put_blank(out, &mut first)?;
        out.push(b'#')?;
        let under = under.saturating_add(i);
        put_own(out, under)?;
        match bound {
            Bound::Free => {}
            Bound::Below(of) => {
                out.push(b'<')?;
                put_type(alloc, out, speech, Part { of, under }, deep, left)?;
            }
            Bound::Operator(marks) => {
                out.push(b':')?;
                put_kind(out, marks)?;
            }
        }
    }
    let under = under.saturating_add(r.binders.len());
    for of in &r.positional {
        put_blank(out, &mut first)?;
        put_type(alloc, out, speech, Part { of, under }, deep, left)?;
    }
    for field in &r.labelled {
        put_blank(out, &mut first)?;
        out.extend_from_slice(speech.names.text(field.0))?;
        out.push(b'=')?;
        let of = &field.1;
        put_type(alloc, out, speech, Part { of, under }, deep, left)?;
    }
    Ok(())
}

/// The text of a type: as deep as `LONGEST` bytes allow, and said by definitions where it may be. The only error is want of memory.
pub fn text_of(alloc: Global, speech: Speech<'_>, part: Part<'_>) -> Result<Vec<u8>, AllocError> {
    let mut left = MOST_PAIRS;
    for back in 0..DEEPEST {
        let mut out = Vec::new(alloc);
        put_type(alloc, &mut out, speech, part, DEEPEST - back, &mut left)?;
        if out.len() <= LONGEST {
            return Ok(out);
        }
    }
    let mut out = Vec::new(alloc);
    put_type(alloc, &mut out, speech, part, 0, &mut left)?;
    Ok(out)
}
