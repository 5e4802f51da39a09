// Mutants of objects: bytes that differ from an object in a few places.

ghost use Rattle.std.specs.Prelude.{◌≤◌, length};

use crate::deep::{FORMS, bytes_of, limit};
use crate::verdict::{Verdict, tried};
use anyhow::Error;
use pict_seed::Chooser;
use std::alloc::{AllocError, Global};

// Bytes with which parts begin.
const TAGS: [u8; 18] = [
    0, 1, 2, 3, 4, 5, 6, 0x10, 0x11, 0x12, 0x13, 0x14, 0x15, 0x16, 0x17, 0x20, 0x21, 0x22,
];

// A deep object is mutated once in so many times.
const ONE_DEEP_IN: u64 = 100;

/// The object of `run print!"hello"`.
pub const HELLO: &[u8] = b"PICT\x01\0\0\0\0\x01\x03\x16\0\x15\0\0\0\x05hello\0";

/// An object with two labels in a record and in a record pattern: docs/OBJECTS.md takes it apart.
pub const LETTER: [u8; 104] = [
    0x50, 0x49, 0x43, 0x54, 1, 0, 0, 0, 2, 0, 0, 0, 3, 0x61, 0x67, 0x65, 0, 0, 0, 4, 0x6e, 0x61,
    0x6d, 0x65, 2, 1, 3, 0x10, 0, 0, 0, 0, 0x17, 0, 0, 0, 0, 0, 0, 0, 2, 0, 0, 0, 0, 0x11, 0, 0, 0,
    0, 0, 0, 0, 0x1e, 0, 0, 0, 1, 0x15, 0, 0, 0, 3, 0x61, 0x6e, 0x6e, 1, 5, 0x10, 0, 0, 0, 0, 0x22,
    0, 0, 0, 0, 0, 0, 0, 2, 0, 0, 0, 0, 0x20, 0, 0, 0, 1, 0x21, 6, 0x14, 3, 0x16, 1, 0x10, 0, 0, 0,
    1, 0, 0,
];

/// The objects that are mutated: small ones, and processes and records at their limits.
#[derive(Drop)]
struct Stock {
    small: Vec<Vec<u8>>,
    deep: Vec<Vec<u8>>,
}

fn all_objects(alloc: Global) -> Result<Stock, AllocError> {
    let mut small = Vec::new(alloc);
    let mut deep = Vec::new(alloc);
    small.push(Vec::from_slice(alloc, HELLO)?)?;
    small.push(Vec::from_slice(alloc, &LETTER)?)?;
    for form in &FORMS {
        small.push(bytes_of(alloc, form, 4)?)?;
        deep.push(bytes_of(alloc, form, limit(form))?)?;
    }
    Ok(Stock { small, deep })
}

/// One of these; no bytes where there is none.
fn one_of<'a>(chooser: &mut Chooser, objects: &'a [Vec<u8>]) -> &'a [u8] {
    if objects.is_empty() {
        return &[];
    }
    let at = chooser.choose(objects.len() as u64) as usize;
    &objects[at]
}

/// A place in bytes, from before the first to behind the last.
fn place_in(chooser: &mut Chooser, bytes: &[u8]) -> usize
    ensures { result ≤ length bytes.now }
{
    chooser.choose(bytes.len() as u64 + 1) as usize
}

/// A piece of bytes, of at most 32.
fn piece_of<'a>(chooser: &mut Chooser, bytes: &'a [u8]) -> &'a [u8] {
    let from = place_in(chooser, bytes);
    let rest = &bytes[from..];
    let len = (chooser.choose(33) as usize).min(rest.len());
    &rest[..len]
}

/// These bytes with a piece in the place of so many at a place.
fn replaced(
    alloc: Global,
    bytes: &[u8],
    at: usize,
    width: usize,
    piece: &[u8],
) -> Result<Vec<u8>, AllocError>
    requires { at ≤ length bytes.now }
{
    let (front, rest) = bytes.split_at(at);
    let mut made = Vec::from_slice(alloc, front)?;
    made.extend_from_slice(piece)?;
    made.extend_from_slice(&rest[width.min(rest.len())..])?;
    Ok(made)
}

/// These bytes with a change at one place: another byte there, or one with which a part begins; one more, or one fewer; a count; a
/// piece of an object; or the end.
fn changed(
    alloc: Global,
    chooser: &mut Chooser,
    bytes: &[u8],
    other: &[u8],
) -> Result<Vec<u8>, AllocError> {
    let at = place_in(chooser, bytes);
    let any = [chooser.choose(256) as u8];
    let tag = [TAGS[chooser.choose(18) as usize]];
    match chooser.choose(9) {
        0 => replaced(alloc, bytes, at, 1, &any),
        1 => replaced(alloc, bytes, at, 1, &tag),
        2 => replaced(alloc, bytes, at, 0, &tag),
        3 => replaced(alloc, bytes, at, 1, &[]),
        4 => replaced(alloc, bytes, at, 4, &[0xff, 0xff, 0xff, 0xff]),
        5 => replaced(alloc, bytes, at, 4, &[0, 0, 0, any[0] % 4]),
        6 => replaced(alloc, bytes, at, 0, piece_of(chooser, other)),
        7 => replaced(alloc, bytes, at, 8, piece_of(chooser, other)),
        _ => replaced(alloc, bytes, at, usize::MAX, &[]),
    }
}

/// An object with one to four changes.
fn mutant(alloc: Global, chooser: &mut Chooser, stock: &Stock) -> Result<Vec<u8>, AllocError> {
    let object = if chooser.choose(ONE_DEEP_IN) == 0 {
        one_of(chooser, &stock.deep)
    } else {
        one_of(chooser, &stock.small)
    };
    let mut bytes = Vec::from_slice(alloc, object)?;
    for _ in 0..chooser.choose(4) + 1 {
        let other = one_of(chooser, &stock.small);
        bytes = changed(alloc, chooser, &bytes, other)?;
    }
    Ok(bytes)
}

/// How many mutants were what.
#[derive(Drop)]
struct Counts {
    objects: u64,
    refused: u64,
    others: u64,
    untried: u64,
}

fn count(counts: &mut Counts, verdict: Verdict) {
    match verdict {
        Verdict::Object => counts.objects = counts.objects.saturating_add(1),
        Verdict::Refused => counts.refused = counts.refused.saturating_add(1),
        Verdict::Another => counts.others = counts.others.saturating_add(1),
        Verdict::Untried => counts.untried = counts.untried.saturating_add(1),
    }
}

const NONE: Counts = Counts {
    objects: 0,
    refused: 0,
    others: 0,
    untried: 0,
};

/// Prints how many of these bytes were what.
fn print(rt: &HostRuntime, these: &str, counts: &Counts) -> Result<(), Error> {
    let Counts {
        objects,
        refused,
        others,
        untried,
    } = counts;
    println!(rt;
        "{these}: {objects} objects, {refused} refused, {others} written otherwise, {untried} untried"
    )?;
    Ok(())
}

/// Prints what so many mutants that a seed begins are.
pub fn measure(rt: &HostRuntime, seed: u64, many: u64) -> Result<(), Error> {
    let stock = all_objects(rt.alloc())?;
    let mut chooser = Chooser::new(seed);
    let mut counts = NONE;
    for _ in 0..many {
        let bytes = mutant(rt.alloc(), &mut chooser, &stock)?;
        count(&mut counts, tried(rt.alloc(), &bytes));
    }
    let these = format!(in rt.alloc(); "seed {seed}")?;
    print(rt, these.as_str(), &counts)
}

/// Prints what the bytes of an object are with one byte replaced by another, each by each.
pub fn measure_bytes(rt: &HostRuntime, name: &str, object: &[u8]) -> Result<(), Error> {
    let mut counts = NONE;
    for at in 0..object.len() {
        for byte in 0..=255u8 {
            if byte != object[at] {
                let bytes = replaced(rt.alloc(), object, at, 1, &[byte])?;
                count(&mut counts, tried(rt.alloc(), &bytes));
            }
        }
    }
    let these = format!(in rt.alloc(); "{name} with another byte")?;
    print(rt, these.as_str(), &counts)
}
