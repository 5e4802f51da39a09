// Programs, their objects, and their runs on sites.

use anyhow::Error;
use pict_outside::{Entry, MemoryShelf, MemorySink, Shelf};
use pict_top::{Status, pict};
use std::alloc::Global;

/// No example prints more bytes, and no object of one has more.
const MOST: u64 = 1_000_000;

/// What a call of the command comes to.
#[derive(Drop)]
struct Outcome {
    status: Status,
    out: MemorySink,
    err: MemorySink,
}

fn answer<S: Shelf>(alloc: Global, words: &[&str], shelf: &mut S) -> Result<Outcome, Error> {
    let mut out = MemorySink::new(alloc, MOST, Vec::new(alloc))?;
    let mut err = MemorySink::new(alloc, MOST, Vec::new(alloc))?;
    let status = pict(alloc, words, shelf, &mut out, &mut err);
    Ok(Outcome { status, out, err })
}

/// A shelf that holds these bytes as `O`.
fn shelf_of(alloc: Global, object: &[u8]) -> Result<MemoryShelf, Error> {
    let mut entries = Vec::new(alloc);
    entries.push(Entry {
        name: b"O".to_vec(alloc)?,
        text: object.to_vec(alloc)?,
    })?;
    Ok(MemoryShelf::new(entries, Vec::new(alloc)))
}

/// The words of the run of an object with this fuel.
fn exec(fuel: &str) -> [&str; 4] {
    ["exec", "--fuel", fuel, "O"]
}

/// Whether the object that `build` writes is run by `exec` as `run` runs the program: with this fuel it comes to the same status,
/// and the same is printed and reported.
pub fn is_alike<S: Shelf>(
    alloc: Global,
    shelf: &mut S,
    run: &[&str],
    build: &[&str],
    fuel: &str,
) -> Result<bool, Error> {
    let ran = answer(alloc, run, shelf)?;
    let built = answer(alloc, build, shelf)?;
    let mut objects = shelf_of(alloc, built.out.taken())?;
    let executed = answer(alloc, &exec(fuel), &mut objects)?;
    Ok(
        built.status == Status::Done
            && executed.status == ran.status
            && executed.out.taken() == ran.out.taken()
            && executed.err.taken() == ran.err.taken(),
    )
}

/// Whether two commands come to the same status, and the same is printed and reported.
pub fn is_same<S: Shelf>(
    alloc: Global,
    shelf: &mut S,
    words: &[&str],
    others: &[&str],
) -> Result<bool, Error> {
    let one = answer(alloc, words, shelf)?;
    let other = answer(alloc, others, shelf)?;
    Ok(
        one.status == other.status
            && one.out.taken() == other.out.taken()
            && one.err.taken() == other.err.taken(),
    )
}

/// Whether a command ends as a run does of which no step is wrong: nothing is possible any more, the fuel is spent, or a step
/// divides by zero.
pub fn is_right<S: Shelf>(alloc: Global, shelf: &mut S, words: &[&str]) -> Result<bool, Error> {
    let ran = answer(alloc, words, shelf)?;
    Ok(match ran.status {
        Status::Done => true,
        Status::FuelSpent => true,
        Status::Trap => true,
        _ => false,
    })
}
