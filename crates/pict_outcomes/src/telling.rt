// What is told of an exploration.

ghost use Rattle.pict_report.specs.Reports.{AreShort};

use crate::outcome::Outcome;
use crate::waiting::{Waiter, waiters};
use pict_orders::{Exploration, Extent, Found};
use pict_shared::Held;
use pict_show::{write_decimal, write_quoted};
use pict_stepper::{write_place, write_place_of, write_process};
use pict_syntax::{Names, Sources};
use std::alloc::{AllocError, Global};

// Writes how many there are of something, and what.
fn write_count(out: &mut Vec<u8>, count: u64, what: &[u8]) -> Result<(), AllocError> {
    write_decimal(out, count)?;
    out.push(b' ')?;
    out.extend_from_slice(what)?;
    if count != 1 {
        out.push(b's')?;
    }
    Ok(())
}

// How many reductions lead from the vertices.
fn reductions_of(exploration: &Exploration) -> u64 {
    let mut count = 0u64;
    for found in &exploration.found {
        for ready in 0..found.state.ready_count() {
            let partners = found.state.partner_count(ready).max(1);
            count = count.saturating_add(partners as u64);
        }
    }
    count.saturating_sub(exploration.traps.len() as u64)
}

/// Writes how many configurations and reductions there are, and whether these are all. The only error is want of memory.
pub fn write_counts(out: &mut Vec<u8>, exploration: &Exploration) -> Result<(), AllocError> {
    write_count(out, exploration.found.len() as u64, b"configuration")?;
    out.extend_from_slice(b", ")?;
    write_count(out, reductions_of(exploration), b"reduction")?;
    match exploration.extent {
        Extent::All => out.extend_from_slice(b", all orders"),
        Extent::Limit => { out.extend_from_slice(b"; there are more, and outcomes may be missing") }
        Extent::NoRoom => out.extend_from_slice(
            b"; the numbers of channels or stamps are used up, and outcomes may be missing",
        ),
    }
}

// Writes what was printed.
fn write_printed(out: &mut Vec<u8>, bytes: &[u8]) -> Result<(), AllocError> {
    if bytes.is_empty() {
        return out.extend_from_slice(b"prints nothing\n");
    }
    out.extend_from_slice(b"prints ")?;
    write_quoted(out, b'"', bytes)?;
    out.push(b'\n')?;
    Ok(())
}

// Writes the stamps of those at these places, with commas between them.
fn write_stamps(out: &mut Vec<u8>, entries: &[Held], places: &[usize]) -> Result<(), AllocError> {
    for (count, place) in places.iter().enumerate() {
        if count > 0 {
            out.extend_from_slice(b", ")?;
        }
        if let Some(entry) = entries.get(*place) {
            write_decimal(out, entry.stamp)?;
        }
    }
    Ok(())
}

// Writes one who waits: its stamp, its form and place, and for whom it waits.
fn write_waiter(
    alloc: Global,
    out: &mut Vec<u8>,
    names: &Names,
    sources: &Sources,
    entries: &[Held],
    waiter: &Waiter,
) -> Result<(), AllocError>
    requires short { AreShort sources.now.list.items }
{
    let Some(entry) = entries.get(waiter.index) else {
        return Ok(());
    };
    out.extend_from_slice(b"   ")?;
    write_decimal(out, entry.stamp)?;
    out.extend_from_slice(b"  ")?;
    write_process(alloc, out, names, &entry.process.core)?;
    out.extend_from_slice(b"  ")?;
    write_place_of(out, sources, &entry.process.core)?;
    if !waiter.others.is_empty() {
        out.extend_from_slice(b"  waits for ")?;
        write_stamps(out, entries, &waiter.others)?;
    }
    out.push(b'\n')?;
    Ok(())
}

// The places of those that are stuck.
fn stuck(alloc: Global, waiters: &[Waiter]) -> Result<Vec<usize>, AllocError> {
    let mut places = Vec::new(alloc);
    for waiter in waiters {
        if waiter.is_stuck {
            places.push(waiter.index)?;
        }
    }
    Ok(places)
}

// Writes how it ends: in a deadlock, or not, and whether anybody waits.
fn write_ending(
    alloc: Global,
    out: &mut Vec<u8>,
    entries: &[Held],
    waiters: &[Waiter],
) -> Result<(), AllocError> {
    let places = stuck(alloc, waiters)?;
    if !places.is_empty() {
        out.extend_from_slice(b" a deadlock of ")?;
        write_stamps(out, entries, &places)?;
        return out.extend_from_slice(b"; these wait:\n");
    }
    if waiters.is_empty() {
        out.extend_from_slice(b" nothing is ready; nobody waits\n")
    } else {
        out.extend_from_slice(b" nothing is ready; these wait:\n")
    }
}

// Writes who waits where nothing can act.
fn write_end(
    alloc: Global,
    out: &mut Vec<u8>,
    names: &Names,
    sources: &Sources,
    found: &Found,
) -> Result<(), AllocError>
    requires short { AreShort sources.now.list.items }
{
    let entries = found.state.entries();
    let all = waiters(alloc, entries, found.state.channels())?;
    write_ending(alloc, out, entries, &all)?;
    for waiter in &all {
        write_waiter(alloc, out, names, sources, entries, waiter)?;
    }
    Ok(())
}

// Writes an outcome.
fn write_outcome(
    alloc: Global,
    out: &mut Vec<u8>,
    names: &Names,
    sources: &Sources,
    found: &Found,
    outcome: Outcome,
) -> Result<(), AllocError>
    requires short { AreShort sources.now.list.items }
{
    write_printed(out, &found.bytes)?;
    out.extend_from_slice(b"   after ")?;
    write_count(out, found.choices.len() as u64, b"step")?;
    match outcome.trap {
        None => write_end(alloc, out, names, sources, found),
        Some(at) => {
            out.extend_from_slice(b" it divides by zero, at ")?;
            write_place(out, sources, at)?;
            out.push(b'\n')?;
            Ok(())
        }
    }
}

/// The exploration and its outcomes, each with its number, from 1 on. The only error is want of memory.
pub fn told(
    alloc: Global,
    names: &Names,
    sources: &Sources,
    exploration: &Exploration,
    outcomes: &[Outcome],
) -> Result<Vec<u8>, AllocError>
    requires short { AreShort sources.now.list.items }
{
    let mut out = Vec::new(alloc);
    write_counts(&mut out, exploration)?;
    out.push(b'\n')?;
    for (index, outcome) in outcomes.iter().enumerate() {
        if let Some(found) = exploration.found.get(outcome.vertex) {
            write_decimal(&mut out, index as u64 + 1)?;
            out.extend_from_slice(b". ")?;
            write_outcome(alloc, &mut out, names, sources, found, *outcome)?;
        }
    }
    if outcomes.is_empty() && exploration.extent == Extent::All {
        out.extend_from_slice(b"no order of its steps comes to an end\n")?;
    }
    Ok(out)
}
