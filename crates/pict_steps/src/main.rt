//! Tells each step of a small run: who acts, by which row of the table of steps, with which partner, and what is shown;
//! and at the end who waits where, by the names and places of channels.
//!
//! Each of its words names a file with a text of the bare language; without a word it reads the standard input. Of each it
//! follows at most 1,000 steps. A text that is refused, or cannot be read, is reported as `pict check` reports it, and ends
//! the work with its status. It stands alone: no text is there that it could import.
#![tactic(auto)]

mod cells;
mod table;
mod telling;

ghost use Rattle.pict_report.specs.Reports.{AreShort};

use anyhow::Error;
use pict_core::Core;
use pict_front::front;
use pict_outside::{Fetched, FolderShelf, Shelf, StreamSink};
use pict_places::{Origin, fits, places_of_file};
use pict_stepper::{Run, follow};
use pict_syntax::{Names, Sources, TEXT_LIMIT};
use pict_top::{OneShelf, Status, pict};
use pict_waits::who_waits;
use std::alloc::{AllocError, Global};
use std::env;
use std::io::Write;
use std::process::ExitCode;
use telling::told;

/// How many steps are followed.
const MOST: usize = 1000;

/// The file that is read where no word names one.
const INPUT: &str = "/dev/stdin";

/// Reports why a file on the shelf has no run, as the command does.
fn report<S: Shelf>(rt: &HostRuntime, file: &str, shelf: &mut S) -> Status {
    let mut out = StreamSink::new(rt.stdout());
    let mut err = StreamSink::new(rt.stderr());
    pict(
        rt.alloc(),
        &["check", "--bare", file],
        shelf,
        &mut out,
        &mut err,
    )
}

/// What the nodes of an accepted file's code come from; none where that isn't known.
fn origins_of<S: Shelf>(
    alloc: Global,
    file: &str,
    shelf: &mut S,
    process: &Core,
) -> Result<Option<Vec<Origin>>, AllocError> {
    let origins = places_of_file(alloc, None, file, shelf)?;
    if fits(alloc, process, &origins)? {
        return Ok(Some(origins));
    }
    Ok(None)
}

/// Who waits at the end of a run, by the names and places of channels; nothing where that isn't known, or where it has no end.
fn left_by(
    alloc: Global,
    names: &Names,
    sources: &Sources,
    origins: &Option<Vec<Origin>>,
    run: &Run,
) -> Result<Vec<u8>, AllocError>
    requires short { AreShort sources.now.list.items }
{
    match origins {
        None => Ok(Vec::new(alloc)),
        Some(origins) => match who_waits(alloc, names, sources, origins, run)? {
            None => Ok(Vec::new(alloc)),
            Some(told) => Ok(told.text),
        },
    }
}

/// Tells the run of a text, or reports why it is refused.
fn tell_text(rt: &HostRuntime, file: &str, text: Vec<u8>) -> Result<Status, Error> {
    let mut shelf = OneShelf::new(rt.alloc(), file, text)?;
    let mut sources = Sources::new(rt.alloc());
    match front(rt.alloc(), None, file, &mut shelf, &mut sources) {
        Err(_) => Ok(report(rt, file, &mut shelf)),
        Ok(front) => {
            let origins = origins_of(rt.alloc(), file, &mut shelf, &front.core)?;
            let run = follow(rt.alloc(), front.core, MOST)?;
            let table = told(rt.alloc(), &front.names, &sources, &run)?;
            let left = left_by(rt.alloc(), &front.names, &sources, &origins, &run)?;
            rt.stdout().write_all(&table)?;
            rt.stdout().write_all(&left)?;
            Ok(Status::Done)
        }
    }
}

/// Tells the run of a file, or reports why it has none.
fn tell_file(rt: &HostRuntime, file: &str) -> Result<Status, Error> {
    let mut shelf = FolderShelf::new(rt);
    match shelf.fetch(rt.alloc(), file, TEXT_LIMIT) {
        Ok(Fetched::Text(text)) => tell_text(rt, file, text),
        _ => Ok(report(rt, file, &mut shelf)),
    }
}

/// Tells the run of each file, with an empty line between two.
fn tell(rt: &HostRuntime) -> Result<Status, Error> {
    let mut told_some = false;
    for file in env::args(rt)?.skip(1) {
        if told_some {
            println!(rt; "")?;
        }
        told_some = true;
        match tell_file(rt, file.as_str())? {
            Status::Done => {}
            status => return Ok(status),
        }
    }
    if told_some {
        return Ok(Status::Done);
    }
    tell_file(rt, INPUT)
}

fn main(rt: HostRuntime) -> Result<ExitCode, Error> {
    Ok(ExitCode::from(tell(&rt)?.number()))
}
