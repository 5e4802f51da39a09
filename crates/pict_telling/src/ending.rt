// What is told of a run: at its end who waits in vain, and what its channels are called.

ghost use Rattle.pict_core.specs.Plain.{plain_core};
ghost use Rattle.pict_core.specs.Closed.{IsClosed};
ghost use Rattle.pict_view.specs.Right.{RunsRight};
ghost use Rattle.pict_report.specs.Reports.{AreShort};

use crate::telling::{prelude_unless, shelf_of};
use pict_front::Front;
use pict_places::{Origin, fits, places_of_file};
use pict_stepper::{End, Run, follow};
use pict_syntax::{Names, Sources};
use pict_waits::{channel_names, who_waits};
use std::alloc::{AllocError, Global};

/// How many steps of a run are followed.
const MOST: usize = 10_000;

/// How many nodes the code of a run that is followed has at most.
const NODES: usize = 5_000;

/// What is told where a run isn't followed to its end.
const TOO_LONG: &[u8] =
    b"Who waits at the end is told of runs of at most 10000 steps, of at most 5000 nodes of code.\n";

/// What the nodes of an accepted file's code come from; none where there are too many.
fn origins_of(
    alloc: Global,
    bare: bool,
    file: &str,
    sources: &Sources,
    front: &Front,
) -> Result<Option<Vec<Origin>>, AllocError> {
    let mut shelf = shelf_of(alloc, sources)?;
    let origins = places_of_file(alloc, prelude_unless(bare), file, &mut shelf)?;
    if origins.len() > NODES || !fits(alloc, &front.core, &origins)? {
        return Ok(None);
    }
    Ok(Some(origins))
}

/// What is told at the end of a run of an accepted file that has ended with nothing ready; nothing where nobody waits in vain. The
/// only error is want of memory.
pub fn told_at_end(
    alloc: Global,
    bare: bool,
    file: &str,
    sources: &Sources,
    front: Front,
) -> Result<Vec<u8>, AllocError>
    requires short { AreShort sources.now.list.items }
    requires closed { IsClosed (plain_core front.core) }
    requires right { RunsRight (plain_core front.core) 10000 }
{
    match origins_of(alloc, bare, file, sources, &front)? {
        None => Vec::from_slice(alloc, TOO_LONG),
        Some(origins) => {
            let run = follow(alloc, front.core, MOST)?;
            in_vain(alloc, &front.names, sources, &origins, &run)
        }
    }
}

/// What is told of those who wait in vain at the end of a run.
fn in_vain(
    alloc: Global,
    names: &Names,
    sources: &Sources,
    origins: &[Origin],
    run: &Run,
) -> Result<Vec<u8>, AllocError>
    requires short { AreShort sources.now.list.items }
{
    match who_waits(alloc, names, sources, origins, run)? {
        None => of_no_end(alloc, run.end),
        Some(told) => {
            if told.in_vain {
                Ok(told.text)
            } else {
                Ok(Vec::new(alloc))
            }
        }
    }
}

/// What is told where something is ready still, or the next step divides by zero.
fn of_no_end(alloc: Global, end: End) -> Result<Vec<u8>, AllocError> {
    match end {
        End::GoesOn => Vec::from_slice(alloc, TOO_LONG),
        End::Finished | End::Trap(_) => Ok(Vec::new(alloc)),
    }
}

/// What the channels are called that the first steps of an accepted file's run make; nothing where its code has too many nodes.
/// The only error is want of memory.
pub fn told_channels(
    alloc: Global,
    bare: bool,
    file: &str,
    sources: &Sources,
    front: Front,
) -> Result<Vec<u8>, AllocError>
    requires short { AreShort sources.now.list.items }
    requires closed { IsClosed (plain_core front.core) }
    requires right { RunsRight (plain_core front.core) 10000 }
{
    match origins_of(alloc, bare, file, sources, &front)? {
        None => Ok(Vec::new(alloc)),
        Some(origins) => {
            let run = follow(alloc, front.core, MOST)?;
            channel_names(alloc, &front.names, sources, &origins, &run)
        }
    }
}
