//! Tells all that a small program can do, whichever ready process acts next: each outcome, which is what it prints with who waits
//! where nothing is ready any more, or with the place where it divides by zero.
//!
//! Its words are files, each told by itself. Before a file may stand options, which hold for it and for those behind it: `--bare` where
//! it stands alone, without the prelude; `--limit` and how many configurations are found at most; and `--way` and the number of an
//! outcome of those that are told: then it writes, in place of all that it tells, a replay file of a way there, to which `pict replay`
//! answers `yes`. With `--dot`, `--svg` or `--aut` it writes in its place the graph of the configurations, for Graphviz, as a picture
//! where it is small, or in the Aldebaran format; `--mark` and the number of an outcome marks a way there in the first two. A text that
//! is refused, or cannot be read, is reported as `pict check` reports it, and ends the work with its status.
#![tactic(auto)]

mod asked;

ghost use Rattle.pict_core.specs.Closed.{IsClosed};
ghost use Rattle.pict_core.specs.Plain.{plain_core};
ghost use Rattle.pict_report.specs.Reports.{AreShort};

use anyhow::Error;
use asked::{Asked, Wanted, are_asked_well, options_before};
use pict_core::Core;
use pict_front::{Front, front};
use pict_orders::{Exploration, Extent, Found, explore};
use pict_outcomes::{
    Graph, MOST_CONFIGURATIONS, MOST_REDUCTIONS, Marks, Outcome, aut, edges, marked_dot, marks_of,
    outcomes, svg, told, vertex_of,
};
use pict_outside::{FolderShelf, StreamSink};
use pict_report::prelude;
use pict_syntax::{Names, Sources};
use pict_top::{Status, pict};
use pict_way::way;
use std::env;
use std::io::Write;
use std::process::ExitCode;

/// Does what the words ask of `pict`.
fn do_plainly(rt: &HostRuntime, words: &[&str]) -> Status {
    let mut shelf = FolderShelf::new(rt);
    let mut out = StreamSink::new(rt.stdout());
    let mut err = StreamSink::new(rt.stderr());
    pict(rt.alloc(), words, &mut shelf, &mut out, &mut err)
}

/// Reports why a file is refused.
fn report(rt: &HostRuntime, file: &str, bare: bool) -> Status {
    if bare {
        do_plainly(rt, &["check", "--bare", file])
    } else {
        do_plainly(rt, &["check", file])
    }
}

/// Says that there is no such outcome.
fn no_outcome(rt: &HostRuntime) -> Result<Status, Error> {
    rt.stderr()
        .write_all(b"explore: there is no outcome of this number\n")?;
    Ok(Status::Usage)
}

/// Writes a replay file of a way to an outcome.
fn tell_way(
    rt: &HostRuntime,
    names: &Names,
    process: Core,
    found: Option<&Found>,
) -> Result<Status, Error>
    requires closed { IsClosed (plain_core process) }
{
    let Some(found) = found else {
        return no_outcome(rt);
    };
    match way(rt.alloc(), names, process, &found.choices)? {
        Some(text) => {
            rt.stdout().write_all(&text)?;
            Ok(Status::Done)
        }
        None => {
            rt.stderr().write_all(b"explore: the numbers of channels or stamps are used up\n")?;
            Ok(Status::Memory)
        }
    }
}

/// Writes the picture of a graph, if it is small.
fn draw_small(
    rt: &HostRuntime,
    names: &Names,
    sources: &Sources,
    graph: &Graph,
    outcomes: &[Outcome],
    marks: &Marks,
    mark: Option<usize>,
) -> Result<Status, Error>
    requires short { AreShort sources.now.list.items }
{
    if graph.exploration.found.len() > MOST_CONFIGURATIONS || graph.edges.len() > MOST_REDUCTIONS {
        rt.stderr().write_all(
            b"explore: the graph is too large for a picture; --dot writes it for Graphviz\n",
        )?;
        return Ok(Status::Refused);
    }
    let marked = match mark {
        None => None,
        Some(number) => Some(number as u64),
    };
    let text = svg(rt.alloc(), names, sources, graph, outcomes, marks, marked)?;
    rt.stdout().write_all(&text)?;
    Ok(Status::Done)
}

/// Draws the graph of what is found.
fn draw(
    rt: &HostRuntime,
    names: &Names,
    sources: &Sources,
    exploration: &Exploration,
    outcomes: &[Outcome],
    asked: Asked,
) -> Result<Status, Error>
    requires short { AreShort sources.now.list.items }
{
    let end = match asked.mark {
        None => None,
        Some(number) => vertex_of(exploration, outcomes, number),
    };
    if asked.mark.is_some() && end.is_none() {
        return no_outcome(rt);
    }
    if exploration.extent != Extent::All {
        rt.stderr().write_all(b"explore: there are more configurations, which the graph lacks\n")?;
    }
    let edges = edges(rt.alloc(), exploration)?;
    let graph = Graph {
        exploration,
        edges: &edges,
    };
    let marks = marks_of(rt.alloc(), &exploration.found, &edges, end)?;
    if asked.wanted == Wanted::Svg {
        return draw_small(rt, names, sources, &graph, outcomes, &marks, asked.mark);
    }
    let text = if asked.wanted == Wanted::Dot {
        marked_dot(rt.alloc(), names, &graph, &marks)?
    } else {
        aut(rt.alloc(), exploration, &edges)?
    };
    rt.stdout().write_all(&text)?;
    Ok(Status::Done)
}

/// Tells all outcomes of a program, or the way to one of them, or draws its graph.
fn tell(rt: &HostRuntime, accepted: Front, sources: &Sources, asked: Asked) -> Result<Status, Error>
    requires closed { IsClosed (plain_core accepted.core) }
    requires short { AreShort sources.now.list.items }
{
    let process = accepted.core.copy(rt.alloc())?;
    let exploration = explore(rt.alloc(), accepted.core, asked.limit)?;
    let all = outcomes(rt.alloc(), &exploration)?;
    match asked.wanted {
        Wanted::Outcomes => {
            let text = told(rt.alloc(), &accepted.names, sources, &exploration, &all)?;
            rt.stdout().write_all(&text)?;
            Ok(Status::Done)
        }
        Wanted::Way(number) => {
            let found = vertex_of(&exploration, &all, number);
            tell_way(rt, &accepted.names, process, found)
        }
        _ => draw(rt, &accepted.names, sources, &exploration, &all, asked),
    }
}

/// Tells of a file behind the prelude, or reports why it is refused.
fn tell_behind(rt: &HostRuntime, file: &str, asked: Asked) -> Result<Status, Error> {
    let mut shelf = FolderShelf::new(rt);
    let mut sources = Sources::new(rt.alloc());
    match front(rt.alloc(), Some(prelude()), file, &mut shelf, &mut sources) {
        Ok(accepted) => tell(rt, accepted, &sources, asked),
        Err(_) => Ok(report(rt, file, false)),
    }
}

/// Tells of a file that stands alone, or reports why it is refused.
fn tell_alone(rt: &HostRuntime, file: &str, asked: Asked) -> Result<Status, Error> {
    let mut shelf = FolderShelf::new(rt);
    let mut sources = Sources::new(rt.alloc());
    match front(rt.alloc(), None, file, &mut shelf, &mut sources) {
        Ok(accepted) => tell(rt, accepted, &sources, asked),
        Err(_) => Ok(report(rt, file, true)),
    }
}

fn tell_file(rt: &HostRuntime, file: &str, asked: Asked) -> Result<Status, Error> {
    if asked.bare {
        tell_alone(rt, file, asked)
    } else {
        tell_behind(rt, file, asked)
    }
}

/// Tells of each file, with an empty line between two.
fn tell_files(rt: &HostRuntime, words: &[String]) -> Result<Status, Error> {
    let mut asked = Asked::plain();
    for count in 0..words.len() {
        if let Some(next) = options_before(asked, words) {
            if let Some(file) = words.get(next.words) {
                if count > 0 {
                    println!(rt; "")?;
                }
                match tell_file(rt, file.as_str(), next)? {
                    Status::Done => {}
                    status => return Ok(status),
                }
            }
            asked = next.behind(1);
        }
    }
    Ok(Status::Done)
}

/// Does what the words ask for.
fn run(rt: &HostRuntime) -> Result<Status, Error> {
    let mut words = Vec::new(rt.alloc());
    for word in env::args(rt)?.skip(1) {
        words.push(word)?;
    }
    if are_asked_well(&words) {
        tell_files(rt, &words)
    } else {
        Ok(Status::Usage)
    }
}

fn main(rt: HostRuntime) -> Result<ExitCode, Error> {
    Ok(ExitCode::from(run(&rt)?.number()))
}
