// What is told of those who wait.

ghost use Rattle.std.specs.Prelude.{IfOk};
ghost use Rattle.pict_report.specs.Reports.{AreShort};
ghost use Rattle.pict_reference.specs.Plain.{configuration_of};
ghost use Rattle.pict_waits.specs.Ending.{Tells, TellsEnd};

use crate::channels::{Known, name_of, put_channel};
use crate::reasons::{Counted, Sorted, Spot, reason_of};
use crate::standing::Standing;
use crate::waiting::{Waiting, all_wait, waits_among};
use pict_places::Origin;
use pict_show::write_decimal;
use pict_stepper::{End, Run, write_place};
use pict_syntax::{Names, Sources, Span};
use std::alloc::{AllocError, Global};

/// How many servers are told by their names.
const SERVERS: usize = 6;

/// How many bytes of a line are shown.
const SHOWN: usize = 44;

/// What is told of those who wait.
#[derive(Drop)]
pub struct Told {
    /// Who they are, in the order of their stamps.
    pub waits: Vec<Waiting>,
    /// Whether none of them is a message, and one of them receives one message: all wait for messages, and none is left.
    pub all_wait: bool,
    /// Whether somebody waits who isn't a server, and isn't a message at a channel at which others were read.
    pub in_vain: bool,
    /// Lines, each with its end; nothing where nobody waits but for an answer that has come.
    pub text: Vec<u8>,
}

/// What is told of those who wait at the end of a run: readers and calls without an answer, messages that nobody read, messages
/// at channels that were read before, and servers, each with its place and that of its channel. None where something is ready
/// still, or the next step divides by zero. The process of the run has a node for each of `origins`, in this order. The only error
/// is want of memory.
pub fn who_waits(
    alloc: Global,
    names: &Names,
    sources: &Sources,
    origins: &[Origin],
    run: &Run,
) -> Result<Option<Told>, AllocError>
    requires short { AreShort sources.now.list.items }
    ensures told { IfOk result (TellsEnd run.now.end (configuration_of run.now.last).entries) }
{
    match run.end {
        End::Finished => Ok(Some(tell(alloc, names, sources, origins, run)?)),
        End::Trap(_) => Ok(None),
        End::GoesOn => Ok(None),
    }
}

/// What is told of a run that has ended.
fn tell(
    alloc: Global,
    names: &Names,
    sources: &Sources,
    origins: &[Origin],
    run: &Run,
) -> Result<Told, AllocError>
    requires short { AreShort sources.now.list.items }
    ensures { IfOk result (Tells (configuration_of run.now.last).entries) }
{
    let waits = waits_among(alloc, run.last.entries())?;
    let all = all_wait(&waits);
    let standing = Standing::after(alloc, &run.steps)?;
    let known = Known {
        names,
        sources,
        origins,
        standing: &standing,
    };
    let sorted = sort(alloc, &known, &waits)?;
    let text = text_of(alloc, &known, &sorted, all)?;
    Ok(Told {
        waits,
        all_wait: all,
        in_vain: sorted.is_some_in_vain(),
        text,
    })
}

/// Those who wait, by why.
fn sort(alloc: Global, known: &Known<'_>, waits: &[Waiting]) -> Result<Sorted, AllocError> {
    let mut sorted = Sorted::new(alloc);
    for waiting in waits {
        add(&mut sorted, known, *waiting)?;
    }
    Ok(sorted)
}

/// One more who waits.
fn add(sorted: &mut Sorted, known: &Known<'_>, waiting: Waiting) -> Result<(), AllocError> {
    let Some(node) = known.standing.at(waiting.stamp) else {
        return Ok(());
    };
    let Some(origin) = known.origins.get(node) else {
        return Ok(());
    };
    let channel = waiting.channel;
    let why = reason_of(waiting.kind, origin.form, known.standing.was_read(channel));
    sorted.add(why, Spot { node, channel })
}

/// What is told of all of them, who all wait for messages, of which none is left, or not.
fn text_of(
    alloc: Global,
    known: &Known<'_>,
    sorted: &Sorted,
    all: bool,
) -> Result<Vec<u8>, AllocError>
    requires short { AreShort known.now.sources.now.list.items }
{
    let mut out = Vec::new(alloc);
    put_readers(&mut out, known, sorted, all)?;
    put_messages(&mut out, known, sorted)?;
    put_servers(&mut out, known, &sorted.servers)?;
    Ok(out)
}

/// Writes who waits for a message.
fn put_readers(
    out: &mut Vec<u8>,
    known: &Known<'_>,
    sorted: &Sorted,
    all: bool,
) -> Result<(), AllocError>
    requires short { AreShort known.now.sources.now.list.items }
{
    if sorted.readers.is_empty() && sorted.answers.is_empty() {
        return Ok(());
    }
    out.extend_from_slice(if all {
        b"All wait for messages, and none is left; a deadlock, if these aren't meant to wait:\n"
    } else {
        b"These wait for ever for a message; a deadlock, if they aren't meant to:\n"
    })?;
    put_answers(out, known, &sorted.answers)?;
    put_lines(out, known, &sorted.readers)
}

/// Writes which messages wait.
fn put_messages(out: &mut Vec<u8>, known: &Known<'_>, sorted: &Sorted) -> Result<(), AllocError>
    requires short { AreShort known.now.sources.now.list.items }
{
    if !sorted.unread.is_empty() {
        out.extend_from_slice(
            b"These messages were never received, and nobody ever read there:\n",
        )?;
        put_lines(out, known, &sorted.unread)?;
    }
    if !sorted.states.is_empty() {
        out.extend_from_slice(
            b"Left on channels that were read before, as a state or a lock that is free:\n",
        )?;
        put_lines(out, known, &sorted.states)?;
    }
    Ok(())
}

/// Writes a line for each spot, with its channel.
fn put_lines(out: &mut Vec<u8>, known: &Known<'_>, counted: &Counted) -> Result<(), AllocError>
    requires short { AreShort known.now.sources.now.list.items }
{
    for (spot, count) in counted {
        if let Some(origin) = known.origins.get(spot.node) {
            put_spot(out, known.sources, origin.span)?;
            out.extend_from_slice(b", on ")?;
            put_channel(out, known, spot.channel)?;
            put_times(out, *count)?;
        }
    }
    Ok(())
}

/// Writes a line for each value that is waited for.
fn put_answers(out: &mut Vec<u8>, known: &Known<'_>, counted: &Counted) -> Result<(), AllocError>
    requires short { AreShort known.now.sources.now.list.items }
{
    for (spot, count) in counted {
        if let Some(origin) = known.origins.get(spot.node) {
            put_spot(out, known.sources, origin.span)?;
            out.extend_from_slice(b", whose answer never came")?;
            put_times(out, *count)?;
        }
    }
    Ok(())
}

/// Writes the beginning of a line: what stands at a place, and the place.
fn put_spot(out: &mut Vec<u8>, sources: &Sources, span: Span) -> Result<(), AllocError>
    requires short { AreShort sources.now.list.items }
{
    out.extend_from_slice(b"  `")?;
    put_excerpt(out, sources, span)?;
    out.extend_from_slice(b"` at ")?;
    write_place(out, sources, span)
}

/// Writes what stands at a place, as far as its first line goes and isn't long, with `?` for a byte that isn't printable ASCII.
fn put_excerpt(out: &mut Vec<u8>, sources: &Sources, span: Span) -> Result<(), AllocError> {
    let Some(source) = sources.list.get(span.text as usize) else {
        return Ok(());
    };
    let text = source.text.slice();
    let part = text
        .get(span.start as usize..span.end as usize)
        .unwrap_or(b"");
    for (index, byte) in part.iter().enumerate() {
        if *byte == b'\n' {
            return Ok(());
        }
        if index == SHOWN {
            return out.extend_from_slice(b"..");
        }
        out.push(shown(*byte))?;
    }
    Ok(())
}

/// How a byte is shown.
fn shown(byte: u8) -> u8 {
    if matches!(byte, 32..=126) { byte } else { b'?' }
}

/// Writes the end of a line: how often it is to be read.
fn put_times(out: &mut Vec<u8>, count: u64) -> Result<(), AllocError> {
    if count > 1 {
        out.extend_from_slice(b" (")?;
        write_decimal(out, count)?;
        out.extend_from_slice(b" times)")?;
    }
    out.push(b'\n')?;
    Ok(())
}

/// Writes how many servers wait, and the names of some.
fn put_servers(out: &mut Vec<u8>, known: &Known<'_>, servers: &Counted) -> Result<(), AllocError> {
    let mut count: u64 = 0;
    for (_, times) in servers {
        count = count.saturating_add(*times);
    }
    if count == 0 {
        return Ok(());
    }
    write_decimal(out, count)?;
    out.extend_from_slice(if count == 1 { b" server" } else { b" servers" })?;
    put_names(out, known, servers)?;
    out.extend_from_slice(if count == 1 {
        b" waits for more.\n"
    } else {
        b" wait for more.\n"
    })
}

/// Writes the names of some servers.
fn put_names(out: &mut Vec<u8>, known: &Known<'_>, servers: &Counted) -> Result<(), AllocError> {
    let mut shown = 0;
    for (spot, _) in servers {
        if shown < SERVERS {
            if let Some(name) = name_of(known, spot.channel) {
                out.extend_from_slice(if shown == 0 { b", as " } else { b", " })?;
                out.extend_from_slice(name)?;
                shown += 1;
            }
        }
    }
    if shown > 0 {
        out.push(b',')?;
    }
    Ok(())
}
