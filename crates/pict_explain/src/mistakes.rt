// Texts with usual mistakes, and what is told of each; and runs, and what is told of these.

use crate::certain::told_certain;
use anyhow::Error;
use pict_front::FrontError;
use pict_outside::{Fetched, FolderShelf, Shelf, StreamSink};
use pict_syntax::{Sources, TEXT_LIMIT};
use pict_telling::{phases, told_at_end, told_channels, told_of_refusal};
use pict_top::{OneShelf, Status, pict};
use std::io::Write;
use std::str::from_utf8;

/// The word behind a name whose text stands behind the prelude.
const PRELUDE: &str = " prelude";

/// The word behind a name whose text is run alone, to tell who waits in vain at its end.
const RUN: &str = " run";

/// The word behind a name whose text is run alone, to tell what its channels are called.
const CHANNELS: &str = " channels";

/// Tells of a text what is reported and told of it, on the standard output.
fn tell_text(rt: &HostRuntime, name: &str, text: &[u8], bare: bool) -> Result<(), Error> {
    let text = Vec::from_slice(rt.alloc(), text)?;
    let mut shelf = OneShelf::new(rt.alloc(), name, text)?;
    let mut out = StreamSink::new(rt.stdout());
    let mut err = StreamSink::new(rt.stdout());
    let status = if bare {
        pict(
            rt.alloc(),
            &["check", "--bare", name],
            &mut shelf,
            &mut out,
            &mut err,
        )
    } else {
        pict(rt.alloc(), &["check", name], &mut shelf, &mut out, &mut err)
    };
    match status {
        Status::Refused => {
            let mut sources = Sources::new(rt.alloc());
            if let Err(FrontError::Named(code, place)) = phases(
                rt.alloc(),
                bare,
                name,
                &mut shelf,
                &mut sources,
            ) {
                let more = told_of_refusal(rt.alloc(), bare, name, &sources, code, place)?;
                rt.stdout().write_all(&more)?;
            }
        }
        _ => {
            println!(rt; "{name}: accepted")?;
            let more = told_certain(rt.alloc(), bare, name, &mut shelf)?;
            rt.stdout().write_all(&more)?;
        }
    }
    Ok(())
}

/// Tells of the run of a text that stands alone who waits in vain at its end, or what its channels are called, on the standard output.
fn tell_run(rt: &HostRuntime, name: &str, text: &[u8], channels: bool) -> Result<(), Error> {
    let text = Vec::from_slice(rt.alloc(), text)?;
    let mut shelf = OneShelf::new(rt.alloc(), name, text)?;
    let mut sources = Sources::new(rt.alloc());
    println!(rt; "{name}:")?;
    if let Ok(front) = phases(rt.alloc(), true, name, &mut shelf, &mut sources) {
        let told = if channels {
            told_channels(rt.alloc(), true, name, &sources, front)?
        } else {
            told_at_end(rt.alloc(), true, name, &sources, front)?
        };
        rt.stdout().write_all(&told)?;
    }
    Ok(())
}

/// Tells of the text that this line begins, unless it is the first.
fn tell_block(rt: &HostRuntime, head: &str, text: &[u8]) -> Result<(), Error> {
    if head.is_empty() {
        return Ok(());
    }
    if let Some(name) = head.strip_suffix(RUN) {
        return tell_run(rt, name, text, false);
    }
    if let Some(name) = head.strip_suffix(CHANNELS) {
        return tell_run(rt, name, text, true);
    }
    match head.strip_suffix(PRELUDE) {
        Some(name) => tell_text(rt, name, text, false),
        None => tell_text(rt, head, text, true),
    }
}

/// Tells of each text of a file.
fn tell_texts(rt: &HostRuntime, texts: &str) -> Result<(), Error> {
    let mut head = "";
    let mut text = Vec::new(rt.alloc());
    for line in texts.lines() {
        match line.strip_prefix("== ") {
            Some(next) => {
                tell_block(rt, head, &text)?;
                head = next;
                text = Vec::new(rt.alloc());
            }
            None => {
                text.extend_from_slice(line.as_bytes())?;
                text.push(b'\n')?;
            }
        }
    }
    tell_block(rt, head, &text)
}

/// Tells of each text of the file that has this name.
pub fn tell_mistakes(rt: &HostRuntime, file: &str) -> Result<Status, Error> {
    let mut shelf = FolderShelf::new(rt);
    match shelf.fetch(rt.alloc(), file, TEXT_LIMIT) {
        Ok(Fetched::Text(bytes)) => {
            if let Ok(texts) = from_utf8(&bytes) {
                tell_texts(rt, texts)?;
            }
            Ok(Status::Done)
        }
        _ => Ok(Status::Missing),
    }
}
