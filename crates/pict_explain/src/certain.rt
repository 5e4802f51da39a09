// What is certain of the names of an accepted file.

ghost use Rattle.std.specs.Prelude.{◌≤◌, length};
ghost use Rattle.pict_syntax.specs.declared.limits.TheConstants.{TEXT_LIMIT};

use pict_gather::gather;
use pict_hints::{put_number, put_place, shown_line};
use pict_outside::Shelf;
use pict_scope::resolve;
use pict_syntax::{Dec, Names, Program, Source, Sources, TEXT_LIMIT};
use pict_telling::prelude_unless;
use pict_unused::{Hint, Said, hints};
use std::alloc::{AllocError, Global};

/// How many hints are told at most.
const SHOWN: usize = 20;

/// What is told of these names, each with its line; of names in the file alone, and of those that it imports nothing.
fn told_of(
    alloc: Global,
    names: &Names,
    source: &Source,
    hints: &[Hint],
) -> Result<Vec<u8>, AllocError> {
    let mut out = Vec::new(alloc);
    let text = source.text.slice();
    if text.len() as u64 > TEXT_LIMIT {
        return Ok(out);
    }
    let mut number: usize = 0;
    for hint in hints {
        if hint.id.span.text == 1 {
            if number < SHOWN {
                put_hint(alloc, &mut out, names, source.name.slice(), text, hint)?;
            }
            number = number.saturating_add(1);
        }
    }
    if number > SHOWN {
        out.extend_from_slice(b"and ")?;
        put_number(&mut out, (number - SHOWN) as u64)?;
        out.extend_from_slice(b" more such names\n")?;
    }
    Ok(out)
}

/// Writes a hint, and the line of its name.
fn put_hint(
    alloc: Global,
    out: &mut Vec<u8>,
    names: &Names,
    file: &[u8],
    text: &[u8],
    hint: &Hint,
) -> Result<(), AllocError>
    requires short { length text.now ≤ TEXT_LIMIT }
{
    let name = names.text(hint.id.name);
    let at = hint.id.span.start;
    out.extend_from_slice(file)?;
    out.push(b':')?;
    put_place(out, text, at)?;
    out.extend_from_slice(b": ")?;
    put_said(out, hint.said, name)?;
    out.push(b'\n')?;
    let line = shown_line(alloc, text, at)?;
    out.extend_from_slice(&line)
}

/// Writes what is certain of a name.
fn put_said(out: &mut Vec<u8>, said: Said, name: &[u8]) -> Result<(), AllocError> {
    match said {
        Said::NeverUsed => {
            put_quoted(out, name)?;
            out.extend_from_slice(b" is never used")
        }
        Said::NobodyReceives => {
            out.extend_from_slice(b"nobody receives on ")?;
            put_quoted(out, name)?;
            out.extend_from_slice(b": what is sent on it waits for ever")
        }
        Said::NobodySends => {
            out.extend_from_slice(b"nobody sends on ")?;
            put_quoted(out, name)?;
            out.extend_from_slice(b": who receives on it waits for ever")
        }
    }
}

fn put_quoted(out: &mut Vec<u8>, name: &[u8]) -> Result<(), AllocError> {
    out.push(b'`')?;
    out.extend_from_slice(name)?;
    out.push(b'`')?;
    Ok(())
}

/// What is certain of the names of these declarations, as it is told of the file.
fn certain_in(
    alloc: Global,
    names: Names,
    decs: Vec<Dec>,
    sources: &Sources,
) -> Result<Vec<u8>, AllocError> {
    let imports = Vec::new(alloc);
    if let Ok(scoped) = resolve(alloc, &names, Program { imports, decs }) {
        if let Some(source) = sources.list.get(1) {
            let hints = hints(alloc, &scoped)?;
            return told_of(alloc, &names, source, &hints);
        }
    }
    Ok(Vec::new(alloc))
}

/// What is told of names of a file that are never used, and of channels on which nobody receives or nobody sends; nothing where it is
/// refused. The only error is want of memory.
pub fn told_certain<S: Shelf>(
    alloc: Global,
    bare: bool,
    file: &str,
    shelf: &mut S,
) -> Result<Vec<u8>, AllocError> {
    let mut sources = Sources::new(alloc);
    match gather(alloc, prelude_unless(bare), file, shelf, &mut sources) {
        Ok(gathering) => certain_in(alloc, gathering.names, gathering.decs, &sources),
        Err(_) => Ok(Vec::new(alloc)),
    }
}
