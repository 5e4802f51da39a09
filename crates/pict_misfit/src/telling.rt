// What is told of the two types of a refusal.

use crate::clash::{Clash, Step, Why, difference};
use crate::known::known_in;
use crate::said::Part;
use crate::written::{Speech, sign_of, text_of};
use itoa::Buffer;
use pict_infer::{Env, Told};
use pict_syntax::Names;
use pict_types::Ty;
use std::alloc::{AllocError, Global};

fn put_number(out: &mut Vec<u8>, number: usize) -> Result<(), AllocError> {
    let mut buffer = Buffer::new();
    out.extend_from_slice(buffer.format(number).as_bytes())
}

/// Writes a line with a type.
fn put_line(
    alloc: Global,
    out: &mut Vec<u8>,
    speech: Speech<'_>,
    head: &[u8],
    part: Part<'_>,
) -> Result<(), AllocError> {
    let text = text_of(alloc, speech, part)?;
    out.extend_from_slice(head)?;
    out.extend_from_slice(&text)?;
    out.push(b'\n')?;
    Ok(())
}

/// Writes where a part stands, its own step first: `field 2 of the content`.
fn put_path(out: &mut Vec<u8>, names: &Names, path: &[Step]) -> Result<(), AllocError> {
    let mut first = true;
    for step in path.iter().rev() {
        if !first {
            out.extend_from_slice(b" of ")?;
        }
        first = false;
        match step {
            Step::Content => out.extend_from_slice(b"the content")?,
            Step::Body => out.extend_from_slice(b"the body")?,
            Step::Field(number) => {
                out.extend_from_slice(b"field ")?;
                put_number(out, *number)?;
            }
            Step::Labelled(label) => {
                out.extend_from_slice(b"field `")?;
                out.extend_from_slice(names.text(*label))?;
                out.push(b'`')?;
            }
        }
    }
    Ok(())
}

/// Writes in what two parts differ.
fn put_why(
    alloc: Global,
    out: &mut Vec<u8>,
    speech: Speech<'_>,
    clash: Clash<'_>,
) -> Result<(), AllocError> {
    match clash.why {
        Why::Form => {
            let given = text_of(alloc, speech, clash.given)?;
            let wanted = text_of(alloc, speech, clash.wanted)?;
            out.extend_from_slice(b"`")?;
            out.extend_from_slice(&given)?;
            out.extend_from_slice(b"` stands here, `")?;
            out.extend_from_slice(&wanted)?;
            out.extend_from_slice(b"` is wanted")?;
            if clash.turned {
                out.extend_from_slice(b"; there `")?;
                out.extend_from_slice(&wanted)?;
                out.extend_from_slice(b"` has to be below `")?;
                out.extend_from_slice(&given)?;
                out.push(b'`')?;
            }
            Ok(())
        }
        Why::Cap(given, wanted) => {
            out.extend_from_slice(b"`")?;
            out.push(sign_of(given))?;
            out.extend_from_slice(b"` stands here, `")?;
            out.push(sign_of(wanted))?;
            out.extend_from_slice(b"` is wanted")
        }
        Why::TypeFields => out.extend_from_slice(b"the type fields aren't the same"),
        Why::Fields(given, wanted) => {
            put_number(out, given)?;
            out.extend_from_slice(b" positional fields stand here, ")?;
            put_number(out, wanted)?;
            out.extend_from_slice(b" are wanted")
        }
        Why::Label(label) => {
            out.extend_from_slice(b"the label `")?;
            out.extend_from_slice(speech.names.text(label))?;
            if clash.turned {
                out.extend_from_slice(b"` is one too many")
            } else {
                out.extend_from_slice(b"` is missing")
            }
        }
    }
}

/// Writes the first part in which two types differ, unless that is the whole of them.
fn put_clash(
    alloc: Global,
    out: &mut Vec<u8>,
    speech: Speech<'_>,
    given: &Ty,
    wanted: &Ty,
) -> Result<(), AllocError> {
    let Some((path, clash)) = difference(alloc, speech.known, given, wanted)? else {
        return Ok(());
    };
    let whole = match clash.why {
        Why::Form => path.is_empty(),
        _ => false,
    };
    if whole {
        return Ok(());
    }
    out.extend_from_slice(b"  they differ")?;
    if !path.is_empty() {
        out.extend_from_slice(b" in ")?;
        put_path(out, speech.names, &path)?;
    }
    out.extend_from_slice(b": ")?;
    put_why(alloc, out, speech, clash)?;
    out.push(b'\n')?;
    Ok(())
}

/// Writes, two blanks from the edge, what is told of a refusal by an environment as it was left there: the type that stands at the
/// place and the one that is wanted, each on a line of its own, and the first part in which they differ, where that isn't the
/// whole. Nothing is written where nothing is told. The only error is want of memory.
pub fn put_types(
    alloc: Global,
    out: &mut Vec<u8>,
    names: &Names,
    env: Env<'_>,
    told: &Told,
) -> Result<(), AllocError> {
    let (given, wanted) = match told {
        Told::Nothing => return Ok(()),
        Told::Types(given, wanted) => (given, wanted),
    };
    let known = known_in(alloc, env.into_context())?;
    let speech = Speech {
        names,
        known: &known,
    };
    let part = Part {
        of: given,
        under: 0,
    };
    put_line(alloc, out, speech, b"  the type here:   ", part)?;
    let part = Part {
        of: wanted,
        under: 0,
    };
    put_line(alloc, out, speech, b"  the type wanted: ", part)?;
    put_clash(alloc, out, speech, given, wanted)
}
