// What channels are called.

ghost use Rattle.pict_report.specs.Reports.{AreShort};

use crate::standing::{Made, Standing};
use pict_places::{Form, Origin};
use pict_show::write_decimal;
use pict_stepper::{Run, write_place};
use pict_syntax::{Name, Names, Sources};
use std::alloc::{AllocError, Global};

/// What the parts of a run come from.
#[derive(Clone, Copy)]
pub struct Known<'a> {
    pub names: &'a Names,
    pub sources: &'a Sources,
    pub origins: &'a [Origin],
    pub standing: &'a Standing,
}

/// What the channels of a run are called: of each that has a name a line `cN NAME PLACE` with its end, by rising numbers. The
/// process of the run has a node for each of `origins`, in this order. The only error is want of memory.
pub fn channel_names(
    alloc: Global,
    names: &Names,
    sources: &Sources,
    origins: &[Origin],
    run: &Run,
) -> Result<Vec<u8>, AllocError>
    requires short { AreShort sources.now.list.items }
{
    let standing = Standing::after(alloc, &run.steps)?;
    let known = Known {
        names,
        sources,
        origins,
        standing: &standing,
    };
    let mut out = Vec::new(alloc);
    for (number, made) in standing.channels().iter().enumerate() {
        put_line(&mut out, &known, number as u64, *made)?;
    }
    Ok(out)
}

/// Writes the line of a channel, if it has a name.
fn put_line(out: &mut Vec<u8>, known: &Known<'_>, number: u64, made: Made) -> Result<(), AllocError>
    requires short { AreShort known.now.sources.now.list.items }
{
    let Some(origin) = known.origins.get(made.node) else {
        return Ok(());
    };
    if let Some(name) = origin.name {
        out.push(b'c')?;
        write_decimal(out, number)?;
        out.push(b' ')?;
        put_name(out, known, made, name)?;
        out.push(b' ')?;
        write_place(out, known.sources, origin.span)?;
        out.push(b'\n')?;
    }
    Ok(())
}

/// Writes a name, with a number where what has it made several channels.
fn put_name(
    out: &mut Vec<u8>,
    known: &Known<'_>,
    made: Made,
    name: Name,
) -> Result<(), AllocError> {
    out.extend_from_slice(known.names.text(name))?;
    if known.standing.count(made.node) > 1 {
        out.push(b'#')?;
        write_decimal(out, made.number)?;
    }
    Ok(())
}

/// Writes a channel by what made it: the name of its `new` or `def`, with a number where that made several; else the call or the
/// function that it belongs to.
pub fn put_channel(out: &mut Vec<u8>, known: &Known<'_>, channel: u32) -> Result<(), AllocError>
    requires short { AreShort known.now.sources.now.list.items }
{
    let Some(made) = known.standing.made(channel) else {
        return out.extend_from_slice(b"a channel");
    };
    let Some(origin) = known.origins.get(made.node) else {
        return out.extend_from_slice(b"a channel");
    };
    match origin.name {
        None if origin.form == Form::Answer => out.extend_from_slice(b"the answer of ")?,
        None => out.extend_from_slice(b"the function of ")?,
        Some(name) => {
            out.push(b'`')?;
            put_name(out, known, made, name)?;
            out.extend_from_slice(b"` of ")?;
        }
    }
    write_place(out, known.sources, origin.span)
}

/// The name of a channel, if what made it has one.
pub fn name_of<'a>(known: &Known<'a>, channel: u32) -> Option<&'a [u8]> {
    let made = known.standing.made(channel)?;
    let name = known.origins.get(made.node)?.name?;
    Some(known.names.text(name))
}
