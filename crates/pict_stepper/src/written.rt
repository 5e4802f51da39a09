// Processes, places and labels as texts.

ghost use Rattle.std.specs.Prelude.{◌≡◌, ◌++◌, OnOk, option_map};
ghost use Rattle.pict_core.specs.Plain.{plain_core, plain_val};
ghost use Rattle.pict_report.specs.Reports.{AreShort};
ghost use Rattle.pict_show.specs.Values.{value_text};
ghost use Rattle.pict_reference.specs.Plain.{plain_label};
ghost use Rattle.pict_stepper.specs.Lines.{text_prefix, place_text, place_within, place_of, input_text, process_text, label_text};

use crate::place::first_output;
use pict_core::{Core, CoreVal};
use pict_reference::Label;
use pict_report::position_of;
use pict_show::{write_decimal, write_quoted, write_value};
use pict_syntax::{Names, Sources, Span};
use std::alloc::{AllocError, Global};

/// The number of the file's text.
const FILE: u32 = 1;

// Writes the name of the text with this number and a colon, where it isn't the file.
fn write_prefix(out: &mut Vec<u8>, text: u32, name: &[u8]) -> Result<(), AllocError>
    ensures { OnOk result (out.new.items ≡ out.old.items ++ text_prefix text name.now) }
{
    if text == FILE {
        return Ok(());
    }
    out.extend_from_slice(name)?;
    out.push(b':')?;
    Ok(())
}

/// Writes behind `out` the line and the column of the start of a place, both counted from 1, the columns in bytes; before them the
/// name of its text and a colon, where this isn't the file. The only error is want of memory.
pub fn write_place(out: &mut Vec<u8>, sources: &Sources, at: Span) -> Result<(), AllocError>
    requires short { AreShort sources.now.list.items }
    ensures text { OnOk result (out.new.items ≡ out.old.items ++ place_text sources.now.list.items at) }
{
    let position = position_of(sources, at);
    write_prefix(out, at.text, position.name)?;
    write_decimal(out, u64::from(position.row))?;
    out.push(b':')?;
    write_decimal(out, u64::from(position.column))
}

// Writes two dots and the place of the first output within a process, if it has one.
fn write_place_within(
    out: &mut Vec<u8>,
    sources: &Sources,
    first: Option<Span>,
) -> Result<(), AllocError>
    requires short { AreShort sources.now.list.items }
    ensures text { OnOk result (out.new.items ≡ out.old.items ++ place_within sources.now.list.items first) }
{
    match first {
        None => Ok(()),
        Some(at) => {
            out.extend_from_slice(b"..")?;
            write_place(out, sources, at)
        }
    }
}

/// Writes behind `out` the place of an output; of any other process two dots and the place of its first output, or nothing where it
/// has none. The only error is want of memory.
pub fn write_place_of(
    out: &mut Vec<u8>,
    sources: &Sources,
    process: &Core,
) -> Result<(), AllocError>
    requires short { AreShort sources.now.list.items }
    ensures text { OnOk result (out.new.items ≡ out.old.items ++ place_of sources.now.list.items (plain_core process.now)) }
{
    let first = first_output(process);
    match process {
        Core::Out { at, .. } => write_place(out, sources, *at),
        Core::Zero => write_place_within(out, sources, first),
        Core::Par(_, _) => write_place_within(out, sources, first),
        Core::New(_) => write_place_within(out, sources, first),
        Core::In { .. } => write_place_within(out, sources, first),
        Core::If { .. } => write_place_within(out, sources, first),
    }
}

// Writes a value and then a word.
fn write_before(
    alloc: Global,
    out: &mut Vec<u8>,
    names: &Names,
    value: &CoreVal,
    word: &[u8],
) -> Result<(), AllocError>
    ensures { OnOk result (out.new.items ≡ out.old.items ++ (value_text names.now (plain_val value.now) ++ word.now)) }
{
    write_value(alloc, out, names, value)?;
    out.extend_from_slice(word)
}

// What stands behind the channel of an input.
fn input_word(replicated: bool) -> &'static [u8]
    ensures { result.now ≡ input_text replicated }
{
    if replicated { b"?*p = P" } else { b"?p = P" }
}

/// Writes a process behind `out`, by its form: `0`, `P | Q`, `new x P`, `if TEST P Q`, `CHANNEL!VALUE`, `CHANNEL?p = P` or, where it
/// serves again and again, `CHANNEL?*p = P`. The only error is want of memory.
pub fn write_process(
    alloc: Global,
    out: &mut Vec<u8>,
    names: &Names,
    process: &Core,
) -> Result<(), AllocError>
    ensures text { OnOk result (out.new.items ≡ out.old.items ++ process_text names.now (plain_core process.now)) }
{
    match process {
        Core::Zero => out.extend_from_slice(b"0"),
        Core::Par(_, _) => out.extend_from_slice(b"P | Q"),
        Core::New(_) => out.extend_from_slice(b"new x P"),
        Core::If { test, .. } => {
            out.extend_from_slice(b"if ")?;
            write_before(alloc, out, names, test, b" P Q")
        }
        Core::Out { chan, message, .. } => {
            write_before(alloc, out, names, chan, b"!")?;
            write_value(alloc, out, names, message)
        }
        Core::In {
            chan,
            replicated,
            ..
        } => write_before(alloc, out, names, chan, input_word(*replicated)),
    }
}

/// Writes behind `out` what a step shows: `VALUE on CHANNEL`, `prints "BYTES"`, or nothing. The only error is want of memory.
pub fn write_label(
    alloc: Global,
    out: &mut Vec<u8>,
    names: &Names,
    label: &Label,
) -> Result<(), AllocError>
    ensures text { OnOk result (out.new.items ≡ out.old.items ++ label_text names.now (plain_label label.now)) }
{
    match label {
        Label::Quiet => Ok(()),
        Label::Comm(channel, value) => {
            write_before(alloc, out, names, value, b" on ")?;
            write_value(alloc, out, names, &CoreVal::Chan(*channel))
        }
        Label::Print(bytes) => {
            out.extend_from_slice(b"prints ")?;
            write_quoted(out, b'"', bytes.slice())
        }
    }
}
