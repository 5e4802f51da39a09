// Values as texts.
ghost use Rattle.std.specs.Prelude.{◌≡◌, ◌++◌, ◌∷◌, ◌<◌, ◌≤◌, length, OnOk};
ghost use Rattle.std.specs.Fmt.{decimal, signed_decimal};
ghost use Rattle.pict_core.specs.Plain.{plain_val};
ghost use Rattle.pict_show.specs.Values.{value_text, truth_text};
ghost use Rattle.pict_show.specs.Pending.{IsSimple, GainsText, rest_of, plain_fields_text, piece_text};

use crate::write_quoted;
use itoa::Buffer;
use pict_core::CoreVal;
use pict_syntax::{Name, Names};
use std::alloc::{AllocError, Global};

/// A part of a value that is still to be written.
#[derive(Clone, Copy)]
enum Piece<'a> {
    /// A value.
    Value(&'a CoreVal),
    /// The fields of a record that others stand before, and its end.
    Rest {
        positional: &'a [CoreVal],
        labelled: &'a [(Name, CoreVal)],
    },
}

/// Writes a letter and a number in decimal behind what is there. The only error is want of memory.
pub fn write_numbered(out: &mut Vec<u8>, letter: u8, number: u32) -> Result<(), AllocError>
    ensures { OnOk result (out.new.items ≡ out.old.items ++ (letter ∷ decimal number)) }
{
    let mut buffer = Buffer::new();
    out.push(letter)?;
    out.extend_from_slice(buffer.format(number).as_bytes())
}

/// Writes a number in decimal behind what is there. The only error is want of memory.
pub fn write_decimal(out: &mut Vec<u8>, number: u64) -> Result<(), AllocError>
    ensures { OnOk result (out.new.items ≡ out.old.items ++ decimal number) }
{
    let mut buffer = Buffer::new();
    out.extend_from_slice(buffer.format(number).as_bytes())
}

/// Writes a number in decimal.
fn write_number(out: &mut Vec<u8>, n: i64) -> Result<(), AllocError>
    ensures text { OnOk result (out.new.items ≡ out.old.items ++ signed_decimal n) }
    ensures grows { OnOk result (length out.old.items < length out.new.items) }
{
    let mut buffer = Buffer::new();
    out.extend_from_slice(buffer.format(n).as_bytes())
}

/// The name of a truth value.
fn truth(b: bool) -> &'static [u8]
    ensures { result.now ≡ truth_text b }
{
    if b { b"true" } else { b"false" }
}

/// Writes the text of a value behind what is there, its labels by their names. Nothing recurses along the value. The only
/// error is want of memory.
pub fn write_value(
    alloc: Global,
    out: &mut Vec<u8>,
    names: &Names,
    value: &CoreVal,
) -> Result<(), AllocError>
    ensures { OnOk result (out.new.items ≡ out.old.items ++ value_text names.now (plain_val value.now)) }
{
    let mut pieces = Vec::new(alloc);
    pieces.push(Piece::Value(value))?;
    while let Some(piece) = pieces.pop() {
        write_piece(out, &mut pieces, names, piece)?;
    }
    Ok(())
}

/// Writes a value that is no record.
fn write_simple(out: &mut Vec<u8>, names: &Names, value: &CoreVal) -> Result<(), AllocError>
    requires { IsSimple (plain_val value.now) }
    ensures text { OnOk result (out.new.items ≡ out.old.items ++ value_text names.now (plain_val value.now)) }
    ensures grows { OnOk result (length out.old.items < length out.new.items) }
{
    let _ = names;
    match value {
        CoreVal::Var(level) => write_numbered(out, b's', *level),
        CoreVal::Chan(number) => write_numbered(out, b'c', *number),
        CoreVal::Int(n) => write_number(out, *n),
        CoreVal::Char(byte) => write_quoted(out, b'\'', &[*byte]),
        CoreVal::Bool(b) => out.extend_from_slice(truth(*b)),
        CoreVal::Text(bytes) => write_quoted(out, b'"', bytes.slice()),
        CoreVal::Prim(p) => out.extend_from_slice(p.name()),
        CoreVal::Fields { .. } => Ok(()),
    }
}

/// Writes the front of a piece, and keeps the rest of it.
fn write_piece<'a>(
    out: &mut Vec<u8>,
    pieces: &mut Vec<Piece<'a>>,
    names: &Names,
    piece: Piece<'a>,
) -> Result<(), AllocError>
    ensures grows { OnOk result (length out.old.items < length out.new.items) }
    ensures text { OnOk result (GainsText names.now out.old.items pieces.old.items (piece_text names.now piece.entry) out.new.items pieces.new.items) }
{
    match piece {
        Piece::Value(value) => match value {
            CoreVal::Fields {
                positional,
                labelled,
            } => {
                out.push(b'[')?;
                write_field(out, pieces, names, positional, labelled)
            }
            _ => write_simple(out, names, value),
        },
        Piece::Rest {
            positional,
            labelled,
        } => write_rest(out, pieces, names, positional, labelled),
    }
}

/// Writes the front of the next field with the space before it, or the end of the record.
fn write_rest<'a>(
    out: &mut Vec<u8>,
    pieces: &mut Vec<Piece<'a>>,
    names: &Names,
    positional: &'a [CoreVal],
    labelled: &'a [(Name, CoreVal)],
) -> Result<(), AllocError>
    ensures text { OnOk result (GainsText names.now out.old.items pieces.old.items (rest_of names.now positional.now labelled.now)
        out.new.items pieces.new.items) }
    ensures grows { OnOk result (length out.old.items < length out.new.items) }
{
    if positional.is_empty() && labelled.is_empty() {
        out.push(b']')?;
        return Ok(());
    }
    out.push(b' ')?;
    write_field(out, pieces, names, positional, labelled)
}

/// Writes the front of the next field, or the end of the record.
fn write_field<'a>(
    out: &mut Vec<u8>,
    pieces: &mut Vec<Piece<'a>>,
    names: &Names,
    positional: &'a [CoreVal],
    labelled: &'a [(Name, CoreVal)],
) -> Result<(), AllocError>
    ensures text { OnOk result
        (GainsText names.now out.old.items pieces.old.items (plain_fields_text names.now positional.now labelled.now) out.new.items pieces.new.items) }
    ensures grows { OnOk result (length out.old.items ≤ length out.new.items) }
{
    if !positional.is_empty() {
        pieces.push(Piece::Rest {
            positional: &positional[1..],
            labelled,
        })?;
        pieces.push(Piece::Value(&positional[0]))?;
    } else if !labelled.is_empty() {
        out.extend_from_slice(names.text(labelled[0].0))?;
        out.push(b'=')?;
        pieces.push(Piece::Rest {
            positional,
            labelled: &labelled[1..],
        })?;
        pieces.push(Piece::Value(&labelled[0].1))?;
    } else {
        out.push(b']')?;
    }
    Ok(())
}
