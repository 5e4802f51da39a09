// The line of a node.
ghost use Rattle.std.specs.Prelude.{◌≡◌, ◌++◌, ◌∷◌, [], map, OnOk, IfOk};
ghost use Rattle.std.specs.Fmt.{decimal};
ghost use Rattle.pict_core.specs.Plain.{plain_val};
ghost use Rattle.pict_code.specs.Plain.{plain_pat, plain_pat_field, plain_op, plain_node, pats_of, labelled_pats_of};
ghost use Rattle.pict_code.specs.Listing.{pattern_text, frame_text, line_text};
ghost use Rattle.pict_code.specs.Written.{gap, fields_text, labelled_text, op_text, input_text};

use crate::{CodePat, Node, Op, Operand};
use pict_show::{write_decimal, write_numbered, write_value};
use pict_syntax::{Name, Names};
use std::alloc::{AllocError, Global};

/// The line of a node with this number.
pub fn line_of(
    alloc: Global,
    names: &Names,
    number: u64,
    node: &Node,
) -> Result<Vec<u8>, AllocError>
    ensures { IfOk result (λ line. line.items ≡ line_text names.now number (plain_node node.now)) }
{
    let mut line = Vec::new(alloc);
    write_decimal(&mut line, number)?;
    line.push(b' ')?;
    write_frame(&mut line, &node.frame)?;
    line.push(b' ')?;
    write_op(alloc, &mut line, names, &node.op)?;
    line.push(b'\n')?;
    Ok(line)
}

/// Writes a space and the number of a part.
fn write_part(line: &mut Vec<u8>, number: u32) -> Result<(), AllocError>
    ensures { OnOk result (line.new.items ≡ line.old.items ++ (32 ∷ decimal number)) }
{
    line.push(b' ')?;
    write_decimal(line, u64::from(number))
}

/// Writes a space, but not before the first.
fn write_gap(line: &mut Vec<u8>, first: bool) -> Result<(), AllocError>
    ensures { OnOk result (line.new.items ≡ line.old.items ++ gap first) }
{
    if first {
        return Ok(());
    }
    line.push(b' ')?;
    Ok(())
}

/// Writes a frame.
fn write_frame(line: &mut Vec<u8>, frame: &[u32]) -> Result<(), AllocError>
    ensures { OnOk result (line.new.items ≡ line.old.items ++ frame_text frame.now) }
{
    line.push(b'{')?;
    for (index, level) in frame.iter().enumerate() {
        write_gap(line, index == 0)?;
        write_numbered(line, b's', *level)?;
    }
    line.push(b'}')?;
    Ok(())
}

/// Writes an instruction.
fn write_op(alloc: Global, line: &mut Vec<u8>, names: &Names, op: &Op) -> Result<(), AllocError>
    ensures { OnOk result (line.new.items ≡ line.old.items ++ op_text names.now (plain_op op.now)) }
{
    match op {
        Op::Zero => line.extend_from_slice(b"zero"),
        Op::Par(left, right) => {
            line.extend_from_slice(b"par")?;
            write_part(line, *left)?;
            write_part(line, *right)
        }
        Op::New(level, part) => {
            line.extend_from_slice(b"new ")?;
            write_numbered(line, b's', *level)?;
            write_part(line, *part)
        }
        Op::Out(chan, message, _) => {
            line.extend_from_slice(b"out ")?;
            write_value(alloc, line, names, chan)?;
            line.push(b' ')?;
            write_value(alloc, line, names, message)
        }
        Op::In(chan, pattern, part) => write_input(
            alloc, line, names, b"in ", chan, pattern, *part,
        ),
        Op::Serve(chan, pattern, part) => {
            write_input(alloc, line, names, b"serve ", chan, pattern, *part)
        }
        Op::If(test, yes, no) => {
            line.extend_from_slice(b"if ")?;
            write_value(alloc, line, names, test)?;
            write_part(line, *yes)?;
            write_part(line, *no)
        }
    }
}

/// Writes an input, whose word stands with the space behind it.
fn write_input(
    alloc: Global,
    line: &mut Vec<u8>,
    names: &Names,
    word: &[u8],
    chan: &Operand,
    pattern: &CodePat,
    part: u32,
) -> Result<(), AllocError>
    ensures { OnOk result (line.new.items ≡ line.old.items ++ (word.now ++ input_text names.now (plain_val chan.now) (plain_pat pattern.now) part)) }
{
    line.extend_from_slice(word)?;
    write_value(alloc, line, names, chan)?;
    line.push(b' ')?;
    write_pattern(line, names, pattern)?;
    write_part(line, part)
}

/// Writes a pattern. It recurses along the nesting of the pattern.
#[cycle(write_pattern)]
fn write_pattern(line: &mut Vec<u8>, names: &Names, pattern: &CodePat) -> Result<(), AllocError>
    ensures { OnOk result (line.new.items ≡ line.old.items ++ pattern_text names.now (plain_pat pattern.now)) }
{
    match pattern {
        CodePat::Bind(level) => write_numbered(line, b's', *level),
        CodePat::Any => line.extend_from_slice(b"_"),
        CodePat::Fields {
            positional,
            labelled,
        } => {
            line.push(b'[')?;
            write_fields(line, names, positional)?;
            write_labelled(line, names, labelled, positional.is_empty())?;
            line.push(b']')?;
            Ok(())
        }
    }
}

/// Writes positional fields, with a space before each but the first.
#[cycle(write_pattern)]
fn write_fields(line: &mut Vec<u8>, names: &Names, fields: &[CodePat]) -> Result<(), AllocError>
    ensures { OnOk result (line.new.items ≡ line.old.items ++ fields_text names.now (map plain_pat fields.now)) }
{
    for (index, field) in fields.iter().enumerate() {
        write_gap(line, index == 0)?;
        write_pattern(line, names, field)?;
    }
    Ok(())
}

/// Writes fields with labels, with a space before each, but not before the first of the record.
#[cycle(write_pattern)]
fn write_labelled(
    line: &mut Vec<u8>,
    names: &Names,
    fields: &[(Name, CodePat)],
    first: bool,
) -> Result<(), AllocError>
    ensures { OnOk result (line.new.items ≡ line.old.items ++ labelled_text names.now first (map plain_pat_field fields.now)) }
{
    for (index, field) in fields.iter().enumerate() {
        write_gap(line, first && index == 0)?;
        line.extend_from_slice(names.text(field.0))?;
        line.push(b'=')?;
        write_pattern(line, names, &field.1)?;
    }
    Ok(())
}
