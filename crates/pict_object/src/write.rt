// The bytes of a process, written behind what is there. The only error of each call is want of memory.

ghost use Rattle.std.specs.Prelude.{◌≡◌, ◌<◌, ◌^◌, ◌++◌, ◌∷◌, [], map, length, OnOk, ℕ};
ghost use Rattle.pict_core.specs.Plain.{plain_core, plain_pat, plain_val, plain_field, plain_pat_field, vals_of, labelled_of, pats_of, labelled_pats_of};
ghost use Rattle.pict_object.specs.Objects.{count_bytes, value_bytes, values_bytes, labelled_bytes, pattern_bytes, patterns_bytes, labelled_patterns_bytes, process_bytes};
ghost use Rattle.pict_object.specs.Fits.{HasBytes, ValueHasBytes, ValuesHaveBytes, LabelledHaveBytes, PatternHasBytes, PatternsHaveBytes, LabelledPatternsHaveBytes};
ghost use Rattle.pict_object.specs.Sizes.{Anywhere, IsSimple, place_at};

use pict_core::{Core, CorePat, CoreVal};
use pict_syntax::{Name, Primitive};
use std::alloc::AllocError;

/// Writes a process, with these places of labels by their numbers.
pub(crate) fn write_process(
    out: &mut Vec<u8>,
    places: &[u32],
    core: &Core,
) -> Result<(), AllocError>
    requires { HasBytes Anywhere (plain_core core.now) }
    ensures { OnOk result (out.new.items ≡ out.old.items ++ process_bytes (place_at places.now) (plain_core core.now)) }
{
    match core {
        Core::Zero => out.extend_from_slice(&[0]),
        Core::Par(left, right) => {
            out.push(1)?;
            write_process(out, places, left.core())?;
            write_process(out, places, right.core())
        }
        Core::New(body) => {
            out.push(2)?;
            write_process(out, places, body.core())
        }
        Core::Out { chan, message, .. } => {
            out.push(3)?;
            write_value(out, places, chan)?;
            write_value(out, places, message)
        }
        Core::In {
            chan,
            replicated,
            pattern,
            body,
        } => {
            out.push(if *replicated { 5 } else { 4 })?;
            write_value(out, places, chan)?;
            write_pattern(out, places, pattern)?;
            write_process(out, places, body.core())
        }
        Core::If { test, yes, no } => {
            out.push(6)?;
            write_value(out, places, test)?;
            write_process(out, places, yes.core())?;
            write_process(out, places, no.core())
        }
    }
}

/// Writes a number in four bytes.
pub(crate) fn write_count(out: &mut Vec<u8>, count: usize) -> Result<(), AllocError>
    requires { count < 2 ^ 32 }
    ensures { OnOk result (out.new.items ≡ out.old.items ++ count_bytes count) }
{
    out.extend_from_slice(&(count as u32).to_be_bytes())
}

/// Writes the place of a label.
fn write_label(out: &mut Vec<u8>, places: &[u32], label: Name) -> Result<(), AllocError>
    ensures { OnOk result (out.new.items ≡ out.old.items ++ count_bytes (place_at places.now label.0)) }
{
    let place = match places.get(label.0 as usize) {
        Some(place) => *place,
        None => 0,
    };
    out.extend_from_slice(&place.to_be_bytes())
}

/// Writes a value that is no record.
fn write_simple(out: &mut Vec<u8>, value: &CoreVal) -> Result<(), AllocError>
    requires simple { IsSimple (plain_val value.now) }
    requires fits { ValueHasBytes Anywhere (plain_val value.now) }
    ensures { OnOk result ((place : ℕ → ℕ) → out.new.items ≡ out.old.items ++ value_bytes place (plain_val value.now)) }
{
    match value {
        CoreVal::Var(level) => {
            out.push(0x10)?;
            out.extend_from_slice(&level.to_be_bytes())
        }
        CoreVal::Int(n) => {
            out.push(0x11)?;
            out.extend_from_slice(&n.to_be_bytes())
        }
        CoreVal::Char(byte) => out.extend_from_slice(&[0x12, *byte]),
        CoreVal::Bool(b) => out.extend_from_slice(&[if *b { 0x14 } else { 0x13 }]),
        CoreVal::Text(bytes) => {
            out.push(0x15)?;
            write_count(out, bytes.slice().len())?;
            out.extend_from_slice(bytes.slice())
        }
        CoreVal::Prim(p) => out.extend_from_slice(&[0x16, p.number()]),
        CoreVal::Chan(_) | CoreVal::Fields { .. } => Ok(()),
    }
}

#[cycle(write_value)]
fn write_value(out: &mut Vec<u8>, places: &[u32], value: &CoreVal) -> Result<(), AllocError>
    requires { ValueHasBytes Anywhere (plain_val value.now) }
    ensures { OnOk result (out.new.items ≡ out.old.items ++ value_bytes (place_at places.now) (plain_val value.now)) }
{
    match value {
        CoreVal::Fields {
            positional,
            labelled,
        } => {
            out.push(0x17)?;
            write_values(out, places, positional)?;
            write_fields(out, places, labelled)
        }
        _ => write_simple(out, value),
    }
}

// How many values, and then the values.
#[cycle(write_value)]
fn write_values(out: &mut Vec<u8>, places: &[u32], values: &[CoreVal]) -> Result<(), AllocError>
    requires few { length values.now < 2 ^ 32 }
    requires fit { ValuesHaveBytes Anywhere (vals_of (map plain_val values.now)) }
    ensures { OnOk result (out.new.items ≡ out.old.items ++
        (count_bytes (length values.now) ++ values_bytes (place_at places.now) (vals_of (map plain_val values.now)))) }
{
    write_count(out, values.len())?;
    for value in values {
        write_value(out, places, value)?;
    }
    Ok(())
}

// How many fields, and then each with the place of its label.
#[cycle(write_value)]
fn write_fields(
    out: &mut Vec<u8>,
    places: &[u32],
    fields: &[(Name, CoreVal)],
) -> Result<(), AllocError>
    requires few { length fields.now < 2 ^ 32 }
    requires fit { LabelledHaveBytes Anywhere (labelled_of (map plain_field fields.now)) }
    ensures { OnOk result (out.new.items ≡ out.old.items ++
        (count_bytes (length fields.now) ++ labelled_bytes (place_at places.now) (labelled_of (map plain_field fields.now)))) }
{
    write_count(out, fields.len())?;
    for field in fields {
        write_label(out, places, field.0)?;
        write_value(out, places, &field.1)?;
    }
    Ok(())
}

#[cycle(write_pattern)]
fn write_pattern(out: &mut Vec<u8>, places: &[u32], pattern: &CorePat) -> Result<(), AllocError>
    requires { PatternHasBytes Anywhere (plain_pat pattern.now) }
    ensures { OnOk result (out.new.items ≡ out.old.items ++ pattern_bytes (place_at places.now) (plain_pat pattern.now)) }
{
    match pattern {
        CorePat::Bind => out.extend_from_slice(&[0x20]),
        CorePat::Any => out.extend_from_slice(&[0x21]),
        CorePat::Fields {
            positional,
            labelled,
        } => {
            out.push(0x22)?;
            write_patterns(out, places, positional)?;
            write_pattern_fields(out, places, labelled)
        }
    }
}

#[cycle(write_pattern)]
fn write_patterns(out: &mut Vec<u8>, places: &[u32], patterns: &[CorePat]) -> Result<(), AllocError>
    requires few { length patterns.now < 2 ^ 32 }
    requires fit { PatternsHaveBytes Anywhere (pats_of (map plain_pat patterns.now)) }
    ensures { OnOk result (out.new.items ≡ out.old.items ++
        (count_bytes (length patterns.now) ++ patterns_bytes (place_at places.now) (pats_of (map plain_pat patterns.now)))) }
{
    write_count(out, patterns.len())?;
    for pattern in patterns {
        write_pattern(out, places, pattern)?;
    }
    Ok(())
}

#[cycle(write_pattern)]
fn write_pattern_fields(
    out: &mut Vec<u8>,
    places: &[u32],
    fields: &[(Name, CorePat)],
) -> Result<(), AllocError>
    requires few { length fields.now < 2 ^ 32 }
    requires fit { LabelledPatternsHaveBytes Anywhere (labelled_pats_of (map plain_pat_field fields.now)) }
    ensures { OnOk result (out.new.items ≡ out.old.items ++
        (count_bytes (length fields.now) ++ labelled_patterns_bytes (place_at places.now) (labelled_pats_of (map plain_pat_field fields.now)))) }
{
    write_count(out, fields.len())?;
    for field in fields {
        write_label(out, places, field.0)?;
        write_pattern(out, places, &field.1)?;
    }
    Ok(())
}
