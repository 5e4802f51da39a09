// Values read from the bytes of an object.

ghost use Rattle.std.specs.Prelude.{◌≡◌, map};
ghost use Rattle.pict_core.specs.Plain.{plain_val, plain_field};
ghost use Rattle.pict_object.specs.Reading.{GivesReading, variable_at, int_at, char_at, string_at, primitive_at, simple_at, record_at, value_at, counted_at, labelled_at};

use crate::error::DecodeError;
use crate::front::{read_bits, read_byte, read_count, read_label, read_text};
use pict_core::CoreVal;
use pict_syntax::{Bytes, Name, Primitive};
use std::alloc::Global;

#[tactic(auto, unfolding(crate::specs::Reading::variable_at))]
fn read_variable(bytes: &[u8], bound: u64) -> Result<(CoreVal, &[u8]), DecodeError>
    ensures { GivesReading (λ x. (plain_val x.0, x.1.now)) result (variable_at bound bytes.now) }
{
    let (level, rest) = read_count(bytes)?;
    if (level as u64) < bound {
        Ok((CoreVal::Var(level), rest))
    } else {
        Err(DecodeError::NotObject)
    }
}

#[tactic(auto, unfolding(crate::specs::Reading::int_at))]
fn read_int(bytes: &[u8]) -> Result<(CoreVal, &[u8]), DecodeError>
    ensures { GivesReading (λ x. (plain_val x.0, x.1.now)) result (int_at bytes.now) }
{
    let (bits, rest) = read_bits(bytes)?;
    Ok((CoreVal::Int(bits.cast_signed()), rest))
}

#[tactic(auto, unfolding(crate::specs::Reading::char_at))]
fn read_char(bytes: &[u8]) -> Result<(CoreVal, &[u8]), DecodeError>
    ensures { GivesReading (λ x. (plain_val x.0, x.1.now)) result (char_at bytes.now) }
{
    let (byte, rest) = read_byte(bytes)?;
    Ok((CoreVal::Char(byte), rest))
}

#[tactic(auto, unfolding(crate::specs::Reading::string_at))]
fn read_string(alloc: Global, bytes: &[u8]) -> Result<(CoreVal, &[u8]), DecodeError>
    ensures { GivesReading (λ x. (plain_val x.0, x.1.now)) result (string_at bytes.now) }
{
    let (text, rest) = read_text(bytes)?;
    let string = Bytes::copy_of(alloc, text)?;
    Ok((CoreVal::Text(string), rest))
}

#[tactic(auto, unfolding(crate::specs::Reading::primitive_at))]
fn read_primitive(bytes: &[u8]) -> Result<(CoreVal, &[u8]), DecodeError>
    ensures { GivesReading (λ x. (plain_val x.0, x.1.now)) result (primitive_at bytes.now) }
{
    let (number, rest) = read_byte(bytes)?;
    match Primitive::numbered(u64::from(number)) {
        Some(p) => Ok((CoreVal::Prim(p), rest)),
        None => Err(DecodeError::NotObject),
    }
}

// A value that is no record, behind its tag, under so many variables.
#[tactic(auto, unfolding(crate::specs::Reading::simple_at))]
fn read_simple(
    alloc: Global,
    tag: u8,
    bytes: &[u8],
    bound: u64,
) -> Result<(CoreVal, &[u8]), DecodeError>
    ensures { GivesReading (λ x. (plain_val x.0, x.1.now)) result (simple_at bound tag bytes.now) }
{
    match tag {
        0x10 => read_variable(bytes, bound),
        0x11 => read_int(bytes),
        0x12 => read_char(bytes),
        0x13 => Ok((CoreVal::Bool(false), bytes)),
        0x14 => Ok((CoreVal::Bool(true), bytes)),
        0x15 => read_string(alloc, bytes),
        0x16 => read_primitive(bytes),
        _ => Err(DecodeError::NotObject),
    }
}

/// The value at the front, under so many variables, with at most `left` records in one another, and what is behind it.
#[cycle(read_value)]
pub(crate) fn read_value<'a>(
    alloc: Global,
    bytes: &'a [u8],
    labels: &[Name],
    bound: u64,
    left: u32,
) -> Result<(CoreVal, &'a [u8]), DecodeError>
    ensures { GivesReading (λ x. (plain_val x.0, x.1.now)) result (value_at labels.now bound left bytes.now) }
{
    let (tag, rest) = read_byte(bytes)?;
    if tag != 0x17 {
        return read_simple(alloc, tag, rest, bound);
    }
    if left == 0 {
        return Err(DecodeError::NotObject);
    }
    read_record(alloc, rest, labels, bound, left - 1)
}

// A record behind its tag, with at most `left` records in one another in each of its fields.
#[cycle(read_value)]
#[tactic(auto, unfolding(crate::specs::Reading::record_at))]
fn read_record<'a>(
    alloc: Global,
    bytes: &'a [u8],
    labels: &[Name],
    bound: u64,
    left: u32,
) -> Result<(CoreVal, &'a [u8]), DecodeError>
    ensures { GivesReading (λ x. (plain_val x.0, x.1.now)) result (record_at labels.now (value_at labels.now bound left) bytes.now) }
{
    let (positional, rest) = read_values(alloc, bytes, labels, bound, left)?;
    let (labelled, rest) = read_fields(alloc, rest, labels, bound, left)?;
    let record = CoreVal::Fields {
        positional,
        labelled,
    };
    Ok((record, rest))
}

// Values behind their count.
#[cycle(read_value)]
fn read_values<'a>(
    alloc: Global,
    bytes: &'a [u8],
    labels: &[Name],
    bound: u64,
    left: u32,
) -> Result<(Vec<CoreVal>, &'a [u8]), DecodeError>
    ensures { GivesReading (λ x. (map plain_val x.0.items, x.1.now)) result (counted_at (value_at labels.now bound left) bytes.now) }
{
    let (count, first) = read_count(bytes)?;
    let mut values = Vec::new(alloc);
    let mut rest = first;
    for _ in 0..count {
        let (value, after) = read_value(alloc, rest, labels, bound, left)?;
        values.push(value)?;
        rest = after;
    }
    Ok((values, rest))
}

// Values behind the places of their labels, which go up, and all behind their count.
#[cycle(read_value)]
fn read_fields<'a>(
    alloc: Global,
    bytes: &'a [u8],
    labels: &[Name],
    bound: u64,
    left: u32,
) -> Result<(Vec<(Name, CoreVal)>, &'a [u8]), DecodeError>
    ensures { GivesReading (λ x. (map plain_field x.0.items, x.1.now)) result (labelled_at labels.now (value_at labels.now bound left) bytes.now) }
{
    let (count, first) = read_count(bytes)?;
    let mut fields = Vec::new(alloc);
    let mut from = 0;
    let mut rest = first;
    for _ in 0..count {
        let (place, behind) = read_label(rest, labels, from)?;
        let (value, after) = read_value(alloc, behind, labels, bound, left)?;
        fields.push((labels[place], value))?;
        from = place + 1;
        rest = after;
    }
    Ok((fields, rest))
}
