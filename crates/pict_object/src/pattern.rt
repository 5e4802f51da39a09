// Patterns read from the bytes of an object, and how many variables one binds.

ghost use Rattle.std.specs.Prelude.{◌≡◌, ◌-◌, ◌^◌, min, map};
ghost use Rattle.pict_core.specs.Plain.{plain_pat, plain_pat_field, pats_of, labelled_pats_of};
ghost use Rattle.pict_core.specs.Closed.{binds, binds_all, binds_labelled};
ghost use Rattle.pict_object.specs.Reading.{GivesReading, record_pattern_at, pattern_at, counted_at, labelled_at};

use crate::error::DecodeError;
use crate::front::{read_byte, read_count, read_label};
use pict_core::CorePat;
use pict_syntax::Name;
use std::alloc::Global;

/// The pattern at the front, with at most `left` records in one another, and what is behind it.
#[cycle(read_pattern)]
pub(crate) fn read_pattern<'a>(
    alloc: Global,
    bytes: &'a [u8],
    labels: &[Name],
    left: u32,
) -> Result<(CorePat, &'a [u8]), DecodeError>
    ensures { GivesReading (λ x. (plain_pat x.0, x.1.now)) result (pattern_at labels.now left bytes.now) }
{
    let (tag, rest) = read_byte(bytes)?;
    match tag {
        0x20 => Ok((CorePat::Bind, rest)),
        0x21 => Ok((CorePat::Any, rest)),
        0x22 => {
            if left == 0 {
                return Err(DecodeError::NotObject);
            }
            read_record(alloc, rest, labels, left - 1)
        }
        _ => Err(DecodeError::NotObject),
    }
}

// A record behind its tag, with at most `left` records in one another in each of its fields.
#[cycle(read_pattern)]
#[tactic(auto, unfolding(crate::specs::Reading::record_pattern_at))]
fn read_record<'a>(
    alloc: Global,
    bytes: &'a [u8],
    labels: &[Name],
    left: u32,
) -> Result<(CorePat, &'a [u8]), DecodeError>
    ensures { GivesReading (λ x. (plain_pat x.0, x.1.now)) result (record_pattern_at labels.now (pattern_at labels.now left) bytes.now) }
{
    let (positional, rest) = read_patterns(alloc, bytes, labels, left)?;
    let (labelled, rest) = read_pattern_fields(alloc, rest, labels, left)?;
    let record = CorePat::Fields {
        positional,
        labelled,
    };
    Ok((record, rest))
}

// Patterns behind their count.
#[cycle(read_pattern)]
fn read_patterns<'a>(
    alloc: Global,
    bytes: &'a [u8],
    labels: &[Name],
    left: u32,
) -> Result<(Vec<CorePat>, &'a [u8]), DecodeError>
    ensures { GivesReading (λ x. (map plain_pat x.0.items, x.1.now)) result (counted_at (pattern_at labels.now left) bytes.now) }
{
    let (count, first) = read_count(bytes)?;
    let mut patterns = Vec::new(alloc);
    let mut rest = first;
    for _ in 0..count {
        let (pattern, after) = read_pattern(alloc, rest, labels, left)?;
        patterns.push(pattern)?;
        rest = after;
    }
    Ok((patterns, rest))
}

// Patterns behind the places of their labels, which go up, and all behind their count.
#[cycle(read_pattern)]
fn read_pattern_fields<'a>(
    alloc: Global,
    bytes: &'a [u8],
    labels: &[Name],
    left: u32,
) -> Result<(Vec<(Name, CorePat)>, &'a [u8]), DecodeError>
    ensures { GivesReading (λ x. (map plain_pat_field x.0.items, x.1.now)) result (labelled_at labels.now (pattern_at labels.now left) bytes.now) }
{
    let (count, first) = read_count(bytes)?;
    let mut fields = Vec::new(alloc);
    let mut from = 0;
    let mut rest = first;
    for _ in 0..count {
        let (place, behind) = read_label(rest, labels, from)?;
        let (pattern, after) = read_pattern(alloc, behind, labels, left)?;
        fields.push((labels[place], pattern))?;
        from = place + 1;
        rest = after;
    }
    Ok((fields, rest))
}

/// How many variables a pattern binds. Held at the greatest `u64`.
#[cycle(variables)]
pub(crate) fn variables(pattern: &CorePat) -> u64
    ensures { result ≡ min (binds (plain_pat pattern.now)) (2 ^ 64 - 1) }
{
    match pattern {
        CorePat::Bind => 1,
        CorePat::Any => 0,
        CorePat::Fields {
            positional,
            labelled,
        } => variables_in(positional).saturating_add(variables_in_fields(labelled)),
    }
}

#[cycle(variables)]
fn variables_in(patterns: &[CorePat]) -> u64
    ensures { result ≡ min (binds_all (pats_of (map plain_pat patterns.now))) (2 ^ 64 - 1) }
{
    let mut count: u64 = 0;
    for pattern in patterns {
        count = count.saturating_add(variables(pattern));
    }
    count
}

#[cycle(variables)]
fn variables_in_fields(fields: &[(Name, CorePat)]) -> u64
    ensures { result ≡ min (binds_labelled (labelled_pats_of (map plain_pat_field fields.now))) (2 ^ 64 - 1) }
{
    let mut count: u64 = 0;
    for field in fields {
        count = count.saturating_add(variables(&field.1));
    }
    count
}
