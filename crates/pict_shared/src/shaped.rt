// Processes with what is quick to compare: a number for their form, and the channels that they name.

ghost use Rattle.std.specs.Prelude.{◌≡◌, IfOk};

use pict_core::{Core, CorePat, CoreVal};
use pict_syntax::{Name, Span};
use std::alloc::{AllocError, Global};

/// A process, with a number for its form, whatever its channels are, and the channels that it names, in order, each as
/// often as it is named.
#[derive(Drop)]
pub struct Shaped {
    /// The process.
    pub core: Core,
    /// Meant to be the same for processes that differ in their channels alone; nothing is promised of it.
    pub shape: u64,
    /// The channels in the order of reading.
    pub channels: Vec<u32>,
}

impl Shaped {
    /// The process with its form and its channels. The only error is want of memory.
    pub fn of(alloc: Global, core: Core) -> Result<Shaped, AllocError>
        ensures { IfOk result (λ s. s.core ≡ core) }
    {
        let mut channels = Vec::new(alloc);
        let shape = mix_core(&core, 0, &mut channels)?;
        Ok(Shaped {
            core,
            shape,
            channels,
        })
    }
}

/// One more number in a running one, so that sequences that differ mostly differ in it.
pub fn mix(running: u64, more: u64) -> u64 {
    let turned = (running ^ (running >> 29)).wrapping_mul(0x9E37_79B9_7F4A_7C15);
    (turned ^ more).wrapping_mul(0xBF58_476D_1CE4_E5B9)
}

fn mix_bytes(bytes: &[u8], running: u64) -> u64 {
    let mut mixed = mix(running, bytes.len() as u64);
    for byte in bytes {
        mixed = mix(mixed, u64::from(*byte));
    }
    mixed
}

fn bit(b: bool) -> u64 {
    if b { 1 } else { 0 }
}

fn mix_number(number: i64, running: u64) -> u64 {
    mix(mix(running, bit(number < 0)), number.unsigned_abs())
}

fn mix_place(place: Span, running: u64) -> u64 {
    let begun = mix(mix(running, u64::from(place.text)), u64::from(place.start));
    mix(begun, u64::from(place.end))
}

#[cycle(mix_value)]
fn mix_value(value: &CoreVal, running: u64, channels: &mut Vec<u32>) -> Result<u64, AllocError> {
    match value {
        CoreVal::Var(level) => Ok(mix(mix(running, 1), u64::from(*level))),
        CoreVal::Chan(number) => {
            channels.push(*number)?;
            Ok(mix(running, 2))
        }
        CoreVal::Int(n) => Ok(mix_number(*n, mix(running, 3))),
        CoreVal::Char(byte) => Ok(mix(mix(running, 4), u64::from(*byte))),
        CoreVal::Bool(b) => Ok(mix(mix(running, 5), bit(*b))),
        CoreVal::Text(bytes) => Ok(mix_bytes(bytes.slice(), mix(running, 6))),
        CoreVal::Prim(p) => Ok(mix_bytes(p.name(), mix(running, 7))),
        CoreVal::Fields {
            positional,
            labelled,
        } => {
            let mixed = mix_values(positional, mix(running, 8), channels)?;
            mix_fields(labelled, mixed, channels)
        }
    }
}

#[cycle(mix_value)]
fn mix_values(
    values: &[CoreVal],
    running: u64,
    channels: &mut Vec<u32>,
) -> Result<u64, AllocError> {
    let mut mixed = mix(running, values.len() as u64);
    for value in values {
        mixed = mix_value(value, mixed, channels)?;
    }
    Ok(mixed)
}

#[cycle(mix_value)]
fn mix_fields(
    fields: &[(Name, CoreVal)],
    running: u64,
    channels: &mut Vec<u32>,
) -> Result<u64, AllocError> {
    let mut mixed = mix(running, fields.len() as u64);
    for field in fields {
        mixed = mix_value(&field.1, mix(mixed, u64::from(field.0.0)), channels)?;
    }
    Ok(mixed)
}

#[cycle(mix_pattern)]
fn mix_pattern(pattern: &CorePat, running: u64) -> u64 {
    match pattern {
        CorePat::Bind => mix(running, 1),
        CorePat::Any => mix(running, 2),
        CorePat::Fields {
            positional,
            labelled,
        } => mix_pattern_fields(labelled, mix_patterns(positional, mix(running, 3))),
    }
}

#[cycle(mix_pattern)]
fn mix_patterns(patterns: &[CorePat], running: u64) -> u64 {
    let mut mixed = mix(running, patterns.len() as u64);
    for pattern in patterns {
        mixed = mix_pattern(pattern, mixed);
    }
    mixed
}

#[cycle(mix_pattern)]
fn mix_pattern_fields(fields: &[(Name, CorePat)], running: u64) -> u64 {
    let mut mixed = mix(running, fields.len() as u64);
    for field in fields {
        mixed = mix_pattern(&field.1, mix(mixed, u64::from(field.0.0)));
    }
    mixed
}

fn mix_core(core: &Core, running: u64, channels: &mut Vec<u32>) -> Result<u64, AllocError> {
    match core {
        Core::Zero => Ok(mix(running, 1)),
        Core::Par(left, right) => {
            let mixed = mix_core(left.core(), mix(running, 2), channels)?;
            mix_core(right.core(), mixed, channels)
        }
        Core::New(body) => mix_core(body.core(), mix(running, 3), channels),
        Core::Out { chan, message, at } => {
            let mixed = mix_value(chan, mix_place(*at, mix(running, 4)), channels)?;
            mix_value(message, mixed, channels)
        }
        Core::In {
            chan,
            replicated,
            pattern,
            body,
        } => {
            let mixed = mix_value(chan, mix(mix(running, 5), bit(*replicated)), channels)?;
            mix_core(body.core(), mix_pattern(pattern, mixed), channels)
        }
        Core::If { test, yes, no } => {
            let mixed = mix_value(test, mix(running, 6), channels)?;
            let mixed = mix_core(yes.core(), mixed, channels)?;
            mix_core(no.core(), mixed, channels)
        }
    }
}
