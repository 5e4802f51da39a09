// Whether a process is another one once its channels are renamed.

ghost use Rattle.std.specs.Prelude.{◌≡◌, IsTrue, map};
ghost use Rattle.pict_core.specs.Plain.{plain_core, plain_val, plain_field, plain_pat, plain_pat_field};
ghost use Rattle.pict_core.specs.Substitution.{replace, replace_value};
ghost use Rattle.pict_core.specs.Term.{Var, Chan, Int, Char, Boolean, Text, PrimitiveVal, Out};
ghost use Rattle.pict_shared.specs.Alike.{through, renaming_by, renamed_field, SameHead};

use pict_core::{Core, CorePat, CoreVal};
use pict_syntax::{Name, Prim, Span};

/// The channel's new name, by a list of them; a channel past its end keeps its own.
pub fn renamed(names: &[u32], channel: u32) -> u32
    ensures { result ≡ through names.now channel }
{
    let index = channel as usize;
    if index < names.len() {
        names[index]
    } else {
        channel
    }
}

fn same_bytes(one: &[u8], other: &[u8]) -> bool
    ensures { IsTrue result → one.now ≡ other.now }
{
    one == other
}

fn same_number(one: i64, other: &CoreVal) -> bool
    ensures { IsTrue result → plain_val other.now ≡ Int one }
{
    match other {
        CoreVal::Int(n) => one == *n,
        _ => false,
    }
}

fn same_variable(one: u32, other: &CoreVal) -> bool
    ensures { IsTrue result → plain_val other.now ≡ Var one }
{
    match other {
        CoreVal::Var(level) => one == *level,
        _ => false,
    }
}

fn same_channel(one: u32, other: &CoreVal) -> bool
    ensures { IsTrue result → plain_val other.now ≡ Chan one }
{
    match other {
        CoreVal::Chan(number) => one == *number,
        _ => false,
    }
}

fn same_char(one: u8, other: &CoreVal) -> bool
    ensures { IsTrue result → plain_val other.now ≡ Char one }
{
    match other {
        CoreVal::Char(byte) => one == *byte,
        _ => false,
    }
}

fn same_truth(one: bool, other: &CoreVal) -> bool
    ensures { IsTrue result → plain_val other.now ≡ Boolean one }
{
    match other {
        CoreVal::Bool(b) => one == *b,
        _ => false,
    }
}

fn same_text(one: &[u8], other: &CoreVal) -> bool
    ensures { IsTrue result → plain_val other.now ≡ Text one.now }
{
    match other {
        CoreVal::Text(bytes) => same_bytes(one, bytes.slice()),
        _ => false,
    }
}

fn same_primitive(one: Prim, other: &CoreVal) -> bool
    ensures { IsTrue result → plain_val other.now ≡ PrimitiveVal one }
{
    match other {
        CoreVal::Prim(p) => one == *p,
        _ => false,
    }
}

#[cycle(same_value)]
fn same_value(names: &[u32], one: &CoreVal, other: &CoreVal) -> bool
    ensures { IsTrue result → replace_value (renaming_by names.now) (plain_val one.now) ≡ plain_val other.now }
{
    match one {
        CoreVal::Var(level) => same_variable(*level, other),
        CoreVal::Chan(number) => same_channel(renamed(names, *number), other),
        CoreVal::Int(n) => same_number(*n, other),
        CoreVal::Char(byte) => same_char(*byte, other),
        CoreVal::Bool(b) => same_truth(*b, other),
        CoreVal::Text(bytes) => same_text(bytes.slice(), other),
        CoreVal::Prim(p) => same_primitive(*p, other),
        CoreVal::Fields {
            positional,
            labelled,
        } => match other {
            CoreVal::Fields {
                positional: values,
                labelled: fields,
            } => {
                if !same_values(names, positional, values) {
                    return false;
                }
                same_fields(names, labelled, fields)
            }
            _ => false,
        },
    }
}

#[cycle(same_value)]
fn same_values(names: &[u32], ones: &[CoreVal], others: &[CoreVal]) -> bool
    ensures { IsTrue result → map (λ v. replace_value (renaming_by names.now) (plain_val v)) ones.now ≡ map plain_val others.now }
{
    if ones.len() != others.len() {
        return false;
    }
    for i in 0..ones.len() {
        if !same_value(names, &ones[i], &others[i]) {
            return false;
        }
    }
    true
}

#[cycle(same_value)]
fn same_fields(names: &[u32], ones: &[(Name, CoreVal)], others: &[(Name, CoreVal)]) -> bool
    ensures { IsTrue result → map (renamed_field names.now) ones.now ≡ map plain_field others.now }
{
    if ones.len() != others.len() {
        return false;
    }
    for i in 0..ones.len() {
        if ones[i].0.0 != others[i].0.0 {
            return false;
        }
        if !same_value(names, &ones[i].1, &others[i].1) {
            return false;
        }
    }
    true
}

#[cycle(same_pattern)]
fn same_pattern(one: &CorePat, other: &CorePat) -> bool
    ensures { IsTrue result → plain_pat one.now ≡ plain_pat other.now }
{
    match one {
        CorePat::Bind => match other {
            CorePat::Bind => true,
            _ => false,
        },
        CorePat::Any => match other {
            CorePat::Any => true,
            _ => false,
        },
        CorePat::Fields {
            positional,
            labelled,
        } => match other {
            CorePat::Fields {
                positional: patterns,
                labelled: fields,
            } => {
                if !same_patterns(positional, patterns) {
                    return false;
                }
                same_pattern_fields(labelled, fields)
            }
            _ => false,
        },
    }
}

#[cycle(same_pattern)]
fn same_patterns(ones: &[CorePat], others: &[CorePat]) -> bool
    ensures { IsTrue result → map plain_pat ones.now ≡ map plain_pat others.now }
{
    if ones.len() != others.len() {
        return false;
    }
    for i in 0..ones.len() {
        if !same_pattern(&ones[i], &others[i]) {
            return false;
        }
    }
    true
}

#[cycle(same_pattern)]
fn same_pattern_fields(ones: &[(Name, CorePat)], others: &[(Name, CorePat)]) -> bool
    ensures { IsTrue result → map plain_pat_field ones.now ≡ map plain_pat_field others.now }
{
    if ones.len() != others.len() {
        return false;
    }
    for i in 0..ones.len() {
        if ones[i].0.0 != others[i].0.0 {
            return false;
        }
        if !same_pattern(&ones[i].1, &others[i].1) {
            return false;
        }
    }
    true
}

fn same_place(one: Span, other: Span) -> bool
    ensures { IsTrue result → one ≡ other }
{
    if one.text != other.text {
        return false;
    }
    if one.start != other.start {
        return false;
    }
    one.end == other.end
}

fn same_out(names: &[u32], chan: &CoreVal, message: &CoreVal, at: Span, other: &Core) -> bool
    ensures { IsTrue result → Out (replace_value (renaming_by names.now) (plain_val chan.now))
        (replace_value (renaming_by names.now) (plain_val message.now)) at ≡ plain_core other.now }
{
    match other {
        Core::Out {
            chan: subject,
            message: value,
            at: place,
        } => {
            if !same_value(names, chan, subject) {
                return false;
            }
            if !same_value(names, message, value) {
                return false;
            }
            same_place(at, *place)
        }
        _ => false,
    }
}

// Whether the other is an input that differs in its body alone.
fn same_head(
    names: &[u32],
    chan: &CoreVal,
    replicated: bool,
    pattern: &CorePat,
    other: &Core,
) -> bool
    ensures { IsTrue result → SameHead (replace_value (renaming_by names.now) (plain_val chan.now))
        replicated (plain_pat pattern.now) (plain_core other.now) }
{
    match other {
        Core::In {
            chan: subject,
            replicated: again,
            pattern: shape,
            ..
        } => {
            if replicated != *again {
                return false;
            }
            if !same_value(names, chan, subject) {
                return false;
            }
            same_pattern(pattern, shape)
        }
        _ => false,
    }
}

/// Whether the process is the other one once its channels are renamed by a list of their new names. Takes no memory.
pub fn same_core(names: &[u32], one: &Core, other: &Core) -> bool
    ensures { IsTrue result → replace (renaming_by names.now) (plain_core one.now) ≡ plain_core other.now }
{
    match one {
        Core::Zero => match other {
            Core::Zero => true,
            _ => false,
        },
        Core::Par(left, right) => match other {
            Core::Par(first, second) => {
                if !same_core(names, left.core(), first.core()) {
                    return false;
                }
                same_core(names, right.core(), second.core())
            }
            _ => false,
        },
        Core::New(body) => match other {
            Core::New(inner) => same_core(names, body.core(), inner.core()),
            _ => false,
        },
        Core::Out { chan, message, at } => same_out(names, chan, message, *at, other),
        Core::In {
            chan,
            replicated,
            pattern,
            body,
        } => match other {
            Core::In { body: inner, .. } => {
                if !same_head(names, chan, *replicated, pattern, other) {
                    return false;
                }
                same_core(names, body.core(), inner.core())
            }
            _ => false,
        },
        Core::If { test, yes, no } => match other {
            Core::If {
                test: condition,
                yes: first,
                no: second,
            } => {
                if !same_value(names, test, condition) {
                    return false;
                }
                if !same_core(names, yes.core(), first.core()) {
                    return false;
                }
                same_core(names, no.core(), second.core())
            }
            _ => false,
        },
    }
}
