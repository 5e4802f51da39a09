// What the primitives answer on strings and other single operands.

ghost use Rattle.std.specs.Prelude.{◌≡◌, pos, ◌++◌, length, unsigned_abs, not, IfOk, Some, List, ℕ};
ghost use Rattle.std.specs.Int.{int_rem_euclid};
ghost use Rattle.std.specs.Fmt.{signed_decimal};
ghost use Rattle.pict_core.specs.Term.{Int, Char, Text, Boolean, Record, no_vals, no_labelled};
ghost use Rattle.pict_core.specs.Plain.{plain_val};
ghost use Rattle.pict_core.specs.Primitives.{Answer, answers, prints, at_int, at_char, at_bool, at_text, byte_at};
ghost use Rattle.pict_prim.specs.ValueDone.{Attempts};

use crate::outcome::{ValueDone, answer};
use itoa::Buffer;
use pict_core::CoreVal;
use pict_syntax::Bytes;
use std::alloc::{AllocError, Global};

/// The decimal text of a number. The only error is want of memory.
pub fn decimal(alloc: Global, n: i64) -> Result<Bytes, AllocError>
    ensures { IfOk result (λ bytes. bytes ≡ signed_decimal n) }
{
    let mut buffer = Buffer::new();
    Bytes::copy_of(alloc, buffer.format(n).as_bytes())
}

// Both strings, one after the other.
fn joined(alloc: Global, front: &[u8], back: &[u8]) -> Result<Bytes, AllocError>
    ensures { IfOk result (λ bytes. bytes ≡ front.now ++ back.now) }
{
    let mut both = Vec::from_slice(alloc, front)?;
    both.extend_from_slice(back)?;
    Bytes::copy_of(alloc, &both)
}

/// The byte at an index from 0, or -1 out of range. Takes no memory.
pub fn byte(bytes: &[u8], index: i64) -> i64
    ensures { result ≡ byte_at bytes.now index }
{
    if index < 0 {
        return -1;
    }
    match bytes.get(index as usize) {
        None => -1,
        Some(byte) => *byte as i64,
    }
}

/// `print`: the string is printed. `None` where the argument is no string.
pub fn print(alloc: Global, argument: &CoreVal) -> Result<Option<ValueDone>, AllocError>
    ensures { Attempts result (at_text (plain_val argument.now) prints) }
{
    match argument {
        CoreVal::Text(bytes) => Ok(Some(ValueDone::Printed(CoreVal::Text(bytes.copy(alloc)?)))),
        _ => Ok(None),
    }
}

/// `printi`: the number is printed in decimal. `None` where the argument is no number.
pub fn print_number(argument: &CoreVal) -> Result<Option<ValueDone>, AllocError>
    ensures { Attempts result (at_int (plain_val argument.now) (λ n. prints (signed_decimal n))) }
{
    match argument {
        CoreVal::Int(n) => Ok(Some(ValueDone::Printed(CoreVal::Int(*n)))),
        _ => Ok(None),
    }
}

/// `pr`: the string is printed, and the empty record is answered at `k`.
pub fn print_and_answer(
    alloc: Global,
    text: &CoreVal,
    k: &CoreVal,
) -> Result<Option<ValueDone>, AllocError>
    ensures { Attempts result (at_text (plain_val text.now)
        (λ bytes. Some (record { printed = Some bytes; leaves = Answer (plain_val k.now) (Record no_vals no_labelled) }))) }
{
    match text {
        CoreVal::Text(bytes) => {
            let bytes = bytes.copy(alloc)?;
            let unit = CoreVal::Fields {
                positional: Vec::new(alloc),
                labelled: Vec::new(alloc),
            };
            Ok(Some(ValueDone::PrintedAnswer(CoreVal::Text(bytes), k.copy(alloc)?, unit)))
        }
        _ => Ok(None),
    }
}

/// `chr`: the character of the number's remainder by 256, from 0 on.
pub fn chr(alloc: Global, n: &CoreVal, k: &CoreVal) -> Result<Option<ValueDone>, AllocError>
    ensures { Attempts result (at_int (plain_val n.now) (λ a. answers (plain_val k.now) (Char (unsigned_abs (int_rem_euclid a (pos 256)))))) }
{
    match n {
        CoreVal::Int(a) => answer(alloc, k, CoreVal::Char(a.rem_euclid(256) as u8)),
        _ => Ok(None),
    }
}

/// `ord`: the number of the character.
pub fn ord(alloc: Global, c: &CoreVal, k: &CoreVal) -> Result<Option<ValueDone>, AllocError>
    ensures { Attempts result (at_char (plain_val c.now) (λ byte. answers (plain_val k.now) (Int (pos byte)))) }
{
    match c {
        CoreVal::Char(byte) => answer(alloc, k, CoreVal::Int(*byte as i64)),
        _ => Ok(None),
    }
}

/// `intstr`: the decimal text of the number.
pub fn intstr(alloc: Global, n: &CoreVal, k: &CoreVal) -> Result<Option<ValueDone>, AllocError>
    ensures { Attempts result (at_int (plain_val n.now) (λ a. answers (plain_val k.now) (Text (signed_decimal a)))) }
{
    match n {
        CoreVal::Int(a) => answer(alloc, k, CoreVal::Text(decimal(alloc, *a)?)),
        _ => Ok(None),
    }
}

/// `size`: how many bytes the string has.
pub fn size(alloc: Global, text: &CoreVal, k: &CoreVal) -> Result<Option<ValueDone>, AllocError>
    ensures { Attempts result (at_text (plain_val text.now) (λ bytes. answers (plain_val k.now) (Int (pos (length bytes))))) }
{
    match text {
        CoreVal::Text(bytes) => answer(alloc, k, CoreVal::Int(bytes.slice().len() as i64)),
        _ => Ok(None),
    }
}

/// `not`: the other truth value.
pub fn negate(alloc: Global, b: &CoreVal, k: &CoreVal) -> Result<Option<ValueDone>, AllocError>
    ensures { Attempts result (at_bool (plain_val b.now) (λ c. answers (plain_val k.now) (Boolean (not c)))) }
{
    match b {
        CoreVal::Bool(c) => answer(alloc, k, CoreVal::Bool(!*c)),
        _ => Ok(None),
    }
}

/// `+$`: both strings, one after the other.
pub fn join(
    alloc: Global,
    s: &CoreVal,
    t: &CoreVal,
    k: &CoreVal,
) -> Result<Option<ValueDone>, AllocError>
    ensures { Attempts result (at_text (plain_val s.now)
        (λ front. at_text (plain_val t.now) (λ back. answers (plain_val k.now) (Text (front ++ back))))) }
{
    match s {
        CoreVal::Text(front) => match t {
            CoreVal::Text(back) => answer(
                alloc,
                k,
                CoreVal::Text(joined(alloc, front.slice(), back.slice())?),
            ),
            _ => Ok(None),
        },
        _ => Ok(None),
    }
}

/// `nth`: the byte at an index from 0, as a number, or -1 out of range.
pub fn nth(
    alloc: Global,
    s: &CoreVal,
    n: &CoreVal,
    k: &CoreVal,
) -> Result<Option<ValueDone>, AllocError>
    ensures { Attempts result (at_text (plain_val s.now)
        (λ bytes. at_int (plain_val n.now) (λ index. answers (plain_val k.now) (Int (byte_at bytes index))))) }
{
    match s {
        CoreVal::Text(bytes) => match n {
            CoreVal::Int(index) => answer(alloc, k, CoreVal::Int(byte(bytes.slice(), *index))),
            _ => Ok(None),
        },
        _ => Ok(None),
    }
}
