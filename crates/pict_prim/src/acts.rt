// A primitive acts on a core value.

ghost use Rattle.std.specs.Prelude.{◌≡◌, IfOk, IfSome, option_map};
ghost use Rattle.pict_core.specs.Plain.{plain_val};
ghost use Rattle.pict_core.specs.Primitives.{effect_of, at_int, at_two, at_three};
ghost use Rattle.pict_prim.specs.ValueDone.{effect_value_done, PrintsText, Attempts};
ghost use Rattle.pict_prim.specs.Families.{int_effect, one_effect, simple_effect, two_effect};

use crate::numbers::act_on_numbers;
use crate::operands::{three_fields, two_fields};
use crate::outcome::ValueDone;
use crate::texts::{
    chr, intstr, join, negate, nth, ord, print, print_and_answer, print_number, size,
};
use pict_core::CoreVal;
use pict_syntax::{Operands, Prim};
use std::alloc::{AllocError, Global};

/// What the primitive does to the argument. `None` exactly where the argument has not the primitive's shape, and
/// `ZeroDivisor` exactly where the divisor is zero. The only error is want of memory.
pub fn attempt_on_value(
    alloc: Global,
    p: Prim,
    argument: &CoreVal,
) -> Result<Option<ValueDone>, AllocError>
    ensures effect { IfOk result (λ done. option_map effect_value_done done ≡ effect_of p (plain_val argument.now)) }
    ensures printed { IfOk result (λ done. IfSome done PrintsText) }
{
    match p.operands() {
        Operands::Alone(_) => attempt_simple(alloc, p, argument),
        Operands::One(..) => attempt_one(alloc, p, argument),
        Operands::Two(..) => attempt_two(alloc, p, argument),
    }
}

// On an argument that is no record.
fn attempt_simple(
    alloc: Global,
    p: Prim,
    argument: &CoreVal,
) -> Result<Option<ValueDone>, AllocError>
    ensures { Attempts result (simple_effect p (plain_val argument.now)) }
{
    match p {
        Prim::Print => print(alloc, argument),
        Prim::Printi => print_number(argument),
        _ => Ok(None),
    }
}

// On a record of one operand and where to send.
fn attempt_one(alloc: Global, p: Prim, argument: &CoreVal) -> Result<Option<ValueDone>, AllocError>
    ensures { Attempts result (at_two (plain_val argument.now) (one_effect p)) }
{
    match two_fields(argument) {
        None => Ok(None),
        Some((v, k)) => act_on_one(alloc, p, v, k),
    }
}

fn act_on_one(
    alloc: Global,
    p: Prim,
    v: &CoreVal,
    k: &CoreVal,
) -> Result<Option<ValueDone>, AllocError>
    ensures { Attempts result (one_effect p (plain_val v.now) (plain_val k.now)) }
{
    match p {
        Prim::Pr => print_and_answer(alloc, v, k),
        Prim::Chr => chr(alloc, v, k),
        Prim::Ord => ord(alloc, v, k),
        Prim::Intstr => intstr(alloc, v, k),
        Prim::Size => size(alloc, v, k),
        Prim::Not => negate(alloc, v, k),
        _ => Ok(None),
    }
}

// On a record of two operands and where to send.
fn attempt_two(alloc: Global, p: Prim, argument: &CoreVal) -> Result<Option<ValueDone>, AllocError>
    ensures { Attempts result (at_three (plain_val argument.now) (two_effect p)) }
{
    match three_fields(argument) {
        None => Ok(None),
        Some((v, w, k)) => act_on_two(alloc, p, v, w, k),
    }
}

fn act_on_two(
    alloc: Global,
    p: Prim,
    v: &CoreVal,
    w: &CoreVal,
    k: &CoreVal,
) -> Result<Option<ValueDone>, AllocError>
    ensures { Attempts result (two_effect p (plain_val v.now) (plain_val w.now) (plain_val k.now)) }
{
    match p {
        Prim::Join => join(alloc, v, w, k),
        Prim::Nth => nth(alloc, v, w, k),
        _ => act_on_operands(alloc, p, v, w, k),
    }
}

// On two operands that are to be numbers.
fn act_on_operands(
    alloc: Global,
    p: Prim,
    v: &CoreVal,
    w: &CoreVal,
    k: &CoreVal,
) -> Result<Option<ValueDone>, AllocError>
    ensures { Attempts result (at_int (plain_val v.now) (λ a. at_int (plain_val w.now) (λ b. int_effect p a b (plain_val k.now)))) }
{
    match v {
        CoreVal::Int(a) => match w {
            CoreVal::Int(b) => act_on_numbers(alloc, p, *a, *b, k),
            _ => Ok(None),
        },
        _ => Ok(None),
    }
}
