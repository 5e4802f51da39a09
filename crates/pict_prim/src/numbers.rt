// What the primitives answer on two numbers.

ghost use Rattle.std.specs.Prelude.{◌≡◌, ◌≢◌, ◌↔◌, IsTrue, ◌+ℤ◌, ◌-ℤ◌, ◌*ℤ◌, pos, int_div, Some, option_map};
ghost use Rattle.std.specs.Int.{w64, int_wrap};
ghost use Rattle.pict_core.specs.Plain.{plain_val};
ghost use Rattle.pict_core.specs.Term.{Val};
ghost use Rattle.pict_prim.specs.Calculated.{effect_calculated};
ghost use Rattle.pict_prim.specs.ValueDone.{Attempts};
ghost use Rattle.pict_prim.specs.Families.{IsSum, IsProduct, IsComparison, IsGreater, int_effect};
ghost use Rattle.pict_prim.specs.declared.numbers.Calculated.TheVariants as calculated;
ghost use Rattle.pict_syntax.specs.declared.primitive.Primitive.TheVariants.{Divide, Remainder};

use crate::outcome::{ValueDone, answer};
use pict_core::CoreVal;
use pict_syntax::Prim;
use std::alloc::{AllocError, Global};

/// What is calculated from two numbers.
#[derive(Clone, Copy)]
pub enum Calculated {
    /// A number.
    Number(i64),
    /// A truth value.
    Truth(bool),
    /// The divisor is zero.
    ZeroDivisor,
}

// The sum, wrapped.
#[inline(always)]
fn sum(a: i64, b: i64) -> i64
    ensures { result ≡ int_wrap w64 (a +ℤ b) }
{
    a.wrapping_add(b)
}

// The difference, wrapped.
#[inline(always)]
fn difference(a: i64, b: i64) -> i64
    ensures { result ≡ int_wrap w64 (a -ℤ b) }
{
    a.wrapping_sub(b)
}

// The product, wrapped.
#[inline(always)]
fn product(a: i64, b: i64) -> i64
    ensures { result ≡ int_wrap w64 (a *ℤ b) }
{
    a.wrapping_mul(b)
}

// The quotient, truncated toward zero and wrapped.
#[inline(always)]
fn quotient(a: i64, b: i64) -> i64
    requires { b ≢ pos 0 }
    ensures { result ≡ int_wrap w64 (int_div a b) }
{
    a.wrapping_div(b)
}

// Whether it is `+` or `-`.
//
// Primitives are told apart by this and the next three first, so that each `match` behind them has few arms: the compiler makes
// comparisons of them then, which a processor foresees better than a jump through a table. They are no `inline(always)`: compiled by
// itself each is one comparison or two.
#[inline]
fn is_sum(p: Prim) -> bool
    ensures { IsTrue result ↔ IsSum p }
{
    match p {
        Prim::Add | Prim::Subtract => true,
        _ => false,
    }
}

// Whether it is `*`, `div` or `mod`.
#[inline]
fn is_product(p: Prim) -> bool
    ensures { IsTrue result ↔ IsProduct p }
{
    match p {
        Prim::Multiply | Prim::Divide | Prim::Remainder => true,
        _ => false,
    }
}

// Whether it compares two numbers.
#[inline]
fn is_comparison(p: Prim) -> bool
    ensures { IsTrue result ↔ IsComparison p }
{
    match p {
        Prim::Equal | Prim::Less | Prim::AtMost | Prim::Greater | Prim::AtLeast => true,
        _ => false,
    }
}

// Whether it is `>>` or `>=`.
#[inline]
fn is_greater(p: Prim) -> bool
    ensures { IsTrue result ↔ IsGreater p }
{
    match p {
        Prim::Greater | Prim::AtLeast => true,
        _ => false,
    }
}

// What a comparison answers.
#[inline(always)]
fn compare(p: Prim, a: i64, b: i64) -> bool
    requires { IsComparison p }
    ensures { (k : Val) → Some (effect_calculated k (calculated.Truth result)) ≡ int_effect p a b k }
{
    if is_greater(p) {
        match p {
            Prim::Greater => a > b,
            Prim::AtLeast => a >= b,
            _ => unreachable!(),
        }
    } else {
        match p {
            Prim::Equal => a == b,
            Prim::Less => a < b,
            Prim::AtMost => a <= b,
            _ => unreachable!(),
        }
    }
}

/// What the primitive calculates from two numbers; nothing where it takes other operands. Takes no memory.
#[inline(always)]
pub fn calculate(p: Prim, a: i64, b: i64) -> Option<Calculated>
    ensures { (k : Val) → option_map (effect_calculated k) result ≡ int_effect p a b k }
{
    if is_sum(p) {
        match p {
            Prim::Add => Some(Calculated::Number(sum(a, b))),
            Prim::Subtract => Some(Calculated::Number(difference(a, b))),
            _ => unreachable!(),
        }
    } else if is_comparison(p) {
        Some(Calculated::Truth(compare(p, a, b)))
    } else if is_product(p) {
        match p {
            Prim::Multiply => Some(Calculated::Number(product(a, b))),
            Prim::Divide => Some(divide(a, b)),
            Prim::Remainder => Some(take_remainder(a, b)),
            _ => unreachable!(),
        }
    } else {
        None
    }
}

#[inline(always)]
fn divide(a: i64, b: i64) -> Calculated
    ensures { (k : Val) → Some (effect_calculated k result) ≡ int_effect Divide a b k }
{
    if b == 0 {
        Calculated::ZeroDivisor
    } else {
        Calculated::Number(quotient(a, b))
    }
}

#[inline(always)]
fn take_remainder(a: i64, b: i64) -> Calculated
    ensures { (k : Val) → Some (effect_calculated k result) ≡ int_effect Remainder a b k }
{
    if b == 0 {
        Calculated::ZeroDivisor
    } else {
        Calculated::Number(a.wrapping_rem(b))
    }
}

/// What the primitive does to two numbers, answering at `k`; nothing where it takes other operands.
pub fn act_on_numbers(
    alloc: Global,
    p: Prim,
    a: i64,
    b: i64,
    k: &CoreVal,
) -> Result<Option<ValueDone>, AllocError>
    ensures { Attempts result (int_effect p a b (plain_val k.now)) }
{
    match calculate(p, a, b) {
        None => Ok(None),
        Some(calculated) => answer_calculated(alloc, k, calculated),
    }
}

fn answer_calculated(
    alloc: Global,
    k: &CoreVal,
    calculated: Calculated,
) -> Result<Option<ValueDone>, AllocError>
    ensures { Attempts result (Some (effect_calculated (plain_val k.now) calculated)) }
{
    match calculated {
        Calculated::Number(n) => answer(alloc, k, CoreVal::Int(n)),
        Calculated::Truth(b) => answer(alloc, k, CoreVal::Bool(b)),
        Calculated::ZeroDivisor => Ok(Some(ValueDone::ZeroDivisor)),
    }
}
