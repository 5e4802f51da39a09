// Values of one kind, told by the first of their two words.
ghost use Rattle.std.specs.Prelude.{◌≡◌, Bool, length, if◌then◌else◌};
ghost use Rattle.pict_syntax.specs.declared.primitive.Primitive.{Primitive};
ghost use Rattle.pict_core.specs.Closed.{IsOver};
ghost use Rattle.pict_core.specs.Plain.{plain_val};
ghost use Rattle.pict_core.specs.Term.{Boolean};
ghost use Rattle.pict_heap.specs.HeapState.{HeapState};
ghost use Rattle.pict_desk.specs.Known.{value_in, known, operand_value};
ghost use Rattle.pict_desk.specs.AtHand.{channel_named, number_named, StandsForPrimitive};
ghost use Rattle.pict_desk.specs.Pairs.{IsPair, ArePairs};

use crate::desk::Desk;
use crate::operands::{is_common, word_at_hand};
use pict_code::Operand;
use pict_core::CoreVal;
use pict_heap::Word;
use pict_syntax::Prim;

// The first of the two words of a number.
const NUMBER: u64 = 0;

// The first of the two words of a channel.
const CHANNEL: u64 = 3;

/// The channel that these two words are, or None where they are no channel. Takes no memory.
#[inline(always)]
pub fn channel_of(pair: (u64, u64)) -> Option<u32>
    requires { (h : HeapState) × IsPair h pair }
    ensures { (h : HeapState) → IsPair h pair → result ≡ channel_named (value_in h pair.0 pair.1) }
{
    if pair.0 == CHANNEL {
        Some(pair.1 as u32)
    } else {
        None
    }
}

// The number that these two words are, or None where they are no number.
#[inline(always)]
fn number_of(pair: (u64, u64)) -> Option<i64>
    ensures { (h : HeapState) → IsPair h pair → result ≡ number_named (value_in h pair.0 pair.1) }
{
    if pair.0 == NUMBER {
        Some(pair.1.cast_signed())
    } else {
        None
    }
}

/// The truth value that these two words are. Takes no memory.
#[inline(always)]
pub fn is_true(pair: (u64, u64)) -> bool
    requires { (h : HeapState) × (b : Bool) × IsPair h pair × (value_in h pair.0 pair.1 ≡ Boolean b) }
    ensures { (h : HeapState) → IsPair h pair → value_in h pair.0 pair.1 ≡ Boolean result }
{
    pair.1 == 1
}

/// The channel that an operand stands for, or None where it stands for no channel. Each variable has the two words of its level
/// among `values`. Takes no memory.
#[inline(always)]
pub fn channel_at_hand(operand: &Operand, values: &[(u64, u64)]) -> Option<u32>
    requires over { IsOver (length values.now) 0 (plain_val operand.now) }
    requires pairs { (h : HeapState) × ArePairs h values.now }
    ensures { (h : HeapState) → ArePairs h values.now
        → result ≡ channel_named (operand_value (known h values.now) (plain_val operand.now)) }
{
    if is_common(operand) {
        match operand {
            CoreVal::Var(level) => channel_of(values[*level as usize]),
            CoreVal::Chan(number) => Some(*number),
            _ => None,
        }
    } else {
        None
    }
}

/// The number that an operand stands for, or None where it stands for no number. Each variable has the two words of its level
/// among `values`. Takes no memory.
#[inline(always)]
pub fn number_at_hand(operand: &Operand, values: &[(u64, u64)]) -> Option<i64>
    requires over { IsOver (length values.now) 0 (plain_val operand.now) }
    requires pairs { (h : HeapState) × ArePairs h values.now }
    ensures { (h : HeapState) → ArePairs h values.now
        → result ≡ number_named (operand_value (known h values.now) (plain_val operand.now)) }
{
    if is_common(operand) {
        match operand {
            CoreVal::Var(level) => number_of(values[*level as usize]),
            CoreVal::Int(n) => Some(*n),
            _ => None,
        }
    } else {
        None
    }
}

// The primitive that a variable stands for, which has the two words of its level among `values`.
#[inline(never)]
fn primitive_of_variable(operand: &Operand, values: &[(u64, u64)]) -> Prim
    requires over { IsOver (length values.now) 0 (plain_val operand.now) }
    requires is { (h : HeapState) × (p : Primitive) × StandsForPrimitive h values.now (plain_val operand.now) p }
    ensures { (h : HeapState) (p : Primitive) → StandsForPrimitive h values.now (plain_val operand.now) p → result ≡ p }
{
    match word_at_hand(operand, values) {
        Some(word) => match word {
            Word::Prim(p) => p,
            _ => unreachable!(),
        },
        None => unreachable!(),
    }
}

/// The primitive that an operand stands for. Each variable has the two words of its level among `values`. Takes no memory.
#[inline(always)]
pub fn primitive_at_hand(operand: &Operand, values: &[(u64, u64)]) -> Prim
    requires over { IsOver (length values.now) 0 (plain_val operand.now) }
    requires is { (h : HeapState) × (p : Primitive) × StandsForPrimitive h values.now (plain_val operand.now) p }
    ensures { (h : HeapState) (p : Primitive) → StandsForPrimitive h values.now (plain_val operand.now) p → result ≡ p }
{
    match operand {
        CoreVal::Prim(p) => *p,
        _ => primitive_of_variable(operand, values),
    }
}

// Whether the test of a conditional is true.
#[inline(always)]
fn holds(desk: &Desk, test: &Operand) -> bool
    requires over { IsOver (length desk.now.values.items) 0 (plain_val test.now) }
    requires pairs { ArePairs desk.now.heap desk.now.values.items }
    requires boolean { (b : Bool) × (operand_value (known desk.now.heap desk.now.values.items) (plain_val test.now) ≡ Boolean b) }
    ensures { operand_value (known desk.now.heap desk.now.values.items) (plain_val test.now) ≡ Boolean result }
{
    match test {
        CoreVal::Bool(b) => *b,
        CoreVal::Var(level) => is_true(desk.values[*level as usize]),
        _ => unreachable!(),
    }
}

/// The part that the test of a conditional chooses. Takes no memory.
#[inline(always)]
pub fn chosen(desk: &Desk, test: &Operand, yes: u32, no: u32) -> u32
    requires over { IsOver (length desk.now.values.items) 0 (plain_val test.now) }
    requires pairs { ArePairs desk.now.heap desk.now.values.items }
    requires boolean { (b : Bool) × (operand_value (known desk.now.heap desk.now.values.items) (plain_val test.now) ≡ Boolean b) }
    ensures { (b : Bool) × (operand_value (known desk.now.heap desk.now.values.items) (plain_val test.now) ≡ Boolean b)
        × (result ≡ (if b then yes else no)) }
{
    if holds(desk, test) { yes } else { no }
}
