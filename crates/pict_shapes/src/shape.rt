// What primitives take.
ghost use Rattle.std.specs.Prelude.{◌≡◌, length, map};
ghost use Rattle.pict_core.specs.Closed.{IsOver, AreOver};
ghost use Rattle.pict_core.specs.Plain.{plain_val};
ghost use Rattle.pict_core.specs.Primitives.{effect_of};
ghost use Rattle.pict_core.specs.Term.{Labelled, Record};
ghost use Rattle.pict_desk.specs.Arguments.{operand_in};
ghost use Rattle.pict_desk.specs.Pairs.{ArePairs};
ghost use Rattle.pict_heap.specs.HeapState.{value_of, IsWord};
ghost use Rattle.pict_core.specs.Plain.{vals_of};
ghost use Rattle.pict_shapes.specs.Fitting.{values_in};
ghost use Rattle.pict_shapes.specs.Shapes.{is_kind, has_operands, is_effect};

use pict_code::Operand;
use pict_core::CoreVal;
use pict_desk::word_at_hand;
use pict_heap::{Heap, Word};
use pict_prim::act_on;
use pict_syntax::{Operands, Prim, ValueKind};

// Whether the word is of the kind.
fn word_is(heap: &Heap, kind: ValueKind, word: Word) -> bool
    requires word { IsWord heap.now word }
    ensures { result ≡ is_kind kind (value_of heap.now word) }
{
    match word {
        Word::Int(_) => matches!(kind, ValueKind::Int),
        Word::Char(_) => matches!(kind, ValueKind::Char),
        Word::Bool(_) => matches!(kind, ValueKind::Bool),
        Word::Text(_) => matches!(kind, ValueKind::Text),
        _ => false,
    }
}

/// Whether the value of the operand is of the kind. Takes no memory.
pub fn operand_is(heap: &Heap, kind: ValueKind, operand: &Operand, values: &[(u64, u64)]) -> bool
    requires over { IsOver (length values.now) 0 (plain_val operand.now) }
    requires pairs { ArePairs heap.now values.now }
    ensures { result ≡ is_kind kind (operand_in heap.now values.now (plain_val operand.now)) }
{
    match operand {
        CoreVal::Text(_) => matches!(kind, ValueKind::Text),
        CoreVal::Fields { .. } => false,
        _ => match word_at_hand(operand, values) {
            Some(word) => word_is(heap, kind, word),
            None => unreachable!(),
        },
    }
}

// Whether a record with these positional fields is one that a primitive with these operands takes.
fn fields_have(heap: &Heap, operands: Operands, fields: &[Operand], values: &[(u64, u64)]) -> bool
    requires over { AreOver (length values.now) 0 (vals_of (map plain_val fields.now)) }
    requires pairs { ArePairs heap.now values.now }
    ensures { (labelled : Labelled) → result ≡ has_operands operands (Record (values_in heap.now values.now fields.now) labelled) }
{
    match operands {
        Operands::Alone(_) => false,
        Operands::One(a, _) => {
            if fields.len() != 2 {
                return false;
            }
            operand_is(heap, a, &fields[0], values)
        }
        Operands::Two(a, b, _) => {
            if fields.len() != 3 {
                return false;
            }
            if !operand_is(heap, a, &fields[0], values) {
                return false;
            }
            operand_is(heap, b, &fields[1], values)
        }
    }
}

/// Whether the primitive takes the value of the operand, each variable of which has the two words of its level among `values`.
/// Takes no memory, and no more time than a few comparisons.
pub fn takes_operand(heap: &Heap, p: Prim, operand: &Operand, values: &[(u64, u64)]) -> bool
    requires over { IsOver (length values.now) 0 (plain_val operand.now) }
    requires pairs { ArePairs heap.now values.now }
    ensures { result ≡ is_effect (effect_of p (operand_in heap.now values.now (plain_val operand.now))) }
{
    match operand {
        CoreVal::Text(_) => matches!(p.operands(), Operands::Alone(ValueKind::Text)),
        CoreVal::Fields { positional, .. } => fields_have(heap, p.operands(), positional, values),
        _ => match word_at_hand(operand, values) {
            Some(word) => takes(heap, p, word),
            None => unreachable!(),
        },
    }
}

/// Whether the primitive takes the word's value. Takes no memory.
pub fn takes(heap: &Heap, p: Prim, word: Word) -> bool
    requires word { IsWord heap.now word }
    ensures { result ≡ is_effect (effect_of p (value_of heap.now word)) }
{
    match act_on(heap, p, word) {
        Some(_) => true,
        None => false,
    }
}
