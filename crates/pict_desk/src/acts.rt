// What a primitive does with operands, and what is known of it before their words are made.
ghost use Rattle.std.specs.Prelude.{◌≡◌, ◌≤◌, ◌+◌, ◌<◌, ◌^◌, ◌↔◌, ℕ, ℤ, All, List, length, map, IfSome, IsSome, IsTrue, Some, pos};
ghost use Rattle.std.specs.Fmt.{signed_decimal};
ghost use Rattle.pict_syntax.specs.declared.primitive.Primitive.TheVariants as primitive;
ghost use Rattle.pict_core.specs.Closed.{IsOver, AreOver};
ghost use Rattle.pict_core.specs.Plain.{plain_val, vals_of};
ghost use Rattle.pict_core.specs.Primitives.{Effect, Trap, effect_of};
ghost use Rattle.pict_core.specs.Term.{Labelled, Int, Text};
ghost use Rattle.pict_heap.specs.HeapState.{HeapState, value_of, IsWord, KeepsWords};
ghost use Rattle.pict_heap.specs.Packed.{FitsWord};
ghost use Rattle.pict_prim.specs.Acts.{effect_act, IsActOf, UsesNeed};
ghost use Rattle.pict_desk.specs.Answers.{IsAnswerOf};
ghost use Rattle.pict_desk.specs.Arguments.{operand_in, argument_of, record_of_words, AreWordsFor, AnswersAtMost};
ghost use Rattle.pict_desk.specs.Needs.{fields_need, needs_of, both_needs, HasRoomFor, KeepsPending};
ghost use Rattle.pict_desk.specs.Pairs.{ArePairs};

use crate::desk::Desk;
use crate::kept::Kept;
use crate::kinds::number_at_hand;
use crate::operands::{pair_at_hand, pile_words, word_at_hand};
use pict_code::Operand;
use pict_core::CoreVal;
use pict_heap::{Heap, Word, pack};
use pict_prim::{Act, act_on_fields, answer_of_numbers};
use pict_syntax::{Prim, Span};

// Whether the word is the number 0.
fn is_zero_word(word: Word) -> bool
    ensures { (h : HeapState) → IsTrue result ↔ (value_of h word ≡ Int (pos 0)) }
{
    match word {
        Word::Int(n) => n == 0,
        _ => false,
    }
}

// Whether the operand is the number 0.
fn is_zero(operand: &Operand, values: &[(u64, u64)]) -> bool
    requires over { IsOver (length values.now) 0 (plain_val operand.now) }
    requires pairs { (h : HeapState) × ArePairs h values.now }
    ensures { (h : HeapState) → ArePairs h values.now → IsTrue result ↔ (operand_in h values.now (plain_val operand.now) ≡ Int (pos 0)) }
{
    match word_at_hand(operand, values) {
        Some(word) => is_zero_word(word),
        None => false,
    }
}

/// Whether the primitive divides by zero, on these fields, which it takes. Takes no memory.
pub fn divides_by_zero(p: Prim, fields: &[Operand], values: &[(u64, u64)]) -> bool
    requires over { AreOver (length values.now) 0 (vals_of (map plain_val fields.now)) }
    requires pairs { (h : HeapState) × ArePairs h values.now }
    ensures { (h : HeapState) (labelled : Labelled) (e : Effect) → ArePairs h values.now
        → effect_of p (argument_of h values.now fields.now labelled) ≡ Some e → IsTrue result ↔ (e.leaves ≡ Trap) }
{
    match p {
        Prim::Divide | Prim::Remainder => fields.len() == 3 && is_zero(&fields[1], values),
        _ => false,
    }
}

// The number of bytes of an operand that is a text.
fn text_len(heap: &Heap, operand: &Operand, values: &[(u64, u64)]) -> u64
    requires over { IsOver (length values.now) 0 (plain_val operand.now) }
    requires pairs { ArePairs heap.now values.now }
    ensures value { (bytes : List ℕ) → operand_in heap.now values.now (plain_val operand.now) ≡ Text bytes → result ≡ length bytes }
    ensures small { result < 2 ^ 63 }
{
    if let CoreVal::Text(bytes) = operand {
        return bytes.slice().len() as u64;
    }
    match word_at_hand(operand, values) {
        Some(word) => match heap.bytes(word) {
            Some(bytes) => bytes.len() as u64,
            None => 0,
        },
        None => 0,
    }
}

// The number of bytes of the longest decimal text, of a word that is a number.
fn decimal_len(word: Word) -> u64
    ensures value { (h : HeapState) (n : ℤ) → FitsWord word → value_of h word ≡ Int n → length (signed_decimal n) ≤ result }
    ensures small { result ≤ 20 }
{
    match word {
        Word::Int(_) => 20,
        _ => 0,
    }
}

// The number of bytes of the longest decimal text, of an operand that is a number.
fn number_len(operand: &Operand, values: &[(u64, u64)]) -> u64
    requires over { IsOver (length values.now) 0 (plain_val operand.now) }
    requires pairs { (h : HeapState) × ArePairs h values.now }
    ensures value { (h : HeapState) (n : ℤ) → ArePairs h values.now → operand_in h values.now (plain_val operand.now) ≡ Int n
        → length (signed_decimal n) ≤ result }
    ensures small { result ≤ 20 }
{
    match word_at_hand(operand, values) {
        Some(word) => decimal_len(word),
        None => 0,
    }
}

// The greatest number of bytes of a text that `intstr` answers.
fn spelled_len(fields: &[Operand], values: &[(u64, u64)]) -> u64
    requires over { AreOver (length values.now) 0 (vals_of (map plain_val fields.now)) }
    requires pairs { (h : HeapState) × ArePairs h values.now }
    ensures { (h : HeapState) (labelled : Labelled) (e : Effect) → ArePairs h values.now
        → effect_of primitive.Intstr (argument_of h values.now fields.now labelled) ≡ Some e → AnswersAtMost result e }
{
    if fields.len() == 2 {
        number_len(&fields[0], values)
    } else {
        0
    }
}

// The number of bytes of the text that `+$` answers.
fn joined_len(heap: &Heap, fields: &[Operand], values: &[(u64, u64)]) -> u64
    requires over { AreOver (length values.now) 0 (vals_of (map plain_val fields.now)) }
    requires pairs { ArePairs heap.now values.now }
    ensures { (labelled : Labelled) (e : Effect)
        → effect_of primitive.Join (argument_of heap.now values.now fields.now labelled) ≡ Some e → AnswersAtMost result e }
{
    if fields.len() == 3 {
        text_len(heap, &fields[0], values) + text_len(heap, &fields[1], values)
    } else {
        0
    }
}

/// The greatest number of bytes of a text that the primitive answers, on these fields. Takes no memory.
pub fn answer_len(heap: &Heap, p: Prim, fields: &[Operand], values: &[(u64, u64)]) -> u64
    requires over { AreOver (length values.now) 0 (vals_of (map plain_val fields.now)) }
    requires pairs { ArePairs heap.now values.now }
    ensures { (labelled : Labelled) (e : Effect) → effect_of p (argument_of heap.now values.now fields.now labelled) ≡ Some e → AnswersAtMost result e }
{
    match p {
        Prim::Intstr => spelled_len(fields, values),
        Prim::Join => joined_len(heap, fields, values),
        _ => 0,
    }
}

/// What the primitive is about to do with these fields of a record, which it takes. Takes no memory.
#[inline(always)]
pub fn act_of(heap: &Heap, p: Prim, fields: &[Word]) -> Act
    requires words { All (IsWord heap.now) fields.now }
    requires takes { (labelled : Labelled) × IsSome (effect_of p (record_of_words heap.now fields.now labelled)) }
    ensures effect { (labelled : Labelled) → effect_of p (record_of_words heap.now fields.now labelled) ≡ Some (effect_act heap.now result) }
    ensures act { IsActOf heap.now result }
{
    match act_on_fields(heap, p, fields) {
        Some(act) => act,
        None => unreachable!(),
    }
}

/// Makes the words of the fields, and says what the primitive is about to do with them. Takes no memory.
pub fn decide(desk: &mut Desk, p: Prim, fields: &[Operand]) -> Act
    requires over { AreOver (length desk.old.values.items) 0 (vals_of (map plain_val fields.now)) }
    requires pairs { ArePairs desk.old.heap desk.old.values.items }
    requires room { HasRoomFor desk.old.heap desk.old.pending
        (both_needs (fields_need (length fields.now)) (needs_of (vals_of (map plain_val fields.now)))) }
    requires takes { (labelled : Labelled) × IsSome (effect_of p (argument_of desk.old.heap desk.old.values.items fields.now labelled)) }
    ensures effect { (labelled : Labelled)
        → effect_of p (argument_of desk.old.heap desk.old.values.items fields.now labelled)
        ≡ Some (effect_act desk.new.heap result) }
    ensures act { IsActOf desk.new.heap result }
    ensures keeps { KeepsWords desk.old.heap desk.new.heap }
    ensures used { UsesNeed desk.old.heap.room desk.new.heap.room (needs_of (vals_of (map plain_val fields.now))) }
    ensures pending { KeepsPending desk.old.pending desk.new.pending }
    ensures values { desk.new.values ≡ desk.old.values }
{
    let start = desk.pending.words.len();
    pile_words(&mut desk.heap, &mut desk.pending, fields, &desk.values);
    let act = act_of(&desk.heap, p, &desk.pending.words[start..]);
    desk.pending.words.truncate(start);
    act
}

/// The words of two fields that are at hand. Takes no memory.
pub fn two_at_hand(fields: &[Operand], values: &[(u64, u64)]) -> Option<[Word; 2]>
    requires over { AreOver (length values.now) 0 (vals_of (map plain_val fields.now)) }
    requires pairs { (h : HeapState) × ArePairs h values.now }
    ensures { (h : HeapState) → ArePairs h values.now → IfSome result (AreWordsFor h values.now fields.now) }
{
    if fields.len() != 2 {
        return None;
    }
    let v = word_at_hand(&fields[0], values)?;
    let k = word_at_hand(&fields[1], values)?;
    Some([v, k])
}

/// The words of three fields that are at hand. Takes no memory.
pub fn three_at_hand(fields: &[Operand], values: &[(u64, u64)]) -> Option<[Word; 3]>
    requires over { AreOver (length values.now) 0 (vals_of (map plain_val fields.now)) }
    requires pairs { (h : HeapState) × ArePairs h values.now }
    ensures { (h : HeapState) → ArePairs h values.now → IfSome result (AreWordsFor h values.now fields.now) }
{
    if fields.len() != 3 {
        return None;
    }
    let v = word_at_hand(&fields[0], values)?;
    let w = word_at_hand(&fields[1], values)?;
    let k = word_at_hand(&fields[2], values)?;
    Some([v, w, k])
}

/// The output of what the primitive answers of two numbers at hand and a third field at hand, as kept words. Takes no memory.
#[inline(always)]
pub fn answer_at_hand(p: Prim, fields: &[Operand], values: &[(u64, u64)], at: Span) -> Option<Kept>
    requires over { AreOver (length values.now) 0 (vals_of (map plain_val fields.now)) }
    requires pairs { (h : HeapState) × ArePairs h values.now }
    ensures { (h : HeapState) → ArePairs h values.now → IfSome result (IsAnswerOf h values.now p fields.now at) }
{
    if fields.len() != 3 {
        return None;
    }
    let a = number_at_hand(&fields[0], values)?;
    let b = number_at_hand(&fields[1], values)?;
    let to = pair_at_hand(&fields[2], values)?;
    let answer = answer_of_numbers(p, a, b)?;
    Some(Kept {
        to,
        message: pack(answer),
        at,
    })
}
