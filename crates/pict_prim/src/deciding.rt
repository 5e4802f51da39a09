// What a primitive is about to do with words of a heap.

ghost use Rattle.std.specs.Prelude.{◌≡◌, ℤ, pos, ◌++◌, length, map, not, unsigned_abs, All, Option, Some, IfSome, IsSome, IsNone, option_map, option_and_then};
ghost use Rattle.std.specs.Int.{int_rem_euclid};
ghost use Rattle.std.specs.Fmt.{signed_decimal};
ghost use Rattle.pict_core.specs.Term.{Val, Labelled, Int, Char, Text, Boolean, Record, no_vals, no_labelled};
ghost use Rattle.pict_core.specs.Plain.{vals_of};
ghost use Rattle.pict_core.specs.Primitives.{Effect, Answer, answers, prints, effect_of, at_int, at_char, at_bool, at_text, byte_at};
ghost use Rattle.pict_heap.specs.Fields.{positional_count, positional_field};
ghost use Rattle.pict_heap.specs.HeapState.{HeapState, value_of, IsWord};
ghost use Rattle.pict_syntax.specs.declared.primitive.Primitive.TheVariants as primitive;
ghost use Rattle.pict_prim.specs.Acts.{effect_act, need_of, AddsNothing, IsActOf};
ghost use Rattle.pict_prim.specs.Needed.{needed, of_three};
ghost use Rattle.pict_prim.specs.Answers.{of_numbers, AnswersWord, AnswersNothing};
ghost use Rattle.pict_prim.specs.Calculated.{effect_calculated, effect_answered};
ghost use Rattle.pict_prim.specs.Families.{one_effect, two_effect, simple_effect, int_effect};

use crate::act::Act;
use crate::numbers::{Calculated, calculate};
use crate::texts::byte;
use pict_heap::{Heap, Word};
use pict_syntax::Prim;

/// What the primitive is to do to an argument of the heap, or None exactly where the argument has not the primitive's
/// shape. To do it adds to the heap what the primitive needs. Takes no memory.
#[inline(always)]
pub fn act_on(heap: &Heap, p: Prim, argument: Word) -> Option<Act>
    requires { IsWord heap.now argument }
    ensures effect { option_map (effect_act heap.now) result ≡ effect_of p (value_of heap.now argument) }
    ensures words { IfSome result (IsActOf heap.now) }
    ensures need { IfSome result (λ act. need_of heap.now act ≡ needed p (value_of heap.now argument)) }
{
    match heap.count(argument) {
        None => act_on_simple(p, argument),
        Some(2) => act_on_pair(heap, p, argument),
        Some(3) => act_on_triple(heap, p, argument),
        Some(_) => None,
    }
}

/// The same of an argument that is a record with these positional fields, whatever its labels: the record itself need
/// not be in the heap.
#[inline(always)]
pub fn act_on_fields(heap: &Heap, p: Prim, fields: &[Word]) -> Option<Act>
    requires { All (IsWord heap.now) fields.now }
    ensures effect { (labels : Labelled) → option_map (effect_act heap.now) result
        ≡ effect_of p (Record (vals_of (map (value_of heap.now) fields.now)) labels) }
    ensures words { IfSome result (IsActOf heap.now) }
{
    if fields.len() == 2 {
        act_on_two(heap, p, fields[0], fields[1])
    } else if fields.len() == 3 {
        act_on_three(heap, p, fields[0], fields[1], fields[2])
    } else {
        None
    }
}

/// The word that the primitive answers of a record of these two numbers and where to send, whatever its labels, or None exactly
/// where it answers nothing: it divides by zero, or takes other operands. The word needs nothing of a heap, and nothing is
/// printed. Takes no memory.
#[inline(always)]
pub fn answer_of_numbers(p: Prim, a: i64, b: i64) -> Option<Word>
    ensures answer { (labelled : Labelled) → IfSome result (AnswersWord (λ k. effect_of p (of_numbers a b k labelled))) }
    ensures none { (labelled : Labelled) → IsNone result → AnswersNothing (λ k. effect_of p (of_numbers a b k labelled)) }
{
    match calculate(p, a, b) {
        None => None,
        Some(calculated) => answered(calculated),
    }
}

// On a record with two positional fields.
#[inline(always)]
fn act_on_pair(heap: &Heap, p: Prim, argument: Word) -> Option<Act>
    requires word { IsWord heap.now argument }
    requires two { positional_count (value_of heap.now argument) ≡ Some 2 }
    ensures effect { option_map (effect_act heap.now) result ≡ effect_of p (value_of heap.now argument) }
    ensures words { IfSome result (IsActOf heap.now) }
    ensures need { IfSome result (λ act. need_of heap.now act ≡ needed p (value_of heap.now argument)) }
{
    let v = field(heap, argument, 0);
    let k = field(heap, argument, 1);
    act_on_two(heap, p, v, k)
}

// On a record with three positional fields.
#[inline(always)]
fn act_on_triple(heap: &Heap, p: Prim, argument: Word) -> Option<Act>
    requires word { IsWord heap.now argument }
    requires three { positional_count (value_of heap.now argument) ≡ Some 3 }
    ensures effect { option_map (effect_act heap.now) result ≡ effect_of p (value_of heap.now argument) }
    ensures words { IfSome result (IsActOf heap.now) }
    ensures need { IfSome result (λ act. need_of heap.now act ≡ needed p (value_of heap.now argument)) }
{
    let v = field(heap, argument, 0);
    let w = field(heap, argument, 1);
    let k = field(heap, argument, 2);
    act_on_three(heap, p, v, w, k)
}

// A positional field that is there.
#[inline(always)]
fn field(heap: &Heap, w: Word, i: u32) -> Word
    requires word { IsWord heap.now w }
    requires there { IsSome (positional_field (value_of heap.now w) i) }
    ensures value { positional_field (value_of heap.now w) i ≡ Some (value_of heap.now result) }
    ensures word { IsWord heap.now result }
{
    match heap.positional(w, i) {
        Some(word) => word,
        None => unreachable!(),
    }
}

// On an argument that is no record.
#[inline(always)]
fn act_on_simple(p: Prim, argument: Word) -> Option<Act>
    ensures effect { (h : HeapState) → option_map (effect_act h) result ≡ simple_effect p (value_of h argument) }
    ensures words { (h : HeapState) → IsWord h argument → IfSome result (IsActOf h) }
    ensures need { (h : HeapState) (v : Val) → IfSome result (λ act. need_of h act ≡ needed p v) }
{
    match p {
        Prim::Print => print(argument),
        Prim::Printi => print_number(argument),
        _ => None,
    }
}

// On one operand and where to send.
#[inline(always)]
fn act_on_two(heap: &Heap, p: Prim, v: Word, k: Word) -> Option<Act>
    requires operand { IsWord heap.now v }
    requires target { IsWord heap.now k }
    ensures effect { option_map (effect_act heap.now) result ≡ one_effect p (value_of heap.now v) (value_of heap.now k) }
    ensures words { IfSome result (IsActOf heap.now) }
    ensures need { (v : Val) → IfSome result (λ act. need_of heap.now act ≡ needed p v) }
{
    match p {
        Prim::Pr => print_and_answer(v, k),
        Prim::Chr => chr(v, k),
        Prim::Ord => ord(v, k),
        Prim::Intstr => spell(v, k),
        Prim::Size => size(heap, v, k),
        Prim::Not => negate(v, k),
        _ => None,
    }
}

// On two operands and where to send.
#[inline(always)]
fn act_on_three(heap: &Heap, p: Prim, v: Word, w: Word, k: Word) -> Option<Act>
    requires first { IsWord heap.now v }
    requires second { IsWord heap.now w }
    requires target { IsWord heap.now k }
    ensures effect { option_map (effect_act heap.now) result ≡ two_effect p (value_of heap.now v) (value_of heap.now w) (value_of heap.now k) }
    ensures words { IfSome result (IsActOf heap.now) }
    ensures need { (labels : Labelled) → IfSome result (λ act. need_of heap.now act
        ≡ needed p (of_three (value_of heap.now v) (value_of heap.now w) (value_of heap.now k) labels)) }
{
    match p {
        Prim::Join => join(v, w, k),
        Prim::Nth => nth(heap, v, w, k),
        _ => act_on_operands(p, v, w, k),
    }
}

// On two operands that are to be numbers.
#[inline(always)]
fn act_on_operands(p: Prim, v: Word, w: Word, k: Word) -> Option<Act>
    ensures effect { (h : HeapState) → option_map (effect_act h) result
        ≡ at_int (value_of h v) (λ a. at_int (value_of h w) (λ b. int_effect p a b (value_of h k))) }
    ensures words { (h : HeapState) → IsWord h k → IfSome result (IsActOf h) }
    ensures plain { IfSome result AddsNothing }
{
    match v {
        Word::Int(a) => match w {
            Word::Int(b) => act_on_numbers(p, a, b, k),
            _ => None,
        },
        _ => None,
    }
}

#[inline(always)]
fn act_on_numbers(p: Prim, a: i64, b: i64, k: Word) -> Option<Act>
    ensures effect { (h : HeapState) → option_map (effect_act h) result ≡ int_effect p a b (value_of h k) }
    ensures words { (h : HeapState) → IsWord h k → IfSome result (IsActOf h) }
    ensures plain { IfSome result AddsNothing }
{
    match calculate(p, a, b) {
        None => None,
        Some(calculated) => Some(answer_calculated(k, calculated)),
    }
}

#[inline(always)]
fn answer_calculated(k: Word, calculated: Calculated) -> Act
    ensures effect { (h : HeapState) → effect_act h result ≡ effect_calculated (value_of h k) calculated }
    ensures words { (h : HeapState) → IsWord h k → IsActOf h result }
    ensures plain { AddsNothing result }
{
    match answered(calculated) {
        Some(answer) => Act::Answer(k, answer),
        None => Act::ZeroDivisor,
    }
}

// The word of what is calculated, which needs nothing of a heap, or None where the divisor is zero.
#[inline(always)]
fn answered(calculated: Calculated) -> Option<Word>
    ensures effect { (h : HeapState) (k : Val) → effect_calculated k calculated ≡ effect_answered h k result }
    ensures word { (h : HeapState) → IfSome result (IsWord h) }
{
    match calculated {
        Calculated::Number(n) => Some(Word::Int(n)),
        Calculated::Truth(b) => Some(Word::Bool(b)),
        Calculated::ZeroDivisor => None,
    }
}

// `print`
#[inline(always)]
fn print(argument: Word) -> Option<Act>
    ensures effect { (h : HeapState) → option_map (effect_act h) result ≡ at_text (value_of h argument) prints }
    ensures words { (h : HeapState) → IsWord h argument → IfSome result (IsActOf h) }
    ensures need { (h : HeapState) (v : Val) → IfSome result (λ act. need_of h act ≡ needed primitive.Print v) }
{
    match argument {
        Word::Text(_) => Some(Act::Print(argument)),
        _ => None,
    }
}

// `printi`
#[inline(always)]
fn print_number(argument: Word) -> Option<Act>
    ensures effect { (h : HeapState) → option_map (effect_act h) result ≡ at_int (value_of h argument) (λ n. prints (signed_decimal n)) }
    ensures words { (h : HeapState) → IsWord h argument → IfSome result (IsActOf h) }
    ensures need { (h : HeapState) (v : Val) → IfSome result (λ act. need_of h act ≡ needed primitive.Printi v) }
{
    match argument {
        Word::Int(_) => Some(Act::Print(argument)),
        _ => None,
    }
}

// `pr`
#[inline(always)]
fn print_and_answer(text: Word, k: Word) -> Option<Act>
    ensures effect { (h : HeapState) → option_map (effect_act h) result ≡ at_text (value_of h text)
        (λ bytes. Some (record { printed = Some bytes; leaves = Answer (value_of h k) (Record no_vals no_labelled) })) }
    ensures words { (h : HeapState) → IsWord h text → IsWord h k → IfSome result (IsActOf h) }
    ensures need { (h : HeapState) (v : Val) → IfSome result (λ act. need_of h act ≡ needed primitive.Pr v) }
{
    match text {
        Word::Text(_) => Some(Act::PrintAnswer(text, k)),
        _ => None,
    }
}

// `chr`
#[inline(always)]
fn chr(n: Word, k: Word) -> Option<Act>
    ensures effect { (h : HeapState) → option_map (effect_act h) result
        ≡ at_int (value_of h n) (λ a. answers (value_of h k) (Char (unsigned_abs (int_rem_euclid a (pos 256))))) }
    ensures words { (h : HeapState) → IsWord h k → IfSome result (IsActOf h) }
    ensures need { (h : HeapState) (v : Val) → IfSome result (λ act. need_of h act ≡ needed primitive.Chr v) }
{
    match n {
        Word::Int(a) => Some(Act::Answer(k, Word::Char(a.rem_euclid(256) as u8))),
        _ => None,
    }
}

// `ord`
#[inline(always)]
fn ord(c: Word, k: Word) -> Option<Act>
    ensures effect { (h : HeapState) → option_map (effect_act h) result ≡ at_char (value_of h c) (λ byte. answers (value_of h k) (Int (pos byte))) }
    ensures words { (h : HeapState) → IsWord h k → IfSome result (IsActOf h) }
    ensures need { (h : HeapState) (v : Val) → IfSome result (λ act. need_of h act ≡ needed primitive.Ord v) }
{
    match c {
        Word::Char(byte) => Some(Act::Answer(k, Word::Int(byte as i64))),
        _ => None,
    }
}

// `intstr`
#[inline(always)]
fn spell(n: Word, k: Word) -> Option<Act>
    ensures effect { (h : HeapState) → option_map (effect_act h) result ≡ at_int (value_of h n) (λ a. answers (value_of h k) (Text (signed_decimal a))) }
    ensures words { (h : HeapState) → IsWord h k → IfSome result (IsActOf h) }
    ensures need { (h : HeapState) (v : Val) → IfSome result (λ act. need_of h act ≡ needed primitive.Intstr v) }
{
    match n {
        Word::Int(a) => Some(Act::Spell(k, a)),
        _ => None,
    }
}

// `not`
#[inline(always)]
fn negate(b: Word, k: Word) -> Option<Act>
    ensures effect { (h : HeapState) → option_map (effect_act h) result ≡ at_bool (value_of h b) (λ c. answers (value_of h k) (Boolean (not c))) }
    ensures words { (h : HeapState) → IsWord h k → IfSome result (IsActOf h) }
    ensures need { (h : HeapState) (v : Val) → IfSome result (λ act. need_of h act ≡ needed primitive.Not v) }
{
    match b {
        Word::Bool(c) => Some(Act::Answer(k, Word::Bool(!c))),
        _ => None,
    }
}

// `size`
#[inline(always)]
fn size(heap: &Heap, text: Word, k: Word) -> Option<Act>
    requires { IsWord heap.now text }
    ensures effect { option_map (effect_act heap.now) result
        ≡ at_text (value_of heap.now text) (λ bytes. answers (value_of heap.now k) (Int (pos (length bytes)))) }
    ensures words { IsWord heap.now k → IfSome result (IsActOf heap.now) }
    ensures need { (h : HeapState) (v : Val) → IfSome result (λ act. need_of h act ≡ needed primitive.Size v) }
{
    match heap.bytes(text) {
        Some(bytes) => Some(Act::Answer(k, Word::Int(bytes.len() as i64))),
        None => None,
    }
}

// `+$`
#[inline(always)]
fn join(s: Word, t: Word, k: Word) -> Option<Act>
    ensures effect { (h : HeapState) → option_map (effect_act h) result ≡ at_text (value_of h s)
        (λ front. at_text (value_of h t) (λ back. answers (value_of h k) (Text (front ++ back)))) }
    ensures words { (h : HeapState) → IsWord h s → IsWord h t → IsWord h k → IfSome result (IsActOf h) }
    ensures need { (h : HeapState) (labels : Labelled) → IfSome result (λ act. need_of h act
        ≡ needed primitive.Join (of_three (value_of h s) (value_of h t) (value_of h k) labels)) }
{
    match s {
        Word::Text(_) => match t {
            Word::Text(_) => Some(Act::Join(k, s, t)),
            _ => None,
        },
        _ => None,
    }
}

// `nth`
#[inline(always)]
fn nth(heap: &Heap, s: Word, n: Word, k: Word) -> Option<Act>
    requires { IsWord heap.now s }
    ensures effect { option_map (effect_act heap.now) result ≡ at_text (value_of heap.now s)
        (λ bytes. at_int (value_of heap.now n) (λ index. answers (value_of heap.now k) (Int (byte_at bytes index)))) }
    ensures words { IsWord heap.now k → IfSome result (IsActOf heap.now) }
    ensures need { (h : HeapState) (v : Val) → IfSome result (λ act. need_of h act ≡ needed primitive.Nth v) }
{
    match heap.bytes(s) {
        Some(bytes) => match n {
            Word::Int(index) => Some(Act::Answer(k, Word::Int(byte(bytes, index)))),
            _ => None,
        },
        None => None,
    }
}
