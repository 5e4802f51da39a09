// Operands of instructions become words of a heap.
ghost use Rattle.std.specs.Prelude.{◌≡◌, ◌+◌, ◌≤◌, ◌<◌, ◌^◌, ◌↔◌, eqb, map, length, take, drop, All, IfSome, IsNone, IsTrue};
ghost use Rattle.std.specs.List.{IsDistinct};
ghost use Rattle.std.specs.Vec.{vec_capacity};
ghost use Rattle.pict_core.specs.Closed.{IsOver, AreOver, LabelledOver};
ghost use Rattle.pict_core.specs.Plain.{plain_val, plain_field, vals_of, labelled_of};
ghost use Rattle.pict_heap.specs.HeapState.{HeapState, value_of, IsWord, KeepsWords, UsesRoom, record_of};
ghost use Rattle.pict_heap.specs.Packed.{packed, FitsWord};
ghost use Rattle.pict_heap.specs.declared.word.Word.{Word as AnyWord};
ghost use Rattle.pict_prim.specs.Acts.{UsesNeed};
ghost use Rattle.pict_desk.specs.Known.{known, operand_value};
ghost use Rattle.pict_desk.specs.AtHand.{IsWordFor, IsPairFor, IsCommon, IsSmall, IsOfHeap};
ghost use Rattle.pict_desk.specs.Pairs.{ArePairs};
ghost use Rattle.pict_desk.specs.Needs.{need_of, needs_of, needs_of_labelled, fields_need, both_needs, HasRoomFor, IsMade, KeepsPending, PilesWords, PilesLabelled};

use crate::pending::Pending;
use pict_code::Operand;
use pict_core::CoreVal;
use pict_heap::{Heap, Word, pack, unpack};
use pict_syntax::Name;

/// Whether the operand is a variable, a channel or a number, as most are.
///
/// Operands are told apart by this and the next first, so that each `match` behind them has few arms: the compiler makes comparisons of
/// them then, which a processor foresees better than a jump through a table. They are no `inline(always)`: compiled by itself
/// each is one comparison.
#[inline]
pub(crate) fn is_common(operand: &Operand) -> bool
    ensures { IsTrue result ↔ IsCommon (plain_val operand.now) }
{
    match operand {
        CoreVal::Var(_) | CoreVal::Chan(_) | CoreVal::Int(_) => true,
        _ => false,
    }
}

/// Whether the operand is a variable, a channel, a number, a character or a truth value.
#[inline]
pub fn is_small(operand: &Operand) -> bool
    ensures { IsTrue result ↔ IsSmall (plain_val operand.now) }
{
    match operand {
        CoreVal::Text(_) | CoreVal::Prim(_) | CoreVal::Fields { .. } => false,
        _ => true,
    }
}

/// The word that is packed to this pair. Takes no memory.
#[inline(always)]
pub fn word_at(pair: (u64, u64)) -> Word
    requires { (w : AnyWord) × FitsWord w × (packed w ≡ pair) }
    ensures { (w : AnyWord) → FitsWord w → packed w ≡ pair → result ≡ w }
{
    match unpack(pair.0, pair.1) {
        Some(word) => word,
        None => unreachable!(),
    }
}

/// The word of an operand that takes nothing of a heap, that of a level or of a constant, or None exactly where the operand is a
/// text or a record. Each variable has the two words of its level among `values`. Takes no memory.
#[inline(always)]
pub fn word_at_hand(operand: &Operand, values: &[(u64, u64)]) -> Option<Word>
    requires over { IsOver (length values.now) 0 (plain_val operand.now) }
    requires pairs { (h : HeapState) × ArePairs h values.now }
    ensures word { (h : HeapState) → ArePairs h values.now → IfSome result (IsWordFor h (operand_value (known h values.now) (plain_val operand.now))) }
    ensures none { IsNone result ↔ IsOfHeap (plain_val operand.now) }
{
    match operand {
        CoreVal::Var(level) => Some(word_at(values[*level as usize])),
        CoreVal::Chan(number) => Some(Word::Chan(*number)),
        CoreVal::Int(n) => Some(Word::Int(*n)),
        CoreVal::Char(byte) => Some(Word::Char(*byte)),
        CoreVal::Bool(b) => Some(Word::Bool(*b)),
        CoreVal::Prim(p) => Some(Word::Prim(*p)),
        _ => None,
    }
}

/// The same, as two words.
#[inline(always)]
pub fn pair_at_hand(operand: &Operand, values: &[(u64, u64)]) -> Option<(u64, u64)>
    requires over { IsOver (length values.now) 0 (plain_val operand.now) }
    requires pairs { (h : HeapState) × ArePairs h values.now }
    ensures pair { (h : HeapState) → ArePairs h values.now → IfSome result (IsPairFor h (operand_value (known h values.now) (plain_val operand.now))) }
    ensures none { IsNone result ↔ IsOfHeap (plain_val operand.now) }
{
    let constant = if is_common(operand) {
        match operand {
            CoreVal::Var(level) => return Some(values[*level as usize]),
            CoreVal::Chan(number) => Word::Chan(*number),
            CoreVal::Int(n) => Word::Int(*n),
            _ => unreachable!(),
        }
    } else if is_small(operand) {
        match operand {
            CoreVal::Char(byte) => Word::Char(*byte),
            CoreVal::Bool(b) => Word::Bool(*b),
            _ => unreachable!(),
        }
    } else {
        match operand {
            CoreVal::Prim(p) => Word::Prim(*p),
            _ => return None,
        }
    };
    Some(pack(constant))
}

/// The word of an operand, each variable of which has the two words of its level among `values`. What the operand needs
/// of the heap and of the piles was reserved before; all earlier words stand for what they stood for, and the piles are as
/// they were. Takes no memory. It takes time in the nodes of the operand and in the bytes of its texts.
#[cycle(word_of)]
pub fn word_of(
    heap: &mut Heap,
    pending: &mut Pending,
    operand: &Operand,
    values: &[(u64, u64)],
) -> Word
    requires over { IsOver (length values.now) 0 (plain_val operand.now) }
    requires pairs { ArePairs heap.old values.now }
    requires room { HasRoomFor heap.old pending.old (need_of (plain_val operand.now)) }
    ensures made { IsMade heap.old heap.new result (operand_value (known heap.old values.now) (plain_val operand.now)) }
    ensures used { UsesNeed heap.old.room heap.new.room (need_of (plain_val operand.now)) }
    ensures pending { KeepsPending pending.old pending.new }
{
    match operand {
        CoreVal::Var(level) => word_at(values[*level as usize]),
        CoreVal::Chan(number) => Word::Chan(*number),
        CoreVal::Int(n) => Word::Int(*n),
        CoreVal::Char(byte) => Word::Char(*byte),
        CoreVal::Bool(b) => Word::Bool(*b),
        CoreVal::Text(bytes) => heap.add_text(bytes.slice()),
        CoreVal::Prim(p) => Word::Prim(*p),
        CoreVal::Fields {
            positional,
            labelled,
        } => {
            let words = pending.words.len();
            let labels = pending.labelled.len();
            pile_words(heap, pending, positional, values);
            pile_labelled(heap, pending, labelled, values);
            close_record(heap, pending, words, labels)
        }
    }
}

// A new record of what lies on both piles from these numbers on, which are taken off.
fn close_record(heap: &mut Heap, pending: &mut Pending, words: usize, labels: usize) -> Word
    requires words { words ≤ length pending.old.words.items }
    requires labels { labels ≤ length pending.old.labelled.items }
    requires room { 1 ≤ heap.old.room.records }
    requires fields { length (drop words pending.old.words.items) + length (drop labels pending.old.labelled.items) ≤ heap.old.room.fields }
    requires countable { length (drop words pending.old.words.items) < 2 ^ 32 }
    requires are { All (IsWord heap.old) (drop words pending.old.words.items) }
    requires are_labelled { All (λ field. IsWord heap.old field.1) (drop labels pending.old.labelled.items) }
    requires distinct { IsDistinct eqb (map (λ field. field.0.0) (drop labels pending.old.labelled.items)) }
    ensures word { IsWord heap.new result }
    ensures value { value_of heap.new result ≡ record_of heap.old (drop words pending.old.words.items) (drop labels pending.old.labelled.items) }
    ensures keeps { KeepsWords heap.old heap.new }
    ensures used { UsesRoom heap.old.room heap.new.room 1 (length (drop words pending.old.words.items) + length (drop labels pending.old.labelled.items)) 0 0 }
    ensures words_left { pending.new.words.items ≡ take words pending.old.words.items }
    ensures words_room { vec_capacity pending.new.words ≡ vec_capacity pending.old.words }
    ensures labelled_left { pending.new.labelled.items ≡ take labels pending.old.labelled.items }
    ensures labelled_room { vec_capacity pending.new.labelled ≡ vec_capacity pending.old.labelled }
{
    let made = heap.add_record(&pending.words[words..], &pending.labelled[labels..]);
    pending.words.truncate(words);
    pending.labelled.truncate(labels);
    made
}

/// Lays the words of these operands, in order, on the pile of words; of each as `word_of` says. Takes no memory. What the
/// operands need of the heap and of the piles, and places on the piles for themselves, was reserved before.
#[cycle(word_of)]
pub fn pile_words(
    heap: &mut Heap,
    pending: &mut Pending,
    operands: &[Operand],
    values: &[(u64, u64)],
)
    requires over { AreOver (length values.now) 0 (vals_of (map plain_val operands.now)) }
    requires pairs { ArePairs heap.old values.now }
    requires room { HasRoomFor heap.old pending.old (both_needs (fields_need (length operands.now)) (needs_of (vals_of (map plain_val operands.now)))) }
    ensures piled { PilesWords heap.new pending.old pending.new (map (λ v. operand_value (known heap.old values.now) (plain_val v)) operands.now) }
    ensures keeps { KeepsWords heap.old heap.new }
    ensures used { UsesNeed heap.old.room heap.new.room (needs_of (vals_of (map plain_val operands.now))) }
{
    for operand in operands {
        let word = word_of(heap, pending, operand, values);
        pending.words.push_reserved(word);
    }
}

// Lays the words of these operands on the pile of labelled words.
#[cycle(word_of)]
fn pile_labelled(
    heap: &mut Heap,
    pending: &mut Pending,
    operands: &[(Name, Operand)],
    values: &[(u64, u64)],
)
    requires over { LabelledOver (length values.now) 0 (labelled_of (map plain_field operands.now)) }
    requires pairs { ArePairs heap.old values.now }
    requires room { HasRoomFor heap.old pending.old
        (both_needs (fields_need (length operands.now)) (needs_of_labelled (labelled_of (map plain_field operands.now)))) }
    ensures piled { PilesLabelled heap.new pending.old pending.new
        (map (λ field. (field.0, operand_value (known heap.old values.now) (plain_val field.1))) operands.now) }
    ensures keeps { KeepsWords heap.old heap.new }
    ensures used { UsesNeed heap.old.room heap.new.room (needs_of_labelled (labelled_of (map plain_field operands.now))) }
{
    for field in operands {
        let word = word_of(heap, pending, &field.1, values);
        pending.labelled.push_reserved((field.0, word));
    }
}
