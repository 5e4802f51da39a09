// An act needs room in the heap, and is performed.

ghost use Rattle.std.specs.Prelude.{◌≡◌, ◌≤◌, ◌<◌, ◌^◌, length};
ghost use Rattle.std.specs.Fmt.{signed_decimal};
ghost use Rattle.pict_core.specs.Term.{Text, Record, no_vals, no_labelled};
ghost use Rattle.pict_heap.specs.HeapState.{value_of, text_of, IsWord, KeepsWords, UsesRoom};
ghost use Rattle.pict_prim.specs.Acts.{effect_act, effect_done, need_of, answer_need, IsActOf, IsDoneOf, HasRoom, UsesNeed};

use crate::act::{Act, Done, NO_NEED, Need};
use itoa::Buffer;
use pict_heap::{Heap, Word};
use pict_syntax::Name;

/// For how much the act needs room in the heap: for as many records, fields and texts as it adds; of bytes, for a decimal text up
/// to 19 more. Takes no memory.
#[inline(always)]
pub fn room_of(heap: &Heap, act: Act) -> Need
    requires { IsActOf heap.now act }
    ensures { result ≡ need_of heap.now act }
{
    match act {
        Act::PrintAnswer(_, _) => Need {
            records: 1,
            fields: 0,
            texts: 0,
            bytes: 0,
        },
        Act::Join(_, a, b) => Need {
            records: 0,
            fields: 0,
            texts: 1,
            bytes: text_len(heap, a) + text_len(heap, b),
        },
        Act::Spell(_, _) => Need {
            records: 0,
            fields: 0,
            texts: 1,
            bytes: 20,
        },
        _ => NO_NEED,
    }
}

// The number of bytes of a text, and 0 for any other word.
#[inline(always)]
fn text_len(heap: &Heap, w: Word) -> u64
    requires { IsWord heap.now w }
    ensures value { result ≡ length (text_of heap.now w) }
    ensures small { result < 2 ^ 63 }
{
    match heap.bytes(w) {
        Some(bytes) => bytes.len() as u64,
        None => 0,
    }
}

/// Performs the act. Every word stands for what it stood for; no more room is used than the act needs, and no more is added than
/// what it answers, where that is a text or a record. Takes no memory.
#[inline(always)]
pub fn perform(heap: &mut Heap, act: Act) -> Done
    requires act { IsActOf heap.old act }
    requires room { HasRoom heap.old.room (need_of heap.old act) }
    ensures effect { effect_done heap.new result ≡ effect_act heap.old act }
    ensures words { IsDoneOf heap.new result }
    ensures keeps { KeepsWords heap.old heap.new }
    ensures room { UsesNeed heap.old.room heap.new.room (need_of heap.old act) }
    ensures adds { UsesNeed heap.old.room heap.new.room (answer_need (effect_act heap.old act)) }
    ensures zero { act ≡ Act.ZeroDivisor → heap.new ≡ heap.old }
{
    match act {
        Act::Print(w) => Done::Printed(w),
        Act::Answer(k, a) => Done::Answer(k, a),
        Act::PrintAnswer(w, k) => {
            let unit = add_unit(heap);
            Done::PrintedAnswer(w, k, unit)
        }
        Act::Join(k, a, b) => {
            let text = heap.join_texts(a, b);
            Done::Answer(k, text)
        }
        Act::Spell(k, n) => {
            let text = add_decimal(heap, n);
            Done::Answer(k, text)
        }
        Act::ZeroDivisor => Done::ZeroDivisor,
    }
}

// The empty record.
#[inline(always)]
fn add_unit(heap: &mut Heap) -> Word
    requires { 1 ≤ heap.old.room.records }
    ensures word { IsWord heap.new result }
    ensures value { value_of heap.new result ≡ Record no_vals no_labelled }
    ensures keeps { KeepsWords heap.old heap.new }
    ensures room { UsesRoom heap.old.room heap.new.room 1 0 0 0 }
{
    let positional: [Word; 0] = [];
    let labelled: [(Name, Word); 0] = [];
    heap.add_record(&positional, &labelled)
}

// The decimal text of a number.
#[inline(always)]
fn add_decimal(heap: &mut Heap, n: i64) -> Word
    requires texts { 1 ≤ heap.old.room.texts }
    requires bytes { 20 ≤ heap.old.room.bytes }
    ensures word { IsWord heap.new result }
    ensures value { value_of heap.new result ≡ Text (signed_decimal n) }
    ensures keeps { KeepsWords heap.old heap.new }
    ensures room { UsesRoom heap.old.room heap.new.room 0 0 1 20 }
    ensures adds { UsesRoom heap.old.room heap.new.room 0 0 1 (length (signed_decimal n)) }
{
    let mut buffer = Buffer::new();
    heap.add_text(buffer.format(n).as_bytes())
}
