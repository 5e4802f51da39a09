// Primitives over words of a heap: what they need, and what they do. The corners of all of them are texts of pict_tests.

ghost use Rattle.std.specs.Prelude.{IfSome};
ghost use Rattle.pict_heap.specs.HeapState.{IsWord};
ghost use Rattle.pict_prim.specs.Acts.{IsDoneOf};

use pict_heap::{Heap, Word};
use pict_prim::{Done, Need, act_on, apply, room};
use pict_syntax::Prim;
use std::alloc::Global;

// What a primitive needs and does, where it takes the argument.
fn act(heap: &mut Heap, p: Prim, argument: Word) -> Option<(Need, Done)>
    requires { IsWord heap.old argument }
    ensures { IfSome result (λ x. IsDoneOf heap.new x.1) }
{
    act_on(heap, p, argument)?;
    let need = room(heap, p, argument);
    match heap.reserve(need.records, need.fields, need.texts, need.bytes) {
        Ok(()) => Some((need, apply(heap, p, argument))),
        Err(_) => None,
    }
}

// Whether a heap needs room for so many records, fields of records, texts and bytes of texts.
fn needs(need: Need, records: u64, fields: u64, texts: u64, bytes: u64) -> bool {
    need.records == records && need.fields == fields && need.texts == texts && need.bytes == bytes
}

// Whether a primitive answers this text on channel 7.
fn answers(heap: &Heap, done: Done, text: &[u8]) -> bool
    requires { IsDoneOf heap.now done }
{
    match done {
        Done::Answer(Word::Chan(7), word) => heap.bytes(word) == Some(text),
        _ => false,
    }
}

fn are_joined(alloc: Global) -> bool {
    let mut heap = Heap::new(alloc);
    let Ok(()) = heap.reserve(1, 3, 2, 5) else {
        return false;
    };
    let front = heap.add_text(b"ab");
    let back = heap.add_text(b"cde");
    let argument = heap.add_record(&[front, back, Word::Chan(7)], &[]);
    match act(&mut heap, Prim::Join, argument) {
        Some((need, done)) => needs(need, 0, 0, 1, 5) && answers(&heap, done, b"abcde"),
        None => false,
    }
}

fn are_spelled(alloc: Global) -> bool {
    let mut heap = Heap::new(alloc);
    let Ok(()) = heap.reserve(1, 2, 0, 0) else {
        return false;
    };
    let argument = heap.add_record(&[Word::Int(-5), Word::Chan(7)], &[]);
    match act(&mut heap, Prim::Intstr, argument) {
        Some((need, done)) => needs(need, 0, 0, 1, 20) && answers(&heap, done, b"-5"),
        None => false,
    }
}

// Whether a primitive prints this word, and then answers a record of no fields on channel 7.
fn prints(heap: &Heap, done: Done, text: Word) -> bool
    requires { IsDoneOf heap.now done }
{
    match done {
        Done::PrintedAnswer(printed, Word::Chan(7), unit) => {
            printed == text && heap.count(unit) == Some(0)
        }
        _ => false,
    }
}

fn are_printed(alloc: Global) -> bool {
    let mut heap = Heap::new(alloc);
    let Ok(()) = heap.reserve(1, 2, 1, 1) else {
        return false;
    };
    let text = heap.add_text(b"a");
    let argument = heap.add_record(&[text, Word::Chan(7)], &[]);
    match act(&mut heap, Prim::Pr, argument) {
        Some((need, done)) => needs(need, 1, 0, 0, 0) && prints(&heap, done, text),
        None => false,
    }
}

fn are_told(alloc: Global) -> bool {
    let mut heap = Heap::new(alloc);
    let Ok(()) = heap.reserve(1, 3, 0, 0) else {
        return false;
    };
    let argument = heap.add_record(&[Word::Int(1), Word::Int(0), Word::Chan(7)], &[]);
    if act_on(&heap, Prim::Print, argument).is_some() {
        return false;
    }
    match act(&mut heap, Prim::Divide, argument) {
        Some((need, Done::ZeroDivisor)) => needs(need, 0, 0, 0, 0),
        _ => false,
    }
}

// Texts are joined, numbers spelled, words printed, and divisions by zero told.
#[test]
fn words_are_acted_on(rt: HostRuntime) {
    assert!(rt; are_joined(rt.alloc()));
    assert!(rt; are_spelled(rt.alloc()));
    assert!(rt; are_printed(rt.alloc()));
    assert!(rt; are_told(rt.alloc()));
}
