// The worked rows of the heap and of packed words.
ghost use Rattle.pict_heap.specs.HeapState.{IsWord};

use pict_heap::{Heap, Word, pack, unpack};
use pict_syntax::{Name, Prim};
use std::alloc::Global;

/// Whether a word is a record [4 "hi" a=true], where the text is this one and the label's number is 7.
fn is_mixed(heap: &Heap, word: Word, text: Word) -> bool
    requires word { IsWord heap.now word }
    requires text { IsWord heap.now text }
{
    heap.count(word) == Some(2)
        && heap.count(text) == None
        && heap.positional(word, 1) == Some(text)
        && heap.labelled(word, Name(8)) == None
        && heap.label_at(word, 0) == Some((Name(7), Word::Bool(true)))
        && heap.label_at(word, 1) == None
        && heap.bytes(text).is_some()
}

fn has_its_fields(alloc: Global) -> bool {
    let mut heap = Heap::new(alloc);
    let Ok(()) = heap.reserve(1, 3, 1, 2) else {
        return false;
    };
    let text = heap.add_text(b"hi");
    let record = heap.add_record(&[Word::Int(4), text], &[(Name(7), Word::Bool(true))]);
    is_mixed(&heap, record, text)
}

/// Whether a word is a record with the labels of the numbers 9, 7 and 8, in this order, and no other, with the values 1, 2 and 3.
fn is_labelled(heap: &Heap, word: Word) -> bool
    requires { IsWord heap.now word }
{
    heap.label_at(word, 0) == Some((Name(9), Word::Int(1)))
        && heap.label_at(word, 1) == Some((Name(7), Word::Int(2)))
        && heap.labelled(word, Name(7)) == Some(Word::Int(2))
        && heap.labelled(word, Name(8)) == Some(Word::Int(3))
        && heap.labelled(word, Name(6)) == None
}

fn keeps_its_labels(alloc: Global) -> bool {
    let mut heap = Heap::new(alloc);
    let Ok(()) = heap.reserve(1, 3, 0, 0) else {
        return false;
    };
    let record = heap.add_record(
        &[],
        &[
            (Name(9), Word::Int(1)),
            (Name(7), Word::Int(2)),
            (Name(8), Word::Int(3)),
        ],
    );
    is_labelled(&heap, record)
}

#[test]
fn records_have_their_fields(rt: HostRuntime) {
    assert!(rt; has_its_fields(rt.alloc()));
    assert!(rt; keeps_its_labels(rt.alloc()));
}

fn are_unpacked() -> bool {
    let (tag, payload) = pack(Word::Int(i64::MIN));
    unpack(0, u64::MAX) == Some(Word::Int(-1))
        && unpack(1, 256) == None
        && unpack(2, 1) == Some(Word::Bool(true))
        && unpack(3, 4_294_967_296) == None
        && unpack(4, 19) == Some(Word::Prim(Prim::Not))
        && unpack(7, 0) == None
        && unpack(tag, payload) == Some(Word::Int(i64::MIN))
}

#[test]
fn words_are_packed_and_unpacked(rt: HostRuntime) {
    assert!(rt; are_unpacked());
}
