// A record is written, and what is printed is shown.
ghost use Rattle.std.specs.Prelude.{IfOk};
ghost use Rattle.pict_heap.specs.HeapState.{IsWord};

use itoa::Buffer;
use pict_heap::{Heap, Word};
use pict_show_words::{printed, write_word};
use pict_syntax::{Name, Names, Prim};
use std::alloc::{AllocError, Global};

fn are_printed(alloc: Global) -> Result<bool, AllocError> {
    let mut heap = Heap::new(alloc);
    heap.reserve(0, 0, 1, 3)?;
    let text = heap.add_text(b"a\nb");
    let mut buffer = Buffer::new();
    let is_text = printed(&heap, text, &mut buffer) == b"a\nb".as_slice();
    let number = printed(&heap, Word::Int(i64::MIN), &mut buffer);
    Ok(is_text && number == b"-9223372036854775808".as_slice())
}

// The record [-4 not c3 true '\'' L=["h\"" []]] of a heap, where L is this label.
fn nested(heap: &mut Heap, label: Name) -> Result<Word, AllocError>
    ensures { IfOk result (IsWord heap.new) }
{
    heap.reserve(3, 8, 1, 2)?;
    let text = heap.add_text(b"h\"");
    let empty = heap.add_record(&[], &[]);
    let inner = heap.add_record(&[text, empty], &[]);
    let simple = [
        Word::Int(-4),
        Word::Prim(Prim::Not),
        Word::Chan(3),
        Word::Bool(true),
        Word::Char(b'\''),
    ];
    Ok(heap.add_record(&simple, &[(label, inner)]))
}

fn is_written(alloc: Global) -> Result<bool, AllocError> {
    let mut names = Names::new(alloc);
    let label = names.intern(b"so")?;
    let mut heap = Heap::new(alloc);
    let outer = nested(&mut heap, label)?;
    let mut out = Vec::from_slice(alloc, b": ")?;
    write_word(alloc, &mut out, &names, &heap, outer)?;
    Ok(out.as_slice() == b": [-4 not c3 true '\\'' so=[\"h\\\"\" []]]".as_slice())
}

#[test]
fn words_are_printed_and_written(rt: HostRuntime) -> Result<(), AllocError> {
    assert!(rt; are_printed(rt.alloc())?);
    assert!(rt; is_written(rt.alloc())?);
    Ok(())
}
