// The bytes that a printed word shows.

ghost use Rattle.std.specs.Prelude.{◌≡◌, Some};
ghost use Rattle.pict_heap.specs.HeapState.{value_of};
ghost use Rattle.pict_prim.specs.Acts.{IsPrinted};
ghost use Rattle.pict_prim.specs.Printed.{printed_of};

use itoa::Buffer;
use pict_heap::{Heap, Word};

/// The bytes that a printed word of the heap shows: a text's own, lent by the heap, or a number's decimal text, which is
/// written into the buffer. Takes no memory.
pub fn printed<'a>(heap: &'a Heap, word: Word, buffer: &'a mut Buffer) -> &'a [u8]
    requires { IsPrinted heap.now word }
    ensures { printed_of (value_of heap.now word) ≡ Some result.now }
{
    match word {
        Word::Int(n) => buffer.format(n).as_bytes(),
        _ => match heap.bytes(word) {
            Some(bytes) => bytes,
            None => unreachable!(),
        },
    }
}
