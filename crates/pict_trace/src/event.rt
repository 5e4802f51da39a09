// The line of what a step shows.

ghost use Rattle.std.specs.Prelude.{◌≡◌, IfOk};
ghost use Rattle.pict_machine.specs.Events.{IsShown, IsEventOf, label_of};
ghost use Rattle.pict_trace.specs.Lines.{line_text};

use itoa::Buffer;
use pict_heap::Heap;
use pict_machine::Event;
use pict_show::{write_decimal, write_numbered, write_quoted};
use pict_show_words::{printed, write_word};
use pict_syntax::Names;
use std::alloc::{AllocError, Global};

/// The line of what a step shows, whose words are those of the heap: the step's number, what it shows, and a newline. The only
/// error is want of memory.
pub fn line(
    alloc: Global,
    names: &Names,
    heap: &Heap,
    number: u64,
    event: &Event,
) -> Result<Vec<u8>, AllocError>
    requires shown { IsShown event.now }
    requires event { IsEventOf heap.now event.now }
    ensures line { IfOk result (λ line. line.items ≡ line_text names.now number (label_of heap.now event.now)) }
{
    let mut out = Vec::new(alloc);
    write_decimal(&mut out, number)?;
    out.push(b' ')?;
    match event {
        Event::Comm { channel, value } => {
            write_numbered(&mut out, b'c', *channel)?;
            out.push(b' ')?;
            write_word(alloc, &mut out, names, heap, *value)?;
        }
        Event::Print(word) => {
            let mut digits = Buffer::new();
            out.extend_from_slice(b"print ")?;
            write_quoted(&mut out, b'"', printed(heap, *word, &mut digits))?;
        }
        Event::Quiet | Event::Trapped(_) => unreachable!(),
    }
    out.push(b'\n')?;
    Ok(out)
}
