// What a run writes on the output.
ghost use Rattle.std.specs.Prelude.{◌≡◌, ◌≤◌, OnOk, OnErr, Err};
ghost use Rattle.std.specs.Io.KnownBytes.{Appends};
ghost use Rattle.pict_outside.specs.Counts.{Rose};
ghost use Rattle.pict_outside.specs.Bytes.{AppendsFront};
ghost use Rattle.pict_core.specs.Run.{printed_by};
ghost use Rattle.pict_machine.specs.Events.{IsEventOf, label_of};

use itoa::Buffer;
use pict_heap::Heap;
use pict_machine::{Event, RunError};
use pict_outside::{Sink, SinkFailed};
use pict_show_words::printed;

/// Makes one write of the bytes, and none where there are no bytes.
pub fn write_some<O: Sink>(out: &mut O, bytes: &[u8]) -> Result<(), RunError>
    ensures all { OnOk result (Appends (O.taken out.old) (O.taken out.new) bytes.now) }
    ensures part { OnErr result (AppendsFront (O.taken out.old) (O.taken out.new) bytes.now) }
    ensures failed { OnErr result (Rose (O.faults out.old) (O.faults out.new)) }
    ensures sink { OnErr result (result ≡ Err RunError.Sink) }
    ensures faults_stay { O.faults out.old ≤ O.faults out.new }
{
    if bytes.is_empty() {
        return Ok(());
    }
    match out.write(bytes) {
        Ok(()) => Ok(()),
        Err(SinkFailed) => Err(RunError::Sink),
    }
}

/// Makes one write of what a step prints, a word of the heap, and none where that is nothing. No text is copied.
pub fn print_event<O: Sink>(out: &mut O, heap: &Heap, event: &Event) -> Result<(), RunError>
    requires { IsEventOf heap.now event.now }
    ensures all { OnOk result (Appends (O.taken out.old) (O.taken out.new) (printed_by (label_of heap.now event.now))) }
    ensures part { OnErr result (AppendsFront (O.taken out.old) (O.taken out.new) (printed_by (label_of heap.now event.now))) }
    ensures failed { OnErr result (Rose (O.faults out.old) (O.faults out.new)) }
    ensures sink { OnErr result (result ≡ Err RunError.Sink) }
    ensures faults_stay { O.faults out.old ≤ O.faults out.new }
{
    match event {
        Event::Print(word) => {
            let mut digits = Buffer::new();
            write_some(out, printed(heap, *word, &mut digits))
        }
        _ => Ok(()),
    }
}
