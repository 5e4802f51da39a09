// What is written of the steps of a picked run.
ghost use Rattle.std.specs.Prelude.{◌≡◌, ◌≤◌, IfOk, OnOk, OnErr, Err};
ghost use Rattle.std.specs.Io.KnownBytes.{Appends};
ghost use Rattle.pict_outside.specs.Counts.{Rose};
ghost use Rattle.pict_outside.specs.Bytes.{AppendsFront};
ghost use Rattle.pict_heap.specs.HeapState.{HeapState};
ghost use Rattle.pict_machine.specs.Events.{IsEventOf, label_of};
ghost use Rattle.pict_picker.specs.Events as dids;
ghost use Rattle.pict_picker.specs.Events.{IsDidOf};
ghost use Rattle.pict_replay.specs.Files.{choice_text};
ghost use Rattle.pict_top.specs.Notes.{place_of, step_text, note_text};

use crate::form::Form;
use crate::print::{print_event, write_some};
use pict_heap::Heap;
use pict_machine::{Event, RunError};
use pict_outside::Sink;
use pict_picker::Did;
use pict_show::write_decimal;
use pict_syntax::Names;
use pict_trace::line;
use std::alloc::{AllocError, Global};

/// A choice: which of the ready processes steps, and with which of its partners, each counted from 0.
#[derive(Clone, Copy, Debug, PartialEq, Eq)]
pub struct Place {
    /// The number of the ready process.
    pub ready: u64,
    /// The number of the partner; 0 where there is none.
    pub partner: u64,
}

/// What is written of each step of a picked run.
#[derive(Clone, Copy, Debug, PartialEq, Eq)]
pub enum Note {
    /// The choice, as a line.
    Choice,
    /// What the step shows, in this form.
    Shown(Form),
}

/// Makes one write of what is written of a step, and none where that is nothing. The words of the step are those of the heap.
pub fn write_note<O: Sink>(
    alloc: Global,
    note: Note,
    names: &Names,
    heap: &Heap,
    place: Place,
    number: u64,
    did: &Did,
    out: &mut O,
) -> Result<(), RunError>
    requires { IsDidOf heap.now did.now }
    ensures all { OnOk result (Appends (O.taken out.old) (O.taken out.new)
        (note_text note names.now (place_of place) number (dids.label_of heap.now did.now))) }
    ensures part { OnErr result (AppendsFront (O.taken out.old) (O.taken out.new)
        (note_text note names.now (place_of place) number (dids.label_of heap.now did.now))) }
    ensures sink { result ≡ Err RunError.Sink → Rose (O.faults out.old) (O.faults out.new) }
    ensures faults_stay { O.faults out.old ≤ O.faults out.new }
{
    match note {
        Note::Choice => write_choice(alloc, place, out),
        Note::Shown(form) => {
            let event = event_of(did);
            write_shown(alloc, form, names, heap, number, &event, out)
        }
    }
}

/// Makes one write of the line of a choice.
fn write_choice<O: Sink>(alloc: Global, place: Place, out: &mut O) -> Result<(), RunError>
    ensures all { OnOk result (Appends (O.taken out.old) (O.taken out.new) (choice_text (place_of place))) }
    ensures part { OnErr result (AppendsFront (O.taken out.old) (O.taken out.new) (choice_text (place_of place))) }
    ensures sink { result ≡ Err RunError.Sink → Rose (O.faults out.old) (O.faults out.new) }
    ensures faults_stay { O.faults out.old ≤ O.faults out.new }
{
    match choice_line(alloc, place) {
        Err(AllocError) => Err(RunError::Memory),
        Ok(line) => write_some(out, &line),
    }
}

/// The line of a choice. The only error is want of memory.
fn choice_line(alloc: Global, place: Place) -> Result<Vec<u8>, AllocError>
    ensures { IfOk result (λ line. line.items ≡ choice_text (place_of place)) }
{
    let mut line = Vec::new(alloc);
    write_decimal(&mut line, place.ready)?;
    line.push(b' ')?;
    write_decimal(&mut line, place.partner)?;
    line.push(b'\n')?;
    Ok(line)
}

/// Makes one write of what a step shows, in this form, and none where that is nothing.
fn write_shown<O: Sink>(
    alloc: Global,
    form: Form,
    names: &Names,
    heap: &Heap,
    number: u64,
    event: &Event,
    out: &mut O,
) -> Result<(), RunError>
    requires { IsEventOf heap.now event.now }
    ensures all { OnOk result (Appends (O.taken out.old) (O.taken out.new) (step_text form names.now number (label_of heap.now event.now))) }
    ensures part { OnErr result (AppendsFront (O.taken out.old) (O.taken out.new) (step_text form names.now number (label_of heap.now event.now))) }
    ensures sink { result ≡ Err RunError.Sink → Rose (O.faults out.old) (O.faults out.new) }
    ensures faults_stay { O.faults out.old ≤ O.faults out.new }
{
    match form {
        Form::Printed => print_event(out, heap, event),
        Form::Line => write_line(alloc, names, heap, number, event, out),
    }
}

/// Makes one write of the line of what a step shows, and none where that is nothing.
fn write_line<O: Sink>(
    alloc: Global,
    names: &Names,
    heap: &Heap,
    number: u64,
    event: &Event,
    out: &mut O,
) -> Result<(), RunError>
    requires { IsEventOf heap.now event.now }
    ensures all { OnOk result (Appends (O.taken out.old) (O.taken out.new) (step_text Form.Line names.now number (label_of heap.now event.now))) }
    ensures part { OnErr result (AppendsFront (O.taken out.old) (O.taken out.new) (step_text Form.Line names.now number (label_of heap.now event.now))) }
    ensures sink { result ≡ Err RunError.Sink → Rose (O.faults out.old) (O.faults out.new) }
    ensures faults_stay { O.faults out.old ≤ O.faults out.new }
{
    match event {
        Event::Quiet | Event::Trapped(_) => Ok(()),
        _ => match line(alloc, names, heap, number, event) {
            Err(AllocError) => Err(RunError::Memory),
            Ok(line) => write_some(out, &line),
        },
    }
}

/// What a step of a picker shows, as the event of a machine.
fn event_of(did: &Did) -> Event
    ensures label { (h : HeapState) → label_of h result ≡ dids.label_of h did.now }
    ensures event { (h : HeapState) → IsDidOf h did.now → IsEventOf h result }
{
    match did {
        Did::Quiet => Event::Quiet,
        Did::Comm { channel, value } => Event::Comm {
            channel: *channel,
            value: *value,
        },
        Did::Print(word) => Event::Print(*word),
        Did::Trapped(at) => Event::Trapped(*at),
    }
}
