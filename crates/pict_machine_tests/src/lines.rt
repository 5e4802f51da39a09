// Lines that are worked out by hand, both ways.

ghost use Rattle.std.specs.Prelude.{IfOk};
ghost use Rattle.pict_heap.specs.HeapState.{IsWord};

use pict_core::CoreVal;
use pict_heap::{Heap, Word};
use pict_machine::Event;
use pict_syntax::{Name, Names, Prim};
use pict_trace::{TraceError, TraceLabel, line, read_lines};
use std::alloc::{AllocError, Global};

/// The number of the first line that is refused, or 0. The text is short.
fn refused_at(alloc: Global, text: &[u8]) -> Result<u64, AllocError> {
    if text.len() > 1_000 {
        return Err(AllocError);
    }
    let mut names = Names::new(alloc);
    match read_lines(alloc, &mut names, text) {
        Ok(_) => Ok(0),
        Err(TraceError::Bad(number)) => Ok(number),
        Err(TraceError::Memory) => Err(AllocError),
    }
}

/// The line of a printing.
fn printing(alloc: Global, number: u64, bytes: &[u8]) -> Result<Vec<u8>, AllocError> {
    let mut heap = Heap::new(alloc);
    heap.reserve(0, 0, 1, bytes.len() as u64)?;
    let text = heap.add_text(bytes);
    line(
        alloc,
        &Names::new(alloc),
        &heap,
        number,
        &Event::Print(text),
    )
}

/// The record [-2 +$ [true "t"] L='\''] of a heap, where L is this label.
fn mixed(heap: &mut Heap, label: Name) -> Result<Word, AllocError>
    ensures { IfOk result (IsWord heap.new) }
{
    heap.reserve(2, 6, 1, 1)?;
    let text = heap.add_text(b"t");
    let inner = heap.add_record(&[Word::Bool(true), text], &[]);
    Ok(heap.add_record(
        &[Word::Int(-2), Word::Prim(Prim::Join), inner],
        &[(label, Word::Char(39))],
    ))
}

fn is_meeting_written(alloc: Global) -> Result<bool, AllocError> {
    let mut names = Names::new(alloc);
    let label = names.intern(b"a")?;
    let mut heap = Heap::new(alloc);
    let value = mixed(&mut heap, label)?;
    let event = Event::Comm { channel: 1, value };
    let line = line(alloc, &names, &heap, 13, &event)?;
    Ok(line.as_slice() == b"13 c1 [-2 +$ [true \"t\"] a='\\'']\n".as_slice())
}

fn is_number_written(alloc: Global) -> Result<bool, AllocError> {
    let number = Event::Print(Word::Int(-30));
    let line = line(alloc, &Names::new(alloc), &Heap::new(alloc), 7, &number)?;
    Ok(line.as_slice() == b"7 print \"-30\"\n".as_slice())
}

fn is_printing_written(alloc: Global, bytes: &[u8], wanted: &[u8]) -> Result<bool, AllocError> {
    Ok(printing(alloc, 7, bytes)?.as_slice() == wanted)
}

#[test]
fn lines_are_written(rt: HostRuntime) -> Result<(), AllocError> {
    let a = rt.alloc();
    assert!(rt; is_meeting_written(a)?);
    assert!(rt; is_number_written(a)?);
    assert!(rt; is_printing_written(a, b"", b"7 print \"\"\n")?);
    let line = b"7 print \"~\\x00\\t\\n\\\"'\\\\\\xfe\"\n";
    assert!(rt; is_printing_written(a, b"~\x00\t\n\"'\\\xfe", line)?);
    Ok(())
}

/// Whether a label prints the byte 127.
fn is_deletion(label: &TraceLabel) -> bool {
    match label {
        TraceLabel::Print(bytes) => bytes.slice() == b"\x7f".as_slice(),
        TraceLabel::Comm(_, _) => false,
    }
}

fn are_two_read(alloc: Global) -> bool {
    let mut names = Names::new(alloc);
    match read_lines(alloc, &mut names, b"5 c0 [1 b=true]\n7 print \"\\x7f\"\n") {
        Err(_) => false,
        Ok(lines) => lines.len() == 2 && lines[1].number == 7 && is_deletion(&lines[1].label),
    }
}

/// Lines, and the first of them that is refused, or 0.
const LINES: [(&[u8], u64); 14] = [
    (b"", 0),
    (b"0 c4294967295 -9223372036854775808\n", 0),
    (b"1 c0 [a=1 b=[x=''']]\n", 1),
    (b"07 c0 1\n", 1),
    (b"7  c0 1\n", 1),
    (b"7 c0 1", 1),
    (b"7 c0 1\n\n", 2),
    (b"7 c0 [a=1 a=2]\n", 1),
    (b"7 c0 [b=1 a=2]\n", 1),
    (b"7 c0 [if=1]\n", 1),
    (b"7 print \"\\xC8\"\n", 1),
    (b"7 print \"\\x41\"\n", 1),
    (b"1 c0 c1\n2 c4294967296 1\n", 2),
    (b"1 c0 +\n2 c0 -0\n", 2),
];

/// The first lines of the table that aren't refused where it says.
fn read_otherwise(alloc: Global) -> Result<Option<&'static [u8]>, AllocError> {
    for (text, number) in &LINES {
        if refused_at(alloc, text)? != *number {
            return Ok(Some(text));
        }
    }
    Ok(None)
}

#[test]
fn lines_are_read(rt: HostRuntime) -> Result<(), AllocError> {
    assert!(rt; are_two_read(rt.alloc()));
    assert!(rt; read_otherwise(rt.alloc())? == None);
    Ok(())
}

/// A record whose one field is this word.
fn around(heap: &mut Heap, word: Word) -> Result<Word, AllocError>
    requires { IsWord heap.old word }
    ensures { IfOk result (IsWord heap.new) }
{
    heap.reserve(1, 1, 0, 0)?;
    Ok(heap.add_record(&[word], &[]))
}

/// So many records, each the one field of the next.
fn nested(heap: &mut Heap, depth: u32) -> Result<Word, AllocError>
    ensures { IfOk result (IsWord heap.new) }
{
    let mut value = Word::Int(1);
    for _ in 0..depth {
        value = around(heap, value)?;
    }
    Ok(value)
}

fn is_depth_written(alloc: Global) -> Result<bool, AllocError> {
    let mut heap = Heap::new(alloc);
    let value = nested(&mut heap, 1_000_000)?;
    let event = Event::Comm { channel: 0, value };
    Ok(line(alloc, &Names::new(alloc), &heap, 7, &event)?.len() == 2_000_007)
}

#[test]
fn a_value_of_any_depth_is_written(rt: HostRuntime) -> Result<(), AllocError> {
    assert!(rt; is_depth_written(rt.alloc())?);
    Ok(())
}
