// A word's value as a text.

ghost use Rattle.std.specs.Prelude.{◌≡◌, ◌++◌, ◌+◌, ◌<◌, ◌≤◌, ℕ, List, length, Some, IsSome, All, OnOk, IfOk};
ghost use Rattle.std.specs.Fmt.{signed_decimal};
ghost use Rattle.pict_show.specs.Values.{value_text, quoted};
ghost use Rattle.pict_show.specs.Pending.{rest_text, fields_text};
ghost use Rattle.pict_heap.specs.Fields.{text_bytes};
ghost use Rattle.pict_heap.specs.HeapState.{value_of, IsWord};
ghost use Rattle.pict_show_words.specs.Fields.{positional_from, labelled_from};
ghost use Rattle.pict_show_words.specs.Pending.{IsPieceOf, piece_text, GainsHeapText};

use itoa::Buffer;
use pict_core::CoreVal;
use pict_heap::{Heap, Word};
use pict_show::{write_numbered, write_quoted, write_value};
use pict_syntax::Names;
use std::alloc::{AllocError, Global};

// A part of a value that is still to be written.
#[derive(Clone, Copy)]
enum Piece {
    // The value of a word.
    Value(Word),
    // The fields of a record from these indices on, which others stand before, and its end.
    Rest {
        whole: Word,
        positional: u32,
        labelled: u32,
    },
}

/// Writes the text of the value that a word of the heap stands for behind what is there, its labels by their names.
/// Nothing recurses along the value. The only error is want of memory, which is also the answer at a record of
/// 4,294,967,296 or more fields, positional or with labels. After an error a part of the text may stand behind what was
/// there.
pub fn write_word(
    alloc: Global,
    out: &mut Vec<u8>,
    names: &Names,
    heap: &Heap,
    word: Word,
) -> Result<(), AllocError>
    requires { IsWord heap.now word }
    ensures { OnOk result (out.new.items ≡ out.old.items ++ value_text names.now (value_of heap.now word)) }
{
    let mut pieces = Vec::new(alloc);
    pieces.push(Piece::Value(word))?;
    while let Some(piece) = pieces.pop() {
        write_piece(alloc, out, &mut pieces, names, heap, piece)?;
    }
    Ok(())
}

// Writes the front of a piece, and keeps the rest of it.
fn write_piece(
    alloc: Global,
    out: &mut Vec<u8>,
    pieces: &mut Vec<Piece>,
    names: &Names,
    heap: &Heap,
    piece: Piece,
) -> Result<(), AllocError>
    requires piece { IsPieceOf heap.now piece }
    requires pieces { All (IsPieceOf heap.now) pieces.old.items }
    ensures text { OnOk result (GainsHeapText names.now heap.now out.old.items pieces.old.items (piece_text names.now heap.now piece)
        out.new.items pieces.new.items) }
    ensures grows { OnOk result (length out.old.items < length out.new.items) }
    ensures pieces { OnOk result (All (IsPieceOf heap.now) pieces.new.items) }
{
    match piece {
        Piece::Value(word) => match word {
            Word::Fields(_) => {
                out.push(b'[')?;
                write_field(out, pieces, names, heap, word, 0, 0)
            }
            _ => write_simple(alloc, out, names, heap, word),
        },
        Piece::Rest {
            whole,
            positional,
            labelled,
        } => write_rest(out, pieces, names, heap, whole, positional, labelled),
    }
}

// Writes the value of a word that is no record.
fn write_simple(
    alloc: Global,
    out: &mut Vec<u8>,
    names: &Names,
    heap: &Heap,
    word: Word,
) -> Result<(), AllocError>
    requires word { IsWord heap.now word }
    requires simple { (number : ℕ) → word ≡ Word.Fields number → ⊥ }
    ensures text { OnOk result (out.new.items ≡ out.old.items ++ value_text names.now (value_of heap.now word)) }
    ensures grows { OnOk result (length out.old.items < length out.new.items) }
{
    match word {
        Word::Int(n) => write_number(out, n),
        Word::Chan(number) => write_numbered(out, b'c', number),
        Word::Text(_) => write_text(out, heap, word),
        Word::Char(byte) => write_value(alloc, out, names, &CoreVal::Char(byte)),
        Word::Bool(b) => write_value(alloc, out, names, &CoreVal::Bool(b)),
        Word::Prim(p) => write_value(alloc, out, names, &CoreVal::Prim(p)),
        Word::Fields(_) => unreachable!(),
    }
}

// Writes a number in decimal.
fn write_number(out: &mut Vec<u8>, n: i64) -> Result<(), AllocError>
    ensures text { OnOk result (out.new.items ≡ out.old.items ++ signed_decimal n) }
    ensures grows { OnOk result (length out.old.items < length out.new.items) }
{
    let mut buffer = Buffer::new();
    out.extend_from_slice(buffer.format(n).as_bytes())
}

// Writes a text as a literal.
fn write_text(out: &mut Vec<u8>, heap: &Heap, word: Word) -> Result<(), AllocError>
    requires word { IsWord heap.now word }
    requires text { IsSome (text_bytes (value_of heap.now word)) }
    ensures text { OnOk result ((bytes : List ℕ) → text_bytes (value_of heap.now word) ≡ Some bytes → out.new.items ≡ out.old.items ++ quoted 34 bytes) }
    ensures grows { OnOk result (length out.old.items < length out.new.items) }
{
    match heap.bytes(word) {
        Some(bytes) => write_quoted(out, b'"', bytes),
        None => unreachable!(),
    }
}

// Writes the front of the next field with the space before it, or the end of the record.
fn write_rest(
    out: &mut Vec<u8>,
    pieces: &mut Vec<Piece>,
    names: &Names,
    heap: &Heap,
    whole: Word,
    positional: u32,
    labelled: u32,
) -> Result<(), AllocError>
    requires word { IsWord heap.now whole }
    requires pieces { All (IsPieceOf heap.now) pieces.old.items }
    ensures text { OnOk result (GainsHeapText names.now heap.now out.old.items pieces.old.items
        (rest_text names.now (positional_from positional (value_of heap.now whole)) (labelled_from labelled (value_of heap.now whole)))
        out.new.items pieces.new.items) }
    ensures grows { OnOk result (length out.old.items < length out.new.items) }
    ensures pieces { OnOk result (All (IsPieceOf heap.now) pieces.new.items) }
{
    if heap.positional(whole, positional).is_none() && heap.label_at(whole, labelled).is_none() {
        out.push(b']')?;
        return Ok(());
    }
    out.push(b' ')?;
    write_field(out, pieces, names, heap, whole, positional, labelled)
}

// Writes the front of the next field, or the end of the record.
fn write_field(
    out: &mut Vec<u8>,
    pieces: &mut Vec<Piece>,
    names: &Names,
    heap: &Heap,
    whole: Word,
    positional: u32,
    labelled: u32,
) -> Result<(), AllocError>
    requires word { IsWord heap.now whole }
    requires pieces { All (IsPieceOf heap.now) pieces.old.items }
    ensures text { OnOk result (GainsHeapText names.now heap.now out.old.items pieces.old.items
        (fields_text names.now (positional_from positional (value_of heap.now whole)) (labelled_from labelled (value_of heap.now whole)))
        out.new.items pieces.new.items) }
    ensures grows { OnOk result (length out.old.items ≤ length out.new.items) }
    ensures pieces { OnOk result (All (IsPieceOf heap.now) pieces.new.items) }
{
    if let Some(field) = heap.positional(whole, positional) {
        let positional = after(positional)?;
        pieces.push(Piece::Rest {
            whole,
            positional,
            labelled,
        })?;
        pieces.push(Piece::Value(field))?;
    } else if let Some((label, field)) = heap.label_at(whole, labelled) {
        out.extend_from_slice(names.text(label))?;
        out.push(b'=')?;
        let labelled = after(labelled)?;
        pieces.push(Piece::Rest {
            whole,
            positional,
            labelled,
        })?;
        pieces.push(Piece::Value(field))?;
    } else {
        out.push(b']')?;
    }
    Ok(())
}

// The next index. No memory holds the fields of a record that has no more.
fn after(index: u32) -> Result<u32, AllocError>
    ensures { IfOk result (λ next. next ≡ index + 1) }
{
    match index.checked_add(1) {
        Some(next) => Ok(next),
        None => Err(AllocError),
    }
}
