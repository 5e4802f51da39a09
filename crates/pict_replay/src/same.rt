// Whether a word of a heap stands for a value.
ghost use Rattle.std.specs.Prelude.{◌≡◌, ◌↔◌, IsTrue, IfOk, None, map};
ghost use Rattle.pict_core.specs.Plain.{plain_val, plain_field, vals_of, labelled_of};
ghost use Rattle.pict_core.specs.Term as term;
ghost use Rattle.pict_heap.specs.HeapState.{HeapState, IsWord, value_of};
ghost use Rattle.pict_show_words.specs.Fields.{positional_from, labelled_from};
ghost use Rattle.pict_replay.specs.Words.{IsSimple};

use pict_core::CoreVal;
use pict_heap::{Heap, Word, pack};
use pict_syntax::Name;
use std::alloc::AllocError;

// Whether the word stands for the value. It recurses along the value, and takes time in the value. The only error is want of
// memory, which is the answer where a record of the value has more than 4,294,967,295 fields, positional or with labels.
#[cycle(same_value)]
pub(crate) fn same_value(heap: &Heap, word: Word, value: &CoreVal) -> Result<bool, AllocError>
    requires { IsWord heap.now word }
    ensures { IfOk result (λ same. IsTrue same ↔ (value_of heap.now word ≡ plain_val value.now)) }
{
    match value {
        CoreVal::Var(_) => Ok(false),
        CoreVal::Chan(number) => Ok(same_word(word, Word::Chan(*number))),
        CoreVal::Int(n) => Ok(same_word(word, Word::Int(*n))),
        CoreVal::Char(byte) => Ok(same_word(word, Word::Char(*byte))),
        CoreVal::Bool(b) => Ok(same_word(word, Word::Bool(*b))),
        CoreVal::Prim(p) => Ok(same_word(word, Word::Prim(*p))),
        CoreVal::Text(bytes) => Ok(same_text(heap, word, bytes.slice())),
        CoreVal::Fields {
            positional,
            labelled,
        } => match word {
            Word::Fields(_) => {
                if !same_values(heap, word, positional)? {
                    return Ok(false);
                }
                same_fields(heap, word, labelled)
            }
            _ => Ok(false),
        },
    }
}

// Whether the positional fields of the word are these.
#[cycle(same_value)]
fn same_values(heap: &Heap, word: Word, values: &[CoreVal]) -> Result<bool, AllocError>
    requires { IsWord heap.now word }
    ensures { IfOk result (λ same. IsTrue same ↔ (positional_from 0 (value_of heap.now word) ≡ vals_of (map plain_val values.now))) }
{
    for (i, value) in values.iter().enumerate() {
        match heap.positional(word, index_of(i)?) {
            Some(field) => {
                if !same_value(heap, field, value)? {
                    return Ok(false);
                }
            }
            None => return Ok(false),
        }
    }
    Ok(is_absent(heap.positional(word, index_of(values.len())?)))
}

// Whether the fields with labels of the word are these.
#[cycle(same_value)]
fn same_fields(heap: &Heap, word: Word, fields: &[(Name, CoreVal)]) -> Result<bool, AllocError>
    requires { IsWord heap.now word }
    ensures { IfOk result (λ same. IsTrue same ↔ (labelled_from 0 (value_of heap.now word) ≡ labelled_of (map plain_field fields.now))) }
{
    for (i, field) in fields.iter().enumerate() {
        match heap.label_at(word, index_of(i)?) {
            Some(found) => {
                if !same_name(found.0, field.0) {
                    return Ok(false);
                }
                if !same_value(heap, found.1, &field.1)? {
                    return Ok(false);
                }
            }
            None => return Ok(false),
        }
    }
    Ok(is_unlabelled(heap.label_at(word, index_of(fields.len())?)))
}

// An index of a field. No memory holds the fields of a record that has more.
fn index_of(index: usize) -> Result<u32, AllocError>
    ensures { IfOk result (λ i. i ≡ index) }
{
    match u32::try_from(index) {
        Ok(i) => Ok(i),
        Err(_) => Err(AllocError),
    }
}

// Whether there is no such field.
fn is_absent(field: Option<Word>) -> bool
    ensures { IsTrue result ↔ (field ≡ None) }
{
    match field {
        Some(_) => false,
        None => true,
    }
}

// Whether there is no such field with a label.
fn is_unlabelled(field: Option<(Name, Word)>) -> bool
    ensures { IsTrue result ↔ (field ≡ None) }
{
    match field {
        Some(_) => false,
        None => true,
    }
}

// Whether two labels are one.
fn same_name(name: Name, other: Name) -> bool
    ensures { IsTrue result ↔ (name.0 ≡ other.0) }
{
    name.0 == other.0
}

// Whether a word stands for what a word stands for that is neither a text nor a record.
fn same_word(word: Word, simple: Word) -> bool
    requires { IsSimple simple }
    ensures { (h : HeapState) → IsTrue result ↔ (value_of h word ≡ value_of h simple) }
{
    let found = pack(word);
    let wanted = pack(simple);
    same_pair(found, wanted)
}

// Whether two pairs are one.
fn same_pair(pair: (u64, u64), other: (u64, u64)) -> bool
    ensures { IsTrue result ↔ (pair ≡ other) }
{
    if pair.0 == other.0 {
        pair.1 == other.1
    } else {
        false
    }
}

// Whether the word stands for the text of these bytes.
fn same_text(heap: &Heap, word: Word, bytes: &[u8]) -> bool
    requires { IsWord heap.now word }
    ensures { IsTrue result ↔ (value_of heap.now word ≡ term.Text bytes.now) }
{
    match heap.bytes(word) {
        Some(found) => found == bytes,
        None => false,
    }
}
