// Values read from texts.

ghost use Rattle.std.specs.Prelude.{ℕ, List, ◌≡◌, ◌+◌, ◌<◌, ◌^◌, [], length, map, IfOk, Err};
ghost use Rattle.pict_syntax.specs.Names.{with_names};
ghost use Rattle.pict_core.specs.Plain.{plain_val, plain_field, labelled_of};
ghost use Rattle.pict_core.specs.Term.{Record};
ghost use Rattle.pict_trace.specs.Readable.{labels_of, labels_of_labelled, GainsLabels};
ghost use Rattle.pict_trace.specs.Found.{positional_of, labelled_fields};
ghost use Rattle.pict_trace.specs.Reading.{Ends, Reads, BeginsNoValue, ReadsFields, BeginsNoFields, BeginsNoLabelled, ReadsLabelled, NamesGrow};

use crate::bare::read_bare;
use crate::found::{Found, ReadError};
use crate::front::{at_end, behind};
use crate::label::{begins_label, read_label};
use crate::literal::{read_character, read_string};
use pict_core::CoreVal;
use pict_syntax::{Name, Names};
use std::alloc::Global;

// The value that is no record at the front of a text.
fn read_simple<'a>(alloc: Global, text: &'a [u8]) -> Result<Found<'a>, ReadError>
    ensures ok { (names : List (List ℕ)) → IfOk result (λ r. Reads names 0 text.now (plain_val r.value) r.rest.now) }
    ensures bad { result ≡ Err ReadError.Bad → BeginsNoValue 0 text.now }
{
    if let Some(after) = behind(b"\"", text) {
        return read_string(alloc, after);
    }
    match behind(b"'", text) {
        Some(after) => read_character(after),
        None => read_bare(text),
    }
}

// The value at the front of a text, with at most `depth` records in one another.
#[cycle(read_value)]
pub(crate) fn read_value<'a>(
    alloc: Global,
    names: &mut Names,
    text: &'a [u8],
    depth: u32,
) -> Result<Found<'a>, ReadError>
    requires room { length names.old + length text.now < 2 ^ 32 }
    ensures ok { IfOk result (λ r. Reads names.new depth text.now (plain_val r.value) r.rest.now) }
    ensures bad { result ≡ Err ReadError.Bad → BeginsNoValue depth text.now }
    ensures gained { IfOk result (λ r. names.new ≡ with_names names.old (labels_of names.new (plain_val r.value))) }
    ensures grows { IfOk result (λ r. NamesGrow text.now names.old names.new r.rest.now) }
    ensures kept { GainsLabels text.now names.old names.new }
{
    match behind(b"[", text) {
        Some(inner) => {
            if depth == 0 {
                return Err(ReadError::Bad);
            }
            let fields = read_fields(alloc, names, inner, depth - 1)?;
            finish(fields)
        }
        None => read_simple(alloc, text),
    }
}

// The fields of a record, and the text behind its end.
#[derive(Drop)]
struct Fields<'a> {
    positional: Vec<CoreVal>,
    labelled: Vec<(Name, CoreVal)>,
    rest: &'a [u8],
}

// The fields of the record whose bracket stood before this text, with at most `depth` records in one another in each.
#[cycle(read_value)]
fn read_fields<'a>(
    alloc: Global,
    names: &mut Names,
    text: &'a [u8],
    depth: u32,
) -> Result<Fields<'a>, ReadError>
    requires room { length names.old + length text.now < 2 ^ 32 }
    ensures ok { IfOk result (λ r. ReadsFields names.new depth text.now (positional_of r) (labelled_fields r) r.rest.now) }
    ensures bad { result ≡ Err ReadError.Bad → BeginsNoFields depth text.now }
    ensures gained { IfOk result (λ r. names.new ≡ with_names names.old (labels_of names.new (Record (positional_of r) (labelled_fields r)))) }
    ensures grows { IfOk result (λ r. NamesGrow text.now names.old names.new r.rest.now) }
    ensures kept { GainsLabels text.now names.old names.new }
{
    if let Some(rest) = behind(b"]", text) {
        return Ok(Fields {
            positional: Vec::new(alloc),
            labelled: Vec::new(alloc),
            rest,
        });
    }
    let mut positional = Vec::new(alloc);
    let mut rest = text;
    'values: while !begins_label(rest) {
        let found = read_value(alloc, names, rest, depth)?;
        positional.push(found.value)?;
        if let Some(rest) = behind(b"]", found.rest) {
            return Ok(Fields {
                positional,
                labelled: Vec::new(alloc),
                rest,
            });
        }
        match behind(b" ", found.rest) {
            Some(more) => rest = more,
            None => return Err(ReadError::Bad),
        }
    }
    let (labelled, rest) = read_labelled(alloc, names, rest, depth)?;
    Ok(Fields {
        positional,
        labelled,
        rest,
    })
}

// The fields with labels at the front of a text, up to the end of their record, with at most `depth` records in one
// another in each, and the text behind it.
#[cycle(read_value)]
fn read_labelled<'a>(
    alloc: Global,
    names: &mut Names,
    text: &'a [u8],
    depth: u32,
) -> Result<(Vec<(Name, CoreVal)>, &'a [u8]), ReadError>
    requires room { length names.old + length text.now < 2 ^ 32 }
    ensures ok { IfOk result (λ r. ReadsLabelled names.new depth [] text.now (labelled_of (map plain_field r.0.items)) r.1.now) }
    ensures bad { result ≡ Err ReadError.Bad → BeginsNoLabelled depth text.now }
    ensures gained { IfOk result (λ r. names.new ≡ with_names names.old (labels_of_labelled names.new (labelled_of (map plain_field r.0.items)))) }
    ensures grows { IfOk result (λ r. NamesGrow text.now names.old names.new r.1.now) }
    ensures kept { GainsLabels text.now names.old names.new }
{
    let mut labelled = Vec::new(alloc);
    let mut before: &'a [u8] = &[];
    let mut rest = text;
    'fields: loop {
        let label = read_label(names, before, rest)?;
        let found = read_value(alloc, names, label.rest, depth)?;
        labelled.push((label.name, found.value))?;
        if let Some(end) = behind(b"]", found.rest) {
            return Ok((labelled, end));
        }
        match behind(b" ", found.rest) {
            Some(more) => rest = more,
            None => return Err(ReadError::Bad),
        }
        before = label.bytes;
    }
}

// The record of these fields, where what is behind its end may stand there.
fn finish<'a>(fields: Fields<'a>) -> Result<Found<'a>, ReadError>
    ensures value { IfOk result (λ r. plain_val r.value ≡ Record (positional_of fields.entry) (labelled_fields fields.entry)) }
    ensures rest { IfOk result (λ r. r.rest.now ≡ fields.entry.rest.now) }
    ensures ends { IfOk result (λ r. Ends fields.entry.rest.now) }
    ensures bad { result ≡ Err ReadError.Bad → ¬ Ends fields.entry.rest.now }
{
    let Fields {
        positional,
        labelled,
        rest,
    } = fields;
    if !at_end(rest) {
        return Err(ReadError::Bad);
    }
    Ok(Found {
        value: CoreVal::Fields {
            positional,
            labelled,
        },
        rest,
    })
}
