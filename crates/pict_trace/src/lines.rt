// Lines of traces, read back.

ghost use Rattle.std.specs.Prelude.{ℕ, List, true, ◌≡◌, ◌≢◌, ◌+◌, ◌<◌, ◌^◌, [], ◌∷◌, ◌++◌, codes, length, map, IfOk, IfSome, None, Err};
ghost use Rattle.std.specs.Fmt.{decimal};
ghost use Rattle.pict_syntax.specs.Names.{with_names};
ghost use Rattle.pict_trace.specs.Readable.{IsLines, IsFirstBad, BeginsWithLine, BeginsWithLines, GainsLabels, labels_in_line, labels_in};
ghost use Rattle.pict_trace.specs.Plain.{plain_line, plain_label};
ghost use Rattle.pict_trace.specs.Reading.{is_end, EndsString, EndsNoString, ReadsShown, BeginsNoShown, ReadsLine, NamesGrow};

use crate::bare::word_end;
use crate::found::ReadError;
use crate::front::behind;
use crate::literal::string_bytes;
use crate::number::number_of;
use crate::read::read_value;
use pict_core::CoreVal;
use pict_syntax::{Bytes, Names, VALUE_NESTING_LIMIT};
use std::alloc::{AllocError, Global};
use thiserror::Error;

/// What a step shows.
#[derive(Drop)]
pub enum TraceLabel {
    /// A value is received on the channel of this number.
    Comm(u32, CoreVal),
    /// These bytes are printed.
    Print(Bytes),
}

/// What a line says.
#[derive(Drop)]
pub struct TraceLine {
    /// The number of the step, from 1.
    pub number: u64,
    /// What the step shows.
    pub label: TraceLabel,
}

/// Why a text is not read as lines.
#[derive(Debug, Drop, Error)]
pub enum TraceError {
    /// The line of this number, from 1, is none.
    #[error("line {0} is none of a trace")]
    Bad(u64),
    /// Memory ran out.
    #[error("out of memory")]
    Memory,
}

impl From<AllocError> for TraceError {
    ghost use Rattle.std.specs.Prelude.{◌≡◌};
    ghost use Rattle.pict_trace.specs.declared.lines.TraceError.TheVariants.{Memory};

    ghost from_gives = { λ _ e. e ≡ Memory };

    fn from(_: AllocError) -> TraceError {
        TraceError::Memory
    }
}

// What a step shows, and the text behind its newline.
#[derive(Drop)]
struct Shown<'a> {
    label: TraceLabel,
    rest: &'a [u8],
}

// A line, and the text behind it.
#[derive(Drop)]
struct FoundLine<'a> {
    line: TraceLine,
    rest: &'a [u8],
}

/// The number at the front of a text that this byte follows, and the text behind the byte; None exactly where no number below
/// 2^64, in decimal without a leading zero, stands there with the byte behind it. The byte is a space, a newline or `]`.
pub fn number_until<'a>(text: &'a [u8], stop: u8) -> Option<(u64, &'a [u8])>
    requires stop { is_end stop ≡ true }
    ensures some { IfSome result (λ r. text.now ≡ decimal r.0 ++ (stop ∷ r.1.now)) }
    ensures small { IfSome result (λ r. r.0 < 2 ^ 64) }
    ensures none { result ≡ None → (n : ℕ) (rest : List ℕ) → n < 2 ^ 64 → text.now ≢ decimal n ++ (stop ∷ rest) }
{
    let len = word_end(text);
    match number_of(&text[..len]) {
        Some(n) => match behind(&[stop], &text[len..]) {
            Some(rest) => Some((n, rest)),
            None => None,
        },
        None => None,
    }
}

// The number that a space follows, where a line has to have it.
fn number_before<'a>(text: &'a [u8]) -> Result<(u64, &'a [u8]), ReadError>
    ensures some { IfOk result (λ r. text.now ≡ decimal r.0 ++ (32 ∷ r.1.now)) }
    ensures small { IfOk result (λ r. r.0 < 2 ^ 64) }
    ensures bad { result ≡ Err ReadError.Bad → (n : ℕ) (rest : List ℕ) → n < 2 ^ 64 → text.now ≢ decimal n ++ (32 ∷ rest) }
{
    match number_until(text, b' ') {
        Some(found) => Ok(found),
        None => Err(ReadError::Bad),
    }
}

// The bytes of the string whose quote stood before this text, and the text behind its closing quote.
fn string_before<'a>(alloc: Global, text: &'a [u8]) -> Result<(Vec<u8>, &'a [u8]), ReadError>
    ensures some { IfOk result (λ r. EndsString text.now r.0.items r.1.now) }
    ensures bad { result ≡ Err ReadError.Bad → EndsNoString text.now }
{
    match string_bytes(alloc, text)? {
        Some(found) => Ok(found),
        None => Err(ReadError::Bad),
    }
}

// The text behind the newline.
fn end_line<'a>(text: &'a [u8]) -> Result<&'a [u8], ReadError>
    ensures ok { IfOk result (λ rest. text.now ≡ 10 ∷ rest.now) }
    ensures bad { result ≡ Err ReadError.Bad → (rest : List ℕ) → text.now ≢ 10 ∷ rest }
{
    match behind(b"\n", text) {
        Some(rest) => Ok(rest),
        None => Err(ReadError::Bad),
    }
}

// The number of a channel.
fn channel_number(n: u64) -> Result<u32, ReadError>
    ensures ok { IfOk result (λ channel. channel ≡ n) }
    ensures small { IfOk result (λ channel. n < 2 ^ 32) }
    ensures bad { result ≡ Err ReadError.Bad → ¬ (n < 2 ^ 32) }
{
    if n > u64::from(u32::MAX) {
        return Err(ReadError::Bad);
    }
    Ok(n as u32)
}

// The printing behind its first quote.
fn read_printing<'a>(alloc: Global, text: &'a [u8]) -> Result<Shown<'a>, ReadError>
    ensures ok { (names : List (List ℕ)) → IfOk result (λ r. ReadsShown names (codes "print \"" ++ text.now) (plain_label r.label) r.rest.now) }
    ensures flat { (names : List (List ℕ)) → IfOk result (λ r. labels_in_line names (0, plain_label r.label) ≡ []) }
    ensures bad { result ≡ Err ReadError.Bad → BeginsNoShown (codes "print \"" ++ text.now) }
{
    let string = string_before(alloc, text)?;
    let rest = end_line(string.1)?;
    let bytes = Bytes::copy_of(alloc, &string.0)?;
    Ok(Shown {
        label: TraceLabel::Print(bytes),
        rest,
    })
}

// The communication behind its `c`.
fn read_communication<'a>(
    alloc: Global,
    names: &mut Names,
    text: &'a [u8],
) -> Result<Shown<'a>, ReadError>
    requires room { length names.old + length text.now < 2 ^ 32 }
    ensures ok { IfOk result (λ r. ReadsShown names.new (99 ∷ text.now) (plain_label r.label) r.rest.now) }
    ensures bad { result ≡ Err ReadError.Bad → BeginsNoShown (99 ∷ text.now) }
    ensures gained { IfOk result (λ r. names.new ≡ with_names names.old (labels_in_line names.new (0, plain_label r.label))) }
    ensures grows { IfOk result (λ r. NamesGrow text.now names.old names.new r.rest.now) }
    ensures kept { GainsLabels text.now names.old names.new }
{
    let number = number_before(text)?;
    let channel = channel_number(number.0)?;
    let found = read_value(alloc, names, number.1, VALUE_NESTING_LIMIT)?;
    let rest = end_line(found.rest)?;
    Ok(Shown {
        label: TraceLabel::Comm(channel, found.value),
        rest,
    })
}

// What a step shows, at the front of a text.
fn read_shown<'a>(alloc: Global, names: &mut Names, text: &'a [u8]) -> Result<Shown<'a>, ReadError>
    requires room { length names.old + length text.now < 2 ^ 32 }
    ensures ok { IfOk result (λ r. ReadsShown names.new text.now (plain_label r.label) r.rest.now) }
    ensures bad { result ≡ Err ReadError.Bad → BeginsNoShown text.now }
    ensures gained { IfOk result (λ r. names.new ≡ with_names names.old (labels_in_line names.new (0, plain_label r.label))) }
    ensures grows { IfOk result (λ r. NamesGrow text.now names.old names.new r.rest.now) }
    ensures kept { GainsLabels text.now names.old names.new }
{
    if let Some(bytes) = behind(b"print \"", text) {
        return read_printing(alloc, bytes);
    }
    match behind(b"c", text) {
        Some(channel) => read_communication(alloc, names, channel),
        None => Err(ReadError::Bad),
    }
}

// The line at the front of a text.
fn read_line<'a>(
    alloc: Global,
    names: &mut Names,
    text: &'a [u8],
) -> Result<FoundLine<'a>, ReadError>
    requires room { length names.old + length text.now < 2 ^ 32 }
    ensures ok { IfOk result (λ r. ReadsLine names.new text.now (plain_line r.line) r.rest.now) }
    ensures bad { result ≡ Err ReadError.Bad → (others : List (List ℕ)) → ¬ BeginsWithLine others text.now }
    ensures gained { IfOk result (λ r. names.new ≡ with_names names.old (labels_in_line names.new (plain_line r.line))) }
    ensures grows { IfOk result (λ r. NamesGrow text.now names.old names.new r.rest.now) }
    ensures kept { GainsLabels text.now names.old names.new }
{
    let number = number_before(text)?;
    let found = read_shown(alloc, names, number.1)?;
    Ok(FoundLine {
        line: TraceLine {
            number: number.0,
            label: found.label,
        },
        rest: found.rest,
    })
}

/// What the lines at the front of a text say, as many as there are, in order, and the text behind them, which begins with no
/// line. `names` gains the labels of their records that it lacked, and the records have them by their numbers there; it gains
/// no others where no text is behind them.
///
/// A line is one as `line` writes them, of a value without variables whose records have distinct identifiers as labels in the
/// order of their bytes, and that nests at most `VALUE_NESTING_LIMIT` records. The only error is want of memory. Whatever the
/// answer, `names` keeps its entries at their places, and gains labels of the text alone.
pub fn begin_lines<'a>(
    alloc: Global,
    names: &mut Names,
    text: &'a [u8],
) -> Result<(Vec<TraceLine>, &'a [u8]), AllocError>
    requires room { length names.old + length text.now < 2 ^ 32 }
    ensures lines { IfOk result (λ r. BeginsWithLines names.new text.now (map plain_line r.0.items) r.1.now) }
    ensures no_more { IfOk result (λ r. (others : List (List ℕ)) → ¬ BeginsWithLine others r.1.now) }
    ensures gained { IfOk result (λ r. r.1.now ≡ [] → names.new ≡ with_names names.old (labels_in names.new (map plain_line r.0.items))) }
    ensures kept { GainsLabels text.now names.old names.new }
{
    let mut lines = Vec::new(alloc);
    let mut rest = text;
    'lines: while !rest.is_empty() {
        match read_line(alloc, names, rest) {
            Ok(found) => {
                lines.push(found.line)?;
                rest = found.rest;
            }
            Err(ReadError::Bad) => return Ok((lines, rest)),
            Err(ReadError::Memory) => return Err(AllocError),
        }
    }
    Ok((lines, rest))
}

/// What the lines of a text say, in order, to the end of the text. `names` gains the labels of their records that it
/// lacked, and the records have them by their numbers there.
///
/// The error `Bad` comes exactly at the first line that isn't one, as `begin_lines` takes them. The bytes behind the last
/// newline, where there are some, are a line, and none of these. The only other error is want of memory. Whatever the answer,
/// `names` keeps its entries at their places, and gains labels of the text alone.
pub fn read_lines(
    alloc: Global,
    names: &mut Names,
    text: &[u8],
) -> Result<Vec<TraceLine>, TraceError>
    requires room { length names.old + length text.now < 2 ^ 32 }
    ensures lines { IfOk result (λ lines. IsLines names.new text.now (map plain_line lines.items)) }
    ensures bad { (number : ℕ) → result ≡ Err (TraceError.Bad number) → IsFirstBad text.now number }
    ensures gained { IfOk result (λ lines. names.new ≡ with_names names.old (labels_in names.new (map plain_line lines.items))) }
    ensures kept { GainsLabels text.now names.old names.new }
{
    let found = begin_lines(alloc, names, text)?;
    if !found.1.is_empty() {
        return Err(TraceError::Bad(found.0.len() as u64 + 1));
    }
    Ok(found.0)
}
