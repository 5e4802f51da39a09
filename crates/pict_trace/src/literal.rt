// Characters and strings.

ghost use Rattle.std.specs.Prelude.{◌≡◌, ◌<◌, ◌^◌, ◌⊎◌, ◌∷◌, ◌++◌, ◌↔◌, ℕ, List, IfSome, IfOk, IsTrue, None, Ok, Err};
ghost use Rattle.pict_syntax.specs.Tokens.{item_bytes};
ghost use Rattle.pict_core.specs.Plain.{plain_val};
ghost use Rattle.pict_show.specs.Values.{item_of};
ghost use Rattle.pict_trace.specs.Reading.{BeginsNoByte, EndsString, EndsNoString, Reads, BeginsNoValue};

use crate::found::{Found, ReadError};
use crate::front::{at_end, behind};
use pict_core::CoreVal;
use pict_lex::{Due, due_at};
use pict_show::written;
use pict_syntax::Bytes;
use std::alloc::{AllocError, Global};

// Whether a byte is written as these bytes between quotes of this kind.
fn is_written(quote: u8, byte: u8, bytes: &[u8]) -> bool
    requires { (quote ≡ 34) ⊎ (quote ≡ 39) }
    ensures { IsTrue result ↔ (bytes.now ≡ item_bytes (item_of quote byte)) }
{
    let (item, len) = written(quote, byte);
    bytes == &item[..len]
}

// The byte that is written at the front between quotes of this kind, and the text behind it.
fn byte_at<'a>(quote: u8, after: &'a [u8]) -> Option<(u8, &'a [u8])>
    requires { (quote ≡ 34) ⊎ (quote ≡ 39) }
    ensures some { IfSome result (λ r. after.now ≡ item_bytes (item_of quote r.0) ++ r.1.now) }
    ensures small { IfSome result (λ r. r.0 < 2 ^ 8) }
    ensures none { result ≡ None → BeginsNoByte quote after.now }
{
    match due_at(quote, after) {
        Due::Item(byte, len) => {
            if is_written(quote, byte, &after[..len]) {
                Some((byte, &after[len..]))
            } else {
                None
            }
        }
        Due::Quote | Due::CutOff | Due::BadByte | Due::BadEscape => None,
    }
}

// The bytes of the string whose quote stood before this text, and the text behind its closing quote.
pub(crate) fn string_bytes<'a>(
    alloc: Global,
    after: &'a [u8],
) -> Result<Option<(Vec<u8>, &'a [u8])>, AllocError>
    ensures some { IfOk result (λ o. IfSome o (λ r. EndsString after.now r.0.items r.1.now)) }
    ensures none { result ≡ Ok None → EndsNoString after.now }
{
    let mut bytes = Vec::new(alloc);
    let mut rest = after;
    'items: loop {
        if let Some(end) = behind(b"\"", rest) {
            return Ok(Some((bytes, end)));
        }
        match byte_at(b'"', rest) {
            Some((byte, more)) => {
                bytes.push(byte)?;
                rest = more;
            }
            None => return Ok(None),
        }
    }
}

// The string whose quote stood before this text.
pub(crate) fn read_string<'a>(alloc: Global, after: &'a [u8]) -> Result<Found<'a>, ReadError>
    ensures ok { (names : List (List ℕ)) → IfOk result (λ r. Reads names 0 (34 ∷ after.now) (plain_val r.value) r.rest.now) }
    ensures bad { result ≡ Err ReadError.Bad → BeginsNoValue 0 (34 ∷ after.now) }
{
    match string_bytes(alloc, after)? {
        Some((bytes, rest)) => {
            if !at_end(rest) {
                return Err(ReadError::Bad);
            }
            Ok(Found {
                value: CoreVal::Text(Bytes::copy_of(alloc, &bytes)?),
                rest,
            })
        }
        None => Err(ReadError::Bad),
    }
}

// The character whose quote stood before this text.
pub(crate) fn read_character<'a>(after: &'a [u8]) -> Result<Found<'a>, ReadError>
    ensures ok { (names : List (List ℕ)) → IfOk result (λ r. Reads names 0 (39 ∷ after.now) (plain_val r.value) r.rest.now) }
    ensures bad { result ≡ Err ReadError.Bad → BeginsNoValue 0 (39 ∷ after.now) }
{
    match byte_at(b'\'', after) {
        Some((byte, more)) => end_character(byte, more),
        None => Err(ReadError::Bad),
    }
}

// The character of this byte, where its quote stands at the front.
fn end_character<'a>(byte: u8, more: &'a [u8]) -> Result<Found<'a>, ReadError>
    ensures ok { (names : List (List ℕ)) → IfOk result (λ r. Reads names 0 (39 ∷ (item_bytes (item_of 39 byte) ++ more.now)) (plain_val r.value) r.rest.now) }
    ensures bad { result ≡ Err ReadError.Bad → BeginsNoValue 0 (39 ∷ (item_bytes (item_of 39 byte) ++ more.now)) }
{
    match behind(b"'", more) {
        Some(rest) => {
            if !at_end(rest) {
                return Err(ReadError::Bad);
            }
            Ok(Found {
                value: CoreVal::Char(byte),
                rest,
            })
        }
        None => Err(ReadError::Bad),
    }
}
