// Labels.

ghost use Rattle.std.specs.Prelude.{◌≡◌, ◌<◌, ◌^◌, false, take, length, slice_index, IsTrue, IfSome, IfOk, OnErr, None, Err};
ghost use Rattle.pict_syntax.specs.Names.{with_name};
ghost use Rattle.pict_trace.specs.Readable.{IsIdentifier};
ghost use Rattle.pict_trace.specs.Reading.{BeginsLabel, BeginsNoLabel, BeginsNoLabelAfter, IsLabelAfter};

use crate::found::ReadError;
use pict_lex::{keyword_of, word_len};
use pict_syntax::{Name, Names};
use std::cmp::Ordering;

// How many bytes the identifier at the front has, where `=` stands behind it.
fn label_len(text: &[u8]) -> Option<usize>
    ensures within { IfSome result (λ n. n < length text.now) }
    ensures identifier { IfSome result (λ n. IsIdentifier (take n text.now)) }
    ensures equals { IfSome result (λ n. slice_index text.now n ≡ 61) }
    ensures none { result ≡ None → BeginsNoLabel text.now }
{
    if text.is_empty() || !text[0].is_ascii_alphabetic() {
        return None;
    }
    let len = word_len(text);
    if len == text.len() || text[len] != b'=' {
        return None;
    }
    match keyword_of(&text[..len]) {
        Some(_) => None,
        None => Some(len),
    }
}

// Whether a label stands at the front, with `=` behind it.
pub(crate) fn begins_label(text: &[u8]) -> bool
    ensures label { IsTrue result → BeginsLabel text.now }
    ensures none { result ≡ false → BeginsNoLabel text.now }
{
    match label_len(text) {
        None => false,
        Some(_) => true,
    }
}

// A label, its bytes, and the text behind its `=`.
#[derive(Clone, Copy)]
pub(crate) struct Label<'a> {
    pub(crate) name: Name,
    pub(crate) bytes: &'a [u8],
    pub(crate) rest: &'a [u8],
}

// The label at the front of a text, which comes after `before` in the order of bytes. It is interned.
pub(crate) fn read_label<'a>(
    names: &mut Names,
    before: &[u8],
    text: &'a [u8],
) -> Result<Label<'a>, ReadError>
    requires room { length names.old < 2 ^ 32 }
    ensures label { IfOk result (λ l. IsLabelAfter names.new before.now text.now l.name.0 l.bytes.now l.rest.now) }
    ensures gained { IfOk result (λ l. names.new ≡ with_name names.old l.bytes.now) }
    ensures bad { result ≡ Err ReadError.Bad → BeginsNoLabelAfter before.now text.now }
    ensures err { OnErr result (names.new ≡ names.old) }
{
    match label_len(text) {
        None => Err(ReadError::Bad),
        Some(len) => {
            let bytes = &text[..len];
            match before.cmp(bytes) {
                Ordering::Less => {
                    let name = names.intern(bytes)?;
                    Ok(Label {
                        name,
                        bytes,
                        rest: &text[len + 1..],
                    })
                }
                Ordering::Equal | Ordering::Greater => Err(ReadError::Bad),
            }
        }
    }
}
