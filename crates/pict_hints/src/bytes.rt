// What is told of a byte with which no token begins, and of literals.

use crate::writing::{part, put_perhaps};
use pict_syntax::Code;
use std::alloc::AllocError;

/// Writes what may be meant at a byte for which the text has no tokens.
pub fn put_byte(
    out: &mut Vec<u8>,
    code: Code,
    text: &[u8],
    start: usize,
) -> Result<(), AllocError> {
    match code {
        Code::L1 => put_no_token(out, text, start),
        Code::L2 => put_quote(out, text, start),
        Code::L3 => put_perhaps(out, b"a backslash itself is written `\\\\`"),
        _ => Ok(()),
    }
}

/// Writes what may be meant at a byte that begins no token.
fn put_no_token(out: &mut Vec<u8>, text: &[u8], start: usize) -> Result<(), AllocError> {
    match part(text, start, start.saturating_add(1)) {
        [] => Ok(()),
        [byte] if *byte >= 0x80 => put_beyond_ascii(out, text, start),
        [byte] => match hint_of(*byte) {
            None => Ok(()),
            Some(hint) => put_perhaps(out, hint.as_bytes()),
        },
        _ => Ok(()),
    }
}

/// What may be meant by a byte of ASCII.
fn hint_of(byte: u8) -> Option<&'static str> {
    match byte {
        b',' => Some("no commas stand between fields: `[1 2]`, `[x:Int y:Int]`"),
        b'.' => Some(
            "there are no dots: a labelled field is reached by a pattern, `val [x=a] = p`; behind `c?x` stands `=`",
        ),
        b'&' => Some("both of a and b is `if a then b else false`"),
        b'%' => Some("the rest of a division is `(mod a b)`"),
        b'{' => Some("a comment begins with `{*`; several processes stand in `( )`"),
        b'}' => Some("a comment ends with `*}`; several processes stand in `( )`"),
        b'\t' | b'\r' => Some("a tab in a literal is written `\\t`"),
        b'~' => Some("a number's opposite is `(- 0 n)`, that of a truth value `(not b)`"),
        _ => None,
    }
}

/// Whether a byte stands in a string: behind an odd number of quotes in its line.
fn is_in_string(text: &[u8], start: usize) -> bool {
    let mut inside = false;
    for byte in part(text, 0, start) {
        match *byte {
            b'\n' => inside = false,
            b'"' => inside = !inside,
            _ => {}
        }
    }
    inside
}

/// Writes how a character beyond ASCII is written in a string, or of what names are made.
fn put_beyond_ascii(out: &mut Vec<u8>, text: &[u8], start: usize) -> Result<(), AllocError> {
    if !is_in_string(text, start) {
        return put_perhaps(
            out,
            b"names are of the letters a to z and A to Z, digits, `_` and `'`",
        );
    }
    out.extend_from_slice(b"  perhaps: in a string this is written `")?;
    for byte in part(text, start, text.len()) {
        if *byte < 0x80 {
            break;
        }
        out.extend_from_slice(b"\\x")?;
        out.push(digit_of(*byte / 16))?;
        out.push(digit_of(*byte % 16))?;
    }
    out.extend_from_slice(b"`\n")
}

/// A hexadecimal digit.
fn digit_of(value: u8) -> u8 {
    match value {
        0..=9 => b'0' + value,
        10..=15 => b'a' + (value - 10),
        _ => b'?',
    }
}

/// Writes what may be meant by a quote whose literal isn't closed.
fn put_quote(out: &mut Vec<u8>, text: &[u8], start: usize) -> Result<(), AllocError> {
    match part(text, start, start.saturating_add(1)) {
        [b'\''] => put_perhaps(
            out,
            b"strings stand in double quotes, `\"..\"`; between two `'` stands one character",
        ),
        _ => put_perhaps(
            out,
            b"a string ends on its line; a newline in it is written `\\n`",
        ),
    }
}
