// One piece of a text: a blank, a comment or a token.

ghost use Rattle.std.specs.Prelude.{◌≡◌, ◌<◌, ◌⊎◌, ◌↔◌, [], ◌∷◌, length, slice_index, true, IsTrue, IfOk, IfErr};
ghost use Rattle.std.specs.Char.{is_ascii_alphabetic};
ghost use Rattle.pict_syntax.specs.Comments.{BeginsWith, opening};
ghost use Rattle.pict_syntax.specs.Cuts.{IsBlank};
ghost use Rattle.pict_lex.specs.Number.{BeginsNumber};
ghost use Rattle.pict_lex.specs.Scan.{IsScanned, IsHalt, IsOther};

use crate::comment::comment_len;
use crate::halt::Halt;
use crate::mark::{Mark, mark_of_first_two, mark_of_one};
use crate::number::{begins_number, number_len, number_value};
use crate::quoted::{read_character, read_string};
use crate::word::{keyword_of, word_len};
use pict_syntax::{Bytes, Code, Keyword};
use std::alloc::Global;

/// A piece at the front of a text, with how many bytes it has.
#[derive(Drop)]
pub(crate) enum Scanned {
    /// A blank, of one byte.
    Blank,
    /// A comment.
    Comment(usize),
    /// An identifier: its bytes are its text.
    Identifier(usize),
    /// A keyword.
    Word(Keyword, usize),
    /// A number.
    Number(i64, usize),
    /// A character.
    Character(u8, usize),
    /// A string.
    String(Bytes, usize),
    /// A sign or a symbol name.
    Marked(Mark, usize),
}

/// Whether the byte is a blank.
fn is_blank(byte: u8) -> bool
    ensures { IsTrue result ↔ IsBlank byte }
{
    byte == b' ' || byte == b'\t' || byte == b'\r' || byte == b'\n'
}

/// Whether a comment begins here.
fn opens_comment(rest: &[u8]) -> bool
    ensures { IsTrue result ↔ BeginsWith opening rest.now }
{
    match rest {
        [b'{', b'*', ..] => true,
        _ => false,
    }
}

/// The comment at the front.
fn scan_comment(rest: &[u8]) -> Result<Scanned, Halt>
    requires { BeginsWith opening rest.now }
    ensures piece { IfOk result (IsScanned rest.now) }
    ensures halt { IfErr result (IsHalt rest.now) }
{
    match comment_len(rest) {
        Some(len) => Ok(Scanned::Comment(len)),
        None => Err(Halt::Stop(Code::L5, 0)),
    }
}

/// The identifier or keyword at the front.
fn scan_word(rest: &[u8]) -> Scanned
    requires some { 0 < length rest.now }
    requires letter { IsTrue (is_ascii_alphabetic (slice_index rest.now 0)) }
    ensures { IsScanned rest.now result }
{
    let len = word_len(rest);
    match keyword_of(&rest[..len]) {
        Some(keyword) => Scanned::Word(keyword, len),
        None => Scanned::Identifier(len),
    }
}

/// The number at the front.
fn scan_number(rest: &[u8]) -> Result<Scanned, Halt>
    requires { BeginsNumber rest.now }
    ensures piece { IfOk result (IsScanned rest.now) }
    ensures halt { IfErr result (IsHalt rest.now) }
{
    let len = number_len(rest);
    match number_value(&rest[..len]) {
        Some(value) => Ok(Scanned::Number(value, len)),
        None => Err(Halt::Stop(Code::L4, 0)),
    }
}

/// The sign or symbol name at the front, where nothing else begins.
fn scan_mark(rest: &[u8]) -> Result<Scanned, Halt>
    requires { IsOther rest.now }
    ensures piece { IfOk result (IsScanned rest.now) }
    ensures halt { IfErr result (IsHalt rest.now) }
{
    if let Some(mark) = mark_of_first_two(rest) {
        return Ok(Scanned::Marked(mark, 2));
    }
    match mark_of_one(rest[0]) {
        Some(mark) => Ok(Scanned::Marked(mark, 1)),
        None => Err(Halt::Stop(Code::L1, 0)),
    }
}

/// The literal at the front.
fn scan_literal(alloc: Global, rest: &[u8]) -> Result<Scanned, Halt>
    requires some { 0 < length rest.now }
    requires quote { (slice_index rest.now 0 ≡ 34) ⊎ (slice_index rest.now 0 ≡ 39) }
    ensures piece { IfOk result (IsScanned rest.now) }
    ensures halt { IfErr result (IsHalt rest.now) }
{
    if rest[0] == b'"' {
        let (values, len) = read_string(alloc, rest)?;
        Ok(Scanned::String(values, len))
    } else {
        let (value, len) = read_character(rest)?;
        Ok(Scanned::Character(value, len))
    }
}

/// The piece at the front of the rest of a text.
pub(crate) fn scan(alloc: Global, rest: &[u8]) -> Result<Scanned, Halt>
    requires { 0 < length rest.now }
    ensures piece { IfOk result (IsScanned rest.now) }
    ensures halt { IfErr result (IsHalt rest.now) }
{
    let first = rest[0];
    if is_blank(first) {
        return Ok(Scanned::Blank);
    }
    if first.is_ascii_alphabetic() {
        return Ok(scan_word(rest));
    }
    if begins_number(rest) {
        return scan_number(rest);
    }
    if first == b'"' || first == b'\'' {
        return scan_literal(alloc, rest);
    }
    if opens_comment(rest) {
        return scan_comment(rest);
    }
    scan_mark(rest)
}
