// The line of a place, and a caret below it.

ghost use Rattle.std.specs.Prelude.{◌≤◌, length};
ghost use Rattle.pict_syntax.specs.declared.limits.TheConstants.{TEXT_LIMIT};

use crate::writing::{part, put_number};
use pict_syntax::{TEXT_LIMIT, line_col};
use std::alloc::{AllocError, Global};
use std::str::from_utf8;

/// How many characters of a line are shown.
const SHOWN: usize = 140;

/// Up to which character the place may stand where a line is shown from its beginning.
const NEAR: usize = 100;

/// How many characters are shown before the place where it stands further on.
const BEFORE: usize = 80;

/// A character of a line, or a byte that is none.
#[derive(Clone, Copy, Debug)]
struct Glyph {
    start: usize,
    /// How many bytes it has; none where it is no character.
    width: usize,
}

/// The line in which a byte of the text stands, with its number, and below it a caret under the character of that byte. Where
/// the text ends there, the line says so. Of a long line a part is shown, and `?` in place of what can't be shown. The only
/// error is want of memory.
pub fn shown_line(alloc: Global, text: &[u8], at: u32) -> Result<Vec<u8>, AllocError>
    requires short { length text.now ≤ TEXT_LIMIT }
{
    let at = at.min(text.len() as u32);
    let (number, _) = line_col(text, at);
    let start = start_of(text, at as usize);
    let end = end_of(text, at as usize);
    let glyphs = glyphs_of(alloc, part(text, start, end))?;
    let column = column_of(&glyphs, (at as usize).saturating_sub(start));
    let from = if column > NEAR { column - BEFORE } else { 0 };
    let mut out = Vec::new(alloc);
    put_head(&mut out, number)?;
    put_glyphs(&mut out, part(text, start, end), &glyphs, from)?;
    if at as usize == text.len() {
        out.extend_from_slice(b"<the end of the text>")?;
    }
    out.extend_from_slice(b"\n       | ")?;
    put_blanks(&mut out, part(text, start, end), &glyphs, from, column)?;
    out.extend_from_slice(b"^\n")?;
    Ok(out)
}

/// Where the line of a byte begins.
fn start_of(text: &[u8], at: usize) -> usize {
    let mut start: usize = 0;
    for (index, byte) in part(text, 0, at).iter().enumerate() {
        if *byte == b'\n' {
            start = index.saturating_add(1);
        }
    }
    start
}

/// Where the line of a byte ends.
fn end_of(text: &[u8], at: usize) -> usize {
    for (index, byte) in part(text, at, text.len()).iter().enumerate() {
        if *byte == b'\n' {
            return at.saturating_add(index);
        }
    }
    text.len()
}

/// How many bytes the character has that begins a line's rest: none where none does.
fn width_of(rest: &[u8]) -> usize {
    for width in 1..5 {
        let front = part(rest, 0, width);
        if !front.is_empty() && from_utf8(front).is_ok() {
            return width;
        }
    }
    0
}

/// The characters of a line.
fn glyphs_of(alloc: Global, line: &[u8]) -> Result<Vec<Glyph>, AllocError> {
    let mut glyphs = Vec::new(alloc);
    let mut skipped: usize = 0;
    for start in 0..line.len() {
        if skipped > 0 {
            skipped -= 1;
        } else {
            let width = width_of(part(line, start, line.len()));
            glyphs.push(Glyph { start, width })?;
            skipped = width.saturating_sub(1);
        }
    }
    Ok(glyphs)
}

/// How many characters stand before the one of a byte of the line.
fn column_of(glyphs: &[Glyph], at: usize) -> usize {
    let mut column: usize = 0;
    for glyph in glyphs {
        if glyph.start.saturating_add(glyph.width.max(1)) <= at {
            column = column.saturating_add(1);
        }
    }
    column
}

/// Writes the number of a line, and what stands before the line.
fn put_head(out: &mut Vec<u8>, number: u32) -> Result<(), AllocError> {
    let digits: usize = match number {
        0..=9 => 1,
        10..=99 => 2,
        100..=999 => 3,
        1000..=9999 => 4,
        10000..=99999 => 5,
        _ => 6,
    };
    for _ in digits..6 {
        out.push(b' ')?;
    }
    put_number(out, u64::from(number))?;
    out.extend_from_slice(b" | ")
}

/// Writes the characters of a line from one of them on.
fn put_glyphs(
    out: &mut Vec<u8>,
    line: &[u8],
    glyphs: &[Glyph],
    from: usize,
) -> Result<(), AllocError> {
    for glyph in glyphs.iter().skip(from).take(SHOWN) {
        let bytes = part(line, glyph.start, glyph.start.saturating_add(glyph.width));
        match bytes {
            [b'\t'] => out.push(b'\t')?,
            [] | [0..=31] | [127] => out.push(b'?')?,
            _ => out.extend_from_slice(bytes)?,
        }
    }
    Ok(())
}

/// Writes a blank for each character from one of them to just before another; a tab for a tab.
fn put_blanks(
    out: &mut Vec<u8>,
    line: &[u8],
    glyphs: &[Glyph],
    from: usize,
    column: usize,
) -> Result<(), AllocError> {
    for glyph in glyphs.iter().skip(from).take(column.saturating_sub(from)) {
        match part(line, glyph.start, glyph.start.saturating_add(1)) {
            [b'\t'] => out.push(b'\t')?,
            _ => out.push(b' ')?,
        }
    }
    Ok(())
}
