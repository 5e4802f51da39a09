// Parts of texts, and texts that are written one behind the other.

ghost use Rattle.std.specs.Prelude.{◌≤◌, length};
ghost use Rattle.pict_syntax.specs.declared.limits.TheConstants.{TEXT_LIMIT};

use itoa::Buffer;
use pict_syntax::{TEXT_LIMIT, line_col};
use std::alloc::AllocError;

/// The bytes of a text from `start` to just before `end`; none where these are no places of it.
pub fn part(text: &[u8], start: usize, end: usize) -> &[u8] {
    if start <= end && end <= text.len() {
        &text[start..end]
    } else {
        &[]
    }
}

/// Writes a number in decimal.
pub fn put_number(out: &mut Vec<u8>, number: u64) -> Result<(), AllocError> {
    let mut buffer = Buffer::new();
    out.extend_from_slice(buffer.format(number).as_bytes())
}

/// Writes the line and the column of a byte of the text.
pub fn put_place(out: &mut Vec<u8>, text: &[u8], at: u32) -> Result<(), AllocError>
    requires short { length text.now ≤ TEXT_LIMIT }
{
    let (line, column) = line_col(text, at.min(text.len() as u32));
    put_number(out, u64::from(line))?;
    out.push(b':')?;
    put_number(out, u64::from(column))
}

/// Writes a line of what is told, two blanks from the edge.
pub fn put_line(out: &mut Vec<u8>, line: &[u8]) -> Result<(), AllocError> {
    out.extend_from_slice(b"  ")?;
    out.extend_from_slice(line)?;
    out.push(b'\n')?;
    Ok(())
}

/// Writes a line that says what may be meant.
pub fn put_perhaps(out: &mut Vec<u8>, hint: &[u8]) -> Result<(), AllocError> {
    out.extend_from_slice(b"  perhaps: ")?;
    out.extend_from_slice(hint)?;
    out.push(b'\n')?;
    Ok(())
}
