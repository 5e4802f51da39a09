// What bytes are, and tables of bytes.
//
// A row of a table is `ANSWER | BYTES`, the bytes in hexadecimal, behind those with which all rows of the table begin. The answer
// is `object` where they are read as a process that is written as the same bytes, and `none` where they are no object. A line
// that begins with `--` says what the rows below it are.

use pict_object::{DecodeError, EncodeError, decode, encode};
use pict_syntax::Names;
use std::alloc::{AllocError, Global};

/// Bytes that are tried are fewer.
const MOST: usize = 1000;

/// The number that a hexadecimal digit stands for.
fn digit(byte: u8) -> Option<u8> {
    match byte {
        b'0'..=b'9' => Some(byte - b'0'),
        b'a'..=b'f' => Some(byte - b'a' + 10),
        _ => None,
    }
}

/// The first bytes, and those that stand in hexadecimal, of which what is no digit is passed over.
fn bytes_of(alloc: Global, start: &[u8], text: &str) -> Result<Vec<u8>, AllocError> {
    let mut bytes = Vec::from_slice(alloc, start)?;
    let mut high: Option<u8> = None;
    for byte in text.as_bytes() {
        if let Some(low) = digit(*byte) {
            match high {
                None => high = Some(low),
                Some(first) => {
                    bytes.push(first.wrapping_mul(16).wrapping_add(low))?;
                    high = None;
                }
            }
        }
    }
    Ok(bytes)
}

/// What bytes are, as a table has it.
fn answer(alloc: Global, bytes: &[u8]) -> &'static str {
    if bytes.len() > MOST {
        return "too long";
    }
    let mut names = Names::new(alloc);
    let core = match decode(alloc, &mut names, bytes) {
        Ok(core) => core,
        Err(DecodeError::NotObject) => return "none",
        Err(DecodeError::Memory) => return "no memory",
    };
    match encode(alloc, &names, &core, MOST as u64) {
        Ok(object) => {
            if object.as_slice() == bytes {
                "object"
            } else {
                "another object"
            }
        }
        Err(EncodeError::TooBig(_)) => "too big",
        Err(EncodeError::Memory) => "no memory",
    }
}

/// Tries a row of a table.
fn try_row(alloc: Global, start: &[u8], row: &str, wrong: &mut String) -> Result<(), AllocError> {
    let (wanted, text) = row.split_once(" | ").unwrap_or((row, ""));
    let bytes = bytes_of(alloc, start, text)?;
    let found = answer(alloc, &bytes);
    if found != wanted {
        wrong.push_str(format!(in alloc; "{row}: {found}\n")?.as_str())?;
    }
    Ok(())
}

/// The rows of a table whose bytes are something else, each with what they are.
pub fn wrong_rows(alloc: Global, start: &[u8], table: &str) -> Result<String, AllocError> {
    let mut wrong = String::new(alloc);
    for row in table.lines() {
        if !row.is_empty() && !row.starts_with("--") {
            try_row(alloc, start, row, &mut wrong)?;
        }
    }
    Ok(wrong)
}
