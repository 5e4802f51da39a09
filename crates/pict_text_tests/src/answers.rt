// What is said of a text, and tables of texts.
//
// A row of a table is `ANSWER | TEXT`, where the answer is `Ok`, or the code of the refusal and its place: the first byte and
// the one after the last. In a text `«PIECE COUNT»` stands for so many copies of a piece, and two hexadecimal digits
// there for a byte. A line that begins with `--` says what the rows below it are for.

use pict_lex::{LexError, lex};
use pict_parse::{ParseError, parse};
use pict_scope::{ScopeError, resolve};
use pict_syntax::{Code, Names, Span, TEXT_LIMIT};
use std::alloc::{AllocError, Global};

/// How far a text is read.
#[derive(Clone, Copy, PartialEq, Eq)]
pub enum Phase {
    Grammar,
    Scopes,
}

/// The code and the place where a text is refused; nothing where it isn't.
fn refusal(alloc: Global, text: &[u8], phase: Phase) -> Result<Option<(Code, Span)>, AllocError> {
    if text.len() as u64 > TEXT_LIMIT {
        return Err(AllocError);
    }
    let mut names = Names::new(alloc);
    let tokens = match lex(alloc, &mut names, text, 1) {
        Ok(tokens) => tokens,
        Err(LexError::Named(code, span)) => return Ok(Some((code, span))),
        Err(LexError::Memory) => return Err(AllocError),
    };
    let program = match parse(alloc, &tokens, text.len() as u32) {
        Ok(program) => program,
        Err(ParseError::Unexpected(span)) => return Ok(Some((Code::P1, span))),
        Err(ParseError::TooNested(span)) => return Ok(Some((Code::P2, span))),
        Err(ParseError::Memory) => return Err(AllocError),
    };
    if phase == Phase::Grammar {
        return Ok(None);
    }
    match resolve(alloc, &names, program) {
        Ok(_) => Ok(None),
        Err(ScopeError::Named(code, span)) => Ok(Some((code, span))),
        Err(ScopeError::Memory) => Err(AllocError),
    }
}

/// The answer to a text, as a table has it.
pub fn answer(alloc: Global, text: &[u8], phase: Phase) -> Result<String, AllocError> {
    match refusal(alloc, text, phase)? {
        None => format!(in alloc; "Ok"),
        Some((code, span)) => {
            let Span { text, start, end } = span;
            if text == 1 {
                format!(in alloc; "{code:?} {start}..{end}")
            } else {
                format!(in alloc; "{code:?} in another text")
            }
        }
    }
}

/// Writes what stands between the marks `«` and `»`: a piece and how many copies of it there are, or a byte.
fn push_marked(text: &mut Vec<u8>, marked: &str) -> Result<(), AllocError> {
    match marked.rsplit_once(' ') {
        Some((piece, count)) => {
            for _ in 0..count.parse::<u32>().unwrap_or(0) {
                text.extend_from_slice(piece.as_bytes())?;
            }
        }
        None => text.push(u8::from_str_radix(marked, 16).unwrap_or(b'?'))?,
    }
    Ok(())
}

/// The text that a row stands for.
pub fn text_of(alloc: Global, row: &str) -> Result<Vec<u8>, AllocError> {
    let mut text = Vec::new(alloc);
    for part in row.split('»') {
        match part.split_once('«') {
            Some((plain, marked)) => {
                text.extend_from_slice(plain.as_bytes())?;
                push_marked(&mut text, marked)?;
            }
            None => text.extend_from_slice(part.as_bytes())?,
        }
    }
    Ok(text)
}

/// What is wanted in a row, and its text.
pub fn parts(row: &str) -> (&str, &str) {
    row.split_once(" | ").unwrap_or((row, ""))
}

/// Whether a line of a table is a row.
pub fn is_row(line: &str) -> bool {
    !line.is_empty() && !line.starts_with("--")
}

/// Tells of a row where something else is found than is wanted there.
pub fn compare(
    alloc: Global,
    row: &str,
    wanted: &str,
    found: &str,
    wrong: &mut String,
) -> Result<(), AllocError> {
    if found != wanted {
        wrong.push_str(format!(in alloc; "{row}: {found}\n")?.as_str())?;
    }
    Ok(())
}

/// Tries a row of a table.
fn try_row(alloc: Global, row: &str, phase: Phase, wrong: &mut String) -> Result<(), AllocError> {
    let (wanted, text) = parts(row);
    let found = answer(alloc, &text_of(alloc, text)?, phase)?;
    compare(alloc, row, wanted, found.as_str(), wrong)
}

/// The rows of a table whose answers are others, each with its answer.
pub fn wrong_rows(alloc: Global, table: &str, phase: Phase) -> Result<String, AllocError> {
    let mut wrong = String::new(alloc);
    for row in table.lines() {
        if is_row(row) {
            try_row(alloc, row, phase, &mut wrong)?;
        }
    }
    Ok(wrong)
}
