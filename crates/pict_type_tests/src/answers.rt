// What is said of a text, and tables of texts.
//
// A row of a table is `ANSWER | TEXT`, where the answer is `Ok`, or the code of the refusal and its place: the first byte and
// the one after the last. A line that begins with `--` says what the rows below it are for.

use pict_check::{TypeError, check};
use pict_lex::{LexError, lex};
use pict_parse::{ParseError, parse};
use pict_scope::{ScopeError, resolve};
use pict_syntax::{Code, Names, Span, TEXT_LIMIT};
use std::alloc::{AllocError, Global};

/// An operator, and types of the weights 3, 7, 15 and so on, to 65,535.
pub const HEAVY: &str =
    "type (Z X) = [X X] type Z1 = (Z Int) type Z2 = (Z Z1) type Z3 = (Z Z2) type Z4 = (Z Z3) type Z5 = (Z Z4) type Z6 = (Z Z5) type Z7 = (Z Z6) type Z8 = (Z Z7) type Z9 = (Z Z8) type Z10 = (Z Z9) type Z11 = (Z Z10) type Z12 = (Z Z11) type Z13 = (Z Z12) type Z14 = (Z Z13) type Z15 = (Z Z14) ";

/// The code and the place where a text is refused; nothing where it is typed.
fn refusal(alloc: Global, text: &[u8]) -> Result<Option<(Code, Span)>, AllocError> {
    if text.len() as u64 > TEXT_LIMIT {
        return Err(AllocError);
    }
    let mut names = Names::new(alloc);
    let tokens = match lex(alloc, &mut names, text, 1) {
        Ok(tokens) => tokens,
        Err(LexError::Named(code, span)) => return Ok(Some((code, span))),
        Err(LexError::Memory) => return Err(AllocError),
    };
    let program = match parse(alloc, &tokens, text.len() as u32) {
        Ok(program) => program,
        Err(ParseError::Unexpected(span)) => return Ok(Some((Code::P1, span))),
        Err(ParseError::TooNested(span)) => return Ok(Some((Code::P2, span))),
        Err(ParseError::Memory) => return Err(AllocError),
    };
    let scoped = match resolve(alloc, &names, program) {
        Ok(scoped) => scoped,
        Err(ScopeError::Named(code, span)) => return Ok(Some((code, span))),
        Err(ScopeError::Memory) => return Err(AllocError),
    };
    match check(alloc, &names, &scoped) {
        Ok(()) => Ok(None),
        Err(TypeError::Named(code, span, _)) => Ok(Some((code, span))),
        Err(TypeError::Memory) => Err(AllocError),
    }
}

/// The answer to a text, as a table has it, with places counted from the given one.
fn answer(alloc: Global, from: usize, text: &[u8]) -> Result<String, AllocError> {
    match refusal(alloc, text)? {
        None => format!(in alloc; "Ok"),
        Some((code, span)) => {
            let Span { text, start, end } = span;
            if text == 1 {
                let start = (start as usize).wrapping_sub(from);
                let end = (end as usize).wrapping_sub(from);
                format!(in alloc; "{code:?} {start}..{end}")
            } else {
                format!(in alloc; "{code:?} in another text")
            }
        }
    }
}

/// Tries a row of a table behind a text, from whose end its place is counted, and tells of it where its answer is another.
fn try_row(alloc: Global, behind: &str, row: &str, wrong: &mut String) -> Result<(), AllocError> {
    let (wanted, text) = row.split_once(" | ").unwrap_or((row, ""));
    let whole = format!(in alloc; "{behind}{text}")?;
    let found = answer(alloc, behind.len(), whole.as_bytes())?;
    if found.as_str() != wanted {
        wrong.push_str(format!(in alloc; "{row}: {found}\n")?.as_str())?;
    }
    Ok(())
}

/// The rows of a table behind a text whose answers are others, each with its answer.
pub fn wrong_rows(alloc: Global, behind: &str, table: &str) -> Result<String, AllocError> {
    let mut wrong = String::new(alloc);
    for row in table.lines() {
        if !row.is_empty() && !row.starts_with("--") {
            try_row(alloc, behind, row, &mut wrong)?;
        }
    }
    Ok(wrong)
}

/// Whether a text has this answer.
pub fn has_answer(alloc: Global, text: &[u8], wanted: &str) -> Result<bool, AllocError> {
    Ok(answer(alloc, 0, text)?.as_str() == wanted)
}
