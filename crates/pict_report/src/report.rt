// The texts that are written on the error output.
ghost use Rattle.std.specs.Prelude.{◌≡◌, ◌≤◌, ◌++◌, IfOk, length};
ghost use Rattle.pict_syntax.specs.declared.limits.TheConstants.{TEXT_LIMIT};
ghost use Rattle.pict_report.specs.Reports as reports;
ghost use Rattle.pict_report.specs.Plain.{plain_position};
ghost use Rattle.pict_report.specs.Reports.{AreShort, text_of_code, line, position_of, refusal_report, trap_report};

use pict_syntax::{Code, Sources, Span, line_col};
use std::alloc::{AllocError, Global};

/// What is written where the words have no listed shape.
pub const USAGE: &[u8] =
    b"usage: pict run|trace|check|code [--bare] [--fuel N] FILE, or pict load N\n";

/// What is written where the fuel is spent.
pub const SPENT: &[u8] = b"fuel spent\n";

/// A code with its text.
pub fn text_of_code(code: Code) -> &'static str
    ensures { result.now ≡ text_of_code code }
{
    match code {
        Code::B1 => "B1 text longer than 1048576 bytes",
        Code::L1 => "L1 byte begins no token",
        Code::L2 => "L2 literal not closed",
        Code::L3 => "L3 bad escape",
        Code::L4 => "L4 number out of range",
        Code::L5 => "L5 comment not closed",
        Code::P1 => "P1 unexpected token",
        Code::P2 => "P2 nested too deep",
        Code::S1 => "S1 unbound name",
        Code::S2 => "S2 unbound type",
        Code::S3 => "S3 name bound twice",
        Code::S4 => "S4 label twice",
        Code::K1 => "K1 wrong number of type arguments",
        Code::K2 => "K2 operator needs arguments",
        Code::K3 => "K3 bound on an operator",
        Code::K4 => "K4 type too big",
        Code::K5 => "K5 operator varies otherwise",
        Code::Y1 => "Y1 not a channel",
        Code::Y2 => "Y2 no right to send",
        Code::Y3 => "Y3 no right to receive",
        Code::Y4 => "Y4 not a subtype",
        Code::Y5 => "Y5 wrong number of fields",
        Code::Y6 => "Y6 label missing",
        Code::Y7 => "Y7 annotation needed",
        Code::Y8 => "Y8 not a function",
        Code::Y9 => "Y9 bound not met",
        Code::Y10 => "Y10 type argument not found",
        Code::Y11 => "Y11 branches differ",
        Code::Y12 => "Y12 condition is not Bool",
        Code::Y13 => "Y13 not a recursive type",
        Code::Y14 => "Y14 type variable escapes",
        Code::Y15 => "Y15 new needs a ^ type",
        Code::Y16 => "Y16 not this package",
        Code::C1 => "C1 process too deep",
        Code::I1 => "I1 no such text",
        Code::I2 => "I2 import cycle",
        Code::I3 => "I3 too many texts",
        Code::I4 => "I4 bad import name",
        Code::V1 => "V1 not a replay file",
        Code::O1 => "O1 not an object",
        Code::O2 => "O2 object too big",
    }
}

/// What a report says of a place: the name of a text, and a line and a column of it, both counted from 1.
#[derive(Clone, Copy, Debug)]
pub struct Position<'a> {
    pub name: &'a [u8],
    pub row: u32,
    pub column: u32,
}

/// The start of a place in the text whose number it has. Behind the end of the text it is the end; where there is no text with
/// this number it is the first line and column of one without a name. Takes no memory.
pub fn position_of<'a>(sources: &'a Sources, span: Span) -> Position<'a>
    requires short { AreShort sources.now.list.items }
    ensures { plain_position result ≡ position_of sources.entry.now.list.items span }
{
    match sources.list.get(span.text as usize) {
        Some(source) => position_in(source.name.slice(), source.text.slice(), span.start),
        None => position_in(b"", b"", span.start),
    }
}

/// A byte of the text that has this name.
fn position_in<'a>(name: &'a [u8], text: &[u8], at: u32) -> Position<'a>
    requires short { length text.now ≤ TEXT_LIMIT }
    ensures { plain_position result ≡ reports.position_in name.entry.now text.now at }
{
    let (row, column) = line_col(text, at.min(text.len() as u32));
    Position { name, row, column }
}

/// A line about a text, by its name.
pub fn line(alloc: Global, name: &[u8], rest: &str) -> Result<Vec<u8>, AllocError>
    ensures { IfOk result (λ text. text.items ≡ line name.now rest.now) }
{
    let said = format!(in alloc; "{rest}\n")?;
    joined(alloc, name, said.as_bytes())
}

/// The report of a refusal.
pub fn refusal(alloc: Global, position: Position<'_>, code: Code) -> Result<Vec<u8>, AllocError>
    ensures { IfOk result (λ text. text.items ≡ refusal_report (plain_position position.entry) code) }
{
    let Position { name, row, column } = position;
    let text = text_of_code(code);
    let said = format!(in alloc; ":{row}:{column}: {text}\n")?;
    joined(alloc, name, said.as_bytes())
}

/// The report of a division by zero.
pub fn trap(alloc: Global, position: Position<'_>) -> Result<Vec<u8>, AllocError>
    ensures { IfOk result (λ text. text.items ≡ trap_report (plain_position position.entry)) }
{
    let Position { name, row, column } = position;
    let said = format!(in alloc; ":{row}:{column}: division by zero\n")?;
    joined(alloc, name, said.as_bytes())
}

/// A name, and what is said of it.
fn joined(alloc: Global, name: &[u8], said: &[u8]) -> Result<Vec<u8>, AllocError>
    ensures { IfOk result (λ text. text.items ≡ name.now ++ said.now) }
{
    let mut text = Vec::from_slice(alloc, name)?;
    text.extend_from_slice(said)?;
    Ok(text)
}
