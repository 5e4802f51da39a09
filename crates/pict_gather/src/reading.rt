// The program of one text: its tokens, and then its tree.

ghost use Rattle.std.specs.Prelude.{◌≡◌, ◌≤◌, ◌<◌, ◌+◌, ◌^◌, IfSome, length};
ghost use Rattle.pict_syntax.specs.declared.limits.TheConstants.{TEXT_LIMIT};
ghost use Rattle.pict_gather.specs.Answers.{read_said};
ghost use Rattle.pict_gather.specs.Reading.{Reads};

use crate::error::{ReadError, of_lex_error, of_parse_error};
use pict_lex::lex;
use pict_parse::parse;
use pict_syntax::{Names, Program};
use std::alloc::Global;

/// The program of the text that has this number. The names gain those of the text.
pub(crate) fn read(
    alloc: Global,
    names: &mut Names,
    text: &[u8],
    number: u32,
) -> Result<Program, ReadError>
    requires short { length text.now ≤ TEXT_LIMIT }
    requires room { length names.old + length text.now < 2 ^ 32 }
    ensures said { IfSome (read_said names.new result) (Reads names.old number text.now) }
    ensures bound { length names.new ≤ length names.old + length text.now }
{
    let tokens = match lex(alloc, names, text, number) {
        Ok(tokens) => tokens,
        Err(error) => return Err(of_lex_error(error)),
    };
    match parse(alloc, &tokens, length_of(text)) {
        Ok(program) => Ok(program),
        Err(error) => Err(of_parse_error(error)),
    }
}

/// How many bytes a text has.
fn length_of(text: &[u8]) -> u32
    requires short { length text.now ≤ TEXT_LIMIT }
    ensures { result ≡ length text.now }
{
    text.len() as u32
}
