// What the parser's verdict on tokens says of what may stand behind them.

ghost use Rattle.std.specs.Prelude.{◌↔◌, IfOk, IsTrue};
ghost use Rattle.pict_syntax.specs.Place.{IsPrefix};
ghost use Rattle.pict_syntax.specs.Programs.{programs};
ghost use Rattle.pict_syntax.specs.Verdicts.{IsVerdict, Unexpected, end_place};
ghost use Rattle.pict_follow.specs.Follow.{AreWhole, CanGoOn, IsAsked, first_end};

use pict_parse::{ParseError, parse};
use pict_syntax::{Span, Token};
use std::alloc::{AllocError, Global};

/// An end of a text.
pub(crate) const END: u32 = 1;

/// Another end of a text.
const OTHER_END: u32 = 2;

/// Whether these are the tokens of a program, none of which is nested too deep. The only error is want of memory.
pub fn are_whole(alloc: Global, tokens: &[Token]) -> Result<bool, AllocError>
    ensures { IfOk result (λ b. IsTrue b ↔ AreWhole tokens.now) }
{
    match parse(alloc, tokens, END) {
        Ok(_) => Ok(true),
        Err(ParseError::Unexpected(_)) => Ok(false),
        Err(ParseError::TooNested(_)) => Ok(false),
        Err(ParseError::Memory) => Err(AllocError),
    }
}

/// Whether some program begins with these tokens, none of which is nested too deep. The only error is want of memory.
pub fn can_go_on(alloc: Global, tokens: &[Token]) -> Result<bool, AllocError>
    ensures { IfOk result (λ b. IsTrue b ↔ CanGoOn tokens.now) }
{
    match parse(alloc, tokens, END) {
        Ok(_) => Ok(true),
        Err(ParseError::Unexpected(span)) => stops_at_end(alloc, tokens, span),
        Err(ParseError::TooNested(_)) => Ok(false),
        Err(ParseError::Memory) => Err(AllocError),
    }
}

/// Whether tokens that are refused here, as those of a text with this end, are refused at the end: with another end they are
/// refused elsewhere.
fn stops_at_end(alloc: Global, tokens: &[Token], span: Span) -> Result<bool, AllocError>
    requires { IsVerdict programs tokens.now (end_place tokens.now first_end) (Unexpected span) }
    ensures { IfOk result (λ b. IsTrue b ↔ CanGoOn tokens.now) }
{
    match parse(alloc, tokens, OTHER_END) {
        Ok(_) => Ok(false),
        Err(ParseError::Unexpected(other)) => Ok(other.start != span.start),
        Err(ParseError::TooNested(_)) => Ok(false),
        Err(ParseError::Memory) => Err(AllocError),
    }
}

/// Whether some program begins with these tokens, of which the last is the one that is tried: with those before it some program
/// begins, and none of them is nested too deep. `end` lies behind the beginning of the last one. The only error is want of
/// memory.
pub(crate) fn goes_on(alloc: Global, tokens: &[Token], end: u32) -> Result<bool, AllocError>
    requires asked { IsAsked tokens.now end }
    ensures { IfOk result (λ b. IsTrue b ↔ IsPrefix programs tokens.now) }
{
    match parse(alloc, tokens, end) {
        Ok(_) => Ok(true),
        Err(ParseError::TooNested(_)) => Ok(true),
        Err(ParseError::Unexpected(span)) => Ok(span.start == end),
        Err(ParseError::Memory) => Err(AllocError),
    }
}
