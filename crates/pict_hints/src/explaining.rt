// What is told of a refusal, below its report.

ghost use Rattle.std.specs.Prelude.{◌≤◌, length};
ghost use Rattle.pict_syntax.specs.declared.limits.TheConstants.{TEXT_LIMIT};

use crate::bytes::put_byte;
use crate::grammar::put_wrong_token;
use crate::line::shown_line;
use crate::names::{Sort, put_unbound};
use crate::types::put_misfit;
use pict_syntax::{Code, Span, TEXT_LIMIT};
use std::alloc::{AllocError, Global};

/// What is told below the report of a text that is refused with this code at this place: the line with a caret, and what is
/// known of the code there. Of a place in the prelude, whose number is 0, nothing is told. `bare` says whether the text stands
/// without the prelude; `types` are lines that are told below the line. The only error is want of memory.
pub fn explanation(
    alloc: Global,
    code: Code,
    place: Span,
    text: &[u8],
    bare: bool,
    types: &[u8],
) -> Result<Vec<u8>, AllocError>
    requires short { length text.now ≤ TEXT_LIMIT }
{
    if place.text == 0 {
        return Ok(Vec::new(alloc));
    }
    let mut out = shown_line(alloc, text, place.start)?;
    out.extend_from_slice(types)?;
    match code {
        Code::L1 | Code::L2 | Code::L3 => put_byte(&mut out, code, text, place.start as usize)?,
        Code::P1 => put_wrong_token(alloc, &mut out, text, place.start)?,
        Code::S1 => put_unbound(
            alloc,
            &mut out,
            text,
            place.start,
            place.end,
            bare,
            Sort::Values,
        )?,
        Code::S2 => put_unbound(
            alloc,
            &mut out,
            text,
            place.start,
            place.end,
            bare,
            Sort::Types,
        )?,
        _ => put_misfit(alloc, &mut out, code, text, place.start)?,
    }
    Ok(out)
}
