// Characters and strings.

ghost use Rattle.std.specs.Prelude.{◌≡◌, [], ◌∷◌, IfOk, IfErr};
ghost use Rattle.pict_syntax.specs.Tokens.{character, string};
ghost use Rattle.pict_syntax.specs.Comments.{BeginsWith};
ghost use Rattle.pict_lex.specs.Scan.{IsToken, IsHalt};

use crate::halt::Halt;
use crate::literal::{Due, due_at};
use pict_syntax::{Bytes, Code};
use std::alloc::Global;

/// The character at the front, with how many bytes it has.
pub(crate) fn read_character(rest: &[u8]) -> Result<(u8, usize), Halt>
    requires { BeginsWith (39 ∷ []) rest.now }
    ensures token { IfOk result (λ found. IsToken rest.now (character found.0) found.1) }
    ensures halt { IfErr result (IsHalt rest.now) }
{
    match due_at(b'\'', &rest[1..]) {
        Due::Item(value, len) if len + 1 < rest.len() && rest[len + 1] == b'\'' => {
            Ok((value, len + 2))
        }
        Due::Item(_, _) | Due::Quote | Due::CutOff => Err(Halt::Stop(Code::L2, 0)),
        Due::BadByte => Err(Halt::Stop(Code::L1, 1)),
        Due::BadEscape => Err(Halt::Stop(Code::L3, 1)),
    }
}

/// The string at the front, with how many bytes it has.
pub(crate) fn read_string(alloc: Global, rest: &[u8]) -> Result<(Bytes, usize), Halt>
    requires { BeginsWith (34 ∷ []) rest.now }
    ensures token { IfOk result (λ found. IsToken rest.now (string found.0) found.1) }
    ensures halt { IfErr result (IsHalt rest.now) }
{
    let mut values = Vec::new(alloc);
    let mut at = 1;
    'items: loop {
        match due_at(b'"', &rest[at..]) {
            Due::Item(value, len) => {
                values.push(value)?;
                at += len;
            }
            Due::Quote => return Ok((Bytes::copy_of(alloc, &values)?, at + 1)),
            Due::CutOff => return Err(Halt::Stop(Code::L2, 0)),
            Due::BadByte => return Err(Halt::Stop(Code::L1, at)),
            Due::BadEscape => return Err(Halt::Stop(Code::L3, at)),
        }
    }
}
