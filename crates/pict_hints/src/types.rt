// What is told of a type that doesn't fit, as far as the tokens around the place say it.

ghost use Rattle.std.specs.Prelude.{◌≤◌, length};
ghost use Rattle.pict_syntax.specs.declared.limits.TheConstants.{TEXT_LIMIT};

use crate::piece::{Piece, index_of, pieces_of};
use crate::scene::Scene;
use crate::writing::put_perhaps;
use pict_follow::Class;
use pict_lex::{LexError, lex};
use pict_syntax::{Code, Keyword, Names, Sign, TEXT_LIMIT};
use std::alloc::{AllocError, Global};

/// Writes what may be meant where a type doesn't fit.
pub fn put_misfit(
    alloc: Global,
    out: &mut Vec<u8>,
    code: Code,
    text: &[u8],
    start: u32,
) -> Result<(), AllocError>
    requires short { length text.now ≤ TEXT_LIMIT }
{
    let mut names = Names::new(alloc);
    match lex(alloc, &mut names, text, 1) {
        Err(LexError::Memory) => Err(AllocError),
        Err(LexError::Named(_, _)) => Ok(()),
        Ok(tokens) => {
            let pieces = pieces_of(alloc, &tokens)?;
            put_hint(out, code, text, &pieces, start)
        }
    }
}

/// The same of a text with these tokens.
fn put_hint(
    out: &mut Vec<u8>,
    code: Code,
    text: &[u8],
    pieces: &[Piece],
    start: u32,
) -> Result<(), AllocError> {
    let scene = Scene {
        text,
        pieces,
        at: index_of(pieces, start),
        could: &[],
        ends: false,
        unclosed: &[],
        declaration: None,
    };
    match hint_of(code, &scene) {
        None => Ok(()),
        Some(hint) => put_perhaps(out, hint.as_bytes()),
    }
}

/// What may be meant.
fn hint_of(code: Code, scene: &Scene<'_>) -> Option<&'static str> {
    match code {
        Code::Y4 => other_type(scene),
        Code::Y5 => too_few(scene),
        Code::Y7 => unwritten(scene),
        Code::Y8 => applied(scene),
        Code::Y15 => Some("`^` makes a channel on which one may send and receive: `new c:^T`"),
        _ => None,
    }
}

/// Whether a `def` binds the name of this token, and its pattern begins with this sign.
fn is_defined(scene: &Scene<'_>, back: usize, sign: Sign) -> bool {
    let name = scene.word(back);
    for (index, piece) in scene.pieces.iter().enumerate() {
        let begins = match piece.class {
            Class::Key(Keyword::Def | Keyword::And) => true,
            _ => false,
        };
        let named = scene.spelled(index.saturating_add(1)) == name;
        let opened = match scene.pieces.get(index.saturating_add(2)) {
            None => false,
            Some(piece) => piece.class == Class::Mark(sign),
        };
        if begins && named && opened {
            return true;
        }
    }
    false
}

/// A value of another type.
fn other_type(scene: &Scene<'_>) -> Option<&'static str> {
    let sent = scene.mark(1, Sign::Bang);
    if sent && matches!(scene.word(2), b"print") {
        return Some("`printi!n` prints a number; `(intstr n)` is a number's text");
    }
    if sent && matches!(scene.word(2), b"printi") {
        return Some("`print!s` prints a string");
    }
    let equal = matches!(scene.word(1), b"==") || matches!(scene.word(2), b"==");
    if equal && scene.stands(0, Class::Text) {
        return Some(
            "`==` compares numbers; texts are compared by a function over `size` and `nth`",
        );
    }
    if matches!(scene.word(0), b"nil") {
        return Some("a function without arguments is called too: `(nil)`");
    }
    if matches!(scene.word(0), b"+") {
        return Some("a function in place of a primitive is `\\(a:Int b:Int):Int = (+ a b)`");
    }
    if sent && is_defined(scene, 2, Sign::OpenParen) {
        return Some("this is a function: it is called where a value stands, `(f ..)`");
    }
    None
}

/// Too few or too many fields.
fn too_few(scene: &Scene<'_>) -> Option<&'static str> {
    if scene.mark(1, Sign::Bang) && is_defined(scene, 2, Sign::OpenParen) {
        return Some(
            "this is a function, and its last field is where it answers: call it where a value stands, `(f ..)`",
        );
    }
    None
}

/// A type that has to be written.
fn unwritten(scene: &Scene<'_>) -> Option<&'static str> {
    if scene.mark(0, Sign::OpenParen) {
        return Some("a function's result type is written too: `def f (x:Int):Int = x`");
    }
    if scene.stands(0, Class::Word) {
        return Some("the type is written behind the name: `x:Int`");
    }
    None
}

/// Something that is applied and is no function.
fn applied(scene: &Scene<'_>) -> Option<&'static str> {
    match scene.next_kind() {
        Some(Class::Symbol(_)) => {
            return Some("operators stand first, in round brackets: `(+ a b)`");
        }
        Some(Class::Mark(Sign::CloseParen)) => {
            return Some(
                "round brackets call what stands in them: a value stands without them; from a channel it comes by `c?x = P`",
            );
        }
        _ => {}
    }
    let printed = matches!(scene.word(0), b"print" | b"printi");
    if printed {
        return Some(
            "`print` is sent to, as in `run print!\"x\"`; `(pr \"x\");` prints and goes on",
        );
    }
    if is_defined(scene, 0, Sign::OpenBracket) {
        return Some(
            "this process is sent to, `run f![..]`, and answers nothing; what answers is `def f (x:T):U = value`",
        );
    }
    None
}
