// What is told of a wrong token.

ghost use Rattle.std.specs.Prelude.{◌≤◌, length};
ghost use Rattle.pict_syntax.specs.declared.limits.TheConstants.{TEXT_LIMIT};

use crate::hint::{Hint, put_hint};
use crate::kinds::KINDS;
use crate::listed::put_listed;
use crate::opened::{declaration_of, opened};
use crate::piece::{front, index_of, pieces_of};
use crate::scene::Scene;
use crate::writing::put_place;
use crate::{imports, missing, operators, processes, words};
use pict_follow::{Class, are_whole, can_go_on, could_stand};
use pict_lex::{LexError, lex};
use pict_syntax::{Keyword, Names, Sign, TEXT_LIMIT, Token};
use std::alloc::{AllocError, Global};

/// Behind how many tokens it is asked what could stand.
const MOST: usize = 20_000;

/// Writes what could stand at the wrong token that begins here, what is being read there, and what may be meant.
pub fn put_wrong_token(
    alloc: Global,
    out: &mut Vec<u8>,
    text: &[u8],
    start: u32,
) -> Result<(), AllocError>
    requires short { length text.now ≤ TEXT_LIMIT }
{
    let mut names = Names::new(alloc);
    match lex(alloc, &mut names, text, 1) {
        Err(LexError::Memory) => Err(AllocError),
        Err(LexError::Named(_, _)) => Ok(()),
        Ok(tokens) => put_scene(alloc, out, text, tokens, start),
    }
}

/// The same of a text with these tokens.
fn put_scene(
    alloc: Global,
    out: &mut Vec<u8>,
    text: &[u8],
    mut tokens: Vec<Token>,
    start: u32,
) -> Result<(), AllocError>
    requires short { length text.now ≤ TEXT_LIMIT }
{
    let pieces = pieces_of(alloc, &tokens)?;
    let at = index_of(&pieces, start);
    tokens.truncate(at);
    if at > MOST {
        return Ok(());
    }
    let unclosed = opened(alloc, front(&pieces, at))?;
    let declaration = declaration_of(alloc, &tokens, front(&pieces, at))?;
    let ends = are_whole(alloc, &tokens)?;
    let could = match could_follow(alloc, &mut tokens)? {
        None => return Ok(()),
        Some(could) => could,
    };
    let scene = Scene {
        text,
        pieces: &pieces,
        at,
        could: &could,
        ends,
        unclosed: &unclosed,
        declaration,
    };
    put_told(alloc, out, &scene)
}

/// The kinds that may follow these tokens, if some program begins with them.
fn could_follow(alloc: Global, tokens: &mut Vec<Token>) -> Result<Option<Vec<Class>>, AllocError> {
    if can_go_on(alloc, tokens)? {
        Ok(Some(could_stand(alloc, tokens, &KINDS)?))
    } else {
        Ok(None)
    }
}

/// Writes what is told of a wrong token.
fn put_told(alloc: Global, out: &mut Vec<u8>, scene: &Scene<'_>) -> Result<(), AllocError>
    requires short { length scene.now.text.now ≤ TEXT_LIMIT }
{
    put_found(out, scene)?;
    out.extend_from_slice(b"  could stand here: ")?;
    put_listed(alloc, out, scene.could, scene.ends)?;
    out.push(b'\n')?;
    put_reading(out, scene)?;
    match hint_of(scene) {
        None => Ok(()),
        Some(hint) => put_hint(out, scene, hint),
    }
}

/// Writes a token as it stands in the text; a literal and a long one by its kind.
fn put_token(out: &mut Vec<u8>, scene: &Scene<'_>, back: usize) -> Result<(), AllocError> {
    match scene.kind(back) {
        None => out.extend_from_slice(b"the end of the text"),
        Some(Class::Text) => out.extend_from_slice(b"a string"),
        Some(Class::Letter) => out.extend_from_slice(b"a character"),
        Some(_) => {
            let bytes = scene.bytes(back);
            out.push(b'`')?;
            if bytes.len() > 40 {
                out.extend_from_slice(b"..")?;
            } else {
                out.extend_from_slice(bytes)?;
            }
            out.push(b'`')?;
            Ok(())
        }
    }
}

/// Writes which token was found, and behind which one.
fn put_found(out: &mut Vec<u8>, scene: &Scene<'_>) -> Result<(), AllocError> {
    out.extend_from_slice(b"  found ")?;
    put_token(out, scene, 0)?;
    if scene.at > 0 {
        out.extend_from_slice(b", behind ")?;
        put_token(out, scene, 1)?;
    }
    out.push(b'\n')?;
    Ok(())
}

/// What begins with this, where it is open.
fn opened_by(class: Class) -> &'static str {
    match class {
        Class::Mark(Sign::OpenParen) => "what stands in `( )`",
        Class::Mark(Sign::OpenBracket) => "what stands in `[ ]`",
        Class::Key(Keyword::If) => "an `if`",
        Class::Key(Keyword::Import) => "an `import`",
        Class::Key(Keyword::New) => "a `new`",
        Class::Key(Keyword::Run) => "a `run`",
        Class::Key(Keyword::Val) => "a `val`",
        Class::Key(Keyword::Def) => "a `def`",
        Class::Key(Keyword::TypeDefinition) => "a `type`",
        _ => "a value that ends with `;`",
    }
}

/// The number of the token with which begins what is being read.
fn reading(scene: &Scene<'_>) -> Option<usize> {
    if scene.ends {
        return None;
    }
    match (scene.unclosed.last(), scene.declaration) {
        (None, declaration) => declaration,
        (Some(inner), None) => Some(*inner),
        (Some(inner), Some(declaration)) => Some(declaration.max(*inner)),
    }
}

/// Writes what is being read, and where it begins.
fn put_reading(out: &mut Vec<u8>, scene: &Scene<'_>) -> Result<(), AllocError>
    requires short { length scene.now.text.now ≤ TEXT_LIMIT }
{
    let Some(index) = reading(scene) else {
        return Ok(());
    };
    match scene.pieces.get(index) {
        None => Ok(()),
        Some(piece) => {
            out.extend_from_slice(b"  this is read as part of ")?;
            let whole = scene.declaration == Some(index);
            let what = if whole && scene.awaited().is_some() {
                "a value that ends with `;`"
            } else {
                opened_by(piece.class)
            };
            out.extend_from_slice(what.as_bytes())?;
            out.extend_from_slice(b", from ")?;
            put_place(out, scene.text, piece.start)?;
            out.extend_from_slice(b" on\n")
        }
    }
}

/// The first row that fits.
fn hint_of(scene: &Scene<'_>) -> Option<Hint> {
    let first = first_of(scene);
    if first.is_some() {
        return first;
    }
    let sign = scene.mark(0, Sign::Less) || scene.mark(0, Sign::Greater);
    let other = scene.symbol(0) || scene.mark(0, Sign::Semicolon);
    if scene.can_type() && (sign || other) {
        return None;
    }
    let second = second_of(scene);
    if second.is_some() {
        return second;
    }
    last_of(scene)
}

/// Imports, words and signs of other languages, and what is written otherwise.
fn first_of(scene: &Scene<'_>) -> Option<Hint> {
    words::comment(scene)
        .or(imports::imported(scene))
        .or(words::keyword(scene))
        .or(words::logic(scene))
        .or(words::sign(scene))
        .or(missing::round(scene))
        .or(missing::declared(scene))
        .or(operators::at_operator(scene))
}

/// Operators, and parts that are missing.
fn second_of(scene: &Scene<'_>) -> Option<Hint> {
    operators::compared(scene)
        .or(operators::minus(scene))
        .or(operators::behind_operator(scene))
        .or(operators::condition(scene))
        .or(missing::in_place(scene))
        .or(missing::ended(scene))
        .or(missing::between(scene))
        .or(missing::closed(scene))
}

/// Processes and values that stand in one another's place, and what isn't closed.
fn last_of(scene: &Scene<'_>) -> Option<Hint> {
    processes::in_value(scene)
        .or(processes::without_run(scene))
        .or(processes::result_type(scene))
        .or(processes::called(scene))
        .or(processes::several(scene))
        .or(processes::returned(scene))
        .or(processes::awaited_in_line(scene))
        .or(processes::awaited(scene))
        .or(missing::unclosed(scene))
}
