// Rows on processes where values stand, on values where processes stand, and on what is sent and called.

use crate::hint::{Hint, Row, says};
use crate::piece::{ends_value, is_arrow, is_value};
use crate::scene::Scene;
use pict_follow::Class;
use pict_syntax::{Keyword, Sign};

/// Whether the wrong token is `!`, `?` or `?*` behind a name.
fn is_process(scene: &Scene<'_>) -> bool {
    let arrow = match scene.kind(0) {
        None => false,
        Some(class) => is_arrow(class),
    };
    arrow && scene.named(1)
}

/// Whether the `=` two places before the wrong token is that of a function: before it the fields of one end, or its type.
fn is_behind_fields(scene: &Scene<'_>) -> bool {
    scene.mark(3, Sign::CloseParen)
        || (scene.mark(4, Sign::Colon) && scene.mark(5, Sign::CloseParen))
        || (scene.mark(5, Sign::Colon) && scene.mark(6, Sign::CloseParen))
}

/// A process where a value stands.
pub fn in_value(scene: &Scene<'_>) -> Option<Hint> {
    if !is_process(scene) || !scene.mark(2, Sign::Equals) {
        return None;
    }
    if scene.reads(Keyword::Val) && (scene.key(4, Keyword::Val) || scene.mark(4, Sign::Colon)) {
        return says(scene, Row::NamedValue, 1);
    }
    if is_behind_fields(scene) {
        return says(scene, Row::Process, 1);
    }
    if scene.reads(Keyword::Val) {
        return says(scene, Row::NamedValue, 1);
    }
    None
}

/// A process at the top without its `run`.
pub fn without_run(scene: &Scene<'_>) -> Option<Hint> {
    if !is_process(scene) || scene.key(2, Keyword::Run) || !scene.can_mark(Sign::Semicolon) {
        return None;
    }
    if scene.reads(Keyword::Val) {
        return says(scene, Row::NamedValue, 1);
    }
    says(scene, Row::RunIt, 1)
}

/// The result type of a process.
pub fn result_type(scene: &Scene<'_>) -> Option<Hint> {
    let equals = scene.only(Class::Mark(Sign::Equals));
    if equals && scene.mark(0, Sign::Colon) && scene.mark(1, Sign::CloseBracket) {
        return says(scene, Row::ResultType, 0);
    }
    None
}

/// Whether nothing but a message or an input goes on here.
fn goes_on_as_process(scene: &Scene<'_>) -> bool {
    for class in scene.could {
        if !is_arrow(*class) {
            return false;
        }
    }
    scene.can_mark(Sign::Bang)
}

/// A call without brackets, where a process stands.
pub fn called(scene: &Scene<'_>) -> Option<Hint> {
    if !scene.stands(1, Class::Word) || !scene.can_mark(Sign::Bang) {
        return None;
    }
    let opens = scene.mark(0, Sign::OpenParen) || scene.mark(0, Sign::OpenBracket);
    let begun = match scene.kind(2) {
        Some(Class::Key(Keyword::Run | Keyword::Then | Keyword::Else)) => true,
        Some(Class::Mark(Sign::Equals | Sign::OpenParen | Sign::Bar)) => true,
        _ => false,
    };
    if opens && begun {
        return says(scene, Row::CallOrSend, 1);
    }
    let value = match scene.kind(0) {
        None => false,
        Some(class) => is_value(class),
    };
    if value && goes_on_as_process(scene) && scene.goes_on_in_line() {
        return says(scene, Row::SendShort, 1);
    }
    None
}

/// Whether a message ends with the token that has this number: the token before it is `!`.
fn ends_message(scene: &Scene<'_>, token: usize) -> bool {
    let value = match scene.pieces.get(token) {
        None => false,
        Some(piece) => ends_value(piece.class),
    };
    let sent = match token.checked_sub(1) {
        None => false,
        Some(before) => match scene.pieces.get(before) {
            None => false,
            Some(piece) => piece.class == Class::Mark(Sign::Bang),
        },
    };
    value && sent
}

/// Several values behind a message.
pub fn several(scene: &Scene<'_>) -> Option<Hint> {
    let value = match scene.kind(0) {
        None => false,
        Some(class) => is_value(class),
    };
    let before = scene.at.saturating_sub(1);
    if value && ends_message(scene, before) && scene.goes_on_in_line() {
        return says(scene, Row::OneRecord, 0);
    }
    None
}

/// An answer behind a word that other languages have there.
pub fn returned(scene: &Scene<'_>) -> Option<Hint> {
    if scene.stops() && matches!(scene.word(2), b"return" | b"yield") {
        return says(scene, Row::Return, 2);
    }
    None
}

/// A value that is read as one that is awaited, but goes on what stands before it in its line.
pub fn awaited_in_line(scene: &Scene<'_>) -> Option<Hint> {
    let begun = scene.awaited()?;
    let before = begun.checked_sub(1)?;
    if !scene.stops() || !scene.same_line(before, begun) {
        return None;
    }
    if ends_message(scene, before) {
        return says(scene, Row::OneRecord, 0);
    }
    let equals = match scene.pieces.get(begun.saturating_sub(2)) {
        None => false,
        Some(piece) => piece.class == Class::Mark(Sign::Equals),
    };
    let named = match scene.pieces.get(before) {
        None => false,
        Some(piece) => piece.class == Class::Word,
    };
    if equals && named && scene.can_mark(Sign::Semicolon) {
        return Some(Hint {
            row: Row::Call,
            token: before,
        });
    }
    None
}

/// A value that lacks its `;`.
pub fn awaited(scene: &Scene<'_>) -> Option<Hint> {
    let begun = scene.awaited()?;
    if scene.stops() && scene.only(Class::Mark(Sign::Semicolon)) {
        return Some(Hint {
            row: Row::Awaits,
            token: begun,
        });
    }
    None
}
