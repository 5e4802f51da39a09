// Rows on what is missing: brackets, parts of conditionals, what is sent.

use crate::hint::{Hint, Row, says};
use crate::piece::is_declaration;
use crate::scene::Scene;
use pict_follow::Class;
use pict_syntax::{Keyword, Sign};

/// Round brackets as other languages have them.
pub fn round(scene: &Scene<'_>) -> Option<Hint> {
    let rec = Class::Key(Keyword::Rec);
    if scene.mark(0, Sign::Equals) && scene.key(2, Keyword::Def) {
        return says(scene, Row::NoPattern, 1);
    }
    if scene.mark(0, Sign::CloseParen) && scene.mark(1, Sign::OpenParen) && scene.can_value() {
        return says(scene, Row::EmptyRecord, 0);
    }
    let compared = scene.mark(2, Sign::Less) || scene.mark(2, Sign::Greater);
    if scene.mark(0, Sign::CloseParen) && compared && scene.stands(3, Class::Word) {
        return says(scene, Row::Compare, 0);
    }
    if scene.mark(1, Sign::OpenParen) && scene.only(rec) {
        return says(scene, Row::Tuple, 1);
    }
    let named = scene.could.len() == 2 && scene.can(Class::Word) && scene.can(rec);
    if scene.mark(1, Sign::OpenParen) && named {
        return says(scene, Row::TypeAlone, 1);
    }
    None
}

/// Declarations that are written otherwise.
pub fn declared(scene: &Scene<'_>) -> Option<Hint> {
    if scene.key(2, Keyword::TypeDefinition) && scene.only(Class::Mark(Sign::Equals)) {
        return says(scene, Row::Operator, 1);
    }
    if scene.key(0, Keyword::Rec) && scene.key(1, Keyword::Val) {
        return says(scene, Row::ValRec, 0);
    }
    if scene.key(1, Keyword::Run) {
        return match scene.kind(0) {
            Some(class) if is_declaration(class) => says(scene, Row::BehindRun, 0),
            _ => None,
        };
    }
    let typed = scene.only(Class::Mark(Sign::Colon));
    if typed && scene.stands(1, Class::Word) && scene.key(2, Keyword::New) {
        return says(scene, Row::NewType, 1);
    }
    None
}

/// A value that is received in place.
pub fn in_place(scene: &Scene<'_>) -> Option<Hint> {
    let part = match scene.kind(0) {
        Some(Class::Mark(Sign::CloseParen | Sign::Semicolon)) => true,
        Some(Class::Key(Keyword::Then | Keyword::Else)) => true,
        _ => scene.stops(),
    };
    if part && scene.mark(1, Sign::Question) {
        return says(scene, Row::InPlace, 1);
    }
    let closed = scene.next_mark(Sign::CloseParen) || scene.next_mark(Sign::CloseBracket);
    if scene.mark(0, Sign::Question) && scene.stands(1, Class::Word) && closed {
        return says(scene, Row::InPlace, 1);
    }
    None
}

/// A part that is missing where something ends.
pub fn ended(scene: &Scene<'_>) -> Option<Hint> {
    let closes = scene.mark(0, Sign::CloseParen);
    let ends = scene.stops() || closes || scene.mark(0, Sign::Bar);
    if ends && scene.can(Class::Key(Keyword::Else)) {
        return says(scene, Row::Else, 0);
    }
    if ends && scene.mark(1, Sign::Bang) && scene.can_value() {
        return says(scene, Row::Nothing, 0);
    }
    if closes && scene.mark(1, Sign::Semicolon) && scene.can_value() {
        return says(scene, Row::Block, 0);
    }
    None
}

/// Bars and semicolons.
pub fn between(scene: &Scene<'_>) -> Option<Hint> {
    if scene.mark(0, Sign::Semicolon) {
        return says(scene, Row::Semicolon, 0);
    }
    if !scene.mark(0, Sign::Bar) {
        return None;
    }
    if scene.mark(1, Sign::Bar) && scene.glued(0) {
        return says(scene, Row::DoubleBar, 0);
    }
    match scene.innermost(Sign::OpenParen) {
        None => says(scene, Row::SideBySide, 0),
        Some(_) => None,
    }
}

/// Brackets that were never opened.
pub fn closed(scene: &Scene<'_>) -> Option<Hint> {
    if scene.mark(0, Sign::CloseParen) && !scene.is_open(Sign::OpenParen) {
        return says(scene, Row::NoRound, 0);
    }
    if scene.mark(0, Sign::CloseBracket) && !scene.is_open(Sign::OpenBracket) {
        return says(scene, Row::NoSquare, 0);
    }
    None
}

/// Brackets that are never closed.
pub fn unclosed(scene: &Scene<'_>) -> Option<Hint> {
    if !scene.stops() {
        return None;
    }
    if let Some(token) = scene.innermost(Sign::OpenParen) {
        if scene.can_mark(Sign::CloseParen) {
            return Some(Hint {
                row: Row::OpenRound,
                token,
            });
        }
    }
    if let Some(token) = scene.innermost(Sign::OpenBracket) {
        if scene.can_mark(Sign::CloseBracket) {
            return Some(Hint {
                row: Row::OpenSquare,
                token,
            });
        }
    }
    None
}
