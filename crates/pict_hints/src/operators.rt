// Rows on operators between values, on numbers that are compared, and on functions that are called.

use crate::hint::{Hint, Row, says};
use crate::piece::is_value;
use crate::scene::Scene;
use pict_follow::Class;
use pict_syntax::{Keyword, Sign};

/// Whether the token so many places before the wrong one may be the end of an operand.
fn is_operand(scene: &Scene<'_>, back: usize) -> bool {
    match scene.kind(back) {
        Some(Class::Word | Class::Digits | Class::Text | Class::Letter) => true,
        Some(Class::Mark(Sign::CloseParen)) => true,
        _ => false,
    }
}

/// Whether the wrong token may be the beginning of an operand.
fn begins_operand(scene: &Scene<'_>) -> bool {
    match scene.kind(0) {
        None => false,
        Some(class) => is_value(class),
    }
}

/// An operator between two values, at the operator.
pub fn at_operator(scene: &Scene<'_>) -> Option<Hint> {
    let then = scene.only(Class::Key(Keyword::Then));
    if then && scene.mark(0, Sign::Equals) && is_operand(scene, 1) {
        return says(scene, Row::Equal, 0);
    }
    if !scene.symbol(0) {
        return None;
    }
    let ended = is_operand(scene, 1) || scene.mark(1, Sign::CloseBracket);
    if then || (ended && !scene.can_type() && !scene.can_value()) {
        return says(scene, Row::Infix, 0);
    }
    None
}

/// Numbers that are compared by one sign.
pub fn compared(scene: &Scene<'_>) -> Option<Hint> {
    let less = scene.mark(0, Sign::Less) || scene.mark(0, Sign::Greater);
    let sent = is_operand(scene, 1) && scene.mark(2, Sign::Bang);
    if less && (sent || scene.can(Class::Key(Keyword::Then)) || scene.stands(1, Class::Digits)) {
        return says(scene, Row::Compare, 0);
    }
    let behind = match scene.next_kind() {
        None => true,
        Some(class) => is_value(class),
    };
    if less && behind && scene.stands(1, Class::Word) && scene.can_mark(Sign::Bang) {
        return says(scene, Row::Angle, 0);
    }
    let signs = matches!(scene.word(1), b"<<" | b">>" | b"==");
    let bent = scene.mark(1, Sign::Less) || scene.mark(1, Sign::Greater);
    if scene.stands(0, Class::Digits) && (signs || bent) {
        return says(scene, Row::Angle, 0);
    }
    None
}

/// Whether the token so many places before the wrong one is a number with a sign that stands right behind a value.
fn is_minus(scene: &Scene<'_>, back: usize) -> bool {
    scene.stands(back, Class::Digits)
        && scene.glued(back)
        && is_operand(scene, back.saturating_add(1))
        && matches!(scene.bytes(back), [b'-', ..])
}

/// A number with a sign that is meant to be subtracted.
pub fn minus(scene: &Scene<'_>) -> Option<Hint> {
    if is_minus(scene, 0) || is_minus(scene, 1) {
        return says(scene, Row::Minus, 0);
    }
    None
}

/// An operator between two values, behind the operator, which was read as a value.
pub fn behind_operator(scene: &Scene<'_>) -> Option<Hint> {
    let ended = scene.stops() || begins_operand(scene) || scene.mark(0, Sign::CloseParen);
    let between = scene.symbol(1) && is_operand(scene, 2);
    if !ended || !between || !scene.can_mark(Sign::Semicolon) {
        return None;
    }
    if scene.stands(2, Class::Text) || scene.stands(0, Class::Text) {
        return says(scene, Row::InfixText, 1);
    }
    says(scene, Row::Infix, 1)
}

/// A function in a condition that is called without brackets.
pub fn condition(scene: &Scene<'_>) -> Option<Hint> {
    if scene.only(Class::Key(Keyword::Then)) && begins_operand(scene) && scene.named(1) {
        return says(scene, Row::Call, 1);
    }
    None
}
