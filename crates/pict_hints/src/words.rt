// Rows on words and signs of other languages.

use crate::hint::{Hint, Row, says};
use crate::scene::Scene;
use pict_follow::Class;
use pict_syntax::{Keyword, Sign};

/// Comments of other languages.
pub fn comment(scene: &Scene<'_>) -> Option<Hint> {
    let star = matches!(scene.spelled(scene.at.saturating_add(1)), b"*");
    let slashes = scene.mark(0, Sign::Slash) && (scene.next_mark(Sign::Slash) || star);
    let dashes = matches!(scene.bytes(0), b"-") && matches!(scene.bytes(1), b"-") && scene.glued(0);
    let hash = scene.mark(0, Sign::Hash) && !scene.goes_on_in_line();
    if slashes || dashes || hash {
        return says(scene, Row::Comment, 0);
    }
    None
}

/// Keywords of other languages.
pub fn keyword(scene: &Scene<'_>) -> Option<Hint> {
    let row = match scene.word(1) {
        b"let" | b"var" | b"const" | b"int" => Row::Let,
        b"function" | b"func" | b"fun" | b"fn" | b"proc" | b"process" => Row::Function,
        _ => return no_name(scene),
    };
    if scene.stands(0, Class::Word) {
        return says(scene, row, 1);
    }
    None
}

/// Keywords of other languages, whatever stands behind them.
fn no_name(scene: &Scene<'_>) -> Option<Hint> {
    match scene.word(1) {
        b"while" | b"for" | b"repeat" | b"loop" => says(scene, Row::Loop, 1),
        b"return" | b"yield" => says(scene, Row::Return, 1),
        b"send" | b"recv" | b"receive" => says(scene, Row::Receive, 1),
        b"begin" | b"do" => says(scene, Row::Begin, 1),
        _ => capital(scene),
    }
}

/// Keywords with capitals.
fn capital(scene: &Scene<'_>) -> Option<Hint> {
    match scene.word(1) {
        b"Run" | b"RUN" | b"New" | b"NEW" | b"Val" | b"VAL" | b"Def" | b"DEF" | b"TYPE" => {
            says(scene, Row::Small, 1)
        }
        b"If" | b"IF" | b"Then" | b"THEN" | b"Else" | b"ELSE" | b"And" | b"AND" => {
            says(scene, Row::Small, 1)
        }
        _ => None,
    }
}

/// Truth values, and functions without a name.
pub fn logic(scene: &Scene<'_>) -> Option<Hint> {
    let then = scene.only(Class::Key(Keyword::Then));
    if scene.key(0, Keyword::And) && (scene.mark(1, Sign::OpenParen) || then) {
        return says(scene, Row::And, 0);
    }
    if matches!(scene.word(0), b"or") {
        return says(scene, Row::Or, 0);
    }
    let before = scene.mark(0, Sign::Bang) && scene.next_mark(Sign::Equals);
    let behind = scene.mark(0, Sign::Equals) && scene.mark(1, Sign::Bang);
    if (before || behind) && !scene.can_type() {
        return says(scene, Row::Differ, 0);
    }
    if scene.mark(0, Sign::Equals)
        && matches!(scene.word(2), b"fun" | b"fn" | b"function" | b"lambda")
    {
        return says(scene, Row::Lambda, 0);
    }
    None
}

/// Signs of other languages.
pub fn sign(scene: &Scene<'_>) -> Option<Hint> {
    let equals = scene.can_mark(Sign::Equals);
    if equals && scene.mark(0, Sign::Colon) && scene.next_mark(Sign::Equals) {
        return says(scene, Row::Assign, 0);
    }
    let thin = equals && scene.mark(0, Sign::Arrow);
    let thick = scene.mark(0, Sign::Greater) && scene.mark(1, Sign::Equals) && scene.glued(0);
    if thin || thick {
        return says(scene, Row::Arrow, 0);
    }
    let label = scene.mark(0, Sign::Colon) && scene.stands(1, Class::Word);
    if label && equals && scene.can_mark(Sign::CloseBracket) {
        return says(scene, Row::Label, 1);
    }
    None
}
