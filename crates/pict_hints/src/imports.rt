// Rows on imports.

use crate::hint::{Hint, Row, says};
use crate::scene::Scene;
use pict_follow::Class;
use pict_syntax::{Keyword, Sign};

/// A name without its quotes, a sign behind an import, and an import behind a declaration.
pub fn imported(scene: &Scene<'_>) -> Option<Hint> {
    if scene.key(1, Keyword::Import) {
        return match scene.kind(0) {
            Some(Class::Word) if scene.only(Class::Text) => says(scene, Row::ImportName, 0),
            _ => None,
        };
    }
    if scene.key(2, Keyword::Import) && scene.mark(0, Sign::Semicolon) {
        return says(scene, Row::ImportEnd, 0);
    }
    let late = scene.at > 0 && !scene.can(Class::Key(Keyword::Import));
    if late && scene.key(0, Keyword::Import) {
        return says(scene, Row::ImportFirst, 0);
    }
    None
}
