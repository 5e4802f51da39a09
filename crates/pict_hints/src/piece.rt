// The tokens of a text by kind and place.

use pict_follow::Class;
use pict_syntax::{Keyword, Sign, Token};
use std::alloc::{AllocError, Global};

/// A token's kind, and the bytes of the text that it is.
#[derive(Clone, Copy, Debug)]
pub struct Piece {
    pub class: Class,
    pub start: u32,
    pub end: u32,
}

/// The pieces of these tokens.
pub fn pieces_of(alloc: Global, tokens: &[Token]) -> Result<Vec<Piece>, AllocError> {
    let mut pieces = Vec::new(alloc);
    for token in tokens {
        pieces.push(Piece {
            class: Class::of(&token.kind),
            start: token.span.start,
            end: token.span.end,
        })?;
    }
    Ok(pieces)
}

/// The number of the first piece that begins here or further on; how many there are where none does.
pub fn index_of(pieces: &[Piece], start: u32) -> usize {
    for (index, piece) in pieces.iter().enumerate() {
        if piece.start >= start {
            return index;
        }
    }
    pieces.len()
}

/// The kind of the piece with this number.
pub fn kind_at(pieces: &[Piece], index: usize) -> Option<Class> {
    match pieces.get(index) {
        None => None,
        Some(piece) => Some(piece.class),
    }
}

/// The first pieces, so many of them.
pub fn front(pieces: &[Piece], count: usize) -> &[Piece] {
    if count <= pieces.len() {
        &pieces[..count]
    } else {
        pieces
    }
}

/// Whether this is a name, of letters and digits or a symbol name.
pub fn is_name(class: Class) -> bool {
    matches!(class, Class::Word | Class::Symbol(_))
}

/// Whether this is a keyword that begins a declaration.
pub fn is_declaration(class: Class) -> bool {
    matches!(
        class,
        Class::Key(
            Keyword::New | Keyword::Run | Keyword::Val | Keyword::Def | Keyword::TypeDefinition
        )
    )
}

/// Whether this is a keyword that begins a declaration or an import.
pub fn is_beginning(class: Class) -> bool {
    is_declaration(class) || class == Class::Key(Keyword::Import)
}

/// Whether a value may begin with this.
pub fn is_value(class: Class) -> bool {
    match class {
        Class::Word | Class::Symbol(_) | Class::Digits | Class::Letter | Class::Text => true,
        Class::Key(Keyword::True | Keyword::False | Keyword::If) => true,
        Class::Mark(Sign::OpenParen | Sign::OpenBracket | Sign::Backslash) => true,
        _ => false,
    }
}

/// Whether a value may end with this.
pub fn ends_value(class: Class) -> bool {
    match class {
        Class::Word | Class::Symbol(_) | Class::Digits | Class::Letter | Class::Text => true,
        Class::Mark(Sign::CloseParen | Sign::CloseBracket) => true,
        _ => false,
    }
}

/// Whether this is `!`, `?` or `?*`.
pub fn is_arrow(class: Class) -> bool {
    matches!(
        class,
        Class::Mark(Sign::Bang | Sign::Question | Sign::QuestionStar)
    )
}
