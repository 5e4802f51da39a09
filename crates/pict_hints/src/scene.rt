// A wrong token, those around it, and what could stand in its place.

use crate::kinds::{TYPE, VALUE, holds_all, holds_symbols};
use crate::piece::{Piece, is_beginning, is_declaration, is_name, kind_at};
use crate::writing::part;
use pict_follow::Class;
use pict_syntax::{Keyword, Sign};

/// A wrong token, those around it, and what could stand in its place.
#[derive(Clone, Copy)]
pub struct Scene<'a> {
    /// The text.
    pub text: &'a [u8],
    /// Its tokens.
    pub pieces: &'a [Piece],
    /// The number of the wrong one; how many there are at the end of the text.
    pub at: usize,
    /// The kinds that could stand in its place.
    pub could: &'a [Class],
    /// Whether the text may end before it.
    pub ends: bool,
    /// The numbers of the tokens that opened what is open, the innermost last.
    pub unclosed: &'a [usize],
    /// The number of the token with which the declaration or the import begins that is being read, where it is known.
    pub declaration: Option<usize>,
}

impl Scene<'_> {
    /// The token so many places before the wrong one; the wrong one itself at 0.
    pub fn piece(&self, back: usize) -> Option<Piece> {
        match self.at.checked_sub(back) {
            None => None,
            Some(index) => self.pieces.get(index).copied(),
        }
    }

    /// The token behind the wrong one.
    pub fn next_kind(&self) -> Option<Class> {
        kind_at(self.pieces, self.at.saturating_add(1))
    }

    /// The kind of the token so many places before the wrong one.
    pub fn kind(&self, back: usize) -> Option<Class> {
        match self.piece(back) {
            None => None,
            Some(piece) => Some(piece.class),
        }
    }

    /// Whether the token so many places before the wrong one is of this kind.
    pub fn stands(&self, back: usize, class: Class) -> bool {
        match self.kind(back) {
            None => false,
            Some(kind) => kind == class,
        }
    }

    /// Whether it is this sign.
    pub fn mark(&self, back: usize, sign: Sign) -> bool {
        self.stands(back, Class::Mark(sign))
    }

    /// Whether it is this keyword.
    pub fn key(&self, back: usize, keyword: Keyword) -> bool {
        self.stands(back, Class::Key(keyword))
    }

    /// Whether it is a symbol name.
    pub fn symbol(&self, back: usize) -> bool {
        matches!(self.kind(back), Some(Class::Symbol(_)))
    }

    /// Whether it is a name, of letters and digits or a symbol name.
    pub fn named(&self, back: usize) -> bool {
        match self.kind(back) {
            None => false,
            Some(class) => is_name(class),
        }
    }

    /// Whether the next token is this sign.
    pub fn next_mark(&self, sign: Sign) -> bool {
        match self.next_kind() {
            None => false,
            Some(kind) => kind == Class::Mark(sign),
        }
    }

    /// Whether a declaration begins here, or the text ends.
    pub fn stops(&self) -> bool {
        match self.kind(0) {
            None => true,
            Some(class) => is_declaration(class),
        }
    }

    /// The bytes of the token that has this number.
    pub fn spelled(&self, index: usize) -> &[u8] {
        match self.pieces.get(index) {
            None => &[],
            Some(piece) => part(self.text, piece.start as usize, piece.end as usize),
        }
    }

    /// The bytes of the token so many places before the wrong one.
    pub fn bytes(&self, back: usize) -> &[u8] {
        match self.at.checked_sub(back) {
            None => &[],
            Some(index) => self.spelled(index),
        }
    }

    /// The bytes of the name so many places before the wrong token; none where no name stands there.
    pub fn word(&self, back: usize) -> &[u8] {
        match self.kind(back) {
            Some(Class::Word | Class::Symbol(_)) => self.bytes(back),
            _ => &[],
        }
    }

    /// Whether this could stand here.
    pub fn can(&self, class: Class) -> bool {
        self.could.contains(&class)
    }

    /// Whether this sign could stand here.
    pub fn can_mark(&self, sign: Sign) -> bool {
        self.can(Class::Mark(sign))
    }

    /// Whether this alone could stand here.
    pub fn only(&self, class: Class) -> bool {
        !self.ends && self.could.len() == 1 && self.can(class)
    }

    /// Whether a value could stand here.
    pub fn can_value(&self) -> bool {
        holds_all(self.could, &VALUE) && holds_symbols(self.could)
    }

    /// Whether a type could stand here.
    pub fn can_type(&self) -> bool {
        holds_all(self.could, &TYPE)
    }

    /// Whether the token so many places before the wrong one stands right behind the one before it.
    pub fn glued(&self, back: usize) -> bool {
        match (self.piece(back.saturating_add(1)), self.piece(back)) {
            (Some(before), Some(piece)) => before.end == piece.start,
            _ => false,
        }
    }

    /// Whether no line ends between the two tokens with these numbers.
    pub fn same_line(&self, first: usize, second: usize) -> bool {
        match (self.pieces.get(first), self.pieces.get(second)) {
            (Some(before), Some(piece)) => {
                !part(self.text, before.end as usize, piece.start as usize).contains(&b'\n')
            }
            _ => false,
        }
    }

    /// Whether the wrong token stands on the line of the one before it.
    pub fn goes_on_in_line(&self) -> bool {
        match self.at.checked_sub(1) {
            None => false,
            Some(before) => self.same_line(before, self.at),
        }
    }

    /// The number of the innermost open token, if it is this sign.
    pub fn innermost(&self, sign: Sign) -> Option<usize> {
        match self.unclosed.last() {
            None => None,
            Some(index) => match self.pieces.get(*index) {
                Some(piece) if piece.class == Class::Mark(sign) => Some(*index),
                _ => None,
            },
        }
    }

    /// Whether something is open that this sign opened.
    pub fn is_open(&self, sign: Sign) -> bool {
        for index in self.unclosed {
            if let Some(piece) = self.pieces.get(*index) {
                if piece.class == Class::Mark(sign) {
                    return true;
                }
            }
        }
        false
    }

    /// The number of the token with which the value begins that is awaited and lacks its `;`.
    pub fn awaited(&self) -> Option<usize> {
        match self.declaration {
            None => None,
            Some(index) => match self.pieces.get(index) {
                Some(piece) if !is_beginning(piece.class) => Some(index),
                _ => None,
            },
        }
    }

    /// Whether the declaration that is being read begins with this keyword.
    pub fn reads(&self, keyword: Keyword) -> bool {
        match self.declaration {
            None => false,
            Some(index) => match self.pieces.get(index) {
                Some(piece) => piece.class == Class::Key(keyword),
                None => false,
            },
        }
    }
}
