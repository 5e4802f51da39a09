// Kinds of tokens, and a token of each.

ghost use Rattle.std.specs.Prelude.{◌≡◌};
ghost use Rattle.pict_follow.specs.Classes.{class_of, sample, sample_kind};

use pict_syntax::{Bytes, Keyword, Name, Sign, Span, SymbolName, Token, TokenKind};
use std::alloc::Global;

/// A kind of token, without what it says and where it stands: any other token of the same kind may stand in its place, as
/// `law_kinds_decide` says.
#[derive(Clone, Copy, PartialEq, Eq, Debug)]
pub enum Class {
    /// A name of letters and digits.
    Word,
    /// This symbol name.
    Symbol(SymbolName),
    /// A number.
    Digits,
    /// A character.
    Letter,
    /// A string.
    Text,
    /// This keyword.
    Key(Keyword),
    /// This sign.
    Mark(Sign),
}

impl Class {
    /// The kind of a token of which this is what it says. Takes no memory.
    pub fn of(kind: &TokenKind) -> Class
        ensures { result ≡ class_of kind.now }
    {
        match kind {
            TokenKind::Identifier(_) => Class::Word,
            TokenKind::Symbol(symbol, _) => Class::Symbol(*symbol),
            TokenKind::Keyword(keyword) => Class::Key(*keyword),
            TokenKind::Number(_) => Class::Digits,
            TokenKind::Character(_) => Class::Letter,
            TokenKind::String(_) => Class::Text,
            TokenKind::Sign(sign) => Class::Mark(*sign),
        }
    }
}

/// The place of a token that stands in no text.
const NOWHERE: Span = Span {
    text: 0,
    start: 0,
    end: 0,
};

/// A token of a kind, which stands in no text. Takes no memory.
pub(crate) fn sample_of(alloc: Global, class: Class) -> Token
    ensures { result ≡ sample class }
{
    Token {
        kind: kind_of(alloc, class),
        span: NOWHERE,
    }
}

/// What a token of a kind says: the first name, 0, or nothing.
fn kind_of(alloc: Global, class: Class) -> TokenKind
    ensures { result ≡ sample_kind class }
{
    match class {
        Class::Word => TokenKind::Identifier(Name(0)),
        Class::Symbol(symbol) => TokenKind::Symbol(symbol, Name(0)),
        Class::Digits => TokenKind::Number(0),
        Class::Letter => TokenKind::Character(0),
        Class::Text => TokenKind::String(Bytes::from_vec(Vec::new(alloc))),
        Class::Key(keyword) => TokenKind::Keyword(keyword),
        Class::Mark(sign) => TokenKind::Sign(sign),
    }
}
