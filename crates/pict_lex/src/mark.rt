// Signs and symbol names: the tokens of one or two bytes that are no words and no numbers.

ghost use Rattle.std.specs.Prelude.{◌≡◌, ◌≢◌, ◌<◌, List, [], ◌∷◌, ℕ, length, slice_index, IfSome, IfNone};
ghost use Rattle.pict_lex.specs.Mark.{mark_text};

use pict_syntax::{Sign, SymbolName};

/// A sign or a symbol name.
#[derive(Clone, Copy)]
pub(crate) enum Mark {
    Sign(Sign),
    Symbol(SymbolName),
}

/// The mark of these two bytes.
fn mark_of_two(first: u8, second: u8) -> Option<Mark>
    ensures found { IfSome result (λ mark. mark_text mark ≡ first ∷ second ∷ []) }
    ensures none { IfNone result ((mark : Mark) → mark_text mark ≢ first ∷ second ∷ []) }
{
    match (first, second) {
        (b'?', b'*') => Some(Mark::Sign(Sign::QuestionStar)),
        (b'-', b'>') => Some(Mark::Sign(Sign::Arrow)),
        (b'+', b'$') => Some(Mark::Symbol(SymbolName::PlusDollar)),
        (b'=', b'=') => Some(Mark::Symbol(SymbolName::EqualsEquals)),
        (b'<', b'<') => Some(Mark::Symbol(SymbolName::LessLess)),
        (b'<', b'=') => Some(Mark::Symbol(SymbolName::LessEquals)),
        (b'>', b'>') => Some(Mark::Symbol(SymbolName::GreaterGreater)),
        (b'>', b'=') => Some(Mark::Symbol(SymbolName::GreaterEquals)),
        _ => None,
    }
}

/// The mark of the first two bytes of a text, where it has two.
pub(crate) fn mark_of_first_two(rest: &[u8]) -> Option<Mark>
    ensures within { IfSome result (λ mark. 1 < length rest.now) }
    ensures found { IfSome result (λ mark. mark_text mark ≡ slice_index rest.now 0 ∷ slice_index rest.now 1 ∷ []) }
    ensures none { IfNone result ((mark : Mark) → 1 < length rest.now → mark_text mark ≢ slice_index rest.now 0 ∷ slice_index rest.now 1 ∷ []) }
{
    match rest {
        [first, second, ..] => mark_of_two(*first, *second),
        _ => None,
    }
}

/// The mark of this byte.
pub(crate) fn mark_of_one(first: u8) -> Option<Mark>
    ensures found { IfSome result (λ mark. mark_text mark ≡ first ∷ []) }
    ensures none { IfNone result ((mark : Mark) → mark_text mark ≢ first ∷ []) }
{
    match first {
        b'!' => Some(Mark::Sign(Sign::Bang)),
        b'?' => Some(Mark::Sign(Sign::Question)),
        b'=' => Some(Mark::Sign(Sign::Equals)),
        b'|' => Some(Mark::Sign(Sign::Bar)),
        b'(' => Some(Mark::Sign(Sign::OpenParen)),
        b')' => Some(Mark::Sign(Sign::CloseParen)),
        b'[' => Some(Mark::Sign(Sign::OpenBracket)),
        b']' => Some(Mark::Sign(Sign::CloseBracket)),
        b':' => Some(Mark::Sign(Sign::Colon)),
        b';' => Some(Mark::Sign(Sign::Semicolon)),
        b'<' => Some(Mark::Sign(Sign::Less)),
        b'>' => Some(Mark::Sign(Sign::Greater)),
        b'\\' => Some(Mark::Sign(Sign::Backslash)),
        b'^' => Some(Mark::Sign(Sign::Caret)),
        b'/' => Some(Mark::Sign(Sign::Slash)),
        b'#' => Some(Mark::Sign(Sign::Hash)),
        b'_' => Some(Mark::Sign(Sign::Underscore)),
        b'+' => Some(Mark::Symbol(SymbolName::Plus)),
        b'-' => Some(Mark::Symbol(SymbolName::Minus)),
        b'*' => Some(Mark::Symbol(SymbolName::Star)),
        _ => None,
    }
}
