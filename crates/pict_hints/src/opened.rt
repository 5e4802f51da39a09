// What is open before a token: brackets, conditionals that lack a part, and the declaration that is being read.

use crate::piece::{Piece, is_beginning, is_value};
use pict_follow::{Class, are_whole};
use pict_syntax::{Keyword, Sign, Token};
use std::alloc::{AllocError, Global};

/// At how many places the beginning of a declaration is looked for.
const TRIES: usize = 40;

/// The numbers of the tokens that opened what is open behind these, which some program begins with: the brackets and the
/// conditionals whose `else` hasn't come, the innermost last.
pub fn opened(alloc: Global, pieces: &[Piece]) -> Result<Vec<usize>, AllocError> {
    let mut unclosed = Vec::new(alloc);
    for (index, piece) in pieces.iter().enumerate() {
        match piece.class {
            Class::Mark(Sign::OpenParen | Sign::OpenBracket) | Class::Key(Keyword::If) => {
                unclosed.push(index)?
            }
            Class::Mark(Sign::CloseParen | Sign::CloseBracket) | Class::Key(Keyword::Else) => {
                let _ = unclosed.pop();
            }
            _ => {}
        }
    }
    Ok(unclosed)
}

/// The numbers of the tokens that stand in no brackets and with which a declaration or an import may begin.
fn beginnings(alloc: Global, pieces: &[Piece]) -> Result<Vec<usize>, AllocError> {
    let mut found = Vec::new(alloc);
    let mut depth: usize = 0;
    for (index, piece) in pieces.iter().enumerate() {
        if depth == 0 && (is_beginning(piece.class) || is_value(piece.class)) {
            found.push(index)?;
        }
        match piece.class {
            Class::Mark(Sign::OpenParen | Sign::OpenBracket) => depth = depth.saturating_add(1),
            Class::Mark(Sign::CloseParen | Sign::CloseBracket) => depth = depth.saturating_sub(1),
            _ => {}
        }
    }
    Ok(found)
}

/// The tokens before this number, or all.
fn before(tokens: &[Token], count: usize) -> &[Token] {
    if count <= tokens.len() {
        &tokens[..count]
    } else {
        tokens
    }
}

/// The number of the token with which the declaration or the import begins that is being read at the end of these tokens: the last
/// one before which the tokens are a whole program. It is looked for at some places only.
pub fn declaration_of(
    alloc: Global,
    tokens: &[Token],
    pieces: &[Piece],
) -> Result<Option<usize>, AllocError> {
    let found = beginnings(alloc, pieces)?;
    for index in found.iter().rev().take(TRIES) {
        if are_whole(alloc, before(tokens, *index))? {
            return Ok(Some(*index));
        }
    }
    Ok(None)
}
