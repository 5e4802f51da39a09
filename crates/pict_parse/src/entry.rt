// From the tokens of a text to its program.

ghost use Rattle.std.specs.Prelude.{◌≡◌, ◌≢◌, true, false, IfSome};
ghost use Rattle.pict_syntax.specs.declared.token.TokenKind.TheVariants.{Keyword as KeywordKind};
ghost use Rattle.pict_syntax.specs.declared.token.Keyword.TheVariants.{Import as ImportKeyword};
ghost use Rattle.pict_syntax.specs.Programs.{Program as PlainProgram, programs};
ghost use Rattle.pict_syntax.specs.Verdicts.{Verdict, IsVerdict, end_place};
ghost use Rattle.pict_parse.specs.Answers.{Answers, IsImportOf, verdict_of};

use crate::declarations::parse_declarations;
use pict_syntax::{Import, Keyword, Program, Span, Token, TokenKind};
use std::alloc::{AllocError, AllocFailed, Global};

/// Why the tokens of a text are refused.
#[derive(Debug, Drop, thiserror::Error)]
pub enum ParseError {
    /// The place of the first token that can't follow those before it, or the end of the text.
    #[error("unexpected token")]
    Unexpected(Span),
    /// The place of the first token that is nested too deep.
    #[error("nested too deep")]
    TooNested(Span),
    /// Want of memory.
    #[error("out of memory")]
    Memory,
}

impl From<AllocError> for ParseError {
    ghost use Rattle.std.specs.Prelude.{◌≡◌};
    ghost use Rattle.pict_parse.specs.declared.entry.ParseError.TheVariants.{Memory};

    ghost from_gives = { λ _ e. e ≡ Memory };

    fn from(_e: AllocError) -> ParseError {
        ParseError::Memory
    }
}

impl<T: Drop> From<AllocFailed<T>> for ParseError {
    ghost use Rattle.std.specs.Prelude.{◌≡◌};
    ghost use Rattle.pict_parse.specs.declared.entry.ParseError.TheVariants.{Memory};

    ghost from_gives = { λ _ e. e ≡ Memory };

    fn from(_e: AllocFailed<T>) -> ParseError {
        ParseError::Memory
    }
}

/// The only program whose tree these tokens are. `end` is the length of the text, in bytes. Takes time in proportion to
/// the number of tokens and the bytes of the imports' names.
///
/// A program is imports, each of which is the keyword `import` and a string, and then declarations. No declaration begins
/// with the keyword, so the imports are read first, two tokens each.
///
/// `Unexpected` comes exactly where the tokens are those of no program and none before the wrong place is nested more
/// than 200 deep: with the place of the first token after which no program can follow, or, where some program begins
/// with all of the tokens, with the empty place at `end`. So it stands at a token behind `import` that is no string, at
/// the end where `import` is the last token, and at an `import` behind a declaration. `TooNested` comes exactly where a
/// token is nested more than 200 deep before which no token is wrong, with the place of the first such token. A token's
/// nesting counts the brackets, conditionals, type prefixes and abstractions that begin at or before it and end at or
/// after it: the tokens of an import have none.
pub fn parse(alloc: Global, tokens: &[Token], end: u32) -> Result<Program, ParseError>
    ensures verdict { IfSome (verdict_of result) (IsVerdict programs tokens.now (end_place tokens.now end)) }
    ensures exact { (verdict : Verdict PlainProgram) → IsVerdict programs tokens.now (end_place tokens.now end) verdict → Answers (verdict_of result) verdict }
{
    let place = end_of(tokens, end);
    let mut imports = Vec::new(alloc);
    let mut at = 0;
    'imports: while at < tokens.len() && is_import(&tokens[at]) {
        if tokens.len() - at < 2 {
            return Err(ParseError::Unexpected(place));
        }
        match import_of(alloc, &tokens[at + 1]) {
            Err(error) => return Err(error),
            Ok(import) => imports.push(import)?,
        }
        at += 2;
    }
    match parse_declarations(alloc, &tokens[at..], place) {
        Ok(decs) => Ok(Program { imports, decs }),
        Err(error) => Err(error),
    }
}

/// The empty place at the end of the text that the tokens are of.
fn end_of(tokens: &[Token], end: u32) -> Span
    ensures { result ≡ end_place tokens.now end }
{
    let text = match tokens.first() {
        Some(first) => first.span.text,
        None => 0,
    };
    Span {
        text,
        start: end,
        end,
    }
}

/// Whether this is the keyword `import`.
fn is_import(token: &Token) -> bool
    ensures yes { result ≡ true → token.now.kind ≡ KeywordKind ImportKeyword }
    ensures no { result ≡ false → token.now.kind ≢ KeywordKind ImportKeyword }
{
    match &token.kind {
        TokenKind::Keyword(Keyword::Import) => true,
        _ => false,
    }
}

/// The import whose name this token says: it must be a string.
fn import_of(alloc: Global, token: &Token) -> Result<Import, ParseError>
    ensures { IsImportOf token.now result }
{
    match &token.kind {
        TokenKind::String(name) => Ok(Import {
            name: name.copy(alloc)?,
            span: token.span,
        }),
        _ => Err(ParseError::Unexpected(token.span)),
    }
}
