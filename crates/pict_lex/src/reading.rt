// Reading a whole text.

ghost use Rattle.std.specs.Prelude.{◌≡◌, ◌+◌, ◌++◌, ◌^◌, ◌<◌, ◌≤◌, List, length, drop, All, IfOk, IfErr, OnOk, OnErr};
ghost use Rattle.pict_syntax.specs.declared.code.Code.{Code};
ghost use Rattle.pict_syntax.specs.declared.span.Span.{Span};
ghost use Rattle.pict_syntax.specs.Cuts.{Piece, IsWholeCut, IsLexStop, extent};
ghost use Rattle.pict_lex.specs.Lex.{AreTokens, GainsNames, KeepsNames, GainsSomeNames, IsRefusal, IsRefused, IsAccepted, RefusalLiesIn, LiesIn};
ghost use Rattle.pict_lex.specs.Scan.{IsHalt};
ghost use Rattle.pict_lex.specs.Steps.{HasStepped, IsRefusedAt, token_at};

use crate::error::LexError;
use crate::halt::Halt;
use crate::mark::Mark;
use crate::scan::{Scanned, scan};
use pict_syntax::{Code, Names, Span, TEXT_LIMIT, Token, TokenKind};
use std::alloc::{AllocError, Global};

/// The kind of token that was read at the front, with its name interned, and how many bytes the piece has.
fn kind_at(
    alloc: Global,
    names: &mut Names,
    rest: &[u8],
) -> Result<(Option<TokenKind>, usize), Halt>
    requires some { 0 < length rest.now }
    requires room { length names.old < 2 ^ 32 }
    ensures stepped { IfOk result (λ read. HasStepped names.old names.new rest.now read.0 read.1) }
    ensures halt { IfErr result (IsHalt rest.now) }
    ensures err { OnErr result (names.new ≡ names.old) }
{
    match scan(alloc, rest)? {
        Scanned::Blank => Ok((None, 1)),
        Scanned::Comment(len) => Ok((None, len)),
        Scanned::Identifier(len) => {
            let name = names.intern(&rest[..len])?;
            Ok((Some(TokenKind::Identifier(name)), len))
        }
        Scanned::Marked(Mark::Symbol(symbol), len) => {
            let name = names.intern(&rest[..len])?;
            Ok((Some(TokenKind::Symbol(symbol, name)), len))
        }
        Scanned::Marked(Mark::Sign(sign), len) => Ok((Some(TokenKind::Sign(sign)), len)),
        Scanned::Word(keyword, len) => Ok((Some(TokenKind::Keyword(keyword)), len)),
        Scanned::Number(value, len) => Ok((Some(TokenKind::Number(value)), len)),
        Scanned::Character(value, len) => Ok((Some(TokenKind::Character(value)), len)),
        Scanned::String(values, len) => Ok((Some(TokenKind::String(values)), len)),
    }
}

/// Adds the token of a piece, where it is one.
fn push_token(
    tokens: &mut Vec<Token>,
    kind: Option<TokenKind>,
    span: Span,
) -> Result<(), AllocError>
    ensures { OnOk result (tokens.new.items ≡ tokens.old.items ++ token_at kind span) }
{
    if let Some(kind) = kind {
        tokens.push(Token { kind, span })?;
    }
    Ok(())
}

/// How many bytes the place of a refusal has.
fn extent_of(code: Code) -> usize
    ensures { result ≡ extent code }
{
    match code {
        Code::L5 => 2,
        _ => 1,
    }
}

/// The refusal where reading stops at a place of the text.
fn refusal_at(halt: Halt, text: &[u8], at: usize, number: u32) -> LexError
    requires short { length text.now ≤ TEXT_LIMIT }
    requires within { at ≤ length text.now }
    requires stops { IsHalt (drop at text.now) halt }
    ensures { IsRefusedAt number at halt result }
{
    match halt {
        Halt::Stop(code, further) => {
            let start = at + further;
            let end = start + extent_of(code);
            LexError::Named(
                code,
                Span {
                    text: number,
                    start: start as u32,
                    end: end as u32,
                },
            )
        }
        Halt::Memory => LexError::Memory,
    }
}

/// The tokens of a text, in their order; their spans have `number` as their text.
///
/// `names` gains the identifiers and symbol names that it lacked, in the order of their first occurrences, and no
/// others; after an error it has gained those of some front of the text, at most one a byte. What it had keeps its
/// number. A refusal has a code from `L1` to `L5` and stands where reading stops: no text has both a whole cut and a
/// stop.
pub fn lex(
    alloc: Global,
    names: &mut Names,
    text: &[u8],
    number: u32,
) -> Result<Vec<Token>, LexError>
    requires short { length text.now ≤ TEXT_LIMIT }
    requires room { length names.old + length text.now < 2 ^ 32 }

    // On success the tokens are those of the text, and its names are there.
    ensures tokens { IfOk result (λ tokens. AreTokens names.new number text.now tokens.items) }
    ensures names { OnOk result (GainsNames names.old names.new text.now) }
    ensures few { IfOk result (λ tokens. length tokens.items ≤ length text.now) }
    ensures spans { IfOk result (λ tokens. All (λ token. LiesIn number text.now token.span) tokens.items) }

    // A refusal is the stop of the text. A text with a stop is refused there, and a text with a whole cut isn't refused.
    ensures refusal { IfErr result (IsRefusal number text.now) }
    ensures refused { (code : Code) (span : Span) → IsLexStop number text.now code span → IsRefused code span result }
    ensures accepted { (pieces : List Piece) → IsWholeCut text.now pieces → IsAccepted result }
    ensures placed { IfErr result (RefusalLiesIn number text.now) }

    // Whatever the answer: what the names had stays, and what they gained are the names of the front of the text.
    ensures kept { KeepsNames names.old names.new }
    ensures gained { GainsSomeNames names.old names.new text.now }
    ensures bound { length names.new ≤ length names.old + length text.now }
{
    let mut tokens = Vec::new(alloc);
    let mut at = 0;
    'pieces: while at < text.len() {
        match kind_at(alloc, names, &text[at..]) {
            Ok((kind, len)) => {
                let span = Span {
                    text: number,
                    start: at as u32,
                    end: (at + len) as u32,
                };
                push_token(&mut tokens, kind, span)?;
                at += len;
            }
            Err(halt) => return Err(refusal_at(halt, text, at, number)),
        }
    }
    Ok(tokens)
}
