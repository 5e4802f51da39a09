// Texts with the spans and kinds of their tokens, and texts that are refused.

use crate::answers::{Phase, compare, is_row, parts, text_of, wrong_rows};
use pict_lex::{LexError, lex};
use pict_syntax::{Keyword, Name, Names, Sign, SymbolName, Token, TokenKind};
use std::alloc::{AllocError, Global};

/// Where reading stops.
const REFUSALS: &str = r#"
L4 11..12 | run printi!9223372036854775808
L4 0..1 | -9223372036854775809
L2 10..11 | run print!"he
L5 0..2 | {* a {* b *} run
L5 2..4 | a {*}
L3 11..12 | run print!"\x4"
L3 1..2 | "\x4
L3 1..2 | "\«0a»"
L3 1..2 | '\q'
L2 0..1 | 'ab'
L2 0..1 | 'a\n'
L2 0..1 | ''
L2 0..1 | 'a«80»'
L2 2..3 | x "a\
L2 2..3 | x '\
L2 0..1 | "a«0a»b"
L1 2..3 | "a«09»b"
L1 2..3 | "a«80»"
L1 1..2 | '«80»'
L1 2..3 | ab«80»
L1 2..3 | a { b
L1 5..6 | "ok" $
"#;

#[test]
fn texts_are_refused_where_reading_stops(rt: HostRuntime) -> Result<(), AllocError> {
    let wrong = wrong_rows(rt.alloc(), REFUSALS, Phase::Grammar)?;
    assert!(rt; wrong.is_empty(), "{wrong}");
    Ok(())
}

/// The places of the tokens of a short text.
fn places_of(alloc: Global, text: &[u8]) -> Result<String, LexError> {
    let mut places = String::new(alloc);
    if text.len() <= 100 {
        let mut names = Names::new(alloc);
        for token in &lex(alloc, &mut names, text, 1)? {
            let place = format!(in alloc; " {}..{}", token.span.start, token.span.end)?;
            places.push_str(place.as_str())?;
        }
    }
    Ok(places)
}

/// The places of tokens, each of which is as long as it can be.
const PLACES: &str = r#"
none |  «09»«0d»«0a»
0..2 | ?*
0..1 2..3 | ? *
0..2 | ->
0..2 2..3 | ->5
0..2 | -5
0..1 2..3 | - 5
0..1 1..3 | x-1
0..1 1..3 | --5
0..2 2..4 | <=+$
0..1 1..2 2..4 4..5 5..6 | [l==1]
4..8 9..10 10..11 | {**}a'_1 _b
10..11 | {*{*«80»*}**}a
0..20 21..25 | -9223372036854775808 0009
"#;

/// Tries a row of the table.
fn try_places(alloc: Global, row: &str, wrong: &mut String) -> Result<(), LexError> {
    let (wanted, text) = parts(row);
    let found = places_of(alloc, &text_of(alloc, text)?)?;
    let found = found.strip_prefix(' ').unwrap_or("none");
    Ok(compare(alloc, row, wanted, found, wrong)?)
}

/// The rows of the table whose tokens have other places.
fn wrong_places(alloc: Global) -> Result<String, LexError> {
    let mut wrong = String::new(alloc);
    for row in PLACES.lines() {
        if is_row(row) {
            try_places(alloc, row, &mut wrong)?;
        }
    }
    Ok(wrong)
}

#[test]
fn the_longest_token_is_read(rt: HostRuntime) -> Result<(), LexError> {
    let wrong = wrong_places(rt.alloc())?;
    assert!(rt; wrong.is_empty(), "{wrong}");
    Ok(())
}

/// Whether a token is a string of these bytes.
fn is_string(token: &Token, wanted: &[u8]) -> bool {
    match &token.kind {
        TokenKind::String(bytes) => bytes.slice() == wanted,
        _ => false,
    }
}

/// Whether these are the tokens of `if iffy + ->`.
fn are_words(tokens: &[Token]) -> bool {
    match tokens {
        [word, name, plus, arrow] => {
            matches!(&word.kind, TokenKind::Keyword(Keyword::If))
                && matches!(&name.kind, TokenKind::Identifier(Name(0)))
                && matches!(&plus.kind, TokenKind::Symbol(SymbolName::Plus, Name(1)))
                && matches!(&arrow.kind, TokenKind::Sign(Sign::Arrow))
        }
        _ => false,
    }
}

/// Whether these are the tokens of `'\'' "a\x7E\n" -1 iffy`.
fn are_literals(tokens: &[Token]) -> bool {
    match tokens {
        [quote, string, number, again] => {
            matches!(&quote.kind, TokenKind::Character(b'\''))
                && is_string(string, b"a~\n")
                && matches!(&number.kind, TokenKind::Number(-1))
                && matches!(&again.kind, TokenKind::Identifier(Name(0)))
        }
        _ => false,
    }
}

fn have_their_kinds(alloc: Global) -> bool {
    let mut names = Names::new(alloc);
    let text = b"if iffy + -> '\\'' \"a\\x7E\\n\" -1 iffy";
    match lex(alloc, &mut names, text, 1) {
        Ok(tokens) => match tokens.split_at_checked(4) {
            Some((first, second)) => {
                are_words(first) && are_literals(second) && names.text(Name(1)) == b"+".as_slice()
            }
            None => false,
        },
        Err(_) => false,
    }
}

#[test]
fn tokens_have_their_kinds(rt: HostRuntime) {
    assert!(rt; have_their_kinds(rt.alloc()));
}
