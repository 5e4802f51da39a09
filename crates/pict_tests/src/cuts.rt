// Texts that are cut at the end of a token.

use crate::translation::{COUNTER, PRELUDE};
use pict_front::{FrontError, front};
use pict_lex::lex;
use pict_syntax::{Code, Names, Sources, TEXT_LIMIT};
use pict_top::OneShelf;
use std::alloc::Global;

/// Whether no token of a text behind the prelude is refused, nor its nesting, and the grammar at its end alone.
fn is_refused_at_its_end_alone(alloc: Global, text: &[u8]) -> bool {
    let Ok(copy) = Vec::from_slice(alloc, text) else {
        return false;
    };
    let Ok(mut shelf) = OneShelf::new(alloc, "F", copy) else {
        return false;
    };
    if PRELUDE.len() as u64 > TEXT_LIMIT {
        return false;
    }
    let mut sources = Sources::new(alloc);
    match front(alloc, Some(PRELUDE), "F", &mut shelf, &mut sources) {
        Ok(_) => true,
        Err(FrontError::Named(code, span)) => match code {
            Code::L1 | Code::L2 | Code::L3 | Code::L4 | Code::L5 | Code::P2 => false,
            Code::P1 => span.text == 1 && span.start as usize == text.len(),
            _ => true,
        },
        Err(_) => false,
    }
}

/// Whether the counter server is refused at its end alone, cut after each of its tokens.
fn is_cut(alloc: Global) -> bool {
    let mut names = Names::new(alloc);
    let Ok(tokens) = lex(alloc, &mut names, COUNTER, 1) else {
        return false;
    };
    for token in &tokens {
        let text = COUNTER.get(..token.span.end as usize).unwrap_or(b"@");
        if !is_refused_at_its_end_alone(alloc, text) {
            return false;
        }
    }
    true
}

#[test]
fn the_counter_server_is_cut(rt: HostRuntime) {
    assert!(rt; is_cut(rt.alloc()));
}
