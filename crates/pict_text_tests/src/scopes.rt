// Scopes of texts: what their uses mean, and where a rule of scopes fails first.

use crate::answers::{Phase, compare, is_row, parts, wrong_rows};
use pict_lex::lex;
use pict_parse::parse;
use pict_scope::{ScopeError, Scoped, Target, resolve};
use pict_syntax::{Names, TEXT_LIMIT};
use std::alloc::{AllocError, Global};

/// The scopes of a text; nothing where it is no program.
fn scopes_of(alloc: Global, text: &[u8]) -> Option<Result<Scoped, ScopeError>> {
    if text.len() as u64 > TEXT_LIMIT {
        return None;
    }
    let mut names = Names::new(alloc);
    let tokens = match lex(alloc, &mut names, text, 1) {
        Ok(tokens) => tokens,
        Err(_) => return None,
    };
    match parse(alloc, &tokens, text.len() as u32) {
        Ok(program) => Some(resolve(alloc, &names, program)),
        Err(_) => None,
    }
}

/// Texts in which a rule of scopes fails, and texts that nest as deep as a text may.
const SCOPES: &str = r#"
-- Values without a binder, in each place where a value or a head may stand.
S1 4..5 | run x!1
S1 10..11 | run print!x
S1 4..5 | run x?y = ()
S1 7..8 | run if x then () else ()
S1 1..2 | (x 1);
S1 1..2 | (f > 1 2);
-- a definition is no use of itself
S1 8..9 | val x = x
-- what is bound inside ends with it
S1 23..24 | run (new x:Int ()) run x!1
S1 17..18 | def f x = () run x!1
-- names of types are no names of values
S1 13..14 | type X = Int X;

-- Types without a binder, in each place where a type may stand.
S2 6..7 | new c:X
S2 9..10 | new c:[a=X]
S2 7..8 | new c:(F Int)
S2 24..25 | type (F A) = A new c:(F B)
S2 13..14 | type (F A) = B
S2 6..7 | val x:X = 1
S2 6..7 | val _:X = 1
S2 9..10 | val (rec:X x) = 1
S2 8..9 | val [#X<Y] = 1
S2 9..10 | def f ():X = 1
S2 5..6 | (rec:X 1);
S2 2..3 | [#X];
S2 8..9 | (print #X);
-- a definition is no use of itself, and a bound none of its binder
S2 9..10 | type X = X
S2 10..11 | new c:[#X<X]
-- names of values are no names of types
S2 16..17 | new x:Int new c:x

-- Type binders end with what they stand in.
S2 14..15 | new c:[[#X X] X]
S2 19..20 | new c:[(rec X = X) X]
S2 21..22 | type (F X) = X new c:X
-- a type binder of a nested pattern, in a later field outside and in the type of the answer
S2 16..17 | val [[#Y y:Y] z:Y] = 1
S2 17..18 | def f ([#Y y:Y]):Y = 1

-- Names twice: in a pattern, its nested ones and its type binders, in a function's fields, in a `def`, among parameters, and
-- in a record type.
S3 7..8 | val [x x] = 1
S3 8..9 | val [x [x]] = 1
S3 9..10 | val [#X #X] = 1
S3 9..10 | def f (x x) = 1
S3 18..19 | def f [] = () and f [] = ()
S3 10..11 | type (F X X) = Int
S3 11..12 | new c:[#X #X]

-- Labels twice: in a record, a record pattern, a function's fields, a record type and an application.
S4 5..6 | [a=1 a=2];
S4 9..10 | val [a=x a=y] = 1
S4 11..12 | def f (a=x a=y) = 1
S4 13..14 | new c:[a=Int a=Int]
S4 11..12 | (print a=1 a=2);
-- the first in reading order
S4 5..6 | [a=1 a=x];
S1 3..4 | [a=x a=1];
S2 7..8 | val [x:X x] = y

-- Texts that nest as deep as a text may: values, types, patterns, groups and functions.
Ok | val x = «[ 200»1«] 200»
Ok | new c:«^ 200»Int
Ok | val «[ 200»x«] 200» = 1 x;
Ok | run «( 200»«) 200»
Ok | val f = «\(x) =  199»x
"#;

#[test]
fn rules_of_scopes_fail_where_these_say(rt: HostRuntime) -> Result<(), AllocError> {
    let wrong = wrong_rows(rt.alloc(), SCOPES, Phase::Scopes)?;
    assert!(rt; wrong.is_empty(), "{wrong}");
    Ok(())
}

/// What the uses of a text mean, as a table has it.
fn meaning(alloc: Global, text: &str) -> Result<String, AllocError> {
    let Some(Ok(scoped)) = scopes_of(alloc, text.as_bytes()) else {
        return format!(in alloc; "no scopes");
    };
    let mut meaning = String::new(alloc);
    for value in &scoped.values {
        let word = match value {
            Target::Prim(primitive) => format!(in alloc; "{primitive:?} ")?,
            Target::Binder(place) => format!(in alloc; "{place} ")?,
        };
        meaning.push_str(word.as_str())?;
    }
    meaning.push_str(";")?;
    for place in &scoped.types {
        meaning.push_str(format!(in alloc; " {place}")?.as_str())?;
    }
    Ok(meaning)
}

/// Rows `VALUES ; TYPES | TEXT`: what the text's uses of values mean, primitives or the places of binders, and the places of the binders
/// that its uses of types mean.
const MEANINGS: &str = r#"
-- Binders go by their places in reading order: of `def f x` and `g y` these are `f`, `x`, `g` and `y`. The first row is of a
-- text of no bytes.
;
Print ; | run print!"a"
0 ; | new x:Int run x!1
-- the nearest binder, and the one outside again behind its scope
1 ; | val x = 1 val x = 2 x;
0 1 ; | val x = 1 val x = x x;
1 0 ; | new x:Int run (new x:Int x!1) run x!2
-- primitives bound anew
Print 0 ; | print; val print = 1 print;
-- the names of a `def`
2 1 0 3 ; | def f x = g!x and g y = f!y
-- functions, and nested applications
Add 1 Printi 0 ; | val f = \(x:Int) = (+ x 1) run printi!(f 2)
0 0 Add ; | new f:Int (f > 1 f); (+ < 1 2);
-- labels are apart, and so are those of a record in a record
0 1 ; | val [x a=y] = 1 [a=[a=x] x=y];

-- Type binders go by their places too: `X` is the first in `[#X<[#Y Y] X]`, though its bound comes before it binds.
; 0 1 | type X = Int type Y = X new c:Y
; 1 0 | type (F A) = A new c:(F Int)
; 0 | new c:(rec X = ^X)
; 1 0 | new c:[#X<[#Y Y] X]
; 1 0 | type X = Int new c:[[#X X] X]
-- type binders of patterns bind over later fields and the body, those of a function over the type of its answer
1 ; 0 0 | def f (#Y y:Y):Y = y
; 0 0 | def f [[#Y y:Y]] = (new c:Y ())
-- but those of a nested pattern over no later field outside, and over no type of an answer
Printi 2 ; 1 0 | type Y = Int def f [[#Y y:Y] z:Y] = printi!z
; 1 0 | type Y = Int def f ([#Y y:Y]):Y = 1
-- values and types are apart
0 ; 0 | val [#x x] = 1 new c:x x;
"#;

/// The rows of the table whose uses mean something else.
fn wrong_meanings(alloc: Global) -> Result<String, AllocError> {
    let mut wrong = String::new(alloc);
    for row in MEANINGS.lines() {
        if is_row(row) {
            let (wanted, text) = parts(row);
            compare(
                alloc,
                row,
                wanted,
                meaning(alloc, text)?.as_str(),
                &mut wrong,
            )?;
        }
    }
    Ok(wrong)
}

#[test]
fn uses_have_these_meanings(rt: HostRuntime) -> Result<(), AllocError> {
    let wrong = wrong_meanings(rt.alloc())?;
    assert!(rt; wrong.is_empty(), "{wrong}");
    Ok(())
}
