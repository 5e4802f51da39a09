// The parser on texts: what is a program, where each phrase stands, and where a text is refused.

use crate::answers::{Phase, answer, compare, is_row, parts, wrong_rows};
use pict_lex::lex;
use pict_parse::{ParseError, parse};
use pict_syntax::{
    Dec, Import, Names, Program, Span, TEXT_LIMIT, abs_span, pat_span, proc_span, type_span,
    val_span,
};
use std::alloc::{AllocError, Global};

fn read(alloc: Global, text: &[u8]) -> Option<Result<Program, ParseError>> {
    if text.len() as u64 > TEXT_LIMIT {
        return None;
    }
    let mut names = Names::new(alloc);
    match lex(alloc, &mut names, text, 1) {
        Ok(tokens) => Some(parse(alloc, &tokens, text.len() as u32)),
        Err(_) => None,
    }
}

/// Texts, and whether they are programs.
const PROGRAMS: &str = r#"
-- Programs of each form, and then each repetition of the grammar with at least three items.
Ok | run print!"hello"
Ok | new c:^Int run c!1 run c?n = printi!n
Ok | def loop [] = loop![] run loop![]
Ok | (pr "a"); run printi!(div 1 0)
Ok | val p:[#X X] = [#Int 3] val y = (val [#X x] = p x)
Ok | val f = \(x:Int) = (+ x 1) run printi!(f 2)
Ok | run printi!(- > 10 3 2) def f (s:String):Int = ((pr s); 1)
Ok | type S = (rec X = ^X) new c:^S run c!(rec c) run c?(rec d) = print!"ok"
Ok | type (List X) = (rec L = /[/[] /[X L]])
Ok | def nil (#X):(List X) = (rec \[n _] = n![])
Ok | def lock ():Lock = ( new c:^[] run c![] def acquire [r:/[]] = c?[] = r![] def release [r:/[]] = (c![] | r![]) [acquire=acquire release=release])
Ok | run done?[] = done?[] = ((pr "total "); printi!(get))
Ok | def f x = () and g [#F:(Type Type -> Type) #Y<Int y:Y l=_:Int] = if true then () else (x!1 | ())
-- declarations of a text, of a block and of a group
Ok | run () run () run () run ()
Ok | (run () run () run () a);
Ok | run (run () run () run () ())
-- definitions of a `def`
Ok | def f x = () and g x = () and h x = () and k x = ()
-- parameters of an operator
Ok | type (F A B C) = Int
Ok | type (F A B C D) = Int
-- types, labelled types and type binders of a record type
Ok | new c:[Int Char Bool Top]
Ok | new c:[X Y Z X]
Ok | new c:[k=Int l=Char m=Bool n=Top]
Ok | new c:[#X #Y #Z #W]
Ok | new c:[#X<Int #Y:Type #Z:(Type -> Type) Int Char Bool k=Int l=Char m=Bool]
-- arguments of a kind
Ok | new c:[#F:(Type Type Type -> Type)]
Ok | new c:[#F:(Type Type Type Type -> Type)<Int]
-- arguments of a type operator
Ok | new c:(F Int Char Bool)
Ok | new c:(F X Y Z W)
-- patterns, labelled patterns and type binders of a record pattern and of a function
Ok | val [x y z w] = a
Ok | val [_ _ _ _] = a
Ok | val [k=x l=y m=z n=w] = a
Ok | val [#X #Y #Z #W x y z k=x l=y m=z] = a
Ok | def f (x y z w) = a
Ok | def f (#X #Y #Z x:X y:Y z:Z k=x l=y m=z) = a
-- type arguments, values and labelled values of a record and of an application
Ok | [#Int #Char #Bool #Top];
Ok | [x y z w];
Ok | [k=x l=y m=z n=w];
Ok | (f #Int #Char #Bool x y z k=x l=y m=z);
Ok | (f x y z w);
-- values of `( Name > .. )` and of `( Name < .. )`
Ok | (+ > a b c d);
Ok | (f < a b c d);
-- processes of a group
Ok | run (() | () | () | ())

-- The first wrong token, or the end where each token may stand.
P1 10..11 | run (a!b |)
P1 10..10 | run print!
P1 6..6 | [a = b
P1 1..1 | a
P1 7..7 | run (0)
P1 9..9 | run (f a)
P1 24..24 | (if a then b else c ; d)
P1 20..24 | run if a then (b c) else d
P1 19..20 | (if a then b else ())
P1 8..9 | [a b=c d]
P1 13..14 | def f (x) = ()
P1 14..15 | run c?(x) = y ! z
P1 5..6 | (f > )
P1 6..7 | (f > a)
P1 9..10 | (f > a b = c)
P1 4..5 | run 0
P1 7..8 | run (0 | ())
P1 1..2 | ()
P1 13..14 | run (run a!b )
P1 1..2 | (# Int x)
P1 5..6 | (f a # Int)
P1 7..8 | type (F) =
P1 9..10 | new c:[x : Int
P1 9..10 | val x = [_];
P1 9..10 | \(x):Int y

-- Kinds of operators, with marks at their arguments.
Ok | def g [#F:(+Type->Type)] = ()
Ok | def g [#F:(-Type -> Type)] = ()
Ok | def g [#F:( + Type Type - Type -> Type )] = ()
-- a mark stands before `Type` alone
P1 12..15 | def g [#F:(+Int -> Type)] = ()
P1 13..15 | def g [#F:(+ -> Type)] = ()
P1 18..20 | def g [#F:(Type + -> Type)] = ()
P1 12..13 | def g [#F:(+-Type -> Type)] = ()
-- among the arguments of an operator alone
P1 19..20 | def g [#F:(Type -> +Type)] = ()
P1 10..11 | def g [#F:+Type] = ()
-- other tokens are no marks
P1 11..13 | def g [#F:(+$Type -> Type)] = ()
P1 11..13 | def g [#F:(-1 -> Type)] = ()
-- some argument is there
P1 11..13 | def g [#F:(-> Type)] = ()

-- Imports, which stand before all declarations.
Ok | import "L" run ()
Ok | import "a/b.pi" import ""
P1 6..6 | import
P1 7..8 | import 1
P1 7..13 | run () import "L"
P1 11..12 | import "L" = ()
P1 14..14 | import "L" "M"
"#;

#[test]
fn programs(rt: HostRuntime) -> Result<(), AllocError> {
    assert!(rt; answer(rt.alloc(), b"", Phase::Grammar)?.as_str() == "Ok");
    let wrong = wrong_rows(rt.alloc(), PROGRAMS, Phase::Grammar)?;
    assert!(rt; wrong.is_empty(), "{wrong}");
    Ok(())
}

/// Texts at the limit of nesting.
const NESTING: &str = r#"
Ok | type A = «^ 200»Int
P2 209..210 | type A = «^ 201»Int
Ok | «[ 200»«] 200»;
P2 200..201 | «[ 100000»
P2 204..205 | run «( 100000»
-- the value of a lambda stands in its abstraction, and a conditional behind it in both
P2 1394..1395 | «\(x) =  300»x;
P2 600..602 | «if  300»
-- the wrong token stands before the deep one, and then at the deep one, and then behind it
P1 4..5 | run 0 «( 300»
P1 209..210 | type A = «^ 200»0
P2 209..210 | type A = «^ 201»0
"#;

#[test]
fn nesting(rt: HostRuntime) -> Result<(), AllocError> {
    let wrong = wrong_rows(rt.alloc(), NESTING, Phase::Grammar)?;
    assert!(rt; wrong.is_empty(), "{wrong}");
    Ok(())
}

/// Whether an import has this name, and its string this place.
fn is_import(import: &Import, name: &[u8], start: u32, end: u32) -> bool {
    let wanted = Span {
        text: 1,
        start,
        end,
    };
    import.name.slice() == name && import.span == wanted
}

/// Whether this is the program of `import "L" run ()`.
fn has_its_import(program: &Program) -> bool {
    match program.imports.as_slice() {
        [import] => is_import(import, b"L", 7, 10) && program.decs.len() == 1,
        _ => false,
    }
}

/// The name of an import is what its string says, and its place that of the string.
fn is_import_read(alloc: Global) -> bool {
    match read(alloc, b"import \"L\" run ()") {
        Some(Ok(program)) => has_its_import(&program),
        _ => false,
    }
}

#[test]
fn an_import_has_its_name_and_place(rt: HostRuntime) {
    assert!(rt; is_import_read(rt.alloc()));
}

/// Where the phrase stands that a text of one declaration is there to show: the type of a `new`, the process of a `run`,
/// the pattern of a `val`, the value of `Val ;`, the first abstraction of a `def`; else the declaration.
#[derive(Clone, Copy, PartialEq, Eq)]
enum Shown {
    Dec,
    Type,
    Proc,
    Pat,
    Val,
    Abs,
}

fn place_of(shown: Shown, dec: &Dec) -> Option<Span> {
    match dec {
        Dec::New(span, _, tree) => match shown {
            Shown::Dec => Some(*span),
            Shown::Type => Some(type_span(tree)),
            _ => None,
        },
        Dec::Run(span, proc) => match shown {
            Shown::Dec => Some(*span),
            Shown::Proc => Some(proc_span(proc)),
            _ => None,
        },
        Dec::Let(span, pat, _) => match shown {
            Shown::Dec => Some(*span),
            Shown::Pat => Some(pat_span(pat)),
            _ => None,
        },
        Dec::Def(span, definitions) => match shown {
            Shown::Dec => Some(*span),
            Shown::Abs => match definitions.first() {
                Some(definition) => Some(abs_span(&definition.abs)),
                None => None,
            },
            _ => None,
        },
        Dec::Await(span, val) => match shown {
            Shown::Dec => Some(*span),
            Shown::Val => Some(val_span(val)),
            _ => None,
        },
        Dec::Alias(span, ..) | Dec::Operator(span, ..) => Some(*span),
    }
}

/// Texts of one declaration, and where what they show begins and ends.
const PHRASES: &str = r#"
Dec 0..11 | new c : Int
Dec 0..6 | run ()
Dec 0..9 | val x = y
Dec 0..25 | def f x = () and g y = ()
Dec 0..12 | type A = Int
Dec 0..16 | type (F X Y) = X
Dec 0..3 | a ;
Abs 6..13 | def f x = a!b
Abs 6..23 | def f (x y l=z):Int = x
Pat 4..5 | val x = a
Pat 4..9 | val x:Int = a
Pat 4..5 | val _ = a
Pat 4..11 | val _ : Int = a
Pat 4..16 | val [#X x l = _] = a
Pat 4..11 | val (rec x) = a
Pat 4..17 | val (rec : Int x) = a
Pat 4..10 | val [#X x] = a
Pat 4..17 | val [# X < Int x] = a
Pat 4..15 | val [#X:Type x] = a
Pat 4..32 | val [#F : (Type Type -> Type) x] = a
Pat 4..27 | val [#F:(Type->Type)<Int x] = a
Val 0..1 | x ;
Val 0..1 | + ;
Val 0..2 | 12 ;
Val 0..2 | -5 ;
Val 0..3 | 'a' ;
Val 0..4 | "ab" ;
Val 0..4 | true ;
Val 0..5 | false ;
Val 0..20 | [#Int x y l=z m = 3] ;
Val 0..18 | if a then b else c ;
Val 0..8 | \ x = () ;
Val 0..7 | (rec x) ;
Val 0..11 | (rec:Int x) ;
Val 0..13 | (val x = y x) ;
Val 0..3 | (f) ;
Val 0..15 | (f # Int x l=y) ;
Val 0..11 | (+ > a b c) ;
Val 0..9 | (f < a b) ;
Proc 4..7 | run a!b
Proc 4..11 | run (f x)!b
Proc 4..14 | run a ? x = ()
Proc 4..14 | run a?*x = b!x
Proc 4..25 | run if a then b!c else ()
Proc 4..7 | run ( )
Proc 4..24 | run (val x = y a!b | ())
Proc 4..29 | run (new c:Int run a!b (c!1))
Type 6..9 | new c:Top
Type 6..9 | new c:Int
Type 6..10 | new c:Char
Type 6..12 | new c:String
Type 6..10 | new c:Bool
Type 6..7 | new c:X
Type 6..10 | new c:^Int
Type 6..11 | new c:? Int
Type 6..10 | new c:!Int
Type 6..12 | new c:/ ^Int
Type 6..29 | new c:[#X<Top Int X l = Bool]
Type 6..15 | new c:(F Int X)
Type 6..18 | new c:(rec X = ^X)
"#;

fn shown_by(word: &str) -> Option<Shown> {
    match word {
        "Dec" => Some(Shown::Dec),
        "Type" => Some(Shown::Type),
        "Proc" => Some(Shown::Proc),
        "Pat" => Some(Shown::Pat),
        "Val" => Some(Shown::Val),
        "Abs" => Some(Shown::Abs),
        _ => None,
    }
}

/// Where the phrase of this word stands in a text of one declaration, as `6..11`.
fn place_in(alloc: Global, word: &str, text: &[u8]) -> Result<String, AllocError> {
    let Some(shown) = shown_by(word) else {
        return format!(in alloc; "no such phrase");
    };
    let Some(Ok(program)) = read(alloc, text) else {
        return format!(in alloc; "no program");
    };
    match program.decs.first() {
        Some(dec) => match place_of(shown, dec) {
            Some(
                Span {
                    text: 1,
                    start,
                    end,
                },
            ) => format!(in alloc; "{start}..{end}"),
            _ => format!(in alloc; "no place"),
        },
        None => format!(in alloc; "no declaration"),
    }
}

/// Tries a row `PHRASE PLACE | TEXT`.
fn try_phrase(alloc: Global, row: &str, wrong: &mut String) -> Result<(), AllocError> {
    let (wanted, text) = parts(row);
    let (word, place) = wanted.split_once(" ").unwrap_or((wanted, ""));
    let found = place_in(alloc, word, text.as_bytes())?;
    compare(alloc, row, place, found.as_str(), wrong)
}

/// The rows of the table whose phrases stand elsewhere.
fn wrong_phrases(alloc: Global) -> Result<String, AllocError> {
    let mut wrong = String::new(alloc);
    for row in PHRASES.lines() {
        if is_row(row) {
            try_phrase(alloc, row, &mut wrong)?;
        }
    }
    Ok(wrong)
}

#[test]
fn phrases(rt: HostRuntime) -> Result<(), AllocError> {
    let wrong = wrong_phrases(rt.alloc())?;
    assert!(rt; wrong.is_empty(), "{wrong}");
    Ok(())
}

/// Long lists: nothing recurses along them.
const LONG_LISTS: &str = r#"
Ok | «a; 500000»
Ok | val x=[«a  100000»]
Ok | val x=[«a=b  100000»]
Ok | (+ >« a 100000»);
Ok | run (()«|() 100000»)
Ok | new c:[«X  100000»]
Ok | def f x=()«and f x=() 100000»
"#;

#[test]
fn long_lists(rt: HostRuntime) -> Result<(), AllocError> {
    let wrong = wrong_rows(rt.alloc(), LONG_LISTS, Phase::Grammar)?;
    assert!(rt; wrong.is_empty(), "{wrong}");
    Ok(())
}
