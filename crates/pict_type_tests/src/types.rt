// Tables of texts for what types are: subtypes, kinds and their marks, normal forms, and the limits of weight and height.

use crate::answers::{HEAVY, has_answer, wrong_rows};
use std::alloc::{AllocError, Global};

/// Types, and what is said of them.
const TYPES: &str = r#"
-- A value of one type is sent where values of another are: it is typed where the one is a subtype of the other.
-- channels compare by their rights and their messages
Ok | def f [s:/[a=Int] t:!/[a=Int b=Int]] = t!s
Y4 41..42 | def f [s:/[a=Int b=Int] t:!/[a=Int]] = t!s
Ok | def f [s:/[a=Int] t:!![a=Int b=Int]] = t!s
Y4 41..42 | def f [s:/[a=Int b=Int] t:!![a=Int]] = t!s
Y4 47..48 | def f [s:![a=Int b=Int] t:!/[a=Int b=Int]] = t!s
Ok | def f [s:![a=Int] t:!![a=Int b=Int]] = t!s
Y4 41..42 | def f [s:![a=Int b=Int] t:!![a=Int]] = t!s
Ok | def f [s:?[a=Int b=Int] t:!?[a=Int]] = t!s
Y4 41..42 | def f [s:?[a=Int] t:!?[a=Int b=Int]] = t!s
Y4 47..48 | def f [s:![a=Int b=Int] t:!?[a=Int b=Int]] = t!s
Ok | def f [s:^[a=Int b=Int] t:!?[a=Int]] = t!s
Y4 41..42 | def f [s:^[a=Int] t:!?[a=Int b=Int]] = t!s
Ok | def f [s:^[a=Int] t:!![a=Int b=Int]] = t!s
Ok | def f [s:^[a=Int b=Int] t:!^[a=Int b=Int]] = t!s
Y4 41..42 | def f [s:^[a=Int b=Int] t:!^[a=Int]] = t!s
Y4 47..48 | def f [s:^[a=Int b=Int] t:!/[a=Int b=Int]] = t!s
Y4 47..48 | def f [s:?[a=Int b=Int] t:!^[a=Int b=Int]] = t!s
-- rights alone: `/` below `!`, and not the other way
Ok | def f [s:/Int t:!!Int] = t!s
Y4 27..28 | def f [s:!Int t:!/Int] = t!s
-- fields: all positional ones, and a label more in any order
Y4 33..34 | def f [s:[Int Int] t:![Int]] = t!s
Y4 33..34 | def f [s:[Int] t:![Int Int]] = t!s
Ok | def f [s:[b=Int a=Top] t:![a=Top]] = t!s
Ok | def f [s:[b=Int a=Top] t:![a=Top b=Int]] = t!s
Y4 39..40 | def f [s:[a=Top] t:![b=Int a=Top]] = t!s
-- type fields have the same bounds
Ok | def f [s:[#X<Int X] t:![#X<Int Int]] = t!s
Y4 41..42 | def f [s:[#X<Int Int] t:![#X<Int X]] = t!s
Y4 35..36 | def f [s:[#X<Int X] t:![#X X]] = t!s
Y4 37..38 | def f [s:[#X<Int X] t:![#X Int]] = t!s
Y4 39..40 | def f [s:[#X<Int Int] t:![#X Int]] = t!s
Y4 39..40 | def f [s:[#X Int] t:![#X<Int Int]] = t!s
Y4 33..34 | def f [s:[#X X] t:![#X Int]] = t!s
Ok | def f [s:[#X X] t:![#X X]] = t!s
-- a bound that is `Top` is none
Ok | def f [s:[#X<Top X] t:![#X X]] = t!s
Ok | def f [s:[#X X] t:![#X<Top X]] = t!s
Ok | type T = Top def f [s:[#X<T X] t:![#X X]] = t!s
-- arguments of an operator that is a variable are the same
Y4 73..74 | def f [s:[#F:(Type -> Type) (F Int)] t:![#F:(Type -> Type) (F Top)]] = t!s
Y4 73..74 | def f [s:[#F:(Type -> Type) (F Top)] t:![#F:(Type -> Type) (F Int)]] = t!s
Ok | def f [s:[#F:(Type -> Type) (F Int)] t:![#F:(Type -> Type) (F Int)]] = t!s
Ok | def f [s:[#F:(Type -> Type) (F Int)] t:!Top] = t!s
Y4 49..50 | def f [s:Top t:![#F:(Type -> Type) (F Int)]] = t!s
-- a variable is below its bound
Ok | def f [#X<Int s:X t:!Int] = t!s
Y4 30..31 | def f [#X<Int s:Int t:!X] = t!s
Ok | def f [#X<Int s:[X] t:![Int]] = t!s
Y4 34..35 | def f [#X<Int s:[Int] t:![X]] = t!s
Y4 36..37 | def f [#X<Int s:![X] t:!![Int]] = t!s
Ok | def f [#X<Int s:![Int] t:!![X]] = t!s
Ok | def f [#X<Int #Y<X s:Y t:!Int] = t!s
Ok | def f [#X<Int #Y<X s:Y t:!X] = t!s
Y4 33..34 | def f [#X<Int #Y<X s:X t:!Y] = t!s
Ok | def f [#X<Int #Y s:X t:!Int] = t!s
Y4 33..34 | def f [#X #Y<Int s:X t:!Int] = t!s
-- recursive types are the same
Ok | def f [s:(rec X = ^X) t:!(rec X = ^X)] = t!s
Ok | def f [s:(rec X = ^X) t:!(rec Y = ^Y)] = t!s
Y4 43..44 | def f [s:(rec X = ^X) t:!(rec X = ?X)] = t!s
Y4 43..44 | def f [s:(rec X = ?X) t:!(rec X = ^X)] = t!s

-- Kinds of types, and their normal forms.
-- operators, and applied names that are none
K1 20..27 | type A = Int new c:^(A Int)
K1 26..33 | type (D X Y) = Int new c:^(D Int)
-- the first rule that fails in reading order
K2 40..41 | type (D X Y) = Int type A = Int new c:^[D (A Int)]
K1 40..47 | type (D X Y) = Int type A = Int new c:^[(A Int) D]
-- an operator has no bound but `Top`
K3 9..10 | new c:^[#F:(Type -> Type)<Int Int]
Ok | new c:^[#F:(Type -> Type)<Top Int]
-- a bare name of an operator is an argument, and stands for what the name means
Ok | def f [#Z z:Z] = (type (D X) = [X Z] val p:[#G:(Type -> Type) (G Int)] = [#D [1 z]] ())
Y4 78..79 | def f [#Z z:Z] = (type (D X) = [X Z] val p:[#G:(Type -> Type) (G Int)] = [#D [z 1]] ())
Ok | def f [#Z #F:(Type Type -> Type) y:(F Int Z)] = (val p:[#G:(Type Type -> Type) (G Int Z)] = [#F y] ())
Y4 96..97 | def f [#Z #F:(Type Type -> Type) y:(F Int Z)] = (val p:[#G:(Type Type -> Type) (G Z Int)] = [#F y] ())
-- each part of a type with several binders is kept
Ok | def f [s:[#F:(Type -> Type) #X<Int (F X) l=Char] t:![#F:(Type -> Type) #X<Int (F X) l=Char]] = t!s
-- what a block answers is written in the variables outside it
Ok | def f (#A a:A p:[#X X]):A = (val [#X x] = p a)
Y14 37..55 | def f (#A a:A p:[#X X]):A = (val q = (val [#X x] = p x) a)

-- Marks of kinds.
-- marks are read, and operators of other marks are others
Ok | def g [#F:(+Type->Type)] = ()
Y4 83..84 | new c:^[#F:(+Type -> Type) (F Int)] new d:^[#F:(Type -> Type) (F Int)] run c?x = d!x
Y4 83..84 | new c:^[#F:(Type -> Type) (F Int)] new d:^[#F:(+Type -> Type) (F Int)] run c?x = d!x
Y4 84..85 | new c:^[#F:(+Type -> Type) (F Int)] new d:^[#F:(-Type -> Type) (F Int)] run c?x = d!x
Ok | new c:^[#F:(+Type -> Type) (F Int)] new d:^[#F:(+Type -> Type) (F Int)] run c?x = d!x
Y16 43..60 | new c:^[#F:(+Type -> Type) (F Int)] run c?[#F:(Type -> Type) x] = ()
Y16 42..60 | new c:^[#F:(Type -> Type) (F Int)] run c?[#F:(+Type -> Type) x] = ()
Ok | new c:^[#F:(+Type -> Type) (F Int)] run c?[#F:(+Type -> Type) x] = ()
"#;

/// Types at the limit of weight, behind `HEAVY`.
const WEIGHTS: &str = r#"
-- types of the weights 65,535, 100,000 and 100,001
Ok | type A = Z15
Ok | type A = [Z15 Z14 Z9 Z8 Z6 Z4 Z1 Int Int]
K4 9..45 | type A = [Z15 Z14 Z9 Z8 Z6 Z4 Z1 Int Int Int]
K4 9..18 | type A = [Z15 Z15]
-- operators: the whole type is measured, and no argument that is dropped
K4 9..16 | type A = (Z Z15)
Ok | type (K X) = Int type A = (K [Z15 Z15])
K4 25..38 | type (R X) = ?X type A = (R [Z15 Z15])
Ok | type (F X) = [X Z14 Z9 Z8 Z6 Z4 Z1 Int Int] type A = (F Z15)
K4 57..64 | type (F X) = [X Z14 Z9 Z8 Z6 Z4 Z1 Int Int Int] type A = (F Z15)
Ok | type A = (Z (Z (Z (Z (Z (Z (Z (Z (Z (Z (Z (Z (Z (Z (Z Int)))))))))))))))
K4 9..412 | type A = (Z (Z (Z (Z (Z (Z (Z (Z (Z (Z (Z (Z (Z (Z (Z (Z (Z (Z (Z (Z (Z (Z (Z (Z (Z (Z (Z (Z (Z (Z (Z (Z (Z (Z (Z (Z (Z (Z (Z (Z (Z (Z (Z (Z (Z (Z (Z (Z (Z (Z (Z (Z (Z (Z (Z (Z (Z (Z (Z (Z (Z (Z (Z (Z (Z (Z (Z (Z (Z (Z (Z (Z (Z (Z (Z (Z (Z (Z (Z (Z (Z (Z (Z (Z (Z (Z (Z (Z (Z (Z (Z (Z (Z (Z (Z (Z (Z (Z (Z (Z Int))))))))))))))))))))))))))))))))))))))))))))))))))))))))))))))))))))))))))))))))))))))))))))))))))))
K4 52..63 | type (Y X) = (Z (Z (Z (Z (Z (Z (Z X))))))) type A = (Y (Y Z15))
-- a record in which a type argument is put in
Ok | def f [z:Z14 y:![#X X X]] = y![#Z14 z z]
K4 30..40 | def f [z:Z15 y:![#X X X]] = y![#Z15 z z]
-- a variable weighs 1 more than its bound: the last of these weighs 49,150, then 98,302, and the bound of the next passes the limit
Ok | def f [#X0 #X1<[X0 X0] #X2<[X1 X1] #X3<[X2 X2] #X4<[X3 X3] #X5<[X4 X4] #X6<[X5 X5] #X7<[X6 X6] #X8<[X7 X7] #X9<[X8 X8] #X10<[X9 X9] #X11<[X10 X10] #X12<[X11 X11] #X13<[X12 X12] #X14<[X13 X13]] = ()
K4 6..207 | def f [#X0 #X1<[X0 X0] #X2<[X1 X1] #X3<[X2 X2] #X4<[X3 X3] #X5<[X4 X4] #X6<[X5 X5] #X7<[X6 X6] #X8<[X7 X7] #X9<[X8 X8] #X10<[X9 X9] #X11<[X10 X10] #X12<[X11 X11] #X13<[X12 X12] #X14<[X13 X13] #X15<[X14 X14]] = ()
K4 212..221 | def f [#X0 #X1<[X0 X0] #X2<[X1 X1] #X3<[X2 X2] #X4<[X3 X3] #X5<[X4 X4] #X6<[X5 X5] #X7<[X6 X6] #X8<[X7 X7] #X9<[X8 X8] #X10<[X9 X9] #X11<[X10 X10] #X12<[X11 X11] #X13<[X12 X12] #X14<[X13 X13] #X15<[X14 X14] #X16<[X15 X15]] = ()
"#;

/// Operators that put 10 and 100 times `?` before a type.
const HIGH: &str =
    "type (T X) = ??????????X type (H X) = (T (T (T (T (T (T (T (T (T (T X)))))))))) ";

/// Types at the limit of height, behind `HIGH`.
const HEIGHTS: &str = r#"
-- types of the heights 1,000 and 1,001
Ok | type A = (H (H (H (H (H (H (H (H (H (T (T (T (T (T (T (T (T (T ?????????Int))))))))))))))))))
K4 9..94 | type A = ?(H (H (H (H (H (H (H (H (H (T (T (T (T (T (T (T (T (T ?????????Int))))))))))))))))))
-- unfoldings of the heights 1,000 and 1,002
Ok | new c:^(rec X = (H (H (H (H (T (T (T (T (T (T (T (T (T ?????????X)))))))))))))) run c?(rec d) = ()
K4 45..52 | new c:^(rec X = (H (H (H (H (H X)))))) run c?(rec d) = ()
-- high types are compared
Ok | type A = (H (H (H (H (H (H (H (H (H (T (T (T (T (T (T (T (T (T ??????Int)))))))))))))))))) def f [s:A t:!A] = t!s
Y4 202..203 | type A = (H (H (H (H (H (H (H (H (H (T (T (T (T (T (T (T (T (T ??????Int)))))))))))))))))) type B = (H (H (H (H (H (H (H (H (H (T (T (T (T (T (T (T (T (T ?????Int)))))))))))))))))) def f [s:A t:!B] = t!s
"#;

#[test]
fn types_are_compared(rt: HostRuntime) -> Result<(), AllocError> {
    let wrong = wrong_rows(rt.alloc(), "", TYPES)?;
    assert!(rt; wrong.is_empty(), "{wrong}");
    Ok(())
}

#[test]
fn types_are_measured(rt: HostRuntime) -> Result<(), AllocError> {
    let wrong = wrong_rows(rt.alloc(), HIGH, HEIGHTS)?;
    assert!(rt; wrong.is_empty(), "{wrong}");
    let wrong = wrong_rows(rt.alloc(), HEAVY, WEIGHTS)?;
    assert!(rt; wrong.is_empty(), "{wrong}");
    Ok(())
}

/// A piece so many times.
fn repeat(text: &mut String, piece: &str, count: u32) -> Result<(), AllocError> {
    for _ in 0..count {
        text.push_str(piece)?;
    }
    Ok(())
}

/// Whether a text of two long lists of one piece has this answer.
fn has_twice(
    alloc: Global,
    parts: [&str; 3],
    piece: &str,
    counts: [u32; 2],
    wanted: &str,
) -> Result<bool, AllocError> {
    let [front, middle, back] = parts;
    let [first, second] = counts;
    let mut text = format!(in alloc; "{front}")?;
    repeat(&mut text, piece, first)?;
    text.push_str(middle)?;
    repeat(&mut text, piece, second)?;
    text.push_str(back)?;
    has_answer(alloc, text.as_bytes(), wanted)
}

/// Records of many fields.
fn are_records_compared(alloc: Global) -> Result<bool, AllocError> {
    let parts = ["def f [s:[", "] t:![", "]] = t!s"];
    let refused = "Y4 320019..320020";
    Ok(
        has_twice(alloc, parts, "Int ", [40_000, 40_000], "Ok")?
            && has_twice(alloc, parts, "Int ", [40_000, 39_999], refused)?,
    )
}

/// Operators of more arguments than the limit of weight, which a bare name doesn't apply.
fn are_operators_compared(alloc: Global) -> Result<bool, AllocError> {
    let parts = [
        "def f [#F:(",
        "-> Type)] = (val p:[#G:(",
        "-> Type)] = [#F] ())",
    ];
    has_twice(alloc, parts, "Type ", [100_001, 100_001], "Ok")
}

/// Mentions of a type that weighs 65,535, and values of it: each shares its parts, so that they fit in memory.
fn are_shared(alloc: Global) -> Result<bool, AllocError> {
    let parts = [HEAVY, "", ""];
    has_twice(alloc, parts, "new c:^Z15 val b = c ", [100, 0], "Ok")
}

#[test]
fn wide_types_are_compared_and_shared(rt: HostRuntime) -> Result<(), AllocError> {
    assert!(rt; are_records_compared(rt.alloc())?);
    assert!(rt; are_operators_compared(rt.alloc())?);
    assert!(rt; are_shared(rt.alloc())?);
    Ok(())
}
