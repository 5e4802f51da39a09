// Tables of texts: which are typed, and where a typing rule fails first in the others.

use crate::answers::{HEAVY, wrong_rows};
use std::alloc::AllocError;

/// Texts, and what is said of them.
const TEXTS: &str = r#"
-- Texts that are typed.
Ok | val f = \(#Z z:Z) = z
Ok | new c:^[Int ^Int] run c?(x) = x
Ok | def f (#Y [#Z<Y z:Z] y:Y):Y = y
Ok | type Y = Int def f [[#Y y:Y] z:Y] = printi!z
Ok | val p:[#X X !X] = [1 printi]
Ok | def pair (#X #Y x:X y:Y):[X Y] = [x y] val p:[Int String] = (pair 1 "a")
Ok | type (F X) = Int val p:[#G:(Type -> Type) (G Int)] = [#F 3]
Ok | type S = (rec X = ^X) new c:^S run c!(rec c) run c?(rec d) = d!(rec c)
Ok | new c:^Int new d:^[!Int ?Int] run d![c c]
Ok | val p:[Int] = [1 b=2]
Ok | val x:Top = if true then 1 else "a"
Ok | val y = (+ (* 2 3) 4)

-- Kinds of types and of type arguments.
K1 31..41 | type (Pair X Y) = [X Y] new c:^(Pair Int)
K1 34..35 | type (L X) = [X] val p:[#X X] = [#L 3]
K2 31..35 | type (Pair X Y) = [X Y] new c:^Pair
K2 25..26 | type (L X) = [X] val [#X<L x:X] = (1 2)
K3 8..9 | def f [#F:(Type -> Type) < Int] = ()
K3 9..10 | new c:^[#F:(Type -> Type) < Int Int]

-- Channels, and what may be done with them.
Y1 21..22 | new c:^Int run c?n = n!1
Y1 16..17 | val s = "a" run s?y:Int = ()
Y2 17..18 | def f [c:?Int] = c!1
Y2 25..26 | def f (c:?Int):[] = (run c!1 [])
Y3 17..18 | def f [c:!Int] = c?n = ()
Y3 22..23 | new c:^!Int run c?d = d?x = ()

-- Values, branches and conditions.
Y4 17..20 | new c:^Int run c!"x"
Y4 39..40 | new c:^Int def f [d:/Int] = d!1 run f![c]
Y4 31..32 | run if true then () else print!1
Y4 74..75 | def g (#X r:[b=X a=X]):Int = 1 val q:[b=Top a=Int] = [b=1 a=2] val y = (g q)
Y11 8..31 | val x = if true then 1 else "a"
Y11 19..40 | new c:^Int val x = if true then c else 1
Y12 7..8 | run if 1 then () else ()
Y12 11..14 | val x = if "a" then 2 else 3
Y12 11..12 | val x = if 1 then "a" else (2 3)
Y4 39..42 | def f (#X<Int x:X):X = x run printi!(f "a")

-- Fields, labels, annotations that are wanting, and heads of applications.
Y5 23..26 | new c:^[Int Int] run c![1]
Y5 8..13 | val y = (+ 1)
Y5 17..20 | new c:^Int run c?[x] = ()
Y6 21..23 | new c:^[a=Int] run c![]
Y6 24..25 | new c:^[a=Int] run c?[b=x] = ()
Y7 6..7 | def f x = ()
Y7 8..16 | val p = [#Int 3]
Y7 22..23 | val f:^[Int /Int] = \(x) = x
Y8 9..10 | val x = (1 2)
Y8 19..26 | new c:^[Int] run c?(x) = x

-- Type arguments, and the bounds of type fields.
Y9 34..40 | def f [#X < Int x:X] = () run f![#String "a"]
Y9 38..45 | def f (#X<Int x:X):Int = 1 run printi!(f "a")
Y10 39..44 | def nil (#X):?X = (new c:^X c) val y = (nil)
Y10 28..30 | val p:[#G:(Type -> Type)] = []
Y16 29..35 | val p:[#X X] = [#Int 3] val [#X<Int x] = p
Y16 33..40 | val p:[#X<Int X] = [#Int 3] val [#X<Bool x] = p

-- Recursive types, types that a package hides, and new channels.
Y13 17..24 | new c:^Int run c?(rec d) = ()
Y13 34..41 | type S = (rec X = ^X) val x:Int = (rec 5)
Y14 32..50 | val p:[#X X] = [#Int 3] val y = (val [#X x] = p x)
Y14 22..23 | val f = \([#Z z:Z]) = z
Y15 6..9 | new c:Int
Y15 20..21 | type T = ?Int new c:T

-- Declarations: what each makes known to those after it, and each refusal at its place.
Ok | new c:^Int run c!1
Ok | type T = Int val x:T = 1 run printi!x
Ok | type (F X) = [X X] val x:(F Int) = [1 2]
Ok | type (F X Y) = [X a=Y] val x:(F Int String) = [1 a="s"]
Ok | type T = Int type U = T type T = String val x:U = 1 val y:T = "s"
Ok | val x = 1 run printi!x
Ok | val [x a=y] = [1 a="s"] run (printi!x | print!y)
Ok | val [x:Int _:String] = [1 "s"] run printi!x
Ok | val _ = 1
Ok | val x:Top = 1
Ok | val x = 1 run (val x = "s" print!x) run printi!x
Ok | []; [];
Ok | (pr "s");
Ok | def f x:Int = printi!x run f!1
Ok | def f (x:Int):Int = x val y = (f 1) run printi!y
Ok | def f x:Int = g!x and g x:Int = f!x
Ok | type P = [#X<Int X] def f p:P = (val [#X<Int x:X] = p printi!x)
Y15 6..10 | new c:?Int
Y15 20..21 | type T = !Int new c:T
Y4 10..11 | run print!1
Y4 12..15 | val x:Int = "s"
Y4 5..10 | val [x:Int y] = ["s" 1]
Y5 4..9 | val [x y] = 1
Y5 4..9 | val [x y] = [1]
Y6 7..8 | val [a=x] = [b=1]
Y13 4..11 | val (rec x) = 1
Y13 4..19 | val (rec:Int x:Int) = printi
Y4 0..1 | 1;
Y8 1..7 | (printi 1);
Y7 6..17 | def f (x:Int) = x
Y7 28..29 | def f x:Int = print!x and g y = ()
Y4 20..21 | def f x:Int = print!x and g y:Int = ()
Y4 20..23 | def f (x:Int):Int = "s"
K1 22..33 | type (F X) = X new c:^(F Int Int)
K1 20..27 | type T = Int new c:^(T Int)
K2 25..26 | type (F X) = X type T = [F]
K1 14..21 | type (F X) = [(X Int)]
K3 9..10 | new c:^[#F:(Type->Type)<Int (F Int)]
Y16 27..34 | def f p:[#X<Int X] = (val [#X<Bool x] = p ())
Y14 26..44 | def f p:[#X X] = (val q = (val [#X x] = p x) ())

-- Processes, and each refusal at its place.
Ok | run ()
Ok | run (() | ())
Ok | new c:^Int run (c!1 | c?x = printi!x)
Ok | new c:^Int run c?*x = (printi!x | c!x)
Ok | new c:^Int run if true then c!1 else ()
Ok | def f [c:!Int d:?Int] = (c!1 | d?x = c!x)
Ok | def f c:/Int = c!1
Ok | def f [#C<^Int c:C] = (c!1 | c?x = printi!x)
Y1 14..15 | val c = 1 run c!1
Y1 14..15 | val c = 1 run c?x = ()
Y3 17..18 | def f [c:!Int] = c?x = ()
Y3 15..16 | def f c:/Int = c?*x = ()
Y4 17..20 | new c:^Int run c!"s"
Y4 17..23 | new c:^Int run c?x:Bool = ()
Y1 14..15 | val c = 1 run c!(if 2 then 3 else 4)
Y12 7..8 | run if 1 then () else print!2
Y4 23..24 | run if true then print!1 else print!2
Y4 11..12 | run (print!1 | print!2)
Y4 17..20 | run (val x:Int = "s" print!2)
Y4 42..43 | val x = "s" run (val x = 1 ()) run printi!x
Y2 22..23 | def f [#C<?Int c:C] = c!1

-- Abstractions, which give a type or go against one, and each refusal at its place.
Ok | val f = \(x:Int):Int = x run printi!(f 1)
Ok | val f = \(x:Int) = x run printi!(f 1)
Ok | val f = \x:Int = printi!x run f!1
Ok | val f = \(#X x:X):X = x
Ok | val f = \(#X x:X [#Y y:Y]):X = x
Ok | val f = \(#X x:X [#Y y:Y]) = x run printi!(f #Int 1 [#Bool true])
Ok | val f : /[Int /Int] = \(x) = x
Ok | val f : ![Int /Int] = \(x) = x
Ok | val f : Top = \(x:Int) = x
Ok | new c : ^[Int ^Int] run c?(x) = x
Ok | new c : ^[Int !Int] run c?*(x) = x
Ok | def f [#X<[Int /Int] c:?X] = c?(y) = y
Ok | def f [#X<!Int c:?[Int X]] = c?(y) = y
Ok | new c : ^[#X<!Int Int X] run c?(#Y y) = y
Ok | new c : ^[Int /Int l=Int] run c?(x) = x
Ok | new c : ^[Int /Top] run c?(x) = "a"
Ok | new c : ^[#X X [#Y Y] /X] run c?(#X x [#Y y]) = x
Ok | new c : ^[#X X [#Y Y] /X] run c?(#A a [#B b]):A = a
Ok | type Y = Int val f = \(x:Int [#Y y:Y] z:Y) = z run printi!(f 1 [#Bool true] 2)
Ok | def f (x:Int):Int = (g x) and g (y:Int):Int = (f y) run printi!(f 1)
Ok | def f x:Int = g!x and g y:Int = printi!y run f!1
Ok | def f (#X x:X [#Y y:Y]):X = x run printi!(f #Int 1 [#Bool true])
Ok | def f (#X [#Y y:Y] x:X):X = (f #X [#Y y] x)
Ok | val f = 1 def f (x:Int):Int = (f x)
Y4 48..49 | val f = \(x:Int) = x new c : ^^[Int /Int] run c!f
Y7 10..11 | val f = \(x) = x
Y7 10..11 | val f = \[x y:Int] = ()
Y4 23..26 | val f = \(x:Int):Int = "a"
K2 34..35 | type (L X) = [X] val f = \(x:Int):L = "a"
Y7 27..28 | type (L X) = [X] val f = \(x):L = "a"
Y4 31..32 | val f = \(#X x:X [#Y y:Y]):X = y
Y14 29..30 | val f = \(#X x:X [#Y y:Y]) = y
Y14 28..33 | val f = \(x:Int [#Y y:Y]) = [x y]
Y4 22..34 | val f : ^[Int /Int] = \(x:Int) = x
Y7 16..17 | val f : Top = \(x) = x
Y8 16..23 | val f : /Int = \(x) = x
Y8 15..21 | val f : /[] = \() = 1
Y8 26..33 | new c : ^[Int ?Int] run c?(x) = x
Y8 26..36 | new c : ^[#X Int X] run c?(#Y y) = y
Y5 26..37 | new c : ^[Int /Int] run c?(x y) = "a"
Y5 25..32 | new c : ^[#X X /X] run c?(x) = x
Y6 31..32 | new c : ^[Int /Int] run c?(x l=y) = x
Y4 32..35 | new c : ^[Int /Int] run c?(x) = "a"
Y4 30..33 | new c : ^[Int /Int] run c?(x):Top = x
Y4 30..36 | new c : ^[Int /Int] run c?(x):String = 1
Y4 36..39 | new c : ^[Int /Top] run c?(x):Int = "a"
K2 47..48 | type (L X) = [X] new c : ^[Int /Int] run c?(x):L = "a"
Y5 43..56 | type (L X) = [X] new c : ^[Int /Int] run c?(x y):L = "a"
Y4 48..49 | new c : ^[#X X [#Y Y] /X] run c?(#X x [#Y y]) = y
Y4 38..41 | new c : ^[#X X Int /X] run c?(#A a b):Int = b
Y4 19..27 | new c : ^Int run c?x:String=()
Y4 44..45 | val x = "a" val f = \(x:Int) = x run printi!x
Y4 45..46 | val x = "a" def f (x:Int):Int = x run printi!x
Y4 55..56 | val x = "a" new c : ^Int run c?x = printi!x run printi!x
Y7 7..8 | def f (x) = x
Y7 6..17 | def f (x:Int) = x and g (y):Int = y
Y7 31..32 | def f (x:Int):Int = "a" and g (y):Int = y
Y7 30..41 | def f (x:Int):Int = "a" and g (y:Int) = y
Y4 20..23 | def f (x:Int):Int = "a" and g (y:Int):Int = true
Y4 42..46 | def f (x:Int):Int = x and g (y:Int):Int = true
Y4 20..21 | def f x:Int = print!x
Y4 28..29 | def f (#X x:X [#Y y:Y]):X = y

-- Texts whose runs would meet no value of a wrong shape, and that are refused all the same.
-- a message that nobody reads, a channel at which only answers are sent, a branch that isn't taken
Y4 17..20 | new c:^Int run c!"x"
Y4 39..40 | new c:^Int def f [d:/Int] = d!1 run f![c]
Y4 31..32 | run if true then () else print!1
-- a channel whose type doesn't say so, or not for this use
Y1 27..28 | new c:^Int def f [d:Top] = d!1 run f![c] run c?n = printi!n
Y2 28..29 | new c:^Int def f [d:?Int] = d!1 run f![c] run c?n = printi!n
Y3 28..29 | new c:^Int def f [d:!Int] = d?n = printi!n run f![c] run c!1
-- records that lack a field, read by a pattern that looks at none
Y5 23..26 | new c:^[Int Int] run c![1] run c?_ = print!"ok"
Y6 21..23 | new c:^[a=Int] run c![] run c?_ = print!"ok"
-- a call that nobody answers
Y8 30..31 | new f:^[Int Int] val x:Int = (f 1) run printi!x
-- what is erased: a type argument above its bound, a branch's type, a fold
Y9 40..46 | def f [#X<Int x:X] = print!"ok" run f![#String "a"]
Y11 8..31 | val x = if true then 1 else "a" run print!"ok"
Y13 12..19 | val x:Int = (rec 1) run printi!x
"#;

/// Types that pass the limits in abstractions and in groups of `def`, and what comes before and after that. They stand behind
/// `HEAVY`.
const HEAVY_ABSTRACTIONS: &str = r#"
K4 9..24 | val f = \(x:Z15):Z15 = x
K4 9..20 | val f = \(x:Z15) = x
Y4 23..24 | val f = \(x:Z15):Z15 = 1
Y12 22..23 | val f = \(x:Z15) = if x then 1 else 2
Y14 34..35 | val f = \(x:Z15 z:Z15 [#Y y:Y]) = y
K4 8..55 | val f = \(a:Z15 b:Z14 c:Z9 d:Z8 e:Z6 f:Z4 g:Z1):Int = 1
K4 8..51 | val f = \(a:Z15 b:Z14 c:Z9 d:Z8 e:Z6 f:Z4 g:Z1) = 1
K4 9..61 | val f = \(a:Z15 b:Z14 c:Z9 d:Z8 e:Z6 f:Z4 g:Z1 z:Int):Int = 1
K4 8..59 | val f = \[a:Z15 b:Z14 c:Z9 d:Z8 e:Z6 f:Z4 g:Z1 z:/Int] = ()
K4 9..60 | val f = \[a:Z15 b:Z14 c:Z9 d:Z8 e:Z6 f:Z4 g:Z1 z:!Int y:Int] = ()
K4 6..21 | def f (x:Z15):Z15 = 1
K4 30..45 | def g (x:Int):Int = "a" and f (x:Z15):Z15 = 1
K4 6..21 | def f (x:Z15):Z15 = 1 and g (y) = y
K4 6..54 | def f (a:Z15 b:Z14 c:Z9 d:Z8 e:Z6 f:Z4 g:Z1):Int = "a"
K4 6..61 | def f [a:Z15 b:Z14 c:Z9 d:Z8 e:Z6 f:Z4 g:Z1 z:/Int] = print!1
K4 6..57 | def f [a:Z15 b:Z14 c:Z9 d:Z8 e:Z6 f:Z4 g:Z1 z:/Int y:Int] = ()
K4 6..58 | def f (a:Z15 b:Z14 c:Z9 d:Z8 e:Z6 f:Z4 g:Z1 z:Int):Int = 1
"#;

#[test]
fn texts_have_these_types(rt: HostRuntime) -> Result<(), AllocError> {
    let wrong = wrong_rows(rt.alloc(), "", TEXTS)?;
    assert!(rt; wrong.is_empty(), "{wrong}");
    let wrong = wrong_rows(rt.alloc(), HEAVY, HEAVY_ABSTRACTIONS)?;
    assert!(rt; wrong.is_empty(), "{wrong}");
    Ok(())
}
