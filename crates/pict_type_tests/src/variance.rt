// Operators that vary: how applied operators are compared, and which may be given for a type field with marks.

use crate::answers::wrong_rows;
use std::alloc::AllocError;

/// Applied operator variables, and operators as type arguments.
const VARYING: &str = r#"
-- an applied operator variable is compared as its marks say
Ok | def use [#F:(+Type -> Type) c:(F [a=Int b=Int]) d:/(F [a=Int])] = d!c
Y4 67..68 | def use [#F:(Type -> Type) c:(F [a=Int b=Int]) d:/(F [a=Int])] = d!c
Ok | def use [#F:(-Type -> Type) c:(F [a=Int]) d:/(F [a=Int b=Int])] = d!c
Y4 68..69 | def use [#F:(-Type -> Type) c:(F [a=Int b=Int]) d:/(F [a=Int])] = d!c
Y4 68..69 | def use [#F:(+Type -> Type) c:(F [a=Int]) d:/(F [a=Int b=Int])] = d!c
Ok | def use [#F:(+Type -Type Type -> Type) c:(F [a=Int b=Int] [a=Int] Int) d:/(F [a=Int] [a=Int b=Int] Int)] = d!c
Y4 113..114 | def use [#F:(+Type -Type Type -> Type) c:(F [a=Int b=Int] [a=Int] [a=Int]) d:/(F [a=Int] [a=Int b=Int] Top)] = d!c
Y4 73..74 | def use [#F:(+Type -> Type) #G:(+Type -> Type) c:(F Int) d:/(G Int)] = d!c
-- an operator that is given varies as its field's marks say
Ok | type (Sink X) = !X val p:[#F:(-Type -> Type)] = [#Sink]
K5 50..54 | type (Sink X) = !X val p:[#F:(+Type -> Type)] = [#Sink]
Ok | type (Twice X) = !!X val p:[#F:(+Type -> Type)] = [#Twice]
Ok | type (Source X) = ?X val p:[#F:(+Type -> Type)] = [#Source]
K5 50..54 | type (Cell X) = ^X val p:[#F:(+Type -> Type)] = [#Cell]
Ok | type (Cell X) = ^X val p:[#F:(Type -> Type)] = [#Cell]
Ok | type (K X) = Int val p:[#F:(+Type -> Type) #G:(-Type -> Type)] = [#K #K]
K5 64..70 | type (Second X Y) = [!X Y] val p:[#F:(+Type +Type -> Type)] = [#Second]
Ok | type (Second X Y) = [!X Y] val p:[#F:(-Type +Type -> Type)] = [#Second]
K5 71..75 | type (List X) = (rec L = /[/[] /[X L]]) val p:[#F:(+Type -> Type)] = [#List]
K5 53..54 | type (R X) = [#Y<X Y] val p:[#F:(+Type -> Type)] = [#R]
Ok | type (R X) = [#Y Y X] val p:[#F:(+Type -> Type)] = [#R]
Ok | type (R X) = [#F:(+Type -> Type) (F X)] val p:[#F:(+Type -> Type)] = [#R]
K5 70..71 | type (R X) = [#F:(Type -> Type) (F X)] val p:[#F:(+Type -> Type)] = [#R]
Ok | def g [#F:(+Type -> Type) r:/[#G:(Type -> Type)]] = r![#F]
K5 56..57 | def g [#F:(Type -> Type) r:/[#G:(+Type -> Type)]] = r![#F]
-- K1 comes before, and what is asked of bounds behind
K1 55..59 | type (Pair X Y) = [X Y] val p:[#F:(+Type -> Type)] = [#Pair]
K5 57..61 | type (Cell X) = ^X val p:[#F:(+Type -> Type) #X<Int] = [#Cell #Top]
Y9 63..66 | type (Cell X) = ?X val p:[#F:(+Type -> Type) #X<Int] = [#Cell #Top]
"#;

#[test]
fn operators_vary_as_marks_say(rt: HostRuntime) -> Result<(), AllocError> {
    let wrong = wrong_rows(rt.alloc(), "", VARYING)?;
    assert!(rt; wrong.is_empty(), "{wrong}");
    Ok(())
}
