// Tables of the forms from the right and from the left: what is typed, and where a typing rule fails first.

use crate::answers::{has_answer, wrong_rows};
use std::alloc::{AllocError, Global};

/// Forms, and what is said of them.
const FORMS: &str = r#"
-- The form gives what its outermost application gives. Omitted type arguments are found for each application anew.
Ok | run printi!(+ > 1 2 3)
Ok | run printi!(+ < 1 2 3)
Ok | val b = (== > 1 2)
-- each application finds Int
Ok | new f : ^[#X X X /X] val y = (f > 1 2 3) run printi!y
Ok | new f : ^[#X X X /X] val y = (f < 1 2 3) run printi!y
-- where nothing is expected, the innermost value finds X, all the way out
Ok | new f : ^[#X Int X /X] val y = (f > 1 2 "a") run print!y
Ok | new f : ^[#X X Int /X] val y = (f < "a" 1 2) run print!y

-- Values are looked at from the first to the last: from the right each first field on the way in, from the left the
-- innermost application first.
Y4 16..19 | run printi!(+ > "a" "b" 3)
Y4 18..21 | run printi!(+ > 1 "b" "c")
Y4 20..23 | run printi!(+ > 1 2 "c")
Y4 16..19 | run printi!(+ < "a" "b" 3)
Y4 18..21 | run printi!(+ < 1 "b" "c")
Y4 20..23 | run printi!(+ < 1 2 "c")

-- A nested application stands where the whole form does.
-- the inner one gives Bool where Int is wanted
Y4 11..23 | run printi!(== > 1 2 3)
Y4 11..23 | run printi!(== < 1 2 3)
Y4 8..20 | val b = (== > 1 2 3)
-- the outermost one gives String where Int is expected
Y4 11..25 | run printi!(+$ > "a" "b")

-- What stands before `>` or `<` is looked at before the values, at the name, and its fields at the form.
-- Int may not be applied
Y8 19..20 | val x = 5 val y = (x > "a" 2)
Y8 19..20 | val x = 5 val y = (x < "a" 2)
-- nor may a channel on which one can't send
Y8 36..37 | def g c:?[Int Int /Int] = (val y = (c > "a" 2) ())
-- the last field is for the answer where it is /U or !U as it stands
Y8 33..34 | new c : ^[Int Int ^Int] val y = (c < "a" 2 3)
-- the nearest binder of the name counts
Y8 24..30 | val intstr = 5 val y = (intstr > 1 2)
-- one field, three fields, and both one field and a label
Y5 8..24 | val y = (intstr > "a" 2)
Y5 8..24 | val y = (intstr < "a" 2)
Y5 36..49 | new f : ^[Int Int Int /Int] val y = (f > "a" 2 3)
Y5 34..47 | new f : ^[Int /Int l=Int] val y = (f < "a" 2 3)
-- a label that isn't written
Y6 38..51 | new f : ^[Int Int /Int l=Int] val y = (f > "a" 2 3)
Y6 38..51 | new f : ^[Int Int /Int l=Int] val y = (f < "a" 2 3)

-- Omitted type arguments that aren't found, or aren't below their bounds.
-- no field finds X
Y10 35..44 | new f : ^[#X Int Int /Int] val y = (f > 1 2)
Y10 35..46 | new f : ^[#X Int Int /Int] val y = (f < 1 2 3)
-- ^X finds nothing in Int, which a value gives
Y10 39..40 | new f : ^[#X ^X Int /Int] val y = (f > 5 6)
-- or the inner application
Y10 47..58 | new f : ^[#X Int ^X /Int] new c : ^Int val y = (f > 1 2 c)
Y10 47..58 | new f : ^[#X ^X Int /Int] new c : ^Int val y = (f < c 1 2)
-- X is found as String
Y9 35..48 | new f : ^[#X<Int X X /Int] val y = (f > "a" "b")
Y9 35..48 | new f : ^[#X<Int X X /Int] val y = (f < "a" "b")

-- What is found goes on: from the first field to the second, and from what is expected of the whole inwards.
Y4 36..39 | new f : ^[#X X X /X] val y = (f > 1 "a")
Y4 36..39 | new f : ^[#X X X /X] val y = (f < 1 "a" 2)
Y4 43..46 | new f : ^[#X Int X /X] run printi!(f > 1 2 "a")
Y4 39..42 | new f : ^[#X X Int /X] run printi!(f < "a" 1 2)
"#;

#[test]
fn forms_have_these_types(rt: HostRuntime) -> Result<(), AllocError> {
    let wrong = wrong_rows(rt.alloc(), "", FORMS)?;
    assert!(rt; wrong.is_empty(), "{wrong}");
    Ok(())
}

/// A text of this head, so many values 1, and this tail.
fn ones(alloc: Global, head: &[u8], count: usize, tail: &[u8]) -> Result<Vec<u8>, AllocError> {
    let mut text = Vec::new(alloc);
    text.extend_from_slice(head)?;
    for _ in 0..count {
        text.extend_from_slice(b" 1")?;
    }
    text.extend_from_slice(tail)?;
    Ok(text)
}

/// Whether a text of this head, so many values 1 and this tail has this answer.
fn has(
    alloc: Global,
    head: &[u8],
    count: usize,
    tail: &[u8],
    wanted: &str,
) -> Result<bool, AllocError> {
    has_answer(alloc, &ones(alloc, head, count, tail)?, wanted)
}

/// The answer of n applications weighs 3 * 2 ^ n - 2: that of 15 is 98,302, that of 16 passes the limit, at the form.
fn are_weighed(alloc: Global, head: &[u8]) -> Result<bool, AllocError> {
    Ok(has(alloc, head, 16, b")", "Ok")? && has(alloc, head, 17, b")", "K4 38..77")?)
}

/// Of many values only the last one is refused.
fn are_summed(alloc: Global, head: &[u8]) -> Result<bool, AllocError> {
    let refused = b" \"a\")";
    Ok(has(alloc, head, 20000, b")", "Ok")? && has(alloc, head, 20000, refused, "Y4 40016..40019")?)
}

#[test]
fn long_forms(rt: HostRuntime) -> Result<(), AllocError> {
    let right = b"new f : ^[#X #Y X Y /[X Y Y]] val y = (f >";
    assert!(rt; are_weighed(rt.alloc(), right)?);
    let left = b"new f : ^[#X #Y X Y /[X X Y]] val y = (f <";
    assert!(rt; are_weighed(rt.alloc(), left)?);
    assert!(rt; are_summed(rt.alloc(), b"run printi!(+ >")?);
    assert!(rt; are_summed(rt.alloc(), b"run printi!(+ <")?);
    Ok(())
}
