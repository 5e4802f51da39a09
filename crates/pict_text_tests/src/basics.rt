// What all phases share: names, byte strings, labels in their order, and lines and columns.
ghost use Rattle.std.specs.Prelude.{◌<◌, ◌≤◌, ◌+◌, ◌^◌, length};

use pict_syntax::{Bytes, Name, Names, line_col, sort_labels};
use std::alloc::{AllocError, Global};

/// Whether a text gets this number, and is found under it.
#[tactic(auto, using(crate::proofs::Few::few_more))]
fn gets(names: &mut Names, text: &[u8], number: u32) -> bool
    requires few { length names.old < 2 ^ 32 }
    ensures few { length names.new ≤ length names.old + 1 }
{
    match names.intern(text) {
        Ok(name) => name == Name(number) && names.text(name) == text,
        Err(_) => false,
    }
}

/// Whether names get numbers in their order, each text that of its first use, and are found under them.
fn are_numbered(alloc: Global) -> Result<bool, AllocError> {
    let mut names = Names::new(alloc);
    let is_empty = names.text(Name(0)).is_empty();
    Ok(
        is_empty
            && gets(&mut names, b"b", 0)
            && gets(&mut names, b"ab", 1)
            && gets(&mut names, b"b", 0)
            && gets(&mut names, b"a", 2)
            && are_sorted(alloc, &names)?,
    )
}

/// Whether labels stand by their bytes, `b`, `ab` and `a` in the order of their numbers, and those of one label as they stood.
fn are_sorted(alloc: Global, names: &Names) -> Result<bool, AllocError> {
    let mut items = vec![in alloc; (Name(0), 1), (Name(1), 2), (Name(2), 3), (Name(1), 4)]?;
    sort_labels(names, &mut items)?;
    let sorted = [(Name(2), 3), (Name(1), 2), (Name(1), 4), (Name(0), 1)];
    Ok(items.as_slice() == sorted.as_slice())
}

fn are_copied(alloc: Global) -> Result<bool, AllocError> {
    let text = Bytes::copy_of(alloc, b"hello")?;
    let copy = text.copy(alloc)?;
    Ok(text.slice() == b"hello".as_slice() && copy.slice() == b"hello".as_slice())
}

#[test]
fn names_bytes_and_labels(rt: HostRuntime) -> Result<(), AllocError> {
    assert!(rt; are_numbered(rt.alloc())?);
    assert!(rt; are_copied(rt.alloc())?);
    Ok(())
}

/// Whether the columns of a text begin anew after each newline.
fn begin_anew() -> bool {
    let text = b"ab\n\nc";
    line_col(text, 0) == (1, 1)
        && line_col(text, 2) == (1, 3)
        && line_col(text, 3) == (2, 1)
        && line_col(text, 4) == (3, 1)
        && line_col(text, 5) == (3, 2)
}

#[test]
fn columns_begin_anew_after_a_newline(rt: HostRuntime) {
    assert!(rt; begin_anew());
}
