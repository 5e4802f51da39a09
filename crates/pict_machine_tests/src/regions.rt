// Blocks of a region.

use pict_region::Region;
use std::alloc::{AllocError, Global};

// Whether two blocks share no word, and a third one that takes the place of the first has no word of it.
fn share_no_word(alloc: Global) -> Result<bool, AllocError> {
    let mut region = Region::new(alloc);
    region.reserve(3, 2)?;
    let first = region.take(3);
    let second = region.take(3);
    region.set(&first, 1, 7);
    let are_apart = (region.get(&first, 1) == 7) & (region.get(&second, 1) == 0);
    region.give(first);
    let third = region.take(3);
    let is_clear = (region.get(&third, 0) == 0)
        & (region.get(&third, 1) == 0)
        & (region.get(&third, 2) == 0);
    let work = region.work();
    region.give(second);
    region.give(third);
    Ok(are_apart && is_clear && work == 10)
}

// Whether blocks of two widths have words of their own, also where one of them is found again by its number.
fn have_words_of_their_own(alloc: Global) -> Result<bool, AllocError> {
    let mut region = Region::new(alloc);
    region.reserve(2, 1)?;
    region.reserve(5, 1)?;
    let narrow = region.take(2);
    let wide = region.take(5);
    region.set(&narrow, 1, 7);
    region.set(&wide, 4, 9);
    let are_set = (region.get(&narrow, 1) == 7)
        & (region.get(&wide, 4) == 9)
        & (region.get(&wide, 0) == 0);
    region.give(narrow);
    let number = wide.number();
    let wide = region.block(number);
    let is_kept = region.get(&wide, 4) == 9;
    region.give(wide);
    Ok(are_set && is_kept)
}

#[test]
fn blocks_have_words_of_their_own(rt: HostRuntime) -> Result<(), AllocError> {
    assert!(rt; share_no_word(rt.alloc())?);
    assert!(rt; have_words_of_their_own(rt.alloc())?);
    Ok(())
}
