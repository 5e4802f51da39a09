// Lists with removal at a place, beside plain ones.

use pict_ranked::Ranked;
use pict_seed::Chooser;
use std::alloc::{AllocError, Global};

// One call that changes both lists: an item more, one less, or another in its place; and one that reads. Whether both lists answer
// the same.
fn change(
    ranked: &mut Ranked<u64>,
    plain: &mut Vec<u64>,
    chooser: &mut Chooser,
    number: u64,
) -> Result<bool, AllocError> {
    let len = plain.len();
    if ranked.len() != len {
        return Ok(false);
    }
    let kind = chooser.choose(5);
    if len == 0 || kind < 2 {
        ranked.reserve(1)?;
        ranked.push(number);
        plain.push(number)?;
        return Ok(true);
    }
    let i = chooser.choose(len as u64) as usize;
    let read = *ranked.get(i);
    if kind < 4 {
        let removed = ranked.remove(i);
        Ok(removed == plain.remove(i) && removed == read)
    } else {
        let replaced = plain[i];
        plain[i] = number;
        Ok(ranked.replace(i, number) == replaced && replaced == read)
    }
}

// Whether the items of both are the same.
fn are_same(ranked: &Ranked<u64>, plain: &[u64]) -> bool {
    if ranked.len() != plain.len() {
        return false;
    }
    for i in 0..plain.len() {
        if *ranked.get(i) != plain[i] {
            return false;
        }
    }
    true
}

fn stay_same(alloc: Global) -> Result<bool, AllocError> {
    let mut ranked = Ranked::new(alloc);
    let mut plain = Vec::new(alloc);
    let mut chooser = Chooser::new(7);
    for number in 0..10_000 {
        if !change(&mut ranked, &mut plain, &mut chooser, number)? {
            return Ok(false);
        }
        if number % 500 == 0 && !are_same(&ranked, &plain) {
            return Ok(false);
        }
    }
    Ok(are_same(&ranked, &plain))
}

// An item less in both. Whether there was one, and the same in both.
fn remove(ranked: &mut Ranked<u64>, plain: &mut Vec<u64>, chooser: &mut Chooser) -> bool {
    let len = plain.len();
    if len == 0 || ranked.len() != len {
        return false;
    }
    let i = chooser.choose(len as u64) as usize;
    ranked.remove(i) == plain.remove(i)
}

fn are_drained(alloc: Global) -> Result<bool, AllocError> {
    let mut ranked = Ranked::new(alloc);
    let mut plain = Vec::new(alloc);
    let mut chooser = Chooser::new(42);
    for number in 0..1000 {
        ranked.reserve(1)?;
        ranked.push(number);
        plain.push(number)?;
    }
    for _ in 0..1000 {
        if !remove(&mut ranked, &mut plain, &mut chooser) {
            return Ok(false);
        }
    }
    Ok(ranked.len() == 0)
}

#[test]
fn lists_are_those_without_ranks(rt: HostRuntime) -> Result<(), AllocError> {
    assert!(rt; stay_same(rt.alloc())?);
    assert!(rt; are_drained(rt.alloc())?);
    Ok(())
}
