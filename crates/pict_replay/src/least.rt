// The least number of a line and of those behind it.
ghost use Rattle.std.specs.Prelude.{◌≡◌, List, map, IfOk, drop, slice_get};
ghost use Rattle.pict_trace.specs.Plain.{plain_line};
ghost use Rattle.pict_replay.specs.Replayed.{Line, is_overdue};
ghost use Rattle.pict_replay.specs.Least.{least_of, AreLeast};

use pict_trace::TraceLine as Expected;
use std::alloc::{AllocError, Global};

// For each line the least number of it and of those behind it. The only error is want of memory. It takes time in the lines.
pub(crate) fn least_numbers(alloc: Global, lines: &[Expected]) -> Result<Vec<u64>, AllocError>
    ensures { IfOk result (λ least. AreLeast (map plain_line lines.now) least.items) }
{
    let mut least = vec![in alloc; 0; lines.len()]?;
    for i in (0..lines.len()).rev() {
        let number = least_of(lines[i].number, number_at(&least, i + 1));
        least[i] = number;
    }
    Ok(least)
}

// The number at an index, where there is one.
fn number_at(numbers: &[u64], index: usize) -> Option<u64>
    ensures { result ≡ slice_get numbers.now index }
{
    if index < numbers.len() {
        Some(numbers[index])
    } else {
        None
    }
}

// The lesser one of two numbers, where there are two.
fn least_of(number: u64, other: Option<u64>) -> u64
    ensures { result ≡ least_of number other }
{
    match other {
        Some(other) => number.min(other),
        None => number,
    }
}

// Whether one of the lines from this index on has a number below `number`.
pub(crate) fn is_overdue(least: &[u64], index: usize, number: u64) -> bool
    ensures { (lines : List Line) → AreLeast lines least.now → result ≡ is_overdue number (drop index lines) }
{
    match number_at(least, index) {
        Some(least) => least < number,
        None => false,
    }
}
