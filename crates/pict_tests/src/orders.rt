// Runs with choices from seeds, beside a list.

use itoa::Buffer;
use pict_outside::MemorySink;
use pict_seed::Chooser;
use pict_top::{OneShelf, Status, pict};
use std::alloc::{AllocError, Global};

/// What a text prints that stands alone, with choices from this seed; nothing where it isn't done.
fn printed_by(alloc: Global, text: &[u8], seed: u64) -> Result<Option<Vec<u8>>, AllocError> {
    let mut shelf = OneShelf::new(alloc, "F", text.to_vec(alloc)?)?;
    let mut out = MemorySink::new(alloc, 100_000, Vec::new(alloc))?;
    let mut err = MemorySink::new(alloc, 0, Vec::new(alloc))?;
    let mut digits = Buffer::new();
    let words = ["pick", "--bare", digits.format(seed), "F"];
    match pict(alloc, &words, &mut shelf, &mut out, &mut err) {
        Status::Done => Ok(Some(out.taken().to_vec(alloc)?)),
        _ => Ok(None),
    }
}

/// How many numbers the program below prints beside each other.
const COUNT: u64 = 1000;

/// A process of the program below: the declarations from this one on, or the printing of this number.
#[derive(Clone, Copy)]
enum Item {
    Rest(u64),
    Printing(u64),
}

/// What a program prints that prints the numbers below `COUNT` beside each other, step by step by a list alone.
fn printed_by_a_list(alloc: Global, seed: u64) -> Result<Vec<u8>, AllocError> {
    let mut ready = Vec::new(alloc);
    let mut chooser = Chooser::new(seed);
    let mut printed = Vec::new(alloc);
    let mut digits = Buffer::new();
    ready.push(Item::Rest(0))?;
    for _ in 0..2 * COUNT + 1 {
        if ready.is_empty() {
            break;
        }
        let place = chooser.choose(ready.len() as u64) as usize;
        match ready[place] {
            Item::Rest(first) => {
                if first < COUNT {
                    ready[place] = Item::Printing(first);
                    ready.push(Item::Rest(first + 1))?;
                } else {
                    ready.remove(place);
                }
            }
            Item::Printing(number) => {
                ready.remove(place);
                printed.extend_from_slice(digits.format(number).as_bytes())?;
            }
        }
    }
    Ok(printed)
}

/// The program: each of the numbers is printed.
fn printings(alloc: Global) -> Result<Vec<u8>, AllocError> {
    let mut text = Vec::new(alloc);
    let mut digits = Buffer::new();
    for number in 0..COUNT {
        text.extend_from_slice(b"run printi!")?;
        text.extend_from_slice(digits.format(number).as_bytes())?;
        text.extend_from_slice(b"\n")?;
    }
    Ok(text)
}

/// Whether the program prints with choices from this seed what the list says.
fn prints_as_a_list(alloc: Global, text: &[u8], seed: u64) -> Result<bool, AllocError> {
    match printed_by(alloc, text, seed)? {
        Some(printed) => Ok(printed == printed_by_a_list(alloc, seed)?),
        None => Ok(false),
    }
}

fn are_a_thousand(alloc: Global) -> Result<bool, AllocError> {
    let text = printings(alloc)?;
    Ok(
        prints_as_a_list(alloc, &text, 0)?
            && prints_as_a_list(alloc, &text, 1)?
            && prints_as_a_list(alloc, &text, 2)?,
    )
}

#[test]
fn a_thousand_beside_each_other(rt: HostRuntime) -> Result<(), AllocError> {
    assert!(rt; are_a_thousand(rt.alloc())?);
    Ok(())
}
