// The rings of 42, their text, and a summary.
use pict_load::{Ring, Tally, load_text, rings_of, write_summary};
use pict_machine::{End, RunError};
use pict_outside::{Fail, MemorySink};
use std::alloc::{AllocError, Global};

fn ring(size: u32, token: u32) -> Ring {
    Ring { size, token }
}

/// Whether these are the rings of a number.
fn has_rings(number: u64, first: Ring, second: Ring, third: Ring) -> bool {
    rings_of(number) == [first, second, third]
}

/// Whether the text of a number has so many bytes, and begins and ends so.
fn has_text(
    alloc: Global,
    number: u64,
    length: usize,
    first: &[u8],
    last: &[u8],
) -> Result<bool, AllocError> {
    let text = load_text(alloc, number)?;
    Ok(text.len() == length && text.starts_with(first) && text.ends_with(last))
}

fn is_of_42(alloc: Global) -> Result<bool, AllocError> {
    let first = b"new c0_0:^Int\nnew c0_1:^Int\n";
    let last = b"run c2_154?*n = if (== n 0) then print!\".\" else c2_0!(- n 1)\nrun c2_0!11566\n";
    Ok(
        has_rings(42, ring(183, 13097), ring(124, 19955), ring(155, 11566))
            && has_text(alloc, 42, 35553, first, last)?,
    )
}

/// The least and the greatest number.
fn are_of_ends(alloc: Global) -> Result<bool, AllocError> {
    Ok(
        has_rings(0, ring(151, 13783), ring(194, 19462), ring(135, 18317))
            && has_text(alloc, 0, 36975, b"", b"")?
            && has_rings(
                u64::MAX,
                ring(131, 15298),
                ring(126, 12769),
                ring(108, 14464),
            )
            && has_text(alloc, u64::MAX, 27890, b"", b"")?,
    )
}

#[test]
fn numbers_have_rings_and_texts(rt: HostRuntime) -> Result<(), AllocError> {
    assert!(rt; is_of_42(rt.alloc())?);
    assert!(rt; are_of_ends(rt.alloc())?);
    Ok(())
}

const TALLY: Tally = Tally {
    end: End::Done,
    steps: 536830,
    communications: 133860,
    printed: 3,
};

/// Whether the summary of 42 comes to this, and the sink takes so much of it.
fn is_written(
    alloc: Global,
    fails: Vec<Fail>,
    wanted: Result<(), RunError>,
    taken: &[u8],
) -> Result<bool, AllocError> {
    let mut out = MemorySink::new(alloc, 1000, fails)?;
    Ok(write_summary(alloc, 42, 35553, TALLY, &mut out) == wanted && out.taken() == taken)
}

/// A line is one write, and the third one fails after two bytes.
#[test]
fn summaries(rt: HostRuntime) -> Result<(), AllocError> {
    let a = rt.alloc();
    let text =
        b"ring 183 13097\nring 124 19955\nring 155 11566\ntext 35553\nsteps 536830\ncommunications 133860\nprinted 3\nend done\n";
    assert!(rt; is_written(a, Vec::new(a), Ok(()), text)?);
    let part = b"ring 183 13097\nring 124 19955\nri";
    let fails = vec![in a; Fail { call: 3, takes: 2 }]?;
    assert!(rt; is_written(a, fails, Err(RunError::Sink), part)?);
    Ok(())
}
