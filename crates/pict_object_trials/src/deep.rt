// Processes at the limits of depth and of nesting, and one past them.

use crate::verdict::{tried, word_of};
use anyhow::Error;
use pict_syntax::{DEPTH_LIMIT, NESTING_LIMIT};
use std::alloc::{AllocError, Global};

/// So deep processes are read and written within 8 MiB of stack by the build of any compiler: the toolchain's own takes up to 2,288
/// bytes for each level, LLVM a tenth of that.
const HELD: u64 = 3000;

/// Objects that nest something: their bytes are `front`, then `each` so many times, `middle`, then `behind` as often, and `end`.
pub struct Form {
    name: &'static str,
    front: &'static [u8],
    each: &'static [u8],
    middle: &'static [u8],
    behind: &'static [u8],
    end: &'static [u8],
    /// How deep it may be, `middle` included.
    limit: u64,
    /// How deep it is tried where nothing else is asked for.
    held: u64,
}

// An output on `print` and an input on it, up to the message and the pattern.
const OUTPUT: &[u8] = b"PICT\x01\0\0\0\0\x03\x16\0";

const INPUT: &[u8] = b"PICT\x01\0\0\0\0\x04\x16\0";

const START: &[u8] = b"PICT\x01\0\0\0\0";

/// Each form of a process that has parts, and records and record patterns.
pub const FORMS: [Form; 9] = [
    Form {
        name: "new channels",
        front: START,
        each: b"\x02",
        middle: b"\0",
        behind: b"",
        end: b"",
        limit: DEPTH_LIMIT,
        held: HELD,
    },
    Form {
        name: "processes on the left",
        front: START,
        each: b"\x01",
        middle: b"\0",
        behind: b"\0",
        end: b"",
        limit: DEPTH_LIMIT,
        held: HELD,
    },
    Form {
        name: "processes on the right",
        front: START,
        each: b"\x01\0",
        middle: b"\0",
        behind: b"",
        end: b"",
        limit: DEPTH_LIMIT,
        held: HELD,
    },
    Form {
        name: "inputs",
        front: START,
        each: b"\x04\x16\0\x21",
        middle: b"\0",
        behind: b"",
        end: b"",
        limit: DEPTH_LIMIT,
        held: HELD,
    },
    Form {
        name: "replicated inputs",
        front: START,
        each: b"\x05\x16\0\x20",
        middle: b"\0",
        behind: b"",
        end: b"",
        limit: DEPTH_LIMIT,
        held: HELD,
    },
    Form {
        name: "first branches",
        front: START,
        each: b"\x06\x13",
        middle: b"\0",
        behind: b"\0",
        end: b"",
        limit: DEPTH_LIMIT,
        held: HELD,
    },
    Form {
        name: "second branches",
        front: START,
        each: b"\x06\x13\0",
        middle: b"\0",
        behind: b"",
        end: b"",
        limit: DEPTH_LIMIT,
        held: HELD,
    },
    Form {
        name: "records",
        front: OUTPUT,
        each: b"\x17\0\0\0\x01",
        middle: b"\x17\0\0\0\0\0\0\0\0",
        behind: b"\0\0\0\0",
        end: b"",
        limit: NESTING_LIMIT as u64,
        held: NESTING_LIMIT as u64,
    },
    Form {
        name: "record patterns",
        front: INPUT,
        each: b"\x22\0\0\0\x01",
        middle: b"\x22\0\0\0\0\0\0\0\0",
        behind: b"\0\0\0\0",
        end: b"\0",
        limit: NESTING_LIMIT as u64,
        held: NESTING_LIMIT as u64,
    },
];

/// The bytes of a form, so many in one another.
pub fn bytes_of(alloc: Global, form: &Form, depth: u64) -> Result<Vec<u8>, AllocError> {
    let around = depth.saturating_sub(1);
    let mut bytes = Vec::from_slice(alloc, form.front)?;
    for _ in 0..around {
        bytes.extend_from_slice(form.each)?;
    }
    bytes.extend_from_slice(form.middle)?;
    for _ in 0..around {
        bytes.extend_from_slice(form.behind)?;
    }
    bytes.extend_from_slice(form.end)?;
    Ok(bytes)
}

/// The greatest depth of a form.
pub fn limit(form: &Form) -> u64 {
    form.limit
}

/// The greatest depth of a form that the build of any compiler holds.
pub fn held(form: &Form) -> u64 {
    form.held
}

/// Prints what the bytes of a form are at this depth, and where that is its limit one past it.
pub fn measure(rt: &HostRuntime, form: &Form, depth: u64) -> Result<(), Error> {
    tell(rt, form, depth)?;
    if depth == form.limit {
        return tell(rt, form, depth.saturating_add(1));
    }
    Ok(())
}

fn tell(rt: &HostRuntime, form: &Form, depth: u64) -> Result<(), Error> {
    let name = form.name;
    let bytes = bytes_of(rt.alloc(), form, depth)?;
    let word = word_of(tried(rt.alloc(), &bytes));
    println!(rt; "{depth} {name}: {word}")?;
    Ok(())
}
