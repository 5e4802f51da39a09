// Tables whose blocks stand apart by an empty line: each has a text behind a mark, and below it what is wanted, line by line.
// What stands before the mark says what the block is for.

use std::alloc::{AllocError, Global};

/// What stands before the mark of a block, the text behind it, and what stands below.
pub fn parts<'a>(block: &'a str, mark: &str) -> (&'a str, &'a str, &'a str) {
    let (before, behind) = block.split_once(mark).unwrap_or((block, ""));
    let (text, below) = behind.split_once('\n').unwrap_or((behind, ""));
    (before, text.strip_prefix(' ').unwrap_or(text), below)
}

/// Lines of which the last one has no end, with one.
pub fn ended(alloc: Global, lines: &str) -> Result<String, AllocError> {
    if lines.is_empty() {
        format!(in alloc; "")
    } else {
        format!(in alloc; "{lines}\n")
    }
}
