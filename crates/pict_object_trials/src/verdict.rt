// What bytes are.

use pict_object::{DecodeError, EncodeError, decode, encode};
use pict_syntax::Names;
use std::alloc::Global;

/// Bytes that are tried are shorter.
pub const LONGEST: usize = 1_000_000;

/// What reading bytes over no names answers, and writing what was read.
#[derive(Clone, Copy, PartialEq, Eq)]
pub enum Verdict {
    /// They are no object.
    Refused,
    /// They are an object, and the bytes that its process is written as.
    Object,
    /// They are read as a process that is written otherwise.
    Another,
    /// They are too long to be tried, or memory ran out.
    Untried,
}

/// A word for each.
pub fn word_of(verdict: Verdict) -> &'static str {
    match verdict {
        Verdict::Refused => "no object",
        Verdict::Object => "an object",
        Verdict::Another => "another object",
        Verdict::Untried => "untried",
    }
}

/// What these bytes are.
pub fn tried(alloc: Global, bytes: &[u8]) -> Verdict {
    if bytes.len() > LONGEST {
        return Verdict::Untried;
    }
    let mut names = Names::new(alloc);
    let core = match decode(alloc, &mut names, bytes) {
        Ok(core) => core,
        Err(DecodeError::NotObject) => return Verdict::Refused,
        Err(DecodeError::Memory) => return Verdict::Untried,
    };
    match encode(alloc, &names, &core, LONGEST as u64) {
        Ok(object) => {
            if object.as_slice() == bytes {
                Verdict::Object
            } else {
                Verdict::Another
            }
        }
        Err(EncodeError::TooBig(_)) => Verdict::Another,
        Err(EncodeError::Memory) => Verdict::Untried,
    }
}
