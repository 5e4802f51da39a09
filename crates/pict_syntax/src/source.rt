// The texts that a program is read from.

ghost use Rattle.std.specs.Prelude.{◌≡◌, []};

use crate::Bytes;
use std::alloc::Global;

/// A text under its name.
#[derive(Drop)]
pub struct Source {
    pub name: Bytes,
    pub text: Bytes,
}

/// The texts that a program is read from. Spans with the number `i` lie in `list[i]`: the prelude, or an empty text, is at 0,
/// the file at 1, then come the texts that it reaches, in the order in which they are begun.
#[derive(Drop)]
pub struct Sources {
    pub list: Vec<Source>,
}

impl Sources {
    /// No text. Takes no memory.
    pub fn new(alloc: Global) -> Sources
        ensures empty { result.list.items ≡ [] }
    {
        Sources {
            list: Vec::new(alloc),
        }
    }
}
