// What is gathered.

ghost use Rattle.std.specs.Prelude.{◌≡◌, []};
ghost use Rattle.pict_syntax.specs.declared.limits.TheConstants.{TEXT_LIMIT};

use pict_syntax::{Bytes, Dec, Names, TEXT_LIMIT};
use std::alloc::Global;

/// What was gathered so far, beside the texts.
#[derive(Drop)]
pub struct Gathering {
    /// The names of the tokens of all texts.
    pub names: Names,
    /// The names of the texts that were visited to their end.
    pub ended: Vec<Bytes>,
    /// The declarations of these texts, behind those of the prelude.
    pub decs: Vec<Dec>,
    /// How many bytes the next text may have.
    pub left: u64,
}

impl Gathering {
    /// Nothing yet. Takes no memory.
    pub(crate) fn new(alloc: Global) -> Gathering
        ensures names { result.names ≡ [] }
        ensures ended { result.ended.items ≡ [] }
        ensures decs { result.decs.items ≡ [] }
        ensures left { result.left ≡ TEXT_LIMIT }
    {
        Gathering {
            names: Names::new(alloc),
            ended: Vec::new(alloc),
            decs: Vec::new(alloc),
            left: TEXT_LIMIT,
        }
    }
}
