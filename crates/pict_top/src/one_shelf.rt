// A shelf of one text.

ghost use Rattle.std.specs.Prelude.{◌≡◌, IfOk};

use pict_outside::{Fetched, Shelf, ShelfError};
use pict_syntax::Bytes;
use std::alloc::{AllocError, Global};

/// A shelf of one text under its name. It tells what it holds, and never fails.
#[derive(Drop)]
pub struct OneShelf {
    pub name: Bytes,
    pub text: Bytes,
    /// How often it was asked for another text, counted up to the greatest `u64`.
    pub misses: u64,
}

impl OneShelf {
    /// A shelf of this text, which has missed nothing yet. The only error is want of memory.
    pub fn new(alloc: Global, name: &str, text: Vec<u8>) -> Result<OneShelf, AllocError>
        ensures { IfOk result (λ shelf. (shelf.name ≡ name.now) × (shelf.text ≡ text.items) × (shelf.misses ≡ 0)) }
    {
        Ok(OneShelf {
            name: Bytes::copy_of(alloc, name.as_bytes())?,
            text: Bytes::from_vec(text),
            misses: 0,
        })
    }
}

impl Shelf for OneShelf {
    ghost use Rattle.std.specs.Prelude.{Some};
    ghost use Rattle.pict_top.specs.Origins.{only};

    ghost held = { λ s. Some (only s.name s.text) };

    ghost faults = { λ _. 0 };

    ghost misses = { λ s. s.misses };

    /// Never fails. The count of misses rises by one where it is asked for another name.
    fn fetch(&mut self, alloc: Global, name: &str, limit: u64) -> Result<Fetched, ShelfError> {
        if name.as_bytes() == self.name.slice() {
            let text = self.text.slice();
            let length = text.len() as u64;
            if limit < length {
                return Ok(Fetched::TooLong(length));
            }
            let copy = Vec::from_slice(alloc, text)?;
            return Ok(Fetched::Text(copy));
        }
        self.misses = self.misses.saturating_add(1);
        Ok(Fetched::Missing)
    }
}
