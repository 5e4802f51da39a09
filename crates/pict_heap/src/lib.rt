//! Values of the machine as words, and the heap that holds texts and records, which never change.
#![tactic(auto)]

mod heap;
mod packed;
mod word;

pub use heap::Heap;
pub use packed::{pack, unpack};
pub use word::Word;
