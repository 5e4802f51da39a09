//! An allocator of blocks of 64-bit words: blocks come from free lists by width, and lie in one growing store.
#![tactic(auto)]

mod block;
mod region;

pub use block::Block;
pub use region::Region;
