//! Values that are words of a heap, for those who watch a run: as texts, and as the bytes that are printed.
#![tactic(auto)]

mod printing;
mod writing;

pub use printing::printed;
pub use writing::write_word;
