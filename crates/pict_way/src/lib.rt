//! Ways: choices that a process can make one after the other, as a replay file.
#![tactic(auto)]

mod file;
mod laws;

pub use file::way;
pub use laws::law_ways_are_answered;
