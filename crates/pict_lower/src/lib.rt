//! Lowering: the instructions of a core process.
#![tactic(auto)]

mod frames;
mod levels;
mod lowering;
mod patterns;
mod places;
mod sums;

pub use lowering::lower;
