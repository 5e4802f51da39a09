//! The types of a refusal, told: the one that stands there and the one that is wanted, in the language's own syntax, and the first
//! part in which they differ.
//!
//! What is told is advice, and no clause speaks of it.
#![tactic(auto)]

mod clash;
mod known;
mod said;
mod telling;
mod written;

pub use telling::put_types;
