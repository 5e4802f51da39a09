//! The generator of a seed, and choices by its words.
#![tactic(auto)]

mod chooser;

pub use chooser::{Chooser, STREAM};
