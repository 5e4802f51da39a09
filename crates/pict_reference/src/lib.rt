//! The oldest-first step as its definition writes it: slow, for comparison with machines and for tables of small runs.
#![tactic(auto)]

mod entry;
mod outcome;
mod reference;

pub use entry::{Entry, oldest_message, oldest_reader, oldest_ready};
pub use outcome::{Label, StepOutcome};
pub use reference::Reference;
