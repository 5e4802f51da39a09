// What a step shows, and what becomes of it.

use pict_core::CoreVal;
use pict_syntax::{Bytes, Span};

/// What a step shows.
#[derive(Drop)]
pub enum Label {
    /// Nothing.
    Quiet,
    /// A value is received on the channel of this number.
    Comm(u32, CoreVal),
    /// These bytes are printed.
    Print(Bytes),
}

/// What becomes of a configuration.
#[derive(Drop)]
pub enum StepOutcome {
    /// It steps.
    Steps(Label),
    /// Its step divides by zero, for the output at this place.
    Traps(Span),
    /// Its step is wrong: a value has another shape than what the process does with it.
    Wrong,
    /// Nothing is ready.
    Finished,
}
