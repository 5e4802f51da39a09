//! What is told of a file beside what `pict` says: of a refusal the line with a caret, which tokens could stand there, and what may
//! be meant; of a run that has ended who waits in vain, and where.
#![tactic(auto)]

mod ending;
mod telling;

pub use ending::{told_at_end, told_channels};
pub use telling::{phases, prelude_unless, shelf_of, told_of_refusal};
