//! The prelude, and the texts that are written on the error output.
#![tactic(auto)]

mod report;
mod source;

pub use report::{Position, SPENT, USAGE, line, position_of, refusal, text_of_code, trap};
pub use source::prelude;
