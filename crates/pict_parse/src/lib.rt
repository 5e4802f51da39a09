//! The parser: from the tokens of a text to its program, in one pass.
#![tactic(auto)]

mod declarations;
mod entry;
mod token_step;

pub use declarations::parse_declarations;
pub use entry::{ParseError, parse};
pub use pict_programs::{law_one_tree, law_one_verdict};
