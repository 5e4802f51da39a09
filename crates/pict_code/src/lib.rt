//! Instructions: what a core process becomes for a fast machine, and their listing.
#![tactic(auto)]

mod instruction;
mod laws;
mod line;
mod pattern;
mod writing;

pub use instruction::{Code, Node, Op, Operand};
pub use laws::{law_nodes_stand, law_process_is_read_back};
pub use pattern::CodePat;
pub use writing::{ListError, listing};
