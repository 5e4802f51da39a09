//! The steps of outputs to primitives: a primitive acts on a word or on an operand, and its output ends or becomes that of an answer.
#![tactic(auto)]

mod calling;
mod fields;
mod finishing;
mod operands;
mod steps;

pub use steps::{call_message, call_of_turn};
