//! The checker of types: whether the typing rules accept a program, or the first of their lines that is false.
#![tactic(auto)]

mod abstractions;
mod chains;
mod channels;
mod declarations;
mod definitions;
mod error;
mod fitting;
mod processes;
mod values;
mod whole;

pub use error::TypeError;
pub use pict_rules::law_typed_or_stuck;
pub use whole::{check, check_in};
