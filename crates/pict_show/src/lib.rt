//! Core values as texts: as trace lines and listings show them.
#![tactic(auto)]

mod quoted;
mod value;

pub use quoted::{write_quoted, written};
pub use value::{write_decimal, write_numbered, write_value};
