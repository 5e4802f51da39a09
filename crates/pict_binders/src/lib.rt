//! The names that are bound around a place of a program, each name's nearest binder by one look into a map.
#![tactic(auto)]

mod binders;
mod nearest;

pub use binders::{Binder, Binders};
pub use nearest::Nearest;
