//! Normal forms: written types expanded, and arguments put for the type fields of a record.
#![tactic(auto)]

mod arguments;
mod binders;
mod expansion;
mod instance;
mod made;
mod numbers;
mod operators;
mod put;
mod puts;
mod raw;
mod replacement;
mod stops;
mod tops;
mod uses;

pub use expansion::expand;
pub use instance::{instantiate, instantiate_type};
pub use operators::expand_arg;
pub use stops::KindError;
