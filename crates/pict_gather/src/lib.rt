//! The texts that a file reaches by its imports: each is read once, at its place, and their declarations are joined.
#![tactic(auto)]

mod entry;
mod error;
mod gathering;
mod laws;
mod name;
mod reading;
mod visits;

pub use entry::gather;
pub use error::GatherError;
pub use gathering::Gathering;
pub use laws::{
    law_one_reached, law_one_reading, law_one_visit, law_reached_is_placed, law_visit_is_placed,
};
