//! Which refusals come before a run.
#![tactic(auto)]

mod laws;

pub use laws::{law_front_codes, law_gathering_codes};
