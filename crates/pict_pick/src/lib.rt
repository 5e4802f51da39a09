//! Other orders: the run that a seed picks.
#![tactic(auto)]

mod laws;

pub use laws::{law_picked_runs_are_free, law_picked_runs_are_one, law_seeds_pick_runs};
pub use pict_seed::Chooser;
