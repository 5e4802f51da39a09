//! Views of machines: the lists of processes that a machine keeps, how a step changes them, and what a watcher has seen
//! of a run; whatever keeps the processes.
#![tactic(auto)]

mod laws;

pub use laws::{law_partners_are_seen, law_places_are_seen, law_places_step, law_views_step};
