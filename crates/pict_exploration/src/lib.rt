//! Explorations: what holds of a list of configurations that is closed under all orders of steps, up to congruence.
//! Conditionals, and outputs to primitives that print nothing, need no order: they commute with all other steps.
#![tactic(auto)]

mod laws;

pub use laws::{
    law_alone_commutes, law_explorations_cover_reductions, law_explorations_cover_runs,
    law_finished_runs_are_found, law_found_is_reduced, law_printings_have_places,
    law_runs_go_on_to_found, law_traps_are_found,
};
