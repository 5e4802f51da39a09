//! Core terms of the asynchronous pi-calculus, and the definitions of their steps and runs.
#![tactic(auto)]

mod laws;
mod matching;
mod pattern;
mod process;
mod substitution;
mod value;

pub use laws::{
    law_acts_are_placed, law_choices_have_places, law_free_runs_are_one,
    law_free_steps_keep_configurations, law_oldest_first_steps_are_free,
    law_openings_are_configurations, law_places_are_free, law_runs_are_one, law_steps_are_rows,
    law_steps_go_on, law_wrong_places_are_wrong, law_wrong_steps_are_wrong,
};
pub use matching::match_value;
pub use pattern::CorePat;
pub use process::{Core, Part, depth};
pub use substitution::substitute;
pub use value::CoreVal;
