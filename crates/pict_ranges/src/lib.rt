//! Integers, bytes, channels and strings stay within their ranges in every run.
#![tactic(auto)]

mod laws;

pub use laws::{
    law_accepted_is_in_range, law_accepted_runs_are_read_back, law_accepted_trace_is_read_back,
    law_free_runs_are_in_range, law_free_runs_fit_lines, law_free_steps_keep_ranges,
};
