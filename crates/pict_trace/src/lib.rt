//! Trace lines: the line of what a step shows, and what lines say.
#![tactic(auto)]

mod bare;
mod event;
mod found;
mod front;
mod label;
mod laws;
mod lines;
mod literal;
mod number;
mod read;

pub use event::line;
pub use front::behind;
pub use laws::{
    law_first_bad_is_one, law_free_runs_are_read_back, law_free_steps_keep_order,
    law_lines_are_read_once, law_runs_are_read_back, law_values_end_once,
};
pub use lines::{TraceError, TraceLabel, TraceLine, begin_lines, number_until, read_lines};
