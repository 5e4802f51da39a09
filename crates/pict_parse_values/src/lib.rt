//! What each token leads to where values and processes are read.
#![tactic(auto)]

mod begins;
mod puts;
mod steps;

pub use begins::step_need;
pub use steps::{
    step_arguments, step_channel, step_either, step_fold_body, step_fold_keyword, step_fresh_name,
    step_have_definition, step_labels, step_process, step_processes, step_side, step_value_label,
    step_value_name, step_values, step_wait,
};
