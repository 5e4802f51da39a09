//! Programs made from a number: three rings of servers, and what is told of their run.
#![tactic(auto)]

mod counter;
mod rings;
mod summary;
mod text;

pub use counter::count_run;
pub use rings::{Ring, rings_of};
pub use summary::{Line, Tally, write_summary};
pub use text::load_text;
