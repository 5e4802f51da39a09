//! The steps of a small run as data, one after the other: who acts, with which partner, by which row of the table of steps, what
//! is shown, and who comes; and as lines, for a reader that knows no rule of the language.
#![tactic(auto)]

mod line;
mod place;
mod rule;
mod run;
mod written;

pub use line::lines;
pub use rule::Rule;
pub use run::{End, Run, Step, Turn, follow, turn_of};
pub use written::{write_label, write_place, write_place_of, write_process};
